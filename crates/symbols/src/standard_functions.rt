//! The standard functions by their names.

ghost use Rattle.std.specs.Prelude.{◌≡◌, ◌&&◌, ◌++◌, not, None, codes, bytes_eq, option_map, if◌then◌else◌, Some, List, ℕ};
ghost use Rattle.std.specs.List.{flat_map};
ghost use Rattle.st_types.specs.Kinds.{same_kind, row_of};
ghost use Rattle.st_meaning.specs.StandardFunctions.{standard_of, convertible, conversion_name, conversions_from, named};
ghost use Rattle.st_meaning.specs.StandardFunctions.{ABS, MIN, MAX, LIMIT, SEL, SHL, SHR, ROL, ROR, CONVERT};
ghost use Rattle.symbols.specs.Words.{is_back, IsTarget};
ghost use Rattle.symbols.specs.Standard.{standard_view};

use crate::words::{after_prefix, is_same, is_word};
use st_types::{Kind, Name};

/// A standard function.
///
/// IEC 61131-3:2003, tables 22 to 27, as far as they apply to whole numbers and bit strings.
#[derive(Clone, Copy, Debug, PartialEq, Eq)]
pub enum Standard {
    Abs,
    Min,
    Max,
    Limit,
    Sel,
    Shl,
    Shr,
    Rol,
    Ror,
    /// From one type to another.
    Convert(Kind, Kind),
}

/// The standard function of a name that isn't a conversion's.
fn selection_or_shift(name: &Name) -> Option<Standard>
    ensures { option_map standard_view result ≡ (if bytes_eq name.now (codes "ABS") then Some ABS
        else if bytes_eq name.now (codes "MIN") then Some MIN else if bytes_eq name.now (codes "MAX") then Some MAX
        else if bytes_eq name.now (codes "LIMIT") then Some LIMIT else if bytes_eq name.now (codes "SEL") then Some SEL
        else if bytes_eq name.now (codes "SHL") then Some SHL else if bytes_eq name.now (codes "SHR") then Some SHR
        else if bytes_eq name.now (codes "ROL") then Some ROL else if bytes_eq name.now (codes "ROR") then Some ROR
        else None) }
{
    if is_word(name, b"ABS") {
        Some(Standard::Abs)
    } else if is_word(name, b"MIN") {
        Some(Standard::Min)
    } else if is_word(name, b"MAX") {
        Some(Standard::Max)
    } else if is_word(name, b"LIMIT") {
        Some(Standard::Limit)
    } else if is_word(name, b"SEL") {
        Some(Standard::Sel)
    } else if is_word(name, b"SHL") {
        Some(Standard::Shl)
    } else if is_word(name, b"SHR") {
        Some(Standard::Shr)
    } else if is_word(name, b"ROL") {
        Some(Standard::Rol)
    } else if is_word(name, b"ROR") {
        Some(Standard::Ror)
    } else {
        None
    }
}

/// The types among which values are converted.
fn convertible() -> [Kind; 13]
    ensures { result ≡ convertible }
{
    [
        Kind::Sint,
        Kind::Int,
        Kind::Dint,
        Kind::Lint,
        Kind::Usint,
        Kind::Uint,
        Kind::Udint,
        Kind::Ulint,
        Kind::Byte,
        Kind::Word,
        Kind::Dword,
        Kind::Lword,
        Kind::Bool,
    ]
}

/// The rest after the name of a type and `_TO_`.
fn target<'a>(name: &'a Name, from: Kind) -> Option<&'a [u8]>
    ensures { (to : List ℕ) → bytes_eq name.now ((row_of from).keyword ++ codes "_TO_" ++ to)
        ≡ is_back to (option_map (λ r. r.now) result) }
{
    match after_prefix(name.as_slice(), from.row().keyword.as_bytes()) {
        Some(rest) => after_prefix(rest, b"_TO_"),
        None => None,
    }
}

/// Whether the word names the type, which is another one.
fn is_other(word: &[u8], from: Kind, to: Kind) -> bool
    ensures { result ≡ (not (same_kind from to) && bytes_eq word.now (row_of to).keyword) }
{
    !from.is(to) && is_same(word, to.row().keyword.as_bytes())
}

/// The first other of these types that the word names.
fn other_named(word: &[u8], from: Kind, kinds: &[Kind]) -> Option<Kind>
    ensures { (x : List ℕ) → IsTarget x from word.now
        → option_map (CONVERT from) result ≡ named (conversions_from from kinds.now) x }
{
    for to in kinds {
        if is_other(word, from, *to) {
            return Some(*to);
        }
    }
    None
}

/// The conversion of this name from a type to another of these.
#[tactic(auto, using(crate::proofs::ConversionLemmas::no_target))]
fn conversion_from(name: &Name, from: Kind, kinds: &[Kind]) -> Option<Standard>
    ensures { option_map standard_view result ≡ named (conversions_from from kinds.now) name.now }
{
    let Some(word) = target(name, from) else {
        return None;
    };
    match other_named(word, from, kinds) {
        Some(to) => Some(Standard::Convert(from, to)),
        None => None,
    }
}

/// The conversion of this name from one of the first types to another of the second ones.
fn conversion_among(name: &Name, from: &[Kind], to: &[Kind]) -> Option<Standard>
    ensures { option_map standard_view result
        ≡ named (flat_map (λ k. conversions_from k to.now) from.now) name.now }
{
    for kind in from {
        if let Some(found) = conversion_from(name, *kind, to) {
            return Some(found);
        }
    }
    None
}

/// The standard function of a name.
pub fn standard_function(name: &Name) -> Option<Standard>
    ensures { option_map standard_view result ≡ standard_of name.now }
{
    match selection_or_shift(name) {
        Some(found) => Some(found),
        None => conversion_among(name, &convertible(), &convertible()),
    }
}
