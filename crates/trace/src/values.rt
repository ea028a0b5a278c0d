//! Values as a trace spells them, read back.

ghost use Rattle.std.specs.Prelude.{◌≡◌, ◌<◌, ◌≤◌, ◌^◌, ◌/◌, ◌∷◌, [], ℕ, bytes_eq, map, position, true};
ghost use Rattle.std.specs.Vec.{vec_items};
ghost use Rattle.std.specs.Fmt.{digit_glyph};
ghost use Rattle.st_types.specs.Kinds.{names_in, number_of_type, row_of};
ghost use Rattle.st_types.specs.Values.{Datum, IsHeld};
ghost use Rattle.st_types.specs.declared.kind.Sort.TheVariants.{Bits, Duration, Truth};
ghost use Rattle.st_print.specs.Spelling.{hexadecimal, value_text};
ghost use Rattle.plan.specs.Sound.{has_spelling};
ghost use Rattle.trace.specs.NamedValues.{is_place, value_named};
ghost use Rattle.trace.specs.Reads.{FieldSpells};
ghost use Rattle.trace.specs.NamedValues.{are_names_apart};

use st_print::number::value;
use st_types::{Kind, Name, Sort, Value};

/// The number of a hexadecimal digit in upper case.
fn digit(byte: u8) -> Option<u8>
    ensures { FieldSpells (λ (d : ℕ). d < 16) (λ d. digit_glyph true d ∷ []) (byte ∷ []) result }
{
    if b'0' <= byte && byte <= b'9' {
        Some(byte - b'0')
    } else if b'A' <= byte && byte <= b'F' {
        Some(byte - b'A' + 10)
    } else {
        None
    }
}

/// The number that a field of `count` hexadecimal digits spells.
fn hexadecimal(count: usize, field: &[u8]) -> Option<u64>
    requires { count ≤ 16 }
    ensures { FieldSpells (λ (n : ℕ). n < 16 ^ count) (hexadecimal count) field.now result }
{
    if count == 0 {
        return if field.is_empty() { Some(0) } else { None };
    }
    let (last, front) = field.split_last()?;
    let digit = digit(*last)?;
    let number = hexadecimal(count - 1, front)?;
    Some(number * 16 + u64::from(digit))
}

/// The bit string that the field spells.
fn bits(kind: Kind, field: &[u8]) -> Option<Value>
    requires { (row_of kind).sort ≡ Bits }
    ensures { FieldSpells (λ (v : Datum). (v.kind ≡ kind) × IsHeld v) (value_text []) field.now result }
{
    let digits = field.strip_prefix(b"16#")?;
    let number = hexadecimal(usize::from(kind.row().bits / 4), digits)?;
    Value::new(kind, i128::from(number)).ok()
}

/// How many names a type has: fewer than 65,536, so that 64 bits hold its greatest number.
pub(crate) fn names(kind: Kind) -> u16
    ensures { result ≡ names_in kind }
{
    match kind {
        Kind::Enumerated { names, .. } => names,
        _ => 0,
    }
}

/// The duration that the field spells in milliseconds.
fn duration(kind: Kind, field: &[u8]) -> Option<Value>
    requires { (row_of kind).sort ≡ Duration }
    ensures { FieldSpells (λ (v : Datum). (v.kind ≡ kind) × IsHeld v) (value_text []) field.now result }
{
    let _few = names(kind);
    let number = field.strip_suffix(b"ms")?;
    value(kind, number)
}

/// The BOOL that the field spells.
fn bool_value(kind: Kind, field: &[u8]) -> Option<Value>
    requires { (row_of kind).sort ≡ Truth }
    ensures { FieldSpells (λ (v : Datum). (v.kind ≡ kind) × IsHeld v) (value_text []) field.now result }
{
    if field == b"TRUE".as_slice() {
        Value::new(kind, 1).ok()
    } else if field == b"FALSE".as_slice() {
        Value::new(kind, 0).ok()
    } else {
        None
    }
}

/// The value of the type that the field spells, if an enumerated one is spelled by its place.
fn by_number(kind: Kind, field: &[u8]) -> Option<Value>
    ensures { FieldSpells (λ (v : Datum). (v.kind ≡ kind) × IsHeld v) (value_text []) field.now result }
{
    let _few = names(kind);
    match kind.row().sort {
        Sort::Signed | Sort::Unsigned | Sort::Place => value(kind, field),
        Sort::Bits => bits(kind, field),
        Sort::Duration => duration(kind, field),
        Sort::Truth => bool_value(kind, field),
    }
}

/// Whether the name is this one.
fn is_name(name: &Name, field: &[u8]) -> bool
    ensures { result ≡ bytes_eq field.now name.now }
{
    field == name.as_slice()
}

/// The place of a name among others, from 0.
fn place_of(names: &[Name], field: &[u8]) -> Option<usize>
    ensures { result ≡ position (bytes_eq field.now) names.now }
{
    names.iter().position(|name| is_name(name, field))
}

/// The place of an enumerated type among those of its text; 0 for any other type.
fn number_of(kind: Kind) -> u32
    ensures { result ≡ number_of_type kind }
{
    match kind {
        Kind::Enumerated { number, .. } => number,
        _ => 0,
    }
}

/// The value of the enumerated type with this name.
fn by_name(types: &[Vec<Name>], kind: Kind, field: &[u8]) -> Option<Value>
    ensures { result ≡ value_named (map vec_items types.now) kind field.now }
{
    let names = types.get(number_of(kind) as usize)?;
    let place = place_of(names, field)?;
    Value::new(kind, place as i128).ok()
}

fn is_place(kind: Kind) -> bool
    ensures { result ≡ is_place (row_of kind).sort }
{
    matches!(kind.row().sort, Sort::Place)
}

/// The value of the type that the field spells, an enumerated one by its name.
pub(crate) fn value_of(types: &[Vec<Name>], kind: Kind, field: &[u8]) -> Option<Value>
    requires spelled { has_spelling (map vec_items types.now) kind ≡ true }
    requires apart { are_names_apart (map vec_items types.now) ≡ true }
    ensures { FieldSpells (λ (v : Datum). (v.kind ≡ kind) × IsHeld v) (value_text (map vec_items types.now)) field.now
        result }
{
    if is_place(kind) {
        by_name(types, kind, field)
    } else {
        by_number(kind, field)
    }
}
