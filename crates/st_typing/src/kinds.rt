//! The types that literals take, and those that are expected.

ghost use Rattle.std.specs.Prelude.{◌≡◌};
ghost use Rattle.st_meaning.specs.Resolution.{is_whole_or_bits, taken_kind};
ghost use Rattle.st_meaning.specs.Operators.{or_kind};
ghost use Rattle.st_rules.specs.Demands.{is_kind};
ghost use Rattle.st_rules.specs.ExpressionRules.{kind_or_taken};

use st_types::{Kind, Sort};

fn is_whole_or_bits(sort: Sort) -> bool
    ensures { result ≡ is_whole_or_bits sort }
{
    matches!(sort, Sort::Signed | Sort::Unsigned | Sort::Bits)
}

/// The type that an untyped expression takes: LINT if no type is expected that it may have.
pub fn taken_kind(expected: Option<Kind>) -> Kind
    ensures { result ≡ taken_kind expected }
{
    match expected {
        Some(kind) => {
            if is_whole_or_bits(kind.row().sort) {
                kind
            } else {
                Kind::Lint
            }
        }
        None => Kind::Lint,
    }
}

/// The type that is written, or else the one taken.
pub fn kind_or_taken(offered: Option<Kind>, written: Option<Kind>) -> Kind
    ensures { result ≡ kind_or_taken offered written }
{
    match written {
        Some(kind) => kind,
        None => taken_kind(offered),
    }
}

/// Whether the type is the expected one, if one is expected.
pub fn is_kind(expected: Option<Kind>, kind: Kind) -> bool
    ensures { result ≡ is_kind expected kind }
{
    match expected {
        Some(other) => kind.is(other),
        None => true,
    }
}

/// The first type, or else the other.
pub fn or_kind(kind: Option<Kind>, other: Option<Kind>) -> Option<Kind>
    ensures { result ≡ or_kind kind other }
{
    match kind {
        Some(_) => kind,
        None => other,
    }
}
