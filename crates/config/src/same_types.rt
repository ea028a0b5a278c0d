//! Types that are the same.

ghost use Rattle.std.specs.Prelude.{◌≡◌, ◌+◌, Option, Some, None, option_map};
ghost use Rattle.st_meaning.specs.NameTypes.{Declared, definition_of};
ghost use Rattle.symbols.specs.PlaceTypes.{place_type_view};
ghost use Rattle.symbols.specs.Texts.{ServesText};
ghost use Rattle.st_rules.specs.ConfigurationRules.{same_bounds, same_simple, same_type, same_within};
ghost use Rattle.config.specs.SameTypes.{array_in, same_plain};

use st_meaning::lookup::is_named;
use st_meaning::number_of;
use st_rules::limits::MAX_TYPE_DEPTH;
use st_types::{ArrayType, SimpleType, TypeDefinition};
use symbols::{PlaceType, TextNames};

/// Whether two simple types are the same: an elementary type, or one declaration.
fn same_simple(this: &SimpleType, that: &SimpleType) -> bool
    ensures { result ≡ same_simple this.now that.now }
{
    match this {
        SimpleType::Elementary(k, _) => match that {
            SimpleType::Elementary(l, _) => k.is(*l),
            SimpleType::Named(_) => false,
        },
        SimpleType::Named(x) => match that {
            SimpleType::Elementary(_, _) => false,
            SimpleType::Named(y) => is_named(&x.name, y),
        },
    }
}

fn same_bounds(this: &ArrayType, that: &ArrayType) -> bool
    ensures { result ≡ same_bounds this.now that.now }
{
    number_of(&this.lower) == number_of(&that.lower)
        && number_of(&this.upper) == number_of(&that.upper)
}

/// The array that a type is, with a name or without.
fn array_in<'a>(names: &TextNames<'a>, declared: PlaceType<'a>) -> Option<&'a ArrayType>
    ensures { (text : Declared) → ServesText names.now text
        → option_map (λ a. a.now) result ≡ array_in (definition_of text (place_type_view declared.entry)) }
{
    match declared {
        PlaceType::Array(array) => Some(array),
        PlaceType::Simple(SimpleType::Elementary(_, _)) => None,
        PlaceType::Simple(SimpleType::Named(name)) => match names.type_named(&name.name) {
            Some(TypeDefinition::Array(array)) => Some(array),
            _ => None,
        },
        PlaceType::Standard(_) => None,
    }
}

/// Whether two types that are not both arrays are the same.
fn same_plain(this: PlaceType, that: PlaceType) -> bool
    ensures { result ≡ same_plain (place_type_view this.entry) (place_type_view that.entry) }
{
    match this {
        PlaceType::Simple(this) => match that {
            PlaceType::Simple(that) => same_simple(this, that),
            PlaceType::Array(_) => false,
            PlaceType::Standard(l) => matches!(this, SimpleType::Elementary(k, _) if k.is(l)),
        },
        PlaceType::Array(_) => false,
        PlaceType::Standard(k) => match that {
            PlaceType::Simple(that) => matches!(that, SimpleType::Elementary(l, _) if k.is(*l)),
            PlaceType::Array(_) => false,
            PlaceType::Standard(l) => k.is(l),
        },
    }
}

/// Whether two types are the same, through at most `depth` arrays.
#[tactic(auto, using(crate::proofs::TypeLemmas::same_none, crate::proofs::TypeLemmas::same_arrays, crate::proofs::TypeLemmas::other_bounds, crate::proofs::TypeLemmas::same_first, crate::proofs::TypeLemmas::same_second))]
fn same_within<'a>(
    names: &TextNames<'a>,
    depth: usize,
    this: PlaceType<'a>,
    that: PlaceType<'a>,
) -> bool
    ensures { (text : Declared) → ServesText names.now text
        → result ≡ same_within text depth (place_type_view this.entry) (place_type_view that.entry) }
{
    if depth == 0 {
        return false;
    }
    let Some(a) = array_in(names, this) else {
        return same_plain(this, that);
    };
    let Some(b) = array_in(names, that) else {
        return same_plain(this, that);
    };
    if !same_bounds(a, b) {
        return false;
    }
    same_within(
        names,
        depth - 1,
        PlaceType::Simple(&a.element),
        PlaceType::Simple(&b.element),
    )
}

/// Whether two types are the same: arrays are if their bounds and the types of their elements are.
pub fn same_type<'a>(names: &TextNames<'a>, this: PlaceType<'a>, that: PlaceType<'a>) -> bool
    ensures { (text : Declared) → ServesText names.now text
        → result ≡ same_type text (place_type_view this.entry) (place_type_view that.entry) }
{
    same_within(names, MAX_TYPE_DEPTH, this, that)
}
