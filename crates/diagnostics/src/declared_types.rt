//! Types that certainly differ.

use st_meaning::number_of;
use st_types::{ArrayType, SimpleType, TypeDefinition, VariableType};
use symbols::TextNames;

/// The array that a type is, with a name or without.
fn array_in<'a>(names: &TextNames<'a>, declared: &'a VariableType) -> Option<&'a ArrayType> {
    match declared {
        VariableType::Array(array) => Some(array),
        VariableType::Simple(simple) => array_named(names, simple),
    }
}

fn array_named<'a>(names: &TextNames<'a>, simple: &SimpleType) -> Option<&'a ArrayType> {
    let SimpleType::Named(name) = simple else {
        return None;
    };
    match names.type_named(&name.name) {
        Some(TypeDefinition::Array(array)) => Some(array),
        _ => None,
    }
}

fn have_other_bounds(this: &ArrayType, that: &ArrayType) -> bool {
    number_of(&this.lower) != number_of(&that.lower)
        || number_of(&this.upper) != number_of(&that.upper)
}

/// Whether two simple types certainly differ. Two arrays with names may be one type.
fn simple_differ(names: &TextNames, this: &SimpleType, that: &SimpleType) -> bool {
    match (this, that) {
        (SimpleType::Elementary(a, _), SimpleType::Elementary(b, _)) => !a.is(*b),
        (SimpleType::Named(a), SimpleType::Named(b)) => {
            !a.name.is(&b.name)
                && (array_named(names, this).is_none() || array_named(names, that).is_none())
        }
        _ => true,
    }
}

/// How two types differ.
#[derive(Clone, Copy, PartialEq, Eq)]
pub enum Difference {
    /// They are not arrays, or one of them isn't.
    Type,
    /// They are arrays of other bounds or elements.
    Array,
}

/// How two types differ, if they certainly do.
pub fn how_differ<'a>(
    names: &TextNames<'a>,
    this: &'a VariableType,
    that: &'a VariableType,
) -> Option<Difference> {
    match (array_in(names, this), array_in(names, that)) {
        (Some(a), Some(b)) => {
            if have_other_bounds(a, b) || simple_differ(names, &a.element, &b.element) {
                Some(Difference::Array)
            } else {
                None
            }
        }
        (None, None) => match (this, that) {
            (VariableType::Simple(a), VariableType::Simple(b)) if !simple_differ(names, a, b) => {
                None
            }
            _ => Some(Difference::Type),
        },
        _ => Some(Difference::Type),
    }
}
