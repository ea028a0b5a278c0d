//! The sort of thing for which the name at a place was looked up.

use crate::spot::{Spot, is_mark};
use crate::spots::{begins_statement, is_declaring, is_label};
use st_decl::Entry;
use st_lex::Mark;
use st_types::{SimpleType, VariableType};

/// The sort of thing for which a name was looked up.
#[derive(Clone, Copy)]
pub enum Sought {
    /// A type or a function block.
    Type,
    /// A function, which an expression calls.
    Function,
    /// An instance, which a statement calls.
    Instance,
    /// A variable; a value of an enumerated type too, where the name is read.
    Variable,
    /// A label or an initial value, which no variable gives.
    Literal,
}

impl Sought {
    /// The sort in words.
    pub fn words(self) -> &'static str {
        match self {
            Sought::Type => "a type",
            Sought::Function => "a function",
            Sought::Instance => "an instance of a function block",
            Sought::Variable => "a variable",
            Sought::Literal => "a literal",
        }
    }
}

/// The type that a declaration writes, or that of its elements.
fn simple_type<'a>(entry: Entry<'a>) -> Option<&'a SimpleType> {
    if let Some(array) = entry.array() {
        return Some(&array.element);
    }
    match entry.declaring() {
        Some(declaring) => match declaring.declared {
            VariableType::Simple(simple) => Some(simple),
            VariableType::Array(_) => None,
        },
        None => entry.result(),
    }
}

/// Whether the name of a type is at a place.
fn is_type_at(entries: &[Entry], place: usize) -> bool {
    entries.iter().any(|e| match simple_type(*e) {
        Some(SimpleType::Named(name)) => name.place == place,
        _ => false,
    })
}

/// The sort of thing that the place takes, by the declarations of its text.
pub fn sought_at(spot: &Spot, entries: &[Entry]) -> Sought {
    if is_type_at(entries, spot.place) {
        Sought::Type
    } else if is_declaring(spot) || is_label(spot) {
        Sought::Literal
    } else if !is_mark(spot.next(), Mark::Open) {
        Sought::Variable
    } else if begins_statement(spot) {
        Sought::Instance
    } else {
        Sought::Function
    }
}
