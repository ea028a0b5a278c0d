//! The names of types, as a person reads them.

use crate::site::Site;
use crate::spelling::Text;
use st_rules::{TypeWord, Typing};
use st_types::{Kind, SimpleType, TypeDefinition, VariableType};

/// The names of what isn't of an elementary or enumerated type.
const COMPOSITE: &str = "an array, a structure or an instance";

/// A type as its declaration writes it.
pub fn word_of(declared: &VariableType) -> TypeWord {
    match declared {
        VariableType::Simple(SimpleType::Elementary(kind, _)) => TypeWord::Elementary(*kind),
        VariableType::Simple(SimpleType::Named(name)) => TypeWord::Named(name.place),
        VariableType::Array(_) => TypeWord::Array,
    }
}

/// The name of a type that a declaration writes.
pub fn word_name<'a>(text: &Text<'a>, word: TypeWord) -> &'a str {
    match word {
        TypeWord::Elementary(kind) => kind.row().keyword,
        TypeWord::Array => "an array",
        TypeWord::Named(place) => text.word_at(place),
    }
}

/// The name of a declared type.
pub fn declared_name<'a>(text: &Text<'a>, declared: &VariableType) -> &'a str {
    word_name(text, word_of(declared))
}

/// The name of the enumerated type of this number, from 0.
fn enumerated_name<'a>(site: &Site<'a>, number: u32) -> &'a str {
    let mut left = number;
    for declaration in &site.types {
        if let TypeDefinition::Enumeration(_) = &declaration.definition {
            if left == 0 {
                return site.text.spelled(&declaration.name);
            }
            left -= 1;
        }
    }
    "an enumerated type"
}

/// The name of an elementary or enumerated type.
pub fn kind_name<'a>(site: &Site<'a>, kind: Kind) -> &'a str {
    match kind {
        Kind::Enumerated { number, .. } => enumerated_name(site, number),
        _ => kind.row().keyword,
    }
}

/// The name of the type of a variable; none is that of one with parts.
pub fn variable_name<'a>(site: &Site<'a>, kind: Option<Kind>) -> &'a str {
    match kind {
        Some(kind) => kind_name(site, kind),
        None => COMPOSITE,
    }
}

/// The name of the type of an expression.
pub fn typing_name<'a>(site: &Site<'a>, typing: Typing) -> &'a str {
    match typing {
        Typing::Elementary(kind) => kind_name(site, kind),
        Typing::Untyped => "a number",
        Typing::Composite => COMPOSITE,
        Typing::Nothing => "unknown",
    }
}
