//! Literals.

use crate::kind::Kind;
use crate::name::Name;
use crate::tree::Tree;

/// A whole number or bit string as it is written, with a `-` directly before it.
#[derive(Clone, Copy, Debug, PartialEq, Eq)]
pub struct Number {
    /// The offset of its first byte, which is the `-` if there is one.
    pub place: usize,
    pub is_negative: bool,
    /// The number without its sign.
    pub magnitude: u64,
    /// The type that is written before a `#`, as in `INT#5`.
    pub written: Option<Kind>,
    /// It is written as decimal digits alone, with no type and no base.
    pub is_decimal: bool,
    /// The type that it takes from its place in the text; none as it is parsed.
    pub taken: Option<Kind>,
}

/// A value of an enumerated type as a text writes it: `Fault`, or `Mode#Fault`.
///
/// IEC 61131-3:2003, B.1.3.3, enumerated value.
pub struct EnumeratedValue {
    /// The offset of its first byte.
    pub place: usize,
    /// The name of its type, if it is written.
    pub type_name: Option<Name>,
    pub name: Name,
}

impl Drop for EnumeratedValue {
    fn drop(self) {
        let Self {
            place: _,
            type_name: _,
            name: _,
        } = self;
    }
}

/// A literal at its place in a text.
pub enum Literal {
    Number(Number),
    /// TRUE or FALSE, at a place.
    Truth(usize, bool),
    /// A duration in milliseconds, at a place.
    Duration(usize, u64),
    Enumerated(EnumeratedValue),
}

impl Drop for Literal {
    fn drop(self) {
        match self {
            Self::Number(_) | Self::Truth(_, _) | Self::Duration(_, _) | Self::Enumerated(_) => {}
        }
    }
}

impl Tree for Number {
    ghost use Rattle.st_types.specs.declared.literal.Number.{Number};

    ghost Mirror = { Number };

    ghost view = { λ x. x };
}

impl Tree for EnumeratedValue {
    ghost use Rattle.st_types.specs.declared.literal.EnumeratedValue.{EnumeratedValue};

    ghost Mirror = { EnumeratedValue };

    ghost view = { λ x. x };
}

impl Tree for Literal {
    ghost use Rattle.st_types.specs.declared.literal.Literal.{Literal};

    ghost Mirror = { Literal };

    ghost view = { λ x. x };
}
