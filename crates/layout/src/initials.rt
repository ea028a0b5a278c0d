//! The values that elementary parts start with.

ghost use Rattle.std.specs.Prelude.{◌≡◌, Ok, if◌then◌else◌};
ghost use Rattle.st_meaning.specs.Operators.{value_of_literal};
ghost use Rattle.st_meaning.specs.Plans.{initial_value};
ghost use Rattle.layout.specs.Sites.{constant_of, default_of, fitting};
ghost use Rattle.layout.specs.KeptSites.{given_view};

use st_meaning::value_of_number;
use st_types::{Initial, Kind, Literal, Value};

/// The value, if it is one of the type.
fn fitted(kind: Kind, value: Value) -> Option<Value>
    ensures { result ≡ fitting kind (Ok value) }
{
    if kind.is(value.kind()) {
        Some(value)
    } else {
        None
    }
}

/// The value of a literal, if it is one of the type.
fn fitting(kind: Kind, literal: &Literal) -> Option<Value>
    ensures { result ≡ fitting kind (value_of_literal literal.now) }
{
    match literal {
        Literal::Number(number) => match value_of_number(number) {
            Ok(value) => fitted(kind, value),
            Err(_) => None,
        },
        Literal::Truth(_, truth) => fitted(kind, Value::from_bool(*truth)),
        Literal::Duration(_, duration) => match Value::new(Kind::Time, i128::from(*duration)) {
            Ok(value) => fitted(kind, value),
            Err(_) => None,
        },
        Literal::Enumerated(_) => None,
    }
}

fn constant_of(kind: Kind, initial: Option<&Initial>) -> Option<Value>
    ensures { result ≡ constant_of kind (given_view initial.entry) }
{
    match initial {
        Some(Initial::Constant(literal)) => fitting(kind, literal),
        _ => None,
    }
}

/// 0, FALSE, T#0s or the first name.
fn default_of(kind: Kind) -> Value
    ensures { result ≡ default_of kind }
{
    match Value::new(kind, 0) {
        Ok(value) => value,
        Err(_) => unreachable!(),
    }
}

/// The value that a part of this type starts with: the declared one, or else the default of its type; an input starts
/// with the default.
pub fn started(kind: Kind, initial: Option<&Initial>, is_input: bool) -> Value
    ensures { result ≡ (if is_input then default_of kind
        else initial_value kind (constant_of kind (given_view initial.entry))) }
{
    if is_input {
        return default_of(kind);
    }
    match constant_of(kind, initial) {
        Some(value) => value,
        None => default_of(kind),
    }
}
