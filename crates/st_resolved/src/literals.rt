//! Literals with the types that they take.

ghost use Rattle.std.specs.Prelude.{◌≡◌, IfOk};
ghost use Rattle.st_meaning.specs.Enumerations.{resolved_value};
ghost use Rattle.st_meaning.specs.NameTypes.{Declared};
ghost use Rattle.st_meaning.specs.Resolution.{taking_number, taking_literal};
ghost use Rattle.symbols.specs.Tables.{ServesTables};

use crate::copies::copied_value;
use crate::members::{member_written, number_of_member};
use st_types::{EnumeratedValue, Kind, Literal, Number};
use std::alloc::{AllocError, Global};
use symbols::TextTables;

/// A number that takes the type, if none is written.
pub fn taking_number(kind: Kind, number: Number) -> Number
    ensures { result ≡ taking_number kind number }
{
    match number.written {
        Some(_) => number,
        None => Number {
            taken: Some(kind),
            ..number
        },
    }
}

/// A value of an enumerated type, as a number of its type.
pub fn resolved_value(
    alloc: Global,
    tables: &TextTables,
    value: &EnumeratedValue,
) -> Result<Literal, AllocError>
    ensures { IfOk result (λ literal. (text : Declared) → ServesTables tables.now text
        → literal ≡ resolved_value text.types value.now) }
{
    match member_written(tables, value) {
        Some(member) => Ok(Literal::Number(number_of_member(value.place, member))),
        None => Ok(Literal::Enumerated(copied_value(alloc, value)?)),
    }
}

/// A literal that takes the type, if it has none.
pub fn taking_literal(
    alloc: Global,
    tables: &TextTables,
    kind: Kind,
    spelled: &Literal,
) -> Result<Literal, AllocError>
    ensures { IfOk result (λ literal. (text : Declared) → ServesTables tables.now text
        → literal ≡ taking_literal text.types kind spelled.now) }
{
    match spelled {
        Literal::Number(number) => Ok(Literal::Number(taking_number(kind, *number))),
        Literal::Truth(place, truth) => Ok(Literal::Truth(*place, *truth)),
        Literal::Duration(place, duration) => Ok(Literal::Duration(*place, *duration)),
        Literal::Enumerated(value) => resolved_value(alloc, tables, value),
    }
}
