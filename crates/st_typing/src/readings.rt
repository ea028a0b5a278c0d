//! The typings of literals and of names alone.

ghost use Rattle.std.specs.Prelude.{◌≡◌};
ghost use Rattle.st_types.specs.Expressions.{literal};
ghost use Rattle.st_rules.specs.Collecting.{Collects};
ghost use Rattle.st_rules.specs.Environments.{Environment, type_of_name};
ghost use Rattle.st_rules.specs.Readings.{wrong_reading};
ghost use Rattle.st_rules.specs.Typings.{typing_of_reading, typing_of_alone};
ghost use Rattle.st_rules.specs.ExpressionRules.{wrong_alone};
ghost use Rattle.st_types.specs.declared.literal.Literal.TheVariants as literals;
ghost use Rattle.symbols.specs.Enumerated.{reading_view};
ghost use Rattle.symbols.specs.Serving.{Serves};
ghost use Rattle.st_typing.specs.Answers.{Types};

use crate::literals::wrong_number;
use st_rules::{Broken, BrokenRules, Reason, Typing};
use st_types::{Identifier, Kind, Literal, Number};
use symbols::{Reading, UnitNames};

/// Adds a fault in the name of a value of an enumerated type at a place: no type has it (C1), or several do (C3).
pub fn wrong_reading(place: usize, reading: Reading, broken: &mut BrokenRules)
    ensures { Collects (wrong_reading place (reading_view reading)) broken.old broken.new }
{
    match reading {
        Reading::Value(_) => {}
        Reading::Unknown => broken.add(Broken {
            reason: Reason::Undeclared,
            place,
        }),
        Reading::Ambiguous => broken.add(Broken {
            reason: Reason::Ambiguous,
            place,
        }),
    }
}

/// The typing of a value of an enumerated type.
fn typing_of_reading(reading: Reading) -> Typing
    ensures { result ≡ typing_of_reading (reading_view reading) }
{
    match reading {
        Reading::Value(member) => Typing::Elementary(member.kind),
        Reading::Unknown => Typing::Nothing,
        Reading::Ambiguous => Typing::Nothing,
    }
}

fn typing_of_number(number: &Number, broken: &mut BrokenRules) -> Typing
    ensures { (env : Environment) → Types env (literal (literals.Number number.now)) result broken.old broken.new }
{
    match number.written {
        Some(kind) => {
            wrong_number(None, number, broken);
            Typing::Elementary(kind)
        }
        None => Typing::Untyped,
    }
}

/// The typing of a literal; adds its faults if it has a type.
pub fn typing_of_literal(names: &UnitNames, spelled: &Literal, broken: &mut BrokenRules) -> Typing
    ensures { (env : Environment) → Serves names.now env → Types env (literal spelled.now) result broken.old broken.new }
{
    match spelled {
        Literal::Number(number) => typing_of_number(number, broken),
        Literal::Truth(_, _) => Typing::Elementary(Kind::Bool),
        Literal::Duration(_, _) => Typing::Elementary(Kind::Time),
        Literal::Enumerated(value) => {
            let reading = names.tables.reading_written(value);
            wrong_reading(value.place, reading, broken);
            typing_of_reading(reading)
        }
    }
}

/// The typing of a name alone: a variable if the unit has one, else a value of an enumerated type; adds its faults.
pub fn typing_of_alone(names: &UnitNames, name: &Identifier, broken: &mut BrokenRules) -> Typing
    ensures typing { (env : Environment) → Serves names.now env
        → result ≡ typing_of_alone env name.now.name (type_of_name env name.now.name) }
    ensures broken { (env : Environment) → Serves names.now env
        → Collects (wrong_alone env name.now.place name.now.name (type_of_name env name.now.name)) broken.old
        broken.new }
{
    match names.type_of_name(&name.name) {
        Some(declared) => names.tables.typing_of_type(declared),
        None => {
            let reading = names.tables.reading_of_name(&name.name);
            wrong_reading(name.place, reading, broken);
            typing_of_reading(reading)
        }
    }
}
