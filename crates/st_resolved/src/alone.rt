//! Resolutions of literals and of names alone.

ghost use Rattle.std.specs.Prelude.{◌≡◌, IfOk};
ghost use Rattle.st_types.specs.declared.literal.Literal.TheVariants as literals;
ghost use Rattle.st_types.specs.Expressions as tree;
ghost use Rattle.st_types.specs.Expressions.{literal, read, variable, no_selectors};
ghost use Rattle.st_types.specs.ExpressionViews.{expr_view};
ghost use Rattle.st_rules.specs.Environments.{Environment};
ghost use Rattle.symbols.specs.Enumerated.{member_view};
ghost use Rattle.symbols.specs.Serving.{Serves};
ghost use Rattle.symbols.specs.Tables.{ServesTables};
ghost use Rattle.st_resolved.specs.Resolutions.{IsValue, Resolves};

use crate::copies::copied_value;
use crate::kinds::kind_of_type;
use crate::members::{member_named, member_written, number_of_member};
use crate::resolutions::Resolution;
use st_types::{EnumeratedValue, Expr, Identifier, Kind, Literal, Number, Variable};
use std::alloc::{AllocError, Global};
use symbols::{Member, TextTables, UnitNames};

/// The resolution of a number: untyped if no type is written.
fn resolved_number(number: Number) -> Resolution
    ensures { (env : Environment) → Resolves env (literal (literals.Number number)) result }
{
    let expression = Expr::literal(Literal::Number(number));
    match number.written {
        Some(kind) => Resolution::Typed(Some(kind), expression),
        None => Resolution::Untyped(expression),
    }
}

/// A value of an enumerated type, as a number of its type.
fn value_of(place: usize, member: Member) -> Resolution
    ensures { (env : Environment) (e : tree.Expr) → IsValue env e place (member_view member)
        → Resolves env e result }
{
    let number = number_of_member(place, member);
    Resolution::Typed(Some(member.kind), Expr::literal(Literal::Number(number)))
}

fn resolved_value(
    alloc: Global,
    tables: &TextTables,
    value: &EnumeratedValue,
) -> Result<Resolution, AllocError>
    ensures { IfOk result (λ whole. (env : Environment) → ServesTables tables.now env.text
        → Resolves env (literal (literals.Enumerated value.now)) whole) }
{
    match member_written(tables, value) {
        Some(member) => Ok(value_of(value.place, member)),
        None => {
            let spelled = Literal::Enumerated(copied_value(alloc, value)?);
            Ok(Resolution::Typed(None, Expr::literal(spelled)))
        }
    }
}

/// The resolution of a literal.
pub fn resolved_literal(
    alloc: Global,
    tables: &TextTables,
    spelled: &Literal,
) -> Result<Resolution, AllocError>
    ensures { IfOk result (λ whole. (env : Environment) → ServesTables tables.now env.text
        → Resolves env (literal spelled.now) whole) }
{
    match spelled {
        Literal::Number(number) => Ok(resolved_number(*number)),
        Literal::Truth(place, truth) => {
            let spelled = Literal::Truth(*place, *truth);
            Ok(Resolution::Typed(Some(Kind::Bool), Expr::literal(spelled)))
        }
        Literal::Duration(place, duration) => {
            let spelled = Literal::Duration(*place, *duration);
            Ok(Resolution::Typed(Some(Kind::Time), Expr::literal(spelled)))
        }
        Literal::Enumerated(value) => resolved_value(alloc, tables, value),
    }
}

/// The variable of a name.
fn variable_of(alloc: Global, name: &Identifier) -> Result<Expr, AllocError>
    ensures { IfOk result (λ e. expr_view e ≡ read (variable name.now no_selectors)) }
{
    Ok(Expr::variable(Variable::new(name.copied(alloc)?, Vec::new(alloc))))
}

/// The resolution of a name alone: a variable if the unit has one, else a value of an enumerated type.
pub fn resolved_alone(
    alloc: Global,
    names: &UnitNames,
    name: &Identifier,
) -> Result<Resolution, AllocError>
    ensures { IfOk result (λ whole. (env : Environment) → Serves names.now env
        → Resolves env (read (variable name.now no_selectors)) whole) }
{
    if let Some(declared) = names.type_of_name(&name.name) {
        let kind = kind_of_type(names.tables, declared);
        return Ok(Resolution::Typed(kind, variable_of(alloc, name)?));
    }
    match member_named(names.tables, &name.name) {
        Some(member) => Ok(value_of(name.place, member)),
        None => Ok(Resolution::Typed(None, variable_of(alloc, name)?)),
    }
}
