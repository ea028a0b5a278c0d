//! Assignments and calls of instances.

ghost use Rattle.std.specs.Prelude.{◌≡◌, IfOk, map};
ghost use Rattle.st_types.specs.ExpressionViews.{expr_view, variable_view};
ghost use Rattle.st_types.specs.StatementViews.{argument_view, stmt_view};
ghost use Rattle.st_types.specs.Statements.{assign, invoke};
ghost use Rattle.st_meaning.specs.NameTypes.{input_kind};
ghost use Rattle.st_meaning.specs.ResolvedUnits.{resolved_argument, resolved_stmt};
ghost use Rattle.st_rules.specs.Environments.{Environment};
ghost use Rattle.symbols.specs.Serving.{Serves};

use crate::expressions::{resolved_expr, resolved_variable};
use crate::kinds::{kind_of_variable, kind_there};
use st_types::{Argument, Expr, Identifier, Kind, Name, Stmt, Variable};
use std::alloc::{AllocError, Global};
use symbols::{Side, UnitNames};

/// An assignment: the value takes the type of the variable.
pub fn resolved_assignment(
    alloc: Global,
    names: &UnitNames,
    target: &Variable,
    value: &Expr,
) -> Result<Stmt, AllocError>
    ensures { IfOk result (λ s. (env : Environment) → Serves names.now env → stmt_view s
        ≡ resolved_stmt env.text env.unit (assign (variable_view target.now) (expr_view value.now))) }
{
    let kind = kind_of_variable(names, target);
    let target = resolved_variable(alloc, names, target)?;
    let value = resolved_expr(alloc, names, kind, value)?;
    Ok(Stmt::assign(target, value))
}

/// The type of an input of an instance.
fn input_kind(names: &UnitNames, instance: &Name, input: &Name) -> Option<Kind>
    ensures { (env : Environment) → Serves names.now env
        → result ≡ input_kind env.text env.unit instance.now input.now }
{
    match names.type_of_name(instance) {
        Some(declared) => kind_there(
            names.tables,
            names.tables.block_variable(Side::Input, declared, input),
        ),
        None => None,
    }
}

/// An argument of a call of an instance.
fn resolved_argument(
    alloc: Global,
    names: &UnitNames,
    instance: &Name,
    argument: &Argument,
) -> Result<Argument, AllocError>
    ensures { IfOk result (λ a. (env : Environment) → Serves names.now env
        → argument_view a ≡ resolved_argument env.text env.unit instance.now (argument_view argument.now)) }
{
    match argument {
        Argument::Input(input, value) => {
            let kind = input_kind(names, instance, &input.name);
            let value = resolved_expr(alloc, names, kind, value)?;
            Ok(Argument::input(input.copied(alloc)?, value))
        }
        Argument::Output(output, target) => {
            let target = resolved_variable(alloc, names, target)?;
            Ok(Argument::output(output.copied(alloc)?, target))
        }
    }
}

fn resolved_arguments(
    alloc: Global,
    names: &UnitNames,
    instance: &Name,
    arguments: &[Argument],
) -> Result<Vec<Argument>, AllocError>
    ensures { IfOk result (λ list. (env : Environment) → Serves names.now env → map argument_view list.items
        ≡ map (resolved_argument env.text env.unit instance.now) (map argument_view arguments.now)) }
{
    let mut resolved = Vec::new(alloc);
    for argument in arguments {
        resolved.push(resolved_argument(alloc, names, instance, argument)?)?;
    }
    Ok(resolved)
}

/// A call of an instance.
pub fn resolved_invocation(
    alloc: Global,
    names: &UnitNames,
    instance: &Identifier,
    arguments: &[Argument],
) -> Result<Stmt, AllocError>
    ensures { IfOk result (λ s. (env : Environment) → Serves names.now env → stmt_view s
        ≡ resolved_stmt env.text env.unit (invoke instance.now (map argument_view arguments.now))) }
{
    let arguments = resolved_arguments(alloc, names, &instance.name, arguments)?;
    Ok(Stmt::invoke(instance.copied(alloc)?, arguments))
}
