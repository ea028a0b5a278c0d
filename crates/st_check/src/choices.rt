//! CASE: its labels.

ghost use Rattle.std.specs.Prelude.{◌≡◌, map, IfOk};
ghost use Rattle.std.specs.List.{flat_map};
ghost use Rattle.st_types.specs.ExpressionViews.{expr_view};
ghost use Rattle.st_types.specs.StatementViews.{stmt_view};
ghost use Rattle.st_rules.specs.Collecting.{Adds, Covers};
ghost use Rattle.st_rules.specs.Environments.{Environment};
ghost use Rattle.st_rules.specs.LabelRules.{wrong_case};
ghost use Rattle.st_rules.specs.Typings.{typing_of};
ghost use Rattle.symbols.specs.Serving.{Serves};
ghost use Rattle.st_check.specs.Listings.{listed_view};

use crate::listings::Listed;
use st_rules::{BrokenRules, Typing};
use st_types::{Expr, Stmt};
use st_typing::{kind_of, settled, typing, wrong_labels};
use std::alloc::{AllocError, Global};
use symbols::UnitNames;

/// The typing of a selector, whose own faults were added with the other expressions.
fn typing_of_selector(
    alloc: Global,
    names: &UnitNames,
    selector: &Expr,
) -> Result<Typing, AllocError>
    ensures { IfOk result (λ t. (env : Environment) → Serves names.now env
        → t ≡ typing_of env (expr_view selector.now)) }
{
    let mut known = BrokenRules::with_room(alloc, 0)?;
    Ok(typing(names, selector, &mut known))
}

/// Adds the faults in the labels of a CASE. A selector that is untyped is a LINT.
fn wrong_case(
    alloc: Global,
    names: &UnitNames,
    statement: &Stmt,
    broken: &mut BrokenRules,
) -> Result<(), AllocError>
    ensures adds { (env : Environment) → Serves names.now env
        → Adds (wrong_case env (stmt_view statement.now)) broken.old broken.new }
    ensures covers { IfOk result (λ done. (env : Environment) → Serves names.now env
        → Covers (wrong_case env (stmt_view statement.now)) broken.new) }
{
    match statement {
        Stmt::Case(selector, arms, _) => {
            let found = typing_of_selector(alloc, names, selector)?;
            let kind = kind_of(settled(None, found));
            wrong_labels(alloc, names.tables, kind, arms, broken)
        }
        _ => Ok(()),
    }
}

/// Adds the faults in the labels of CASEs among statements.
pub fn wrong_cases(
    alloc: Global,
    names: &UnitNames,
    statements: &[Listed],
    broken: &mut BrokenRules,
) -> Result<(), AllocError>
    ensures adds { (env : Environment) → Serves names.now env
        → Adds (flat_map (λ l. wrong_case env l.statement) (map listed_view statements.now)) broken.old broken.new }
    ensures covers { IfOk result (λ done. (env : Environment) → Serves names.now env
        → Covers (flat_map (λ l. wrong_case env l.statement) (map listed_view statements.now)) broken.new) }
{
    for listed in statements {
        wrong_case(alloc, names, listed.statement, broken)?;
    }
    Ok(())
}
