//! Calls of functions, from the resolutions of their arguments.

ghost use Rattle.std.specs.Prelude.{◌≡◌, IfOk, map, option_map};
ghost use Rattle.st_types.specs.Expressions as tree;
ghost use Rattle.st_types.specs.Expressions.{call, exprs_of};
ghost use Rattle.st_types.specs.ExpressionViews.{expr_view};
ghost use Rattle.st_meaning.specs.Resolution.{resolved_exprs};
ghost use Rattle.st_rules.specs.Environments.{Environment};
ghost use Rattle.st_rules.specs.Typings.{common_of};
ghost use Rattle.symbols.specs.Tables.{ServesTables, callee_view};
ghost use Rattle.st_resolved.specs.Calls.{expected_of_call};
ghost use Rattle.st_resolved.specs.Resolutions.{resolved_kind, Resolves, ResolvesAll};

use crate::expected::{common_of, expected_at, kind_of_call};
use crate::resolutions::{Resolution, at_place};
use st_types::{Expr, Identifier, Kind};
use std::alloc::{AllocError, Global};
use symbols::{Callee, TextTables};

/// The arguments of a call, each at its place.
fn arguments_at_places(
    alloc: Global,
    callee: Option<Callee>,
    common: Option<Kind>,
    parts: Vec<Resolution>,
) -> Result<Vec<Expr>, AllocError>
    ensures { IfOk result (λ list. (env : Environment) (es : tree.Exprs) → ResolvesAll env es parts.items
        → common ≡ common_of (option_map callee_view callee.entry) (map resolved_kind parts.items)
        → exprs_of (map expr_view list.items) ≡ resolved_exprs env.text env.unit
        (expected_of_call (option_map callee_view callee.entry) (map resolved_kind parts.items)) es) }
{
    let mut arguments = Vec::new(alloc);
    for part in parts {
        let expected = expected_at(callee, common, arguments.len());
        arguments.push(at_place(expected, part))?;
    }
    Ok(arguments)
}

/// The resolution of a call.
pub fn called(
    alloc: Global,
    tables: &TextTables,
    function: &Identifier,
    parts: Vec<Resolution>,
) -> Result<Resolution, AllocError>
    ensures { IfOk result (λ whole. (env : Environment) (es : tree.Exprs) → ServesTables tables.now env.text
        → ResolvesAll env es parts.items → Resolves env (call function.now es) whole) }
{
    let callee = tables.callee_of(&function.name);
    let common = common_of(callee, &parts);
    let kind = kind_of_call(callee, common);
    let arguments = arguments_at_places(alloc, callee, common, parts)?;
    Ok(Resolution::Typed(kind, Expr::call(function.copied(alloc)?, arguments)))
}
