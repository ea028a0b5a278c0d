//! Bodies of units, judged pass by pass.

ghost use Rattle.std.specs.Prelude.{IfOk, map};
ghost use Rattle.std.specs.List.{flat_map};
ghost use Rattle.st_types.specs.StatementViews.{stmts_view};
ghost use Rattle.st_types.specs.UnitViews.{unit_view};
ghost use Rattle.st_meaning.specs.NameTypes.{Declared};
ghost use Rattle.st_rules.specs.BodyRules.{wrong_body};
ghost use Rattle.st_rules.specs.Collecting.{Adds, Covers};
ghost use Rattle.st_rules.specs.Environments.{Environment};
ghost use Rattle.st_rules.specs.Rules.{environment};
ghost use Rattle.symbols.specs.Serving.{Serves};
ghost use Rattle.symbols.specs.Tables.{ServesTables};
ghost use Rattle.st_check.specs.Bodies.{wrong_passes};

use crate::assignments::assigned_in;
use crate::choices::wrong_cases;
use crate::exits::wrong_exits;
use crate::expressions::wrong_roots;
use crate::invocations::wrong_invocations;
use crate::listings::listed_in;
use crate::roots::roots_of;
use crate::targets::wrong_assignments;
use st_rules::BrokenRules;
use st_types::{Stmt, Unit};
use std::alloc::{AllocError, Global};
use symbols::{TextTables, UnitNames};

/// Adds the faults in a body, pass by pass: in expressions, assignments, calls of instances, labels and EXITs.
fn wrong_passes(
    alloc: Global,
    names: &UnitNames,
    body: &[Stmt],
    broken: &mut BrokenRules,
) -> Result<(), AllocError>
    ensures adds { (env : Environment) → Serves names.now env
        → Adds (wrong_passes env (stmts_view body.now)) broken.old broken.new }
    ensures covers { IfOk result (λ done. (env : Environment) → Serves names.now env
        → Covers (wrong_passes env (stmts_view body.now)) broken.new) }
{
    let statements = listed_in(alloc, body)?;
    let roots = roots_of(alloc, names, &statements)?;
    wrong_roots(names, &roots, broken);
    let assigned = assigned_in(alloc, body)?;
    wrong_assignments(names, &assigned, broken);
    wrong_invocations(alloc, names, &statements, broken)?;
    wrong_cases(alloc, names, &statements, broken)?;
    wrong_exits(&statements, broken);
    Ok(())
}

/// Adds the faults in the body of a unit.
fn wrong_body<'a>(
    alloc: Global,
    tables: &TextTables<'a>,
    unit: &'a Unit,
    broken: &mut BrokenRules,
) -> Result<(), AllocError>
    ensures adds { (text : Declared) → ServesTables tables.now text
        → Adds (wrong_body (environment text (unit_view unit.now))) broken.old broken.new }
    ensures covers { IfOk result (λ done. (text : Declared) → ServesTables tables.now text
        → Covers (wrong_body (environment text (unit_view unit.now))) broken.new) }
{
    let names = UnitNames::new(alloc, tables, unit)?;
    wrong_passes(alloc, &names, &unit.body, broken)
}

/// Adds the faults in the bodies of units (C1, C3, C4, C5, C7, C9, C10).
pub fn wrong_bodies<'a>(
    alloc: Global,
    tables: &TextTables<'a>,
    units: &[&'a Unit],
    broken: &mut BrokenRules,
) -> Result<(), AllocError>
    ensures adds { (text : Declared) → ServesTables tables.now text
        → Adds (flat_map (λ u. wrong_body (environment text u)) (map (λ u. unit_view u.now) units.now)) broken.old
        broken.new }
    ensures covers { IfOk result (λ done. (text : Declared) → ServesTables tables.now text
        → Covers (flat_map (λ u. wrong_body (environment text u)) (map (λ u. unit_view u.now) units.now)) broken.new) }
{
    for unit in units {
        wrong_body(alloc, tables, unit, broken)?;
    }
    Ok(())
}
