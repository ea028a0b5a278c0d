//! Functions, function blocks and programs.

ghost use Rattle.std.specs.Prelude.{◌≡◌, IfOk};
ghost use Rattle.st_types.specs.UnitViews.{unit_view};
ghost use Rattle.st_meaning.specs.NameTypes.{Declared};
ghost use Rattle.st_meaning.specs.ResolvedUnits.{resolved};
ghost use Rattle.symbols.specs.Fields.{ServesFields};
ghost use Rattle.symbols.specs.Tables.{ServesTables};

use crate::copies::copied_sort;
use crate::declarations::resolved_blocks;
use crate::statements::resolved_stmts;
use st_types::Unit;
use std::alloc::{AllocError, Global};
use symbols::{FieldNames, TextTables, UnitNames};

/// A unit of a text.
pub fn resolved_unit<'a>(
    alloc: Global,
    tables: &TextTables<'a>,
    fields: &FieldNames<'a>,
    unit: &'a Unit,
) -> Result<Unit, AllocError>
    ensures { IfOk result (λ u. (text : Declared) → ServesTables tables.now text → ServesFields fields.now text
        → unit_view u ≡ resolved text (unit_view unit.now)) }
{
    let names = UnitNames::new(alloc, tables, unit)?;
    let body = resolved_stmts(alloc, &names, &unit.body)?;
    Ok(Unit {
        sort: copied_sort(alloc, &unit.sort)?,
        name: unit.name.copied(alloc)?,
        blocks: resolved_blocks(alloc, tables, fields, &unit.blocks)?,
        body,
    })
}
