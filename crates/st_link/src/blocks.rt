//! Function blocks and programs linked.

ghost use Rattle.std.specs.Prelude.{◌≡◌, ◌≤◌, ◌+◌, List, None, Some, option_map, IfErr, IfOk, true};
ghost use Rattle.st_types.specs.declared.limits.TheConstants.{MAX_PATHS};
ghost use Rattle.st_types.specs.declared.path.Owner.{Owner};
ghost use Rattle.st_types.specs.UnitViews.{unit_view};
ghost use Rattle.st_meaning.specs.Bodies.{externals_in};
ghost use Rattle.st_meaning.specs.NameTypes.{Declared};
ghost use Rattle.layout.specs.LayoutVariables.{Owned};
ghost use Rattle.layout.specs.Sizes.{capped_size};
ghost use Rattle.slot_trees.specs.Tables.{Table};
ghost use Rattle.slot_trees.specs.TextLinks.{linked_program};
ghost use Rattle.slot_trees.specs.ExpressionViews.{anchor_view};
ghost use Rattle.slot_trees.specs.StatementViews.{slot_stmts_view};
ghost use Rattle.st_link.specs.BodyTables.{ServesBody};
ghost use Rattle.st_link.specs.Rooms.{first_slot};
ghost use Rattle.st_link.specs.FirstSlots.{slots_taken};
ghost use Rattle.st_link.specs.KeptTexts.{kept_block};
ghost use Rattle.st_link.specs.LinkVariables.{LinkVariable, are_whole, variables_of_blocks};
ghost use Rattle.st_link.specs.Tables.{AreGlobals, BeginAt, IsUnitTable, ServesLinks};

use crate::declared_names::externals_of;
use crate::link_error::LinkError;
use crate::statements::link_statements;
use crate::text_tables::TextTables;
use crate::unit_tables::{UnitTable, unit_table};
use crate::variables::variables_of_blocks;
use slot_trees::{Anchor, SlotStmt};
use st_types::Unit;
use st_types::limits::MAX_PATHS;
use std::alloc::{AllocError, Global};

/// The table of the body of a block or a program, whose own variables begin at `base`.
fn own_table<'t, 'a>(
    alloc: Global,
    tables: &'t TextTables<'a>,
    unit: &'a Unit,
    base: Anchor,
) -> Result<UnitTable<'t, 'a>, AllocError>
    requires { first_slot (anchor_view base) ≤ MAX_PATHS + 1 }
    ensures slots { IfOk result (λ made. (text : Declared) (globals : List LinkVariable)
        → ServesLinks tables.now text globals
        → are_whole text (variables_of_blocks (unit_view unit.now).blocks) ≡ true
        → made.slots ≡ capped_size (slots_taken text (variables_of_blocks (unit_view unit.now).blocks))) }
    ensures serves { IfOk result (λ made. (text : Declared) (globals : List LinkVariable) (t : Table)
        → ServesLinks tables.now text globals
        → are_whole text (variables_of_blocks (unit_view unit.now).blocks) ≡ true → first_slot (anchor_view base)
        + slots_taken text (variables_of_blocks (unit_view unit.now).blocks) ≤ MAX_PATHS
        → IsUnitTable text globals (externals_in (unit_view unit.now).blocks) (anchor_view base)
        (variables_of_blocks (unit_view unit.now).blocks) (variables_of_blocks (unit_view unit.now).blocks) t
        → ServesBody made.table text t) }
{
    let variables = variables_of_blocks(alloc, &unit.blocks)?;
    let externals = externals_of(alloc, &unit.blocks)?;
    unit_table(alloc, tables, &externals, base, &variables, &variables)
}

/// A function block; None if its members are more than a layout has room for.
pub fn link_block<'a>(
    alloc: Global,
    tables: &TextTables<'a>,
    unit: &'a Unit,
) -> Result<Option<Vec<SlotStmt>>, LinkError>
    ensures linked { IfOk result (λ block. (text : Declared) (globals : List LinkVariable) (layout : List Owned)
        → ServesLinks tables.now text globals → AreGlobals text layout globals
        → are_whole text (variables_of_blocks (unit_view unit.now).blocks) ≡ true
        → kept_block text layout (unit_view unit.now) ≡ Some (option_map (λ b. slot_stmts_view b.items) block)) }
    ensures none { IfErr result (λ e. e ≡ LinkError.NotThere → (text : Declared) (globals : List LinkVariable)
        (layout : List Owned) → ServesLinks tables.now text globals → AreGlobals text layout globals
        → are_whole text (variables_of_blocks (unit_view unit.now).blocks) ≡ true
        → kept_block text layout (unit_view unit.now) ≡ None) }
{
    let made = own_table(alloc, tables, unit, Anchor::Own(0))?;
    if made.slots > MAX_PATHS {
        return Ok(None);
    }
    Ok(Some(link_statements(alloc, &made.table, &unit.body)?))
}

/// A program's body, and how many slots its variables take; 4,097 if they are more than 4,096.
#[derive(Drop)]
pub struct LinkedProgram {
    pub body: Vec<SlotStmt>,
    pub slots: usize,
}

/// The program of an instance whose variables begin at this slot of the layout.
pub fn link_program<'a>(
    alloc: Global,
    tables: &TextTables<'a>,
    unit: &'a Unit,
    first: usize,
) -> Result<LinkedProgram, LinkError>
    requires { first ≤ MAX_PATHS + 1 }
    ensures slots { IfOk result (λ program. (text : Declared) (globals : List LinkVariable)
        → ServesLinks tables.now text globals
        → are_whole text (variables_of_blocks (unit_view unit.now).blocks) ≡ true
        → program.slots ≡ capped_size (slots_taken text (variables_of_blocks (unit_view unit.now).blocks))) }
    ensures linked { IfOk result (λ program. (text : Declared) (globals : List LinkVariable) (layout : List Owned)
        (owner : Owner) → ServesLinks tables.now text globals → AreGlobals text layout globals
        → are_whole text (variables_of_blocks (unit_view unit.now).blocks) ≡ true
        → first + slots_taken text (variables_of_blocks (unit_view unit.now).blocks) ≤ MAX_PATHS
        → BeginAt text layout owner first (variables_of_blocks (unit_view unit.now).blocks)
        → linked_program text layout owner (unit_view unit.now) ≡ Some (slot_stmts_view program.body.items)) }
    ensures none { IfErr result (λ e. e ≡ LinkError.NotThere → (text : Declared) (globals : List LinkVariable)
        (layout : List Owned) (owner : Owner) → ServesLinks tables.now text globals → AreGlobals text layout globals
        → are_whole text (variables_of_blocks (unit_view unit.now).blocks) ≡ true
        → first + slots_taken text (variables_of_blocks (unit_view unit.now).blocks) ≤ MAX_PATHS
        → BeginAt text layout owner first (variables_of_blocks (unit_view unit.now).blocks)
        → linked_program text layout owner (unit_view unit.now) ≡ None) }
{
    let made = own_table(alloc, tables, unit, Anchor::Absolute(first))?;
    let body = link_statements(alloc, &made.table, &unit.body)?;
    let slots = made.slots;
    Ok(LinkedProgram { body, slots })
}
