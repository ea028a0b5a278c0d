//! Functions linked.

ghost use Rattle.std.specs.Prelude.{◌≡◌, ◌≤◌, ◌∷◌, [], List, false, None, Some, map, option_map, IfErr, IfOk, true};
ghost use Rattle.st_types.specs.declared.limits.TheConstants.{MAX_PATHS};
ghost use Rattle.st_types.specs.UnitViews.{unit_view};
ghost use Rattle.st_meaning.specs.NameTypes.{Declared};
ghost use Rattle.layout.specs.Libraries.{body_of_unit, fresh_values};
ghost use Rattle.slot_trees.specs.LinkedTexts.{table_of, values_of_fresh};
ghost use Rattle.slot_trees.specs.TextLinks.{call_slot, call_slots, linked_function, sites_of_call};
ghost use Rattle.slot_trees.specs.TextLinks.{symbols_of_function};
ghost use Rattle.slot_trees.specs.TextNumbers.{numbers_of};
ghost use Rattle.slot_trees.specs.Tables.{Table};
ghost use Rattle.slot_trees.specs.LibraryViews.{slot_function_view};
ghost use Rattle.slot_trees.specs.StatementViews.{slot_stmts_view};
ghost use Rattle.st_link.specs.BodyTables.{ServesBody};
ghost use Rattle.st_link.specs.FirstSlots.{slots_taken};
ghost use Rattle.st_link.specs.CalledFunctions.{is_called};
ghost use Rattle.st_link.specs.KeptTexts.{kept_function};
ghost use Rattle.st_link.specs.Linked.{function_parts};
ghost use Rattle.st_link.specs.LinkVariables.{LinkVariable, are_whole, result_of, variables_of_blocks};
ghost use Rattle.st_link.specs.Tables.{ServesLinks, has_some};

use crate::body_table::BodyTable;
use crate::called_functions::CalledFunctions;
use crate::declared_names::inputs_of;
use crate::link_error::LinkError;
use crate::statements::{link_control, link_statements};
use crate::text_tables::TextTables;
use crate::unit_tables::{UnitTable, unit_table};
use crate::variables::{variables_of_blocks, variables_of_function};
use layout::{LayoutError, fresh_values};
use slot_trees::{Anchor, SlotFunction, SlotStmt};
use st_types::{Identifier, SimpleType, Unit, Value};
use std::alloc::Global;

/// The slot of a function's input or result.
fn link_slot(table: &BodyTable, name: &Identifier) -> Result<usize, LinkError>
    ensures linked { IfOk result (λ slot. (text : Declared) (t : Table) → ServesBody table.now text t
        → call_slot t.symbols name.now.name ≡ Some slot) }
    ensures none { IfErr result (λ e. e ≡ LinkError.NotThere → (text : Declared) (t : Table)
        → ServesBody table.now text t → call_slot t.symbols name.now.name ≡ None) }
{
    match link_control(table, name)? {
        Anchor::Own(slot) => Ok(slot),
        Anchor::Absolute(slot) => Ok(slot),
    }
}

/// The slots of a function's inputs, in order.
fn link_slots(
    alloc: Global,
    table: &BodyTable,
    names: &[&Identifier],
) -> Result<Vec<usize>, LinkError>
    ensures linked { IfOk result (λ slots. (text : Declared) (t : Table) → ServesBody table.now text t
        → call_slots t.symbols (map (λ x. x.now.name) names.now) ≡ Some slots.items) }
    ensures none { IfErr result (λ e. e ≡ LinkError.NotThere → (text : Declared) (t : Table)
        → ServesBody table.now text t → call_slots t.symbols (map (λ x. x.now.name) names.now) ≡ None) }
{
    let mut slots = Vec::new(alloc);
    for name in names {
        slots.push(link_slot(table, name)?)?;
    }
    Ok(slots)
}

/// The table of a function's body, whose variables begin at its call's first slot; an error if one is an instance.
fn function_table<'t, 'a>(
    alloc: Global,
    tables: &'t TextTables<'a>,
    unit: &'a Unit,
    returned: &'a SimpleType,
) -> Result<UnitTable<'t, 'a>, LinkError>
    ensures serves { IfOk result (λ made. (text : Declared) (globals : List LinkVariable)
        → ServesLinks tables.now text globals → are_whole text
        (result_of unit.now.name.name returned.now ∷ variables_of_blocks (unit_view unit.now).blocks) ≡ true
        → slots_taken text
        (result_of unit.now.name.name returned.now ∷ variables_of_blocks (unit_view unit.now).blocks) ≤ MAX_PATHS
        → ServesBody made.table text (table_of (numbers_of text)
        (symbols_of_function text returned.now (unit_view unit.now)) [])) }
    ensures without { IfOk result (λ made. (text : Declared) (globals : List LinkVariable)
        → ServesLinks tables.now text globals
        → has_some (body_of_unit text (unit_view unit.now)).instances ≡ false) }
    ensures none { IfErr result (λ e. e ≡ LinkError.NotThere → (text : Declared) (globals : List LinkVariable)
        → ServesLinks tables.now text globals
        → has_some (body_of_unit text (unit_view unit.now)).instances ≡ true) }
{
    let own = variables_of_blocks(alloc, &unit.blocks)?;
    if tables.has_instances(&own) {
        return Err(LinkError::NotThere);
    }
    let variables = variables_of_function(alloc, &unit.name.name, returned, &unit.blocks)?;
    Ok(unit_table(alloc, tables, &[], Anchor::Own(0), &variables, &[])?)
}

/// The slots of a function's inputs and of its result, and its body.
struct Parts {
    inputs: Vec<usize>,
    result: usize,
    body: Vec<SlotStmt>,
}

/// The parts of a function that need the names of its body.
fn link_parts(alloc: Global, table: &BodyTable, unit: &Unit) -> Result<Parts, LinkError>
    ensures linked { IfOk result (λ parts. (text : Declared) (t : Table) → ServesBody table.now text t
        → function_parts t (unit_view unit.now)
        ≡ Some (parts.inputs.items, parts.result, slot_stmts_view parts.body.items)) }
    ensures none { IfErr result (λ e. e ≡ LinkError.NotThere → (text : Declared) (t : Table)
        → ServesBody table.now text t → function_parts t (unit_view unit.now) ≡ None) }
{
    let inputs = link_slots(alloc, table, &inputs_of(alloc, &unit.blocks)?)?;
    let result = link_slot(table, &unit.name)?;
    let body = link_statements(alloc, table, &unit.body)?;
    Ok(Parts {
        inputs,
        result,
        body,
    })
}

/// A function whose calls begin with these values.
fn link_with<'a>(
    alloc: Global,
    tables: &TextTables<'a>,
    unit: &'a Unit,
    returned: &'a SimpleType,
    fresh: Vec<Value>,
) -> Result<SlotFunction, LinkError>
    ensures linked { IfOk result (λ function. (text : Declared) (globals : List LinkVariable)
        → ServesLinks tables.now text globals → are_whole text
        (result_of unit.now.name.name returned.now ∷ variables_of_blocks (unit_view unit.now).blocks) ≡ true
        → slots_taken text
        (result_of unit.now.name.name returned.now ∷ variables_of_blocks (unit_view unit.now).blocks) ≤ MAX_PATHS
        → fresh.items ≡ values_of_fresh (fresh_values text (sites_of_call returned.now (unit_view unit.now)))
        → linked_function text returned.now (unit_view unit.now) ≡ Some (slot_function_view function)) }
    ensures none { IfErr result (λ e. e ≡ LinkError.NotThere → (text : Declared) (globals : List LinkVariable)
        → ServesLinks tables.now text globals → are_whole text
        (result_of unit.now.name.name returned.now ∷ variables_of_blocks (unit_view unit.now).blocks) ≡ true
        → slots_taken text
        (result_of unit.now.name.name returned.now ∷ variables_of_blocks (unit_view unit.now).blocks) ≤ MAX_PATHS
        → linked_function text returned.now (unit_view unit.now) ≡ None) }
{
    let made = function_table(alloc, tables, unit, returned)?;
    let Parts {
        inputs,
        result,
        body,
    } = link_parts(alloc, &made.table, unit)?;
    Ok(SlotFunction {
        fresh,
        inputs,
        result,
        body,
    })
}

/// A function; None if it is not called, or its variables are more than a layout has room for.
pub fn link_function<'a>(
    alloc: Global,
    tables: &TextTables<'a>,
    called: &CalledFunctions<'_>,
    unit: &'a Unit,
    returned: &'a SimpleType,
) -> Result<Option<SlotFunction>, LinkError>
    ensures linked { IfOk result (λ function. (text : Declared) (globals : List LinkVariable)
        → ServesLinks tables.now text globals → are_whole text
        (result_of unit.now.name.name returned.now ∷ variables_of_blocks (unit_view unit.now).blocks) ≡ true
        → kept_function (is_called called.now) text returned.now (unit_view unit.now)
        ≡ Some (option_map slot_function_view function)) }
    ensures none { IfErr result (λ e. e ≡ LinkError.NotThere → (text : Declared) (globals : List LinkVariable)
        → ServesLinks tables.now text globals → are_whole text
        (result_of unit.now.name.name returned.now ∷ variables_of_blocks (unit_view unit.now).blocks) ≡ true
        → kept_function (is_called called.now) text returned.now (unit_view unit.now) ≡ None) }
{
    let name = &unit.name.name;
    if !called.has(name) {
        return Ok(None);
    }
    match fresh_values(alloc, &tables.types, name, returned, &unit.blocks) {
        Ok(fresh) => Ok(Some(link_with(alloc, tables, unit, returned, fresh)?)),
        Err(LayoutError::TooLarge) => Ok(None),
        Err(LayoutError::OutOfMemory) => Err(LinkError::OutOfMemory),
    }
}
