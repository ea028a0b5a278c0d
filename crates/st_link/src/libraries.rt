//! The functions and blocks of a text linked.

ghost use Rattle.std.specs.Prelude.{◌≡◌, List, None, Some, map, option_map, IfErr, IfOk, OnOk, true};
ghost use Rattle.std.specs.List.{list_all};
ghost use Rattle.st_types.specs.UnitViews.{unit_view};
ghost use Rattle.st_meaning.specs.NameTypes.{Declared};
ghost use Rattle.layout.specs.LayoutVariables.{Owned};
ghost use Rattle.slot_trees.specs.LibraryViews.{slot_function_view, slot_library_view};
ghost use Rattle.slot_trees.specs.StatementViews.{slot_stmts_view};
ghost use Rattle.st_link.specs.CalledFunctions.{is_called};
ghost use Rattle.st_link.specs.Gathered.{IsAppended, gathered};
ghost use Rattle.st_link.specs.KeptTexts.{kept_library};
ghost use Rattle.st_link.specs.Linked.{blocks_of, functions_of};
ghost use Rattle.st_link.specs.LinkVariables.{LinkVariable, is_whole_unit};
ghost use Rattle.st_link.specs.Tables.{AreGlobals, ServesLinks};

use crate::blocks::link_block;
use crate::called_functions::CalledFunctions;
use crate::functions::link_function;
use crate::link_error::LinkError;
use crate::text_tables::TextTables;
use slot_trees::{SlotFunction, SlotLibrary, SlotStmt};
use st_types::{Unit, UnitSort};
use std::alloc::Global;

/// Appends a unit, if it is a function.
fn push_function<'a>(
    alloc: Global,
    tables: &TextTables<'a>,
    called: &CalledFunctions<'_>,
    functions: &mut Vec<Option<SlotFunction>>,
    unit: &'a Unit,
) -> Result<(), LinkError>
    ensures linked { OnOk result ((text : Declared) (globals : List LinkVariable)
        → ServesLinks tables.now text globals → is_whole_unit text (unit_view unit.now) ≡ true
        → IsAppended (functions_of (is_called called.now) text (unit_view unit.now))
        (map (option_map slot_function_view) functions.old.items)
        (map (option_map slot_function_view) functions.new.items)) }
    ensures none { IfErr result (λ e. e ≡ LinkError.NotThere → (text : Declared) (globals : List LinkVariable)
        → ServesLinks tables.now text globals → is_whole_unit text (unit_view unit.now) ≡ true
        → functions_of (is_called called.now) text (unit_view unit.now) ≡ None) }
{
    if let UnitSort::Function(returned) = &unit.sort {
        functions.push(link_function(alloc, tables, called, unit, returned)?)?;
    }
    Ok(())
}

fn link_functions<'a>(
    alloc: Global,
    tables: &TextTables<'a>,
    called: &CalledFunctions<'_>,
    units: &[&'a Unit],
) -> Result<Vec<Option<SlotFunction>>, LinkError>
    ensures linked { IfOk result (λ functions. (text : Declared) (globals : List LinkVariable)
        → ServesLinks tables.now text globals
        → list_all (is_whole_unit text) (map (λ u. unit_view u.now) units.now) ≡ true
        → gathered (functions_of (is_called called.now) text) (map (λ u. unit_view u.now) units.now)
        ≡ Some (map (option_map slot_function_view) functions.items)) }
    ensures none { IfErr result (λ e. e ≡ LinkError.NotThere → (text : Declared) (globals : List LinkVariable)
        → ServesLinks tables.now text globals
        → list_all (is_whole_unit text) (map (λ u. unit_view u.now) units.now) ≡ true
        → gathered (functions_of (is_called called.now) text) (map (λ u. unit_view u.now) units.now) ≡ None) }
{
    let mut functions = Vec::new(alloc);
    for unit in units {
        push_function(alloc, tables, called, &mut functions, unit)?;
    }
    Ok(functions)
}

/// Appends a unit, if it is a function block.
fn push_block<'a>(
    alloc: Global,
    tables: &TextTables<'a>,
    blocks: &mut Vec<Option<Vec<SlotStmt>>>,
    unit: &'a Unit,
) -> Result<(), LinkError>
    ensures linked { OnOk result ((text : Declared) (globals : List LinkVariable) (layout : List Owned)
        → ServesLinks tables.now text globals → AreGlobals text layout globals
        → is_whole_unit text (unit_view unit.now) ≡ true
        → IsAppended (blocks_of text layout (unit_view unit.now))
        (map (option_map (λ b. slot_stmts_view b.items)) blocks.old.items)
        (map (option_map (λ b. slot_stmts_view b.items)) blocks.new.items)) }
    ensures none { IfErr result (λ e. e ≡ LinkError.NotThere → (text : Declared) (globals : List LinkVariable)
        (layout : List Owned) → ServesLinks tables.now text globals → AreGlobals text layout globals
        → is_whole_unit text (unit_view unit.now) ≡ true → blocks_of text layout (unit_view unit.now) ≡ None) }
{
    if let UnitSort::FunctionBlock = &unit.sort {
        blocks.push(link_block(alloc, tables, unit)?)?;
    }
    Ok(())
}

fn link_blocks<'a>(
    alloc: Global,
    tables: &TextTables<'a>,
    units: &[&'a Unit],
) -> Result<Vec<Option<Vec<SlotStmt>>>, LinkError>
    ensures linked { IfOk result (λ blocks. (text : Declared) (globals : List LinkVariable) (layout : List Owned)
        → ServesLinks tables.now text globals → AreGlobals text layout globals
        → list_all (is_whole_unit text) (map (λ u. unit_view u.now) units.now) ≡ true
        → gathered (blocks_of text layout) (map (λ u. unit_view u.now) units.now)
        ≡ Some (map (option_map (λ b. slot_stmts_view b.items)) blocks.items)) }
    ensures none { IfErr result (λ e. e ≡ LinkError.NotThere → (text : Declared) (globals : List LinkVariable)
        (layout : List Owned) → ServesLinks tables.now text globals → AreGlobals text layout globals
        → list_all (is_whole_unit text) (map (λ u. unit_view u.now) units.now) ≡ true
        → gathered (blocks_of text layout) (map (λ u. unit_view u.now) units.now) ≡ None) }
{
    let mut blocks = Vec::new(alloc);
    for unit in units {
        push_block(alloc, tables, &mut blocks, unit)?;
    }
    Ok(blocks)
}

/// The functions and blocks of a text, in its order.
pub fn link_library<'a>(
    alloc: Global,
    tables: &TextTables<'a>,
    called: &CalledFunctions<'_>,
    units: &[&'a Unit],
) -> Result<SlotLibrary, LinkError>
    ensures linked { IfOk result (λ library. (text : Declared) (globals : List LinkVariable) (layout : List Owned)
        → ServesLinks tables.now text globals → AreGlobals text layout globals
        → map (λ u. unit_view u.now) units.now ≡ text.units → list_all (is_whole_unit text) text.units ≡ true
        → kept_library (is_called called.now) text layout ≡ Some (slot_library_view library)) }
    ensures none { IfErr result (λ e. e ≡ LinkError.NotThere → (text : Declared) (globals : List LinkVariable)
        (layout : List Owned) → ServesLinks tables.now text globals → AreGlobals text layout globals
        → map (λ u. unit_view u.now) units.now ≡ text.units → list_all (is_whole_unit text) text.units ≡ true
        → kept_library (is_called called.now) text layout ≡ None) }
{
    let functions = link_functions(alloc, tables, called, units)?;
    let blocks = link_blocks(alloc, tables, units)?;
    Ok(SlotLibrary { functions, blocks })
}
