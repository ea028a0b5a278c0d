//! The programs of a configuration's instances linked.

ghost use Rattle.std.specs.Prelude.{◌≡◌, ◌≤◌, ◌+◌, List, ℕ, None, Some, map, option_map, IfErr, IfOk, OnOk, true};
ghost use Rattle.std.specs.List.{list_all};
ghost use Rattle.st_types.specs.declared.limits.TheConstants.{MAX_PATHS};
ghost use Rattle.st_types.specs.UnitViews.{unit_view};
ghost use Rattle.st_meaning.specs.NameTypes.{Declared, unit_named};
ghost use Rattle.layout.specs.LayoutVariables.{Owned};
ghost use Rattle.layout.specs.Instances.{instance_view};
ghost use Rattle.layout.specs.Sizes.{capped_size};
ghost use Rattle.slot_trees.specs.StatementViews.{slot_stmts_view};
ghost use Rattle.st_link.specs.FirstSlots.{slots_taken};
ghost use Rattle.st_link.specs.Gathered.{IsAppended, gathered};
ghost use Rattle.st_link.specs.Linked.{IsLayoutBy, program_unit, programs_of, variables_of_instance};
ghost use Rattle.st_link.specs.LinkVariables.{LinkVariable, is_whole_unit, of_owned};
ghost use Rattle.st_link.specs.Tables.{AreGlobals, BeginAt, ServesLinks};

use crate::blocks::link_program;
use crate::link_error::LinkError;
use crate::text_tables::TextTables;
use layout::{ProgramInstance, sum};
use slot_trees::SlotStmt;
use st_types::{Name, Unit, UnitSort};
use std::alloc::Global;

/// The program of this name.
fn program_named<'a>(tables: &TextTables<'a>, name: &Name) -> Option<&'a Unit>
    ensures { (text : Declared) (globals : List LinkVariable) → ServesLinks tables.now text globals
        → option_map (λ u. unit_view u.now) result ≡ program_unit (unit_named text.units name.now) }
{
    let unit = tables.names.unit_named(name)?;
    match unit.sort {
        UnitSort::Function(_) => None,
        UnitSort::FunctionBlock => None,
        UnitSort::Program => Some(unit),
    }
}

/// Appends the program of an instance whose variables begin at this slot. Answers the slot after them; 4,097 if they
/// have no room.
fn push_program<'a>(
    alloc: Global,
    tables: &TextTables<'a>,
    programs: &mut Vec<Vec<SlotStmt>>,
    first: usize,
    instance: ProgramInstance<'a>,
) -> Result<usize, LinkError>
    requires { first ≤ MAX_PATHS + 1 }
    ensures next { IfOk result (λ next. (text : Declared) (globals : List LinkVariable)
        → ServesLinks tables.now text globals → list_all (is_whole_unit text) text.units ≡ true
        → next ≡ capped_size (first + slots_taken text (variables_of_instance text (instance_view instance.entry)))) }
    ensures small { IfOk result (λ next. next ≤ MAX_PATHS + 1) }
    ensures linked { OnOk result ((text : Declared) (globals : List LinkVariable) (layout : List Owned)
        → ServesLinks tables.now text globals → AreGlobals text layout globals
        → list_all (is_whole_unit text) text.units ≡ true
        → first + slots_taken text (variables_of_instance text (instance_view instance.entry)) ≤ MAX_PATHS
        → BeginAt text layout (instance_view instance.entry).0 first
        (variables_of_instance text (instance_view instance.entry))
        → IsAppended (programs_of text layout (instance_view instance.entry))
        (map (λ b. slot_stmts_view b.items) programs.old.items)
        (map (λ b. slot_stmts_view b.items) programs.new.items)) }
    ensures none { IfErr result (λ e. e ≡ LinkError.NotThere → (text : Declared) (globals : List LinkVariable)
        (layout : List Owned) → ServesLinks tables.now text globals → AreGlobals text layout globals
        → list_all (is_whole_unit text) text.units ≡ true
        → first + slots_taken text (variables_of_instance text (instance_view instance.entry)) ≤ MAX_PATHS
        → BeginAt text layout (instance_view instance.entry).0 first
        (variables_of_instance text (instance_view instance.entry))
        → programs_of text layout (instance_view instance.entry) ≡ None) }
{
    let Some(unit) = program_named(tables, instance.program) else {
        return Ok(first);
    };
    let program = link_program(alloc, tables, unit, first)?;
    let next = sum(first, program.slots);
    programs.push(program.body)?;
    Ok(next)
}

/// The programs of instances, in order, if their variables come after the globals.
pub fn link_programs<'a>(
    alloc: Global,
    tables: &TextTables<'a>,
    instances: &[ProgramInstance<'a>],
) -> Result<Vec<Vec<SlotStmt>>, LinkError>
    ensures linked { IfOk result (λ programs. (text : Declared) (globals layout : List Owned)
        → ServesLinks tables.now text (map of_owned globals)
        → tables.now.global_slots ≡ slots_taken text (map of_owned globals)
        → list_all (is_whole_unit text) text.units ≡ true
        → IsLayoutBy text globals (map instance_view instances.now) layout
        → gathered (programs_of text layout) (map instance_view instances.now)
        ≡ Some (map (λ b. slot_stmts_view b.items) programs.items)) }
    ensures none { IfErr result (λ e. e ≡ LinkError.NotThere → (text : Declared) (globals layout : List Owned)
        → ServesLinks tables.now text (map of_owned globals)
        → tables.now.global_slots ≡ slots_taken text (map of_owned globals)
        → list_all (is_whole_unit text) text.units ≡ true
        → IsLayoutBy text globals (map instance_view instances.now) layout
        → gathered (programs_of text layout) (map instance_view instances.now) ≡ None) }
{
    let mut programs = Vec::new(alloc);
    let mut first = sum(tables.global_slots, 0);
    for instance in instances {
        first = push_program(alloc, tables, &mut programs, first, *instance)?;
    }
    Ok(programs)
}
