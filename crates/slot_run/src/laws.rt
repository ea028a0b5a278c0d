//! Laws of executions, proved of the definitions. The functions do nothing: their contracts are the laws.

ghost use Rattle.std.specs.Prelude.{◌≡◌, ℕ, List, true};
ghost use Rattle.st_types.specs.Values.{Datum};
ghost use Rattle.st_meaning.specs.declared.outcome.Outcome.{Outcome};
ghost use Rattle.st_meaning.specs.Runs.{Program};
ghost use Rattle.st_meaning.specs.Slots.{Slot, Cell, AreOfTypes, variables_with, agrees, after_writes};
ghost use Rattle.slot_code.specs.Codes.{CodeView};
ghost use Rattle.slot_code.specs.Meanings.{Means};
ghost use Rattle.slot_run.specs.Commits.{committed, IsRunFrom};
ghost use Rattle.slot_run.specs.Effects.{Effect, IsTrueOf};
ghost use Rattle.slot_run.specs.Executions.{IsEffectOf};
ghost use Rattle.slot_run.specs.QuickExecutions.{IsPartOf, IsQuickEffectOf};
ghost use Rattle.slot_run.specs.declared.quick_snapshot.QuickSnapshot.{QuickSnapshot};
ghost use Rattle.slot_run.specs.declared.snapshot.Snapshot.{Snapshot};

use st_meaning::variables_stay;

/// Writes to slots of inputs change no variable: without them the variables end the same.
pub fn writes_to_inputs_change_no_variable()
    ensures { (layout : List Slot) (vs : List Datum) (writes : List Cell)
        → variables_with layout (committed layout vs writes) ≡ variables_with layout (after_writes vs writes) }
{}

/// Over a layout whose program the code means, and values of the layout's types that agree with all reads of an execution,
/// the writes to variables change the values as a run of the program does. The program ends as the execution did, inputs
/// stay, and each value is of its slot's type.
pub fn commits_do_what_programs_do()
    ensures { (code : CodeView) (moment budget : ℕ) (reads writes : List Cell) (outcome : Outcome)
        (layout : List Slot) (program : Program) (vs : List Datum)
        → IsTrueOf code moment budget reads writes outcome → Means layout code program → AreOfTypes layout vs
        → agrees vs reads ≡ true
        → IsRunFrom layout program budget moment vs (committed layout vs writes) outcome }
{
    variables_stay();
}

/// An execution of a quick snapshot is one of each snapshot that the quick one is part of: of the same code, activation,
/// moment and budget, and with the same values of the slots that the code names.
pub fn quick_executions_are_executions()
    ensures { (snapshot : Snapshot) (quick : QuickSnapshot) (effect : Effect) → IsPartOf snapshot quick
        → IsQuickEffectOf quick effect → IsEffectOf snapshot effect }
{}
