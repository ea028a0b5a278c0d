//! The law of the reads of a run of code. The function does nothing: its contract is the law.

ghost use Rattle.std.specs.Prelude.{◌≡◌, ℕ, List, None, Some, slice_get, Contains, map};
ghost use Rattle.st_meaning.specs.Asked.{IsAsked};
ghost use Rattle.st_meaning.specs.Runs.{Program};
ghost use Rattle.st_meaning.specs.Slots.{Slot, IsLayout, AreOfTypes, variables_with, inputs_in};
ghost use Rattle.machine_code.specs.Asking.{IsOnlyLookedUp};
ghost use Rattle.slot_code.specs.Codes.{code_view};
ghost use Rattle.slot_code.specs.Meanings.{FailsEqually};
ghost use Rattle.slot_run.specs.declared.snapshot.Snapshot.{Snapshot};
ghost use Rattle.slot_run.specs.Effects.{Effect};
ghost use Rattle.slot_run.specs.Executions.{IsEffectOf};
ghost use Rattle.plan.specs.Reading.{Reads};

/// If a run of a snapshot reads a global or an input, the program asks for its value, over the variables and inputs of
/// the snapshot: provided that no instruction of the code takes its value as it is, and that the machine fails on the
/// code whenever the program does.
pub fn what_a_run_reads_is_asked_for()
    ensures { (snapshot : Snapshot) (effect : Effect) (layout : List Slot) (program : Program) (k : ℕ) (l : Slot)
        → IsEffectOf snapshot effect → FailsEqually layout (code_view snapshot.code.value) program
        → IsLayout layout → AreOfTypes layout snapshot.slots.items
        → slice_get layout k ≡ Some l → l.path.owner ≡ None
        → IsOnlyLookedUp snapshot.code.value.instrs.value.items k → Reads effect k
        → IsAsked program snapshot.budget (variables_with layout snapshot.slots.items)
        (inputs_in layout snapshot.slots.items) snapshot.moment l.path }
{}
