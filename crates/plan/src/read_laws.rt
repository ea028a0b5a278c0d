//! The law of reads. The function does nothing: its contract is the law.

ghost use Rattle.std.specs.Prelude.{◌≡◌, ℕ, Some, slice_get};
ghost use Rattle.plan.specs.declared.plan.Plan.{Plan};
ghost use Rattle.plan.specs.declared.task.ProgramInstance.{ProgramInstance};
ghost use Rattle.slot_run.specs.declared.snapshot.Snapshot.{Snapshot};
ghost use Rattle.plan.specs.Reading.{AsksForReads};

/// If an execution reads a global or an input, and its snapshot has the code of one of the plan's programs, the program
/// asks for its value: it looks it up before it has assigned it itself. The invariant of a plan has the facts that this
/// rests on.
pub fn executions_of_plans_read_what_is_asked_for()
    ensures { (plan : Plan) (n : ℕ) (p : ProgramInstance) (snapshot : Snapshot)
        → slice_get plan.programs.items n ≡ Some p → snapshot.code.value ≡ p.code.value
        → AsksForReads plan p snapshot }
{}
