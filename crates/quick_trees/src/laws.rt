//! The law of quick code, proved of the definitions. The function does nothing: its contract is the law.

ghost use Rattle.std.specs.Prelude.{◌≤◌, ℕ, List};
ghost use Rattle.st_meaning.specs.Failures.{StuckFaults};
ghost use Rattle.machine_code.specs.Tracking.{Tracked};
ghost use Rattle.slot_trees.specs.SlotTrees.{SlotLibrary, SlotStmts};
ghost use Rattle.machine_code.specs.MarkedRuns.{marked_ran};
ghost use Rattle.quick_code.specs.QuickRuns.{Left};
ghost use Rattle.quick_code.specs.QuickSteps.{Memory};
ghost use Rattle.quick_trees.specs.QuickMemory.{EndsWellAt, Frame};
ghost use Rattle.quick_trees.specs.UnitValues.{IsMemory, whole};
ghost use Rattle.quick_trees.specs.Programs.{EndsAs, IsProgram, beginning};

/// If quick code stands for a program with calls up to a depth, and a run of it ends well over words and notes that are the
/// values and the marks of the slots that it names, the program ends well over these: with as many ticks left, and with the
/// values and the marks that words and notes give then. Those of all other slots are as they were. This holds whatever
/// faults stand for what no well-typed text meets, and whatever the temporaries hold.
pub fn quick_code_does_what_its_program_does()
    ensures { (stuck_faults : StuckFaults) (library : SlotLibrary) (base calls depth budget : ℕ) (body : SlotStmts)
        (f : Frame) (m : Memory) (t : Tracked) (e : Left) → IsProgram f library base calls body → calls ≤ depth
        → IsMemory f (whole base) (beginning f) m t → EndsWellAt f 0 m budget e
        → EndsAs f base t (marked_ran stuck_faults library base body f.now depth t budget) e }
{}
