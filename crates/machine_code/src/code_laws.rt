//! The laws of the code, proved of the definitions. The functions do nothing: their contracts are the laws.

ghost use Rattle.std.specs.Prelude.{◌≡◌, ◌≤◌, ◌++◌, [], ℕ, List, length};
ghost use Rattle.st_types.specs.Values.{Datum};
ghost use Rattle.st_meaning.specs.Failures.{StuckFaults};
ghost use Rattle.slot_trees.specs.SlotTrees.{SlotStmts, SlotLibrary};
ghost use Rattle.slot_trees.specs.SlotRuns.{slots_ran};
ghost use Rattle.machine_code.specs.declared.mark.Mark as mark;
ghost use Rattle.machine_code.specs.Memories.{plain};
ghost use Rattle.machine_code.specs.Tracking.{Tracked, tracked, tracking};
ghost use Rattle.machine_code.specs.Machine.{runs};
ghost use Rattle.machine_code.specs.Programs.{program_code, ProgramFits, MachineEndsAs};
ghost use Rattle.machine_code.specs.MarkedRuns.{marked_ran, run_without_marks};
ghost use Rattle.machine_code.specs.MarkedPrograms.{MarkedEndsAs};

/// On the code of a program that fits a memory, the machine does what the program does, whatever faults stand for what no
/// well-typed text meets, whatever the memory holds after the program's values, and however deep calls may be from the depth
/// on that the code was made for: it ends with the same fault, or with as many ticks left and the same values.
pub fn code_does_what_its_program_does()
    ensures { (stuck_faults : StuckFaults) (library : SlotLibrary) (base : ℕ) (body : SlotStmts) (now n depth memory : ℕ)
        (vs rest : List Datum) (budget : ℕ) → ProgramFits memory library base (length vs) body n → n ≤ depth
        → length (vs ++ rest) ≡ memory → let code = program_code library base (length vs) body n in
        MachineEndsAs (length vs) (slots_ran stuck_faults library base body now depth vs budget)
        (runs plain stuck_faults now code (length code) [] (vs ++ rest) budget) }
{}

/// The same for the machine that marks, beside the program over marked slots: if it ends well, it has also the marks of the
/// program's slots, whatever marks follow them.
pub fn marked_code_does_what_its_program_does()
    ensures { (stuck_faults : StuckFaults) (library : SlotLibrary) (base : ℕ) (body : SlotStmts) (now n depth memory : ℕ)
        (vs rest : List Datum) (marks others : List mark.Mark) (budget : ℕ)
        → ProgramFits memory library base (length vs) body n → n ≤ depth → length (vs ++ rest) ≡ memory
        → length marks ≡ length vs → let code = program_code library base (length vs) body n in
        MarkedEndsAs (length vs)
        (marked_ran stuck_faults library base body now depth (tracked vs marks) budget)
        (runs tracking stuck_faults now code (length code) [] (tracked (vs ++ rest) (marks ++ others)) budget) }
{}

/// Without the marks a program over marked slots does the same as over slots.
pub fn marks_change_nothing()
    ensures { (stuck_faults : StuckFaults) (library : SlotLibrary) (base : ℕ) (body : SlotStmts) (now depth : ℕ)
        (m : Tracked) (budget : ℕ)
        → run_without_marks (marked_ran stuck_faults library base body now depth m budget)
        ≡ slots_ran stuck_faults library base body now depth m.values budget }
{}
