//! Worked examples, proved by computation.

ghost use Rattle.std.specs.Prelude.{◌≡◌, [], length, Ok};
ghost use Rattle.st_types.specs.declared.fault.Fault.{Fault};
ghost use Rattle.st_meaning.specs.Failures.{in_runs};
ghost use Rattle.st_meaning.specs.Loops.{goes_on};
ghost use Rattle.slot_trees.specs.ProgramExample.{no_units, its_code, values_of};
ghost use Rattle.machine_code.specs.Memories.{plain};
ghost use Rattle.machine_code.specs.Machine.{runs, finished, failed};
ghost use Rattle.machine_code.specs.Tracking.{tracked};
ghost use Rattle.machine_code.specs.MarkedRuns.{marked_ran};
ghost use Rattle.machine_code.specs.MarkExamples.{no_marks, marks_of_run};
ghost use Rattle.machine_code.specs.Programs.{program_code, ProgramFits};

/// The program of elements, a timer and a loop fits the slots of its layout. On its code the machine leaves the same values
/// as the program, and as many ticks; a subscript that is out of bounds is F3.
pub fn a_compiled_program()
    ensures fits { ProgramFits 10 no_units 0 10 its_code 1 }
    ensures run { let code = program_code no_units 0 10 its_code 1 in
        runs plain in_runs 9 code (length code) [] (values_of 4 2 3 0 0) 9 ≡ finished (values_of 12 3 3 5 10) 2 }
    ensures fault { let code = program_code no_units 0 10 its_code 1 in
        runs plain in_runs 9 code (length code) [] (values_of 4 3 3 0 0) 9 ≡ failed (values_of 4 3 3 0 0) Fault.Index }
{}

/// That program looks G, I and the timer's members up before it assigns them, but for PT, the timer's input. It only looks
/// A[1] up, and it assigns A[2] first. The values and the ticks are those of a run without marks.
pub fn a_marked_program()
    ensures { marked_ran in_runs no_units 0 its_code 5 9 (tracked (values_of 4 2 3 0 0) (no_marks 10)) 9
        ≡ Ok (goes_on (tracked (values_of 12 3 3 5 10) marks_of_run), 2) }
{}
