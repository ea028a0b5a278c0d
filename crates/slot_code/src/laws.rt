//! The law of programs in quick code, proved of the definitions. The function does nothing: its contract is the law.

ghost use Rattle.std.specs.Prelude.{◌≡◌, ◌≤◌, ◌+◌, ℕ, List, length};
ghost use Rattle.st_types.specs.declared.kind.Kind.{Kind};
ghost use Rattle.slot_trees.specs.SlotTrees.{SlotLibrary, SlotStmts};
ghost use Rattle.machine_code.specs.Programs.{program_code, ProgramFits};
ghost use Rattle.quick_trees.specs.Programs.{IsProgram};
ghost use Rattle.quick_trees.specs.QuickMemory.{first_temporary};
ghost use Rattle.slot_code.specs.declared.parts.QuickParts.{QuickParts};
ghost use Rattle.slot_code.specs.Quick.{AnswersFor, frame_of};

use machine_code::marked_code_does_what_its_program_does;
use quick_trees::quick_code_does_what_its_program_does;

/// If quick code over a window stands for a program at each moment, and the program fits a memory for which instructions are
/// its code, a run of the quick code that ends well ends as these do.
pub fn quick_code_answers_as_its_instructions()
    ensures { (library : SlotLibrary) (base calls depth extra : ℕ) (body : SlotStmts) (kinds : List Kind)
        (p : QuickParts) (window : List ℕ)
        → ((now : ℕ) → IsProgram (frame_of p window kinds now) library base calls body)
        → first_temporary (frame_of p window kinds 0) ≤ p.words
        → ProgramFits (length kinds + extra) library base (length kinds) body depth
        → AnswersFor (program_code library base (length kinds) body depth) kinds extra p window }
{
    quick_code_does_what_its_program_does();
    marked_code_does_what_its_program_does();
}
