//! Laws of the code of a text's program. The functions do nothing: their contracts are the laws.

ghost use Rattle.std.specs.Prelude.{◌≡◌, ℕ, Some, slice_get};
ghost use Rattle.st_types.specs.Sources.{Source};
ghost use Rattle.st_meaning.specs.Runs.{Program};
ghost use Rattle.layout.specs.TextLayouts.{slots_of_text};
ghost use Rattle.slot_trees.specs.SlotTrees.{SlotStmts};
ghost use Rattle.slot_trees.specs.TextLinks.{LinkedText, linked_source};
ghost use Rattle.config.specs.CodedSources.{HasCodeRuns};
ghost use Rattle.st_link.specs.LinkedSources.{HasSlotRuns};
ghost use Rattle.slot_code.specs.Codes.{CodeView};
ghost use Rattle.slot_code.specs.Meanings.{Means, FailsEqually};
ghost use Rattle.config.specs.ProgramCodes.{IsCodeOf};

use machine_code::code_does_what_its_program_does;

/// If a program of a text has runs of its code, code that is made of the program's linked body means the program over the
/// text's layout.
pub fn code_of_texts_means_their_programs()
    ensures { (source : Source) (n : ℕ) (p : Program) (linked : LinkedText) (body : SlotStmts) (depth : ℕ)
        (code : CodeView) → HasCodeRuns source n p → linked_source source ≡ Some linked
        → slice_get linked.programs n ≡ Some body → IsCodeOf source linked body depth code
        → Means (slots_of_text source) code p }
{}

/// If a program of a text has runs of its linked body, the machine fails on code that is made of this body as the program
/// does, whatever faults stand for cases that no well-typed text meets.
pub fn code_of_texts_fails_as_their_programs()
    ensures { (source : Source) (n : ℕ) (p : Program) (linked : LinkedText) (body : SlotStmts) (depth : ℕ)
        (code : CodeView) → HasSlotRuns source n p → linked_source source ≡ Some linked
        → slice_get linked.programs n ≡ Some body → IsCodeOf source linked body depth code
        → FailsEqually (slots_of_text source) code p }
{
    code_does_what_its_program_does();
}
