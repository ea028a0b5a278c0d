//! The law of look-ups, proved of the definitions. The function does nothing: its contract is the law.

ghost use Rattle.std.specs.Prelude.{◌≡◌, ℕ, None, Some, slice_get};
ghost use Rattle.st_types.specs.Sources.{Source};
ghost use Rattle.st_meaning.specs.Runs.{Program};
ghost use Rattle.st_meaning.specs.Slots.{Slot};
ghost use Rattle.layout.specs.Libraries.{programs_of_text};
ghost use Rattle.layout.specs.TextLayouts.{slots_of_text};
ghost use Rattle.slot_trees.specs.SlotTrees.{SlotStmts};
ghost use Rattle.slot_trees.specs.TextLinks.{LinkedText, linked_source};
ghost use Rattle.machine_code.specs.Asking.{IsOnlyLookedUp};
ghost use Rattle.slot_code.specs.Codes.{CodeView};
ghost use Rattle.config.specs.ProgramCodes.{IsCodeOf};
ghost use Rattle.st_link.specs.Accepted.{IsAccepted};

use slot_trees::linked_texts_have_their_programs;
use st_link::texts_that_break_no_rule_are_linked;

/// In the code of a program of an accepted text no instruction takes the value of a global or an input as it is: a value
/// taken so belongs to an instance, as the control variable of a FOR, the members of a standard block, and the outputs that
/// a call copies do.
pub fn codes_of_accepted_texts_look_globals_up()
    ensures { (source : Source) (linked : LinkedText) (n : ℕ) (p : Program) (body : SlotStmts) (depth : ℕ)
        (code : CodeView) (k : ℕ) (l : Slot) → IsAccepted source → linked_source source ≡ Some linked
        → slice_get (programs_of_text source) n ≡ Some p → slice_get linked.programs n ≡ Some body
        → IsCodeOf source linked body depth code → slice_get (slots_of_text source) k ≡ Some l
        → l.path.owner ≡ None → IsOnlyLookedUp code.instrs k }
{
    linked_texts_have_their_programs();
    texts_that_break_no_rule_are_linked();
}
