//! The law of the code of a text. The function does nothing: its contract is the law.

ghost use Rattle.std.specs.Prelude.{◌≡◌, ℕ, Some, true, slice_get};
ghost use Rattle.st_types.specs.Configurations.{Configuration};
ghost use Rattle.st_types.specs.Sources.{Source};
ghost use Rattle.st_meaning.specs.NameTypes.{declared_in};
ghost use Rattle.st_meaning.specs.Runs.{Program};
ghost use Rattle.st_rules.specs.ConfigurationRules.{are_known};
ghost use Rattle.st_rules.specs.Rules.{IsWellTyped};
ghost use Rattle.layout.specs.LayoutVariables.{configurations_in, only_configuration};
ghost use Rattle.layout.specs.Libraries.{programs_of_text};
ghost use Rattle.st_link.specs.WellTypedRuns.{HaveFunctionsNoExternals};
ghost use Rattle.config.specs.CodedSources.{HasCodeRuns};

use machine_code::code_does_what_its_program_does;
use st_link::programs_of_accepted_texts_run_by_slots;

/// Each program of a text that breaks no rule, with one configuration in which all names are known, has code in each memory
/// that it fits. Over any values of the slots of the text's layout, whatever is in the memory after them, the machine ends
/// on it as the program does, and leaves the same variables. The grammar gives no function externals.
pub fn code_of_accepted_texts_does_what_their_programs_do()
    ensures { (source : Source) (c : Configuration) (n : ℕ) (p : Program) → IsWellTyped source
        → HaveFunctionsNoExternals source → only_configuration (configurations_in source) ≡ Some c
        → are_known (declared_in source) c ≡ true → slice_get (programs_of_text source) n ≡ Some p
        → HasCodeRuns source n p }
{
    programs_of_accepted_texts_run_by_slots();
    code_does_what_its_program_does();
}
