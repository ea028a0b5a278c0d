//! Laws of the texts that break no rule of the language.

ghost use Rattle.std.specs.Prelude.{◌≡◌, true};
ghost use Rattle.st_types.specs.Sources.{Source};
ghost use Rattle.st_meaning.specs.Slots.{IsLayout};
ghost use Rattle.st_rules.specs.Rules.{IsWellTyped};
ghost use Rattle.layout.specs.LayoutVariables.{declared_of, layout_variables};
ghost use Rattle.layout.specs.Names.{has_different_names};
ghost use Rattle.layout.specs.VariableSlots.{are_declared_once};
ghost use Rattle.layout.specs.TextLayouts.{slots_of_text};
ghost use Rattle.layout.specs.Growth.{Exceeds};
ghost use Rattle.layout.specs.declared.layout_error.LayoutError.TheVariants.{TooLarge};

use crate::definition_laws::layouts_of_texts;

/// In a text that breaks no rule each scope of variables declares each name once, so each path of its layout occurs once.
pub fn accepted_texts_declare_names_once()
    ensures names { (source : Source) → IsWellTyped source → has_different_names source ≡ true }
    ensures once { (source : Source) → IsWellTyped source
        → are_declared_once (declared_of source) (layout_variables source) ≡ true }
    ensures layout { (source : Source) → IsWellTyped source → IsLayout (slots_of_text source) }
{
    layouts_of_texts();
}

/// 4,096 paths and 4,096 instances of blocks aren't too many, and one more of either is.
pub fn what_is_too_large()
    ensures fits { Exceeds 4096 4096 TooLarge → ⊥ }
    ensures paths { Exceeds 4097 0 TooLarge }
    ensures instances { Exceeds 0 4097 TooLarge }
{}
