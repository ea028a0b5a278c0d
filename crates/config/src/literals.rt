//! The law of literals, proved of the definitions. The function does nothing: its contract is the law.

ghost use Rattle.std.specs.Prelude.{ℕ, List};
ghost use Rattle.st_types.specs.Sources.{Source};
ghost use Rattle.config.specs.Spelled.{IsSpelled};
ghost use Rattle.config.specs.Texts.{IsTextOf};

use crate::path_laws::declarations_of_texts_are_plain;

/// In a text that bytes spell, each duration is one that a TIME holds, and no enumerated type is before the `#` of a label
/// or of the lower bound of an array.
pub fn literals_of_texts_are_spelled()
    ensures { (text : List ℕ) (source : Source) → IsTextOf text source → IsSpelled source }
{
    declarations_of_texts_are_plain();
}
