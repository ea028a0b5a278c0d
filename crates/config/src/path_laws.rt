//! Laws of the names that a text declares, and of the paths of its layout.

ghost use Rattle.std.specs.Prelude.{◌≡◌, ℕ, List, map, true};
ghost use Rattle.std.specs.List.{list_all};
ghost use Rattle.st_types.specs.Paths.{Path};
ghost use Rattle.st_types.specs.Sources.{Source};
ghost use Rattle.st_rules.specs.Rules.{IsWellTyped};
ghost use Rattle.st_meaning.specs.Layouts.{path_text};
ghost use Rattle.layout.specs.TextLayouts.{slots_of_text, plan_variables_of_text, enumerations_of_text};
ghost use Rattle.plan.specs.Sound.{has_line};
ghost use Rattle.config.specs.PlainDeclarations.{is_plain};
ghost use Rattle.config.specs.Texts.{IsTextOf};
ghost use Rattle.config.specs.WordPaths.{is_word_path};
ghost use Rattle.layout.specs.Names.{are_different};

use layout::{
    accepted_texts_declare_names_once, initial_values_fill_the_layout, layouts_of_texts,
    slots_depend_on_no_literal,
};

/// Each name that a text declares is a word, each bound of its arrays has at most 64 bits, and each enumerated type has
/// a name.
pub fn declarations_of_texts_are_plain()
    ensures { (text : List ℕ) (source : Source) → IsTextOf text source → is_plain source ≡ true }
{}

/// So each path of its layout is of words.
pub fn paths_of_texts_are_of_words()
    ensures { (text : List ℕ) (source : Source) → IsTextOf text source
        → list_all (λ l. is_word_path l.path) (slots_of_text source) ≡ true }
{
    slots_depend_on_no_literal();
}

/// Two paths of words that are written alike are one path.
pub fn word_paths_have_distinct_spellings()
    ensures { (p q : Path) → is_word_path p ≡ true → is_word_path q ≡ true → path_text p ≡ path_text q → p ≡ q }
{}

/// In a text that breaks no rule no two paths of the layout are written alike, nor two of its plan's variables. Each of
/// these may have a line in the layout text of a record: its path is of visible bytes, and its type can be spelled.
pub fn paths_of_texts_have_distinct_spellings()
    ensures slots { (text : List ℕ) (source : Source) → IsTextOf text source → IsWellTyped source
        → are_different (map (λ l. path_text l.path) (slots_of_text source)) ≡ true }
    ensures different { (text : List ℕ) (source : Source) → IsTextOf text source → IsWellTyped source
        → are_different (map (λ v. path_text v.path) (plan_variables_of_text source)) ≡ true }
    ensures spelled { (text : List ℕ) (source : Source) → IsTextOf text source → IsWellTyped source
        → list_all (has_line (enumerations_of_text source)) (plan_variables_of_text source) ≡ true }
{
    accepted_texts_declare_names_once();
    layouts_of_texts();
    slots_depend_on_no_literal();
    initial_values_fill_the_layout();
}
