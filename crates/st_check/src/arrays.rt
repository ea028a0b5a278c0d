//! Arrays: the types of their elements (C1, C3), and the numbers of their bounds (C4).

ghost use Rattle.std.specs.Prelude.{◌≡◌, map};
ghost use Rattle.std.specs.List.{flat_map};
ghost use Rattle.st_meaning.specs.NameTypes.{Declared};
ghost use Rattle.st_rules.specs.Collecting.{Collects};
ghost use Rattle.st_rules.specs.TypeRules.{wrong_element, wrong_bound_numbers};
ghost use Rattle.symbols.specs.Tables.{ServesTables};
ghost use Rattle.symbols.specs.Texts.{ServesText};
ghost use Rattle.st_decl.specs.Entries.{of_each, entry_view, array_of};

use crate::declared_types::wrong_element;
use st_decl::Entry;
use st_rules::BrokenRules;
use st_types::ArrayType;
use st_typing::wrong_number;
use symbols::{TextNames, TextTables};

/// Adds the faults in the types of elements.
pub fn wrong_elements(
    names: &TextNames,
    tables: &TextTables,
    entries: &[Entry],
    broken: &mut BrokenRules,
)
    ensures { (text : Declared) → ServesText names.now text → ServesTables tables.now text
        → Collects (flat_map (λ e. of_each (wrong_element text) (array_of e)) (map entry_view entries.now)) broken.old
        broken.new }
{
    for entry in entries {
        if let Some(array) = entry.array() {
            wrong_element(names, tables, array, broken);
        }
    }
}

/// Adds the bounds of an array that are outside their types.
fn wrong_bound(array: &ArrayType, broken: &mut BrokenRules)
    ensures { Collects (wrong_bound_numbers array.now) broken.old broken.new }
{
    wrong_number(None, &array.lower, broken);
    wrong_number(None, &array.upper, broken);
}

/// Adds the bounds of arrays that are outside their types.
pub fn wrong_bounds(entries: &[Entry], broken: &mut BrokenRules)
    ensures { Collects (flat_map (λ e. of_each wrong_bound_numbers (array_of e)) (map entry_view entries.now))
        broken.old broken.new }
{
    for entry in entries {
        if let Some(array) = entry.array() {
            wrong_bound(array, broken);
        }
    }
}
