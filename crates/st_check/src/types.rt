//! The types and the numbers of a text's declarations (C1, C3, C4).

ghost use Rattle.st_types.specs.Sources as tree;
ghost use Rattle.st_rules.specs.Collecting.{Collects};
ghost use Rattle.st_check.specs.Lookups.{ServesSource};
ghost use Rattle.st_check.specs.Surplus.{types_beside_surplus};

use crate::arrays::{wrong_bounds, wrong_elements};
use crate::declared_types::{wrong_declarings, wrong_results};
use crate::lookups::Lookups;
use crate::priorities::wrong_priorities;
use st_rules::BrokenRules;

/// Adds the faults in the types and the numbers of a text's declarations, but for names of enumerated types.
pub fn wrong_types(lookups: &Lookups, broken: &mut BrokenRules)
    ensures { (source : tree.Source) → ServesSource lookups.now source
        → Collects (types_beside_surplus source) broken.old broken.new }
{
    let (names, tables) = (&lookups.names, &lookups.tables);
    let entries = lookups.entries;
    wrong_declarings(names, tables, entries, broken);
    wrong_elements(names, tables, entries, broken);
    wrong_results(names, tables, entries, broken);
    wrong_bounds(entries, broken);
    wrong_priorities(entries, broken);
}
