//! Enumerated types with too many names (C13).

ghost use Rattle.std.specs.Prelude.{◌≡◌, map};
ghost use Rattle.std.specs.List.{flat_map};
ghost use Rattle.st_rules.specs.declared.reason.Reason.TheVariants.{SurplusName};
ghost use Rattle.st_rules.specs.Collecting.{Collects};
ghost use Rattle.st_rules.specs.Faults.{breaking};
ghost use Rattle.st_rules.specs.TypeRules.{surplus_name};
ghost use Rattle.st_check.specs.Surplus.{is_cons};
ghost use Rattle.st_decl.specs.Entries.{of_each, entry_view, enumeration_of};

use st_decl::Entry;
use st_rules::limits::MAX_NAMES;
use st_rules::{Broken, BrokenRules, Reason};
use st_types::Identifier;

/// Adds the first name beyond the last one that an enumerated type may have; whether there is one.
fn surplus_name(names: &[Identifier], broken: &mut BrokenRules) -> bool
    ensures broken { Collects (breaking SurplusName (surplus_name names.now)) broken.old broken.new }
    ensures found { result ≡ is_cons (surplus_name names.now) }
{
    match names.get(MAX_NAMES) {
        Some(name) => {
            broken.add(Broken {
                reason: Reason::SurplusName,
                place: name.place,
            });
            true
        }
        None => false,
    }
}

/// Adds the names beyond the last ones that enumerated types may have (C13); whether there are any.
pub fn surplus_names(entries: &[Entry], broken: &mut BrokenRules) -> bool
    ensures broken { Collects (flat_map (λ e. breaking SurplusName (of_each surplus_name (enumeration_of e)))
        (map entry_view entries.now)) broken.old broken.new }
    ensures found { result
        ≡ is_cons (flat_map (λ e. of_each surplus_name (enumeration_of e)) (map entry_view entries.now)) }
{
    let mut found = false;
    for entry in entries {
        if let Some(names) = entry.enumeration() {
            found = surplus_name(names, broken) || found;
        }
    }
    found
}
