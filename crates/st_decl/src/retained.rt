//! Globals at an address in a block of retained ones (C11).

ghost use Rattle.std.specs.Prelude.{map};
ghost use Rattle.std.specs.List.{flat_map};
ghost use Rattle.st_types.specs.ConfigurationViews.{global_declaration_view};
ghost use Rattle.st_rules.specs.declared.reason.Reason.TheVariants.{RetainedAddress};
ghost use Rattle.st_rules.specs.Collecting.{Collects};
ghost use Rattle.st_rules.specs.Faults.{breaking};
ghost use Rattle.st_rules.specs.TypeRules.{retained_address};
ghost use Rattle.st_decl.specs.Entries.{entry_view, retained_address_of};

use crate::entries::Entry;
use st_rules::{BrokenRules, Reason};
use st_types::{GlobalDeclaration, GlobalNames, GlobalQualifier};

fn retained_address(
    qualifier: Option<GlobalQualifier>,
    declaration: &GlobalDeclaration,
    broken: &mut BrokenRules,
)
    ensures { Collects (breaking RetainedAddress
        (retained_address qualifier (global_declaration_view declaration.now).names)) broken.old broken.new }
{
    let is_retained = matches!(qualifier, Some(GlobalQualifier::Retain));
    match &declaration.names {
        GlobalNames::Located(name, _) => {
            broken.add_in_case(is_retained, Reason::RetainedAddress, name.place);
        }
        GlobalNames::Listed(_) => {}
    }
}

/// Adds globals that are retained and have an address (C11).
pub fn retained_addresses(entries: &[Entry], broken: &mut BrokenRules)
    ensures { Collects (flat_map (λ e. breaking RetainedAddress (retained_address_of e)) (map entry_view entries.now))
        broken.old broken.new }
{
    for entry in entries {
        if let Entry::Global(qualifier, declaration) = entry {
            retained_address(*qualifier, declaration, broken);
        }
    }
}
