//! The initial values of a text (C1, C3, C4).

ghost use Rattle.std.specs.Prelude.{IfOk};
ghost use Rattle.st_types.specs.Sources as tree;
ghost use Rattle.st_rules.specs.Collecting.{Adds, Covers};
ghost use Rattle.st_rules.specs.Rules.{wrong_starts};
ghost use Rattle.st_check.specs.Lookups.{ServesSource};

use crate::initials::wrong_starts_of;
use crate::lookups::Lookups;
use st_decl::starts_of;
use st_rules::BrokenRules;
use std::alloc::{AllocError, Global};

/// Adds the faults in the initial values of a text.
pub fn wrong_starts(
    alloc: Global,
    lookups: &Lookups,
    broken: &mut BrokenRules,
) -> Result<(), AllocError>
    ensures adds { (source : tree.Source) → ServesSource lookups.now source
        → Adds (wrong_starts source) broken.old broken.new }
    ensures covers { IfOk result (λ done. (source : tree.Source) → ServesSource lookups.now source
        → Covers (wrong_starts source) broken.new) }
{
    let names = &lookups.names;
    let fields = &lookups.fields;
    let starts = starts_of(alloc, names, fields, &lookups.declarings)?;
    wrong_starts_of(names, &lookups.tables, fields, &starts, broken);
    Ok(())
}
