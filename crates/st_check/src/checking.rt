//! Texts, judged by all rules.

ghost use Rattle.std.specs.Prelude.{◌≡◌, map, IfOk};
ghost use Rattle.st_types.specs.SourceViews.{source_view};
ghost use Rattle.st_rules.specs.Collecting.{Adds, Covers};
ghost use Rattle.st_rules.specs.Rules as rules;
ghost use Rattle.st_decl.specs.Entries.{entry_view, entries_in};
ghost use Rattle.st_decl.specs.Judgements.{Judges};
ghost use Rattle.st_check.specs.Complete.{CoversText};
ghost use Rattle.st_check.specs.Surplus.{wrong_by_names};

use crate::bodies::wrong_bodies;
use crate::enumerations::surplus_names;
use crate::lookups::Lookups;
use crate::starts::wrong_starts;
use crate::types::wrong_types;
use st_decl::{CheckError, Entry, answered, entries_in, wrong_declarations};
use st_rules::BrokenRules;
use st_types::Source;
use std::alloc::{AllocError, Global};

/// Adds the rules that a text breaks beyond those on declarations alone, if no enumerated type has too many names.
fn wrong_by_names<'a>(
    alloc: Global,
    source: &'a Source,
    entries: &[Entry<'a>],
    broken: &mut BrokenRules,
) -> Result<(), AllocError>
    requires { map entry_view entries.now ≡ entries_in (source_view source.now) }
    ensures adds { Adds (wrong_by_names (source_view source.now)) broken.old broken.new }
    ensures covers { IfOk result (λ done. Covers (wrong_by_names (source_view source.now)) broken.new) }
{
    let lookups = Lookups::new(alloc, source, entries)?;
    wrong_types(&lookups, broken);
    wrong_starts(alloc, &lookups, broken)?;
    wrong_bodies(alloc, &lookups.tables, &lookups.units, broken)
}

/// Adds the rules that a text breaks, in the order in which they are looked for, until there is no room. If an
/// enumerated type has too many names (C13), its table has no room for them, and no name of the text is looked up.
/// The only error is out of memory; what was found until then stays.
pub fn judge_all(alloc: Global, source: &Source, broken: &mut BrokenRules) -> Result<(), AllocError>
    ensures adds { Adds (rules.broken (source_view source.now)) broken.old broken.new }
    ensures covers { IfOk result (λ done. CoversText (source_view source.now) broken.new) }
{
    let entries = entries_in(alloc, source)?;
    wrong_declarations(alloc, source, &entries, broken)?;
    if surplus_names(&entries, broken) {
        return Ok(());
    }
    if broken.is_full() {
        return Ok(());
    }
    wrong_by_names(alloc, source, &entries, broken)
}

/// Judges a text by all rules. It accepts exactly if none is broken anywhere; else it reports one that is, with its
/// place, or that memory ran out (C12).
pub fn judge(alloc: Global, source: &Source) -> Result<(), CheckError>
    ensures { Judges (rules.broken (source_view source.now)) result }
{
    match BrokenRules::with_room(alloc, 1) {
        Ok(mut broken) => {
            let ended = judge_all(alloc, source, &mut broken);
            answered(ended, &broken)
        }
        Err(_) => Err(CheckError::OutOfMemory),
    }
}
