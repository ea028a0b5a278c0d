//! The rules on declarations alone.

ghost use Rattle.std.specs.Prelude.{◌≡◌, map, IfOk};
ghost use Rattle.std.specs.List.{flat_map};
ghost use Rattle.st_types.specs.SourceViews.{source_view};
ghost use Rattle.st_meaning.specs.NameTypes.{declared_in};
ghost use Rattle.st_rules.specs.Collecting.{Adds, Covers};
ghost use Rattle.st_rules.specs.DeclaredTypes.{declarings_in};
ghost use Rattle.st_rules.specs.InitialRules.{too_long};
ghost use Rattle.st_rules.specs.Rules.{starts_in, wrong_declarations};
ghost use Rattle.st_decl.specs.DeclaringViews.{declaring_view};
ghost use Rattle.st_decl.specs.Entries.{entry_view, entries_in};
ghost use Rattle.st_decl.specs.Judgements.{Judges};

use crate::arrays::{unnamed_arrays, wrong_arrays};
use crate::declarings::{Declaring, declarings_of};
use crate::elements::types_in;
use crate::entries::{Entry, entries_in};
use crate::judging::{CheckError, answered};
use crate::long_lists::long_lists;
use crate::retained::retained_addresses;
use crate::starts::starts_of;
use crate::too_deep::too_deep;
use crate::twice_declared::twice_declared;
use st_rules::BrokenRules;
use st_types::Source;
use std::alloc::{AllocError, Global};
use symbols::{FieldNames, TextNames};

/// Adds lists that are too long for their arrays (C8).
fn wrong_lists<'a>(
    alloc: Global,
    source: &'a Source,
    declarings: &[Declaring<'a>],
    broken: &mut BrokenRules,
) -> Result<(), AllocError>
    requires { map declaring_view declarings.now ≡ declarings_in (source_view source.now) }
    ensures adds { Adds
        (flat_map (too_long (declared_in (source_view source.now))) (starts_in (source_view source.now))) broken.old
        broken.new }
    ensures covers { IfOk result (λ done. Covers
        (flat_map (too_long (declared_in (source_view source.now))) (starts_in (source_view source.now))) broken.new) }
{
    let names = TextNames::new(alloc, source)?;
    let types = types_in(alloc, source)?;
    let fields = FieldNames::new(alloc, &types)?;
    let starts = starts_of(alloc, &names, &fields, declarings)?;
    long_lists(&names, &starts, broken);
    Ok(())
}

/// Adds the rules that declarations alone break: names (C2), types and units that contain themselves or are too deep
/// (C6), bounds of arrays and lengths of lists (C8), addresses (C11).
pub fn wrong_declarations<'a>(
    alloc: Global,
    source: &'a Source,
    entries: &[Entry<'a>],
    broken: &mut BrokenRules,
) -> Result<(), AllocError>
    requires { map entry_view entries.now ≡ entries_in (source_view source.now) }
    ensures adds { Adds (wrong_declarations (source_view source.now)) broken.old broken.new }
    ensures covers { IfOk result (λ done. Covers (wrong_declarations (source_view source.now)) broken.new) }
{
    twice_declared(alloc, source, broken)?;
    let declarings = declarings_of(alloc, entries)?;
    let arrays = unnamed_arrays(alloc, &declarings)?;
    too_deep(alloc, source, &arrays, broken)?;
    wrong_arrays(entries, broken);
    wrong_lists(alloc, source, &declarings, broken)?;
    retained_addresses(entries, broken);
    Ok(())
}

fn judge(alloc: Global, source: &Source, broken: &mut BrokenRules) -> Result<(), AllocError>
    ensures adds { Adds (wrong_declarations (source_view source.now)) broken.old broken.new }
    ensures covers { IfOk result (λ done. Covers (wrong_declarations (source_view source.now)) broken.new) }
{
    let entries = entries_in(alloc, source)?;
    wrong_declarations(alloc, source, &entries, broken)
}

/// Judges a text by the rules on declarations alone: names (C2), types and units that contain themselves or are too
/// deep (C6), bounds of arrays and lengths of lists (C8), addresses (C11). It accepts exactly if none of them is broken
/// anywhere; else it reports one that is, with its place, or that there is no memory (C12).
pub fn declare(alloc: Global, source: &Source) -> Result<(), CheckError>
    ensures { Judges (wrong_declarations (source_view source.now)) result }
{
    match BrokenRules::with_room(alloc, 1) {
        Ok(mut broken) => {
            let ended = judge(alloc, source, &mut broken);
            answered(ended, &broken)
        }
        Err(_) => Err(CheckError::OutOfMemory),
    }
}
