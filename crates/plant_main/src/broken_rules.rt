//! All rules that a refused text breaks, for a person.

use config::add_broken_rules;
use diagnostics::write_rules;
use st_rules::{Broken, BrokenRules};
use std::alloc::{AllocError, Global};
use std::io;
use std::io::Write;

/// The number of broken rules that are shown at most.
const MOST_SHOWN: usize = 100;

/// Whether the rule is among the broken ones at its place.
fn is_among(shown: &[Broken], broken: &Broken) -> bool {
    let rule = broken.reason.rule();
    let mut at_place = shown.iter().rev().take_while(|it| it.place == broken.place);
    at_place.any(|it| it.reason.rule() == rule)
}

/// The broken rules in the order of the text. If a rule is broken at a place for several reasons, the one that was found first.
fn in_order(alloc: Global, found: &[Broken]) -> Result<Vec<Broken>, AllocError> {
    let mut sorted = Vec::new(alloc);
    for broken in found {
        sorted.push(*broken)?;
    }
    sorted.sort_by_key(|broken| broken.place)?;
    let mut shown = Vec::new(alloc);
    for broken in &sorted {
        if !is_among(&shown, broken) {
            shown.push(*broken)?;
        }
    }
    Ok(shown)
}

/// Writes how many errors there are, if there is more than one.
fn write_count<E: Write>(err: &mut E, count: usize, is_full: bool) -> io::Result<()> {
    if is_full {
        return writeln!(err, "{count} errors are shown; there may be more");
    }
    if 1 < count {
        return writeln!(err, "{count} errors");
    }
    Ok(())
}

/// Writes the view of each rule that a text breaks, in the order of the text, but no more than 100; returns whether there are
/// any.
pub(crate) fn write_broken_rules<E: Write>(
    alloc: Global,
    err: &mut E,
    name: &str,
    text: &[u8],
) -> io::Result<bool> {
    let mut broken = BrokenRules::with_room(alloc, MOST_SHOWN)?;
    // If memory runs out, those that were found until then are shown.
    let _ = add_broken_rules(alloc, text, &mut broken);
    let shown = in_order(alloc, broken.found())?;
    write_rules(alloc, err, name, text, &shown)?;
    write_count(err, shown.len(), broken.is_full())?;
    Ok(!shown.is_empty())
}
