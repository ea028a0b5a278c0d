//! The head of a trace: how its life was started.

ghost use Rattle.std.specs.Prelude.{◌++◌, codes, option_map};
ghost use Rattle.durable_core.specs.declared.starting.StartMode.{StartMode};
ghost use Rattle.trace.specs.Reads.{BeginsWith, FieldSpells};
ghost use Rattle.trace.specs.Heads.{MayBegin, begin_of};
ghost use Rattle.trace.specs.Texts.{line, mode_text, moment_text};
ghost use Rattle.retain_records.specs.RecordLaws.{IsMoment};

use crate::parts::{after_count, after_words, first_field};
use durable_core::StartMode;
use st_print::number;

/// How a life was started, and the text after this line.
fn mode(text: &[u8]) -> Option<(StartMode, &[u8])>
    ensures { BeginsWith (λ (m : StartMode). Unit {0}) (λ m. line (codes "start " ++ mode_text m)) text.now
        (option_map (λ p. (p.0, p.1.now)) result) }
{
    if let Some(rest) = after_words(text, b"start warm\n") {
        return Some((StartMode::Warm, rest));
    }
    let rest = after_words(text, b"start cold\n")?;
    Some((StartMode::Cold, rest))
}

/// The moment in a field, or that there is none.
fn moment_of(field: &[u8]) -> Option<Option<u64>>
    ensures { FieldSpells IsMoment moment_text field.now result }
{
    if field == b"none".as_slice() {
        return Some(None);
    }
    let moment = number::moment(field)?;
    Some(Some(moment))
}

/// The moment that rows have to be later than, if there is one, and the text after this line.
pub fn moment(text: &[u8]) -> Option<(Option<u64>, &[u8])>
    ensures { BeginsWith IsMoment (λ m. line (codes "moment " ++ moment_text m)) text.now
        (option_map (λ p. (p.0, p.1.now)) result) }
{
    let words = after_words(text, b"moment ")?;
    let (field, rest) = first_field(b'\n', words)?;
    let moment = moment_of(field)?;
    Some((moment, rest))
}

/// How a life was started, its moment, and the text after these lines.
pub fn begin(budget: u32, text: &[u8]) -> Option<(StartMode, Option<u64>, &[u8])>
    ensures { BeginsWith MayBegin (begin_of budget) text.now (option_map (λ p. ((p.0, p.1), p.2.now)) result) }
{
    let lines = after_words(text, b"trace 1\n")?;
    let lines = after_count(lines, b"budget ", budget as u64)?;
    let (mode, lines) = mode(lines)?;
    let (moment, lines) = moment(lines)?;
    Some((mode, moment, lines))
}
