//! The lines of a record for a variable.

ghost use Rattle.std.specs.Prelude.{◌≡◌, IfOk, map, option_map, unwrap_or};
ghost use Rattle.retain_records.specs.Matching.{numbered_by};
ghost use Rattle.retain_show.specs.Against.{line_with_path};
ghost use Rattle.retain_show.specs.InitialLines.{dropped_in, fate_in, is_dropped, kept_line, line_view};
ghost use Rattle.retain_show.specs.InitialLines.{match_view, matched, own_line, restored_in};

use crate::fate::Fate;
use crate::written_lines::Line;
use retain_records::numbered;
use st_types::Value;
use std::alloc::{AllocError, Global};

/// The value that a variable takes from a line, if it is its own: one with its path and its type, as they are written,
/// and a number that the type holds.
fn taken_from(wanted: &Line, line: &Line) -> Option<Value>
    ensures { result ≡ restored_in wanted.now.path.items wanted.now.spelling.items wanted.now.value
        (kept_line (line_view line.now)) }
{
    if wanted.path != line.path || wanted.spelling != line.spelling {
        return None;
    }
    numbered(wanted.value, line.value)
}

/// The value that a variable takes from its own line, if there is one.
fn own_value(wanted: &Line, lines: &[Line]) -> Option<Value>
    ensures { result ≡ option_map (numbered_by wanted.now.value)
        (own_line (map line_view lines.now) (line_view wanted.now)) }
{
    for line in lines {
        if let Some(value) = taken_from(wanted, line) {
            return Some(value);
        }
    }
    None
}

/// The first line with this path.
pub(crate) fn line_with_path<'a>(path: &[u8], lines: &'a [Line]) -> Option<&'a Line>
    ensures { option_map (λ l. line_view l.now) result ≡ line_with_path path.now (map line_view lines.now) }
{
    for line in lines {
        if path == line.path.as_slice() {
            return Some(line);
        }
    }
    None
}

/// A variable, and its part of a record.
#[derive(Clone, Copy)]
pub(crate) struct Match<'a> {
    pub wanted: &'a Line,
    /// The value in its own line.
    pub own: Option<Value>,
    /// The first line of its path.
    pub other: Option<&'a Line>,
}

impl Match<'_> {
    /// The fate of the variable at a start.
    pub fn fate(&self) -> Fate
        ensures { result ≡ fate_in (match_view self.now) }
    {
        Fate::by(self.own.is_some(), self.other.is_some())
    }

    /// The value that it starts with: that in its own line, or else its initial value.
    pub fn value(&self) -> Value
        ensures { result ≡ unwrap_or self.now.own self.now.wanted.now.value }
    {
        match self.own {
            Some(value) => value,
            None => self.wanted.value,
        }
    }
}

/// A variable, and its part of these lines.
pub(crate) fn matched<'a>(wanted: &'a Line, lines: &'a [Line]) -> Match<'a>
    ensures { match_view result ≡ matched (map line_view lines.now) (line_view wanted.now) }
{
    Match {
        wanted,
        own: own_value(wanted, lines),
        other: line_with_path(&wanted.path, lines),
    }
}

/// Whether no variable has the path of a line.
pub(crate) fn is_dropped(wanted: &[Line], line: &Line) -> bool
    ensures { result ≡ is_dropped (map line_view wanted.now) (line_view line.now) }
{
    line_with_path(&line.path, wanted).is_none()
}

/// The lines that are dropped.
pub(crate) fn dropped_in<'a>(
    alloc: Global,
    wanted: &[Line],
    lines: &'a [Line],
) -> Result<Vec<&'a Line>, AllocError>
    ensures { IfOk result (λ dropped. map (λ l. line_view l.now) dropped.items
        ≡ dropped_in (map line_view lines.now) (map line_view wanted.now)) }
{
    let mut dropped = Vec::new(alloc);
    for line in lines {
        if is_dropped(wanted, line) {
            dropped.push(line)?;
        }
    }
    Ok(dropped)
}
