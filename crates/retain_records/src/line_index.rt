//! The lines of a layout text by their spelling.

ghost use Rattle.std.specs.Prelude.{◌≡◌, ◌<◌, List, ℕ, length, map, vec_items, IfOk, IfSome};
ghost use Rattle.std.specs.List.{IsDistinct};
ghost use Rattle.std.specs.Str.{bytes_eq};
ghost use Rattle.retain_records.specs.Lines.{lines_of, place_of};

use crate::written_lines::line_at;
use indexmap::IndexSet;
use std::alloc::{AllocError, Global};
use std::marker::Model;

/// The lines of a layout text by their spelling, with a mark for each, so that a record's lines are found among them at
/// once and without memory. Contracts see the lines, in their order.
#[derive(Drop)]
pub struct LineIndex {
    pub(crate) lines: IndexSet<Vec<u8>>,
    /// Whether the value of a line has its number, by the line's place.
    pub(crate) marks: Vec<bool>,
}

impl Model for LineIndex {
    ghost use Rattle.std.specs.Prelude.{List, ℕ};

    ghost Value = { List (List ℕ) };

    ghost use Rattle.std.specs.Prelude.{◌≡◌, length, map, vec_items, bytes_eq};
    ghost use Rattle.std.specs.List.{IsDistinct};

    ghost view = { λ l. map vec_items l.lines.keys };

    ghost invariant = { λ l. IsDistinct bytes_eq (map vec_items l.lines.keys)
        × (length l.marks.items ≡ length l.lines.keys) };
}

impl LineIndex {
    /// The lines of a layout text in which no line occurs twice.
    pub fn new(alloc: Global, layout: &[u8]) -> Result<LineIndex, AllocError>
        requires different { IsDistinct bytes_eq (lines_of layout.now) }
        ensures { IfOk result (λ lines. lines ≡ lines_of layout.now) }
    {
        let lines = indexed(alloc, layout)?;
        let marks = vec![in alloc; false; lines.len()]?;
        Ok(LineIndex { lines, marks })
    }
}

/// The lines of a layout text, in their order.
fn indexed(alloc: Global, layout: &[u8]) -> Result<IndexSet<Vec<u8>>, AllocError>
    requires different { IsDistinct bytes_eq (lines_of layout.now) }
    ensures { IfOk result (λ lines. map vec_items lines.keys ≡ lines_of layout.now) }
{
    let mut lines = IndexSet::new(alloc);
    let mut rest = layout;
    while let Some(line) = line_at(rest) {
        lines.insert(Vec::from_slice(alloc, line.written)?)?;
        rest = line.behind;
    }
    Ok(lines)
}

/// The place of the line that is written like this.
pub(crate) fn place_of(lines: &IndexSet<Vec<u8>>, written: &[u8]) -> Option<usize>
    ensures place { result ≡ place_of (map vec_items lines.now.keys) written.now }
    ensures within { IfSome result (λ place. place < length lines.now.keys) }
{
    lines.get_index_of(written)
}
