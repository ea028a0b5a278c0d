//! The values that a plan's variables take from a record of another layout text.

ghost use Rattle.std.specs.Prelude.{◌≡◌, ◌<◌, ◌≤◌, List, ℕ, length, map, vec_capacity, vec_items};
ghost use Rattle.std.specs.List.{IsDistinct};
ghost use Rattle.std.specs.Str.{bytes_eq};
ghost use Rattle.retain_records.specs.ContentLines.{lines_in};
ghost use Rattle.retain_records.specs.Lines.{lines_of};
ghost use Rattle.retain_records.specs.Matching.{numbered, all_restored};
ghost use Rattle.retain_records.specs.Marked.{restored_rest, with_number_at};

use crate::line_index::{LineIndex, place_of};
use crate::written_lines::line_at;
use indexmap::IndexSet;
use st_types::Value;

/// The value with the number of another one, if its type holds that number.
pub fn numbered(value: Value, other: Value) -> Option<Value>
    ensures { result ≡ numbered value.kind other.number }
{
    match Value::new(value.kind(), other.number()) {
        Ok(told) => Some(told),
        Err(_) => None,
    }
}

/// Gives the value at a place the number of another one, and marks it, if it is not marked yet and its type holds the
/// number.
fn give(values: &mut Vec<Value>, marks: &mut Vec<bool>, place: usize, other: Value)
    requires { place < length marks.old.items }
    ensures values { values.new.items ≡ (with_number_at place other.number values.old.items marks.old.items).values }
    ensures marks { marks.new.items ≡ (with_number_at place other.number values.old.items marks.old.items).marks }
    ensures capacity { vec_capacity values.old ≤ vec_capacity values.new }
{
    if place >= values.len() {
        return;
    }
    if marks[place] {
        return;
    }
    if let Some(told) = numbered(values[place], other) {
        values[place] = told;
        marks[place] = true;
    }
}

/// Gives each value that is not marked the number in the first line of a record that is written like its own and whose
/// number its type holds.
fn take_lines(
    values: &mut Vec<Value>,
    marks: &mut Vec<bool>,
    lines: &IndexSet<Vec<u8>>,
    text: &[u8],
    told: &[Value],
)
    requires marks { length marks.old.items ≡ length lines.now.keys }
    requires different { IsDistinct bytes_eq (map vec_items lines.now.keys) }
    ensures items { values.new.items
        ≡ restored_rest (map vec_items lines.now.keys) marks.old.items (lines_in text.now told.now) values.old.items }
    ensures marks { length marks.new.items ≡ length marks.old.items }
    ensures capacity { vec_capacity values.old ≤ vec_capacity values.new }
{
    let mut text = text;
    let mut told = told;
    while let Some((first, others)) = told.split_first() {
        let Some(line) = line_at(text) else {
            return;
        };
        if let Some(place) = place_of(lines, line.written) {
            give(values, marks, place, *first);
        }
        text = line.behind;
        told = others;
    }
}

/// Gives each value, in the order of the lines of a layout text, the number in the line of its path and type, if a
/// record of this text and these values has it. It reads the text once and allocates nothing.
pub fn restore_from(values: &mut Vec<Value>, lines: &mut LineIndex, text: &[u8], told: &[Value])
    ensures items { (layout : List ℕ) → lines.old ≡ lines_of layout
        → values.new.items ≡ all_restored layout (lines_in text.now told.now) values.old.items }
    ensures lines { lines.new ≡ lines.old }
    ensures capacity { vec_capacity values.old ≤ vec_capacity values.new }
{
    lines.marks.fill(false);
    take_lines(values, &mut lines.marks, &lines.lines, text, told);
}
