//! Lines and columns of a text.

ghost use Rattle.std.specs.Prelude.{◌≡◌, ◌+◌, ◌<◌, ◌≤◌, ◌^◌, length, count_by};
ghost use Rattle.std.specs.List.{prefix_len, suffix_len};
ghost use Rattle.diagnostics.specs.Lines as lines;

/// A place of a text as editors give it, and the bounds of its line.
#[derive(Clone, Copy, Debug, PartialEq, Eq)]
pub struct Position {
    /// The number of its line, from 1.
    pub line: usize,
    /// Its column in bytes, from 1.
    pub column: usize,
    /// The offset of the line's first byte.
    pub start: usize,
    /// The offset after the line's last byte: of the LF that ends it, or the end of the text.
    pub end: usize,
}

fn line_ends(text: &[u8]) -> usize
    ensures value { result ≡ count_by lines.is_line_end text.now }
    ensures bound { result ≤ length text.now }
{
    text.iter().filter(|b| **b == b'\n').count()
}

/// How many bytes come after the last LF.
fn last_line_length(text: &[u8]) -> usize
    ensures value { result ≡ suffix_len lines.is_inside text.now }
    ensures bound { result ≤ length text.now }
{
    text.iter().rev().take_while(|b| **b != b'\n').count()
}

/// How many bytes come before the first LF.
fn first_line_length(text: &[u8]) -> usize
    ensures value { result ≡ prefix_len lines.is_inside text.now }
    ensures bound { result ≤ length text.now }
{
    text.iter().take_while(|b| **b != b'\n').count()
}

/// The position of the byte at an offset. An offset beyond the text counts as its end.
pub fn position_of(text: &[u8], offset: usize) -> Position
    ensures line { length text.now + 1 < 2 ^ 64 → result.line ≡ lines.line_number text.now offset }
    ensures column { length text.now + 1 < 2 ^ 64 → result.column ≡ lines.column_number text.now offset }
    // The line begins after the last LF before the place, and ends at the next one.
    ensures start { offset ≤ length text.now → result.start + lines.bytes_from_start text.now offset ≡ offset }
    ensures end { offset ≤ length text.now → result.end ≡ offset + lines.bytes_to_end text.now offset }
    ensures within { result.end ≤ length text.now }
    ensures ordered { result.start ≤ result.end }
{
    let (before, behind) = text.split_at(offset.min(text.len()));
    let column = last_line_length(before);
    Position {
        line: line_ends(before).saturating_add(1),
        column: column.saturating_add(1),
        start: before.len() - column,
        end: before.len() + first_line_length(behind),
    }
}
