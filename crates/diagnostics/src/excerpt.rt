//! The line of a place, with a caret under it.

ghost use Rattle.std.specs.Prelude.{◌≡◌, ◌≤◌, length};

use crate::page::Page;
use crate::part::{part, word_length};
use crate::position::Position;
use std::alloc::AllocError;

/// The most bytes of a line that are shown.
const MAX_SHOWN: usize = 100;

/// The part of a line that is shown: the offset of its first byte, and the offset after its last one.
#[derive(Clone, Copy)]
struct Window {
    from: usize,
    to: usize,
    ghost ordered: { from ≤ to },
}

/// A line up to a length as it is; of a longer one the part around a place.
fn window_around(len: usize, place: usize) -> Window
    requires { place ≤ len }
    ensures within { result.to ≤ len }
    ensures before { result.from ≤ place }
    ensures behind { place ≤ result.to }
{
    if len <= MAX_SHOWN {
        return Window { from: 0, to: len };
    }
    let from = place.saturating_sub(MAX_SHOWN / 2).min(len - MAX_SHOWN);
    Window {
        from,
        to: from + MAX_SHOWN,
    }
}

/// A line without the CR at its end.
fn without_return(line: &[u8]) -> &[u8] {
    match line {
        [front @ .., b'\r'] => front,
        _ => line,
    }
}

/// Appends the part of a line that is shown, with `...` for the parts cut off before and after it.
fn put_source(page: &mut Page, line: &[u8], shown: Window) -> Result<(), AllocError>
    requires { shown.to ≤ length line.now }
{
    if shown.from > 0 {
        page.put(b"...")?;
    }
    page.put_line(&line[shown.from..shown.to])?;
    if shown.to < line.len() {
        page.put(b"...")?;
    }
    page.end_line()
}

/// Appends the caret under a place of a line, and `~` under the rest of the word there.
fn put_caret(page: &mut Page, line: &[u8], shown: Window, place: usize) -> Result<(), AllocError>
    requires within { shown.to ≤ length line.now }
    requires before { shown.from ≤ place }
    requires behind { place ≤ shown.to }
{
    if shown.from > 0 {
        page.repeat(b' ', 3)?;
    }
    page.put_below(&line[shown.from..place])?;
    page.put(b"^")?;
    let word = word_length(&line[place..shown.to]);
    page.repeat(b'~', word.saturating_sub(1))?;
    page.end_line()
}

/// Appends the margin before a row: as wide as a line's number, and empty.
fn put_margin(page: &mut Page, number: &[u8]) -> Result<(), AllocError> {
    page.repeat(b' ', number.len())?;
    page.put(b" |")
}

/// Appends a line as it is shown, with a caret under one of its bytes or after its last one.
fn put_line(page: &mut Page, line: &[u8], place: usize, number: &[u8]) -> Result<(), AllocError>
    requires { place ≤ length line.now }
{
    let shown = window_around(line.len(), place);
    page.put(number)?;
    page.put(b" | ")?;
    put_source(page, line, shown)?;
    put_margin(page, number)?;
    page.put(b" ")?;
    put_caret(page, line, shown, place)
}

/// Appends the line of a place under an empty row, and a caret under it. The line has this number.
pub fn put_excerpt(
    page: &mut Page,
    text: &[u8],
    position: Position,
    number: &[u8],
) -> Result<(), AllocError> {
    let line = without_return(part(text, position.start, position.end));
    let place = position.column.saturating_sub(1).min(line.len());
    put_margin(page, number)?;
    page.end_line()?;
    put_line(page, line, place, number)
}
