//! Lines of records.

ghost use Rattle.std.specs.Prelude.{◌≡◌, IfOk, map};
ghost use Rattle.retain_show.specs.Against.{valued_lines};
ghost use Rattle.retain_show.specs.InitialLines.{line_view};

use retain_records::{Words, words_at};
use st_types::Value;
use std::alloc::{AllocError, Global};

/// A path and a type, as they are written, and a value: a line of a record, or a variable with its initial value.
#[derive(Drop)]
pub(crate) struct Line {
    pub path: Vec<u8>,
    pub spelling: Vec<u8>,
    pub value: Value,
}

/// A line with these words and this value.
fn line_with(alloc: Global, words: &Words<'_>, value: Value) -> Result<Line, AllocError>
    ensures { IfOk result
        (λ line. line_view line
        ≡ record { path = words.now.path.now; spelling = words.now.spelling.now; value = value }) }
{
    Ok(Line {
        path: Vec::from_slice(alloc, words.path)?,
        spelling: Vec::from_slice(alloc, words.spelling)?,
        value,
    })
}

/// The lines of a layout text, each with its value.
pub(crate) fn valued_lines(
    alloc: Global,
    layout: &[u8],
    values: &[Value],
) -> Result<Vec<Line>, AllocError>
    ensures { IfOk result (λ lines. map line_view lines.items ≡ valued_lines layout.now values.now) }
{
    let mut lines = Vec::new(alloc);
    let mut rest = layout;
    for value in values {
        let Some(words) = words_at(rest) else {
            return Ok(lines);
        };
        lines.push(line_with(alloc, &words, *value)?)?;
        rest = words.behind;
    }
    Ok(lines)
}
