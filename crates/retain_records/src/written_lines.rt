//! The lines of a layout text, as they are written.

ghost use Rattle.std.specs.Prelude.{◌≡◌, option_map};
ghost use Rattle.retain_records.specs.ContentLines.{words_at};
ghost use Rattle.retain_records.specs.Lines.{line_at};

use crate::splitting::split_at;

/// The path and the type of the first line of a layout text, as they are written, and the text after it.
#[derive(Clone, Copy)]
pub struct Words<'a> {
    pub path: &'a [u8],
    pub spelling: &'a [u8],
    pub behind: &'a [u8],
}

/// The words of the first line of a layout text; none if no line `PATH TYPE` is whole.
pub fn words_at(text: &[u8]) -> Option<Words<'_>>
    ensures { option_map (λ w. record { path = w.path.now; spelling = w.spelling.now; behind = w.behind.now }) result
        ≡ words_at text.now }
{
    let (path, rest) = split_at(b' ', text)?;
    let (spelling, behind) = split_at(b'\n', rest)?;
    Some(Words {
        path,
        spelling,
        behind,
    })
}

/// The first line of a layout text, without its end, and the text after it.
#[derive(Clone, Copy)]
pub(crate) struct Line<'a> {
    pub written: &'a [u8],
    pub behind: &'a [u8],
}

/// The first line of a layout text.
pub(crate) fn line_at(text: &[u8]) -> Option<Line<'_>>
    ensures { option_map (λ l. (l.written.now, l.behind.now)) result ≡ line_at text.now }
{
    let words = words_at(text)?;
    Some(Line {
        written: &text[..words.path.len() + 1 + words.spelling.len()],
        behind: words.behind,
    })
}
