//! Findings on bytes that may not be in a source, or not outside comments (L1).

use crate::finding::Finding;
use crate::foreign_marks::foreign_mark;
use crate::part::part;
use std::alloc::{AllocError, Global};

fn is_allowed(byte: u8) -> bool {
    matches!(byte, b'\t' | b'\n' | b'\r' | 32..=126)
}

/// The first bytes of a text in another encoding.
struct Encoding {
    front: &'static [u8],
    /// What to do.
    help: &'static str,
}

static ENCODINGS: [Encoding; 3] = [
    Encoding {
        front: b"\xEF\xBB\xBF",
        help: "save the source without a byte order mark",
    },
    Encoding {
        front: b"\xFF\xFE",
        help: "save the source as ASCII, not as UTF-16",
    },
    Encoding {
        front: b"\xFE\xFF",
        help: "save the source as ASCII, not as UTF-16",
    },
];

/// A hint on a byte that no source has; `behind` begins with it.
fn help_of_byte(behind: &[u8]) -> &'static str {
    for encoding in &ENCODINGS {
        if behind.starts_with(encoding.front) {
            return encoding.help;
        }
    }
    match behind {
        [128..=255, ..] => "a source has ASCII characters alone, as `ue` for an umlaut",
        _ => "use printable ASCII characters",
    }
}

/// The finding on the first byte that isn't allowed in the comment at a place, at that byte.
fn comment_byte_reason(alloc: Global, text: &[u8], place: usize) -> Result<Finding, AllocError> {
    let comment = part(text, place, text.len());
    let before = comment.iter().take_while(|b| is_allowed(**b)).count();
    let wrong = part(comment, before, comment.len());
    match wrong {
        [byte, ..] => {
            let byte = *byte;
            let sentence = format!(in alloc; "the byte 0x{byte:02X} isn't allowed in a comment")?;
            Finding::new(sentence)
                .at(place.saturating_add(before))
                .with_help(alloc, help_of_byte(wrong))
        }
        [] => Finding::plain(alloc, "a byte in this comment isn't allowed"),
    }
}

/// The finding on a byte outside comments.
fn single_byte_reason(
    alloc: Global,
    text: &[u8],
    place: usize,
    byte: u8,
) -> Result<Finding, AllocError> {
    if !is_allowed(byte) {
        let sentence = format!(in alloc; "the byte 0x{byte:02X} isn't allowed here")?;
        let help = help_of_byte(part(text, place, text.len()));
        return Finding::new(sentence).with_help(alloc, help);
    }
    let character = char::from(byte);
    let sentence = format!(in alloc; "the byte 0x{byte:02X} (`{character}`) isn't allowed here")?;
    match foreign_mark(text, place) {
        Some(help) => Finding::new(sentence).with_help(alloc, help),
        None => Ok(Finding::new(sentence)),
    }
}

/// The finding on a byte that may not be there; if it is in a comment, the comment begins at the place.
pub fn byte_reason(alloc: Global, text: &[u8], place: usize) -> Result<Finding, AllocError> {
    match part(text, place, text.len()) {
        [b'(', b'*', ..] => comment_byte_reason(alloc, text, place),
        [byte, ..] => single_byte_reason(alloc, text, place, *byte),
        [] => Finding::plain(alloc, "a byte isn't allowed here"),
    }
}
