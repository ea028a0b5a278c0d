//! The lines of a layout text.

ghost use Rattle.std.specs.Prelude.{◌≡◌, option_map};
ghost use Rattle.std.specs.List.{list_all};
ghost use Rattle.retain_records.specs.Records.{is_path_text, is_visible};
ghost use Rattle.retain_records.specs.Reading.{kind_of, line_at, kind_spelled};

use crate::enumeration::enumeration_in;
use crate::splitting::split_at;
use st_types::Kind;

/// A line of a layout text: a path, the spelling of its type, and this type.
#[derive(Clone, Copy)]
pub(crate) struct Line<'a> {
    pub(crate) path: &'a [u8],
    pub(crate) spelling: &'a [u8],
    pub(crate) kind: Kind,
}

/// The line at the front of the text, and the text after it.
#[tactic(auto, unfolding(crate::specs::Reading::line_at))]
pub(crate) fn line_at(text: &[u8]) -> Option<(Line<'_>, &[u8])>
    ensures { option_map (λ p. (record { path = p.0.path.now; spelling = p.0.spelling.now; kind = p.0.kind }, p.1.now)) result ≡ line_at text.now }
{
    let (path, behind_path) = split_at(b' ', text)?;
    let (spelling, behind) = split_at(b'\n', behind_path)?;
    let kind = kind_spelled(spelling)?;
    if !is_path_text(path) {
        return None;
    }
    let line = Line {
        path,
        spelling,
        kind,
    };
    Some((line, behind))
}

/// The type that has this keyword.
#[tactic(auto, unfolding(crate::specs::Reading::kind_of))]
fn kind_of(word: &[u8]) -> Option<Kind>
    ensures { result ≡ kind_of word.now }
{
    Kind::ALL
        .iter()
        .copied()
        .find(|kind| kind.row().keyword.as_bytes() == word)
}

/// The type with this spelling: an elementary one by its keyword, an enumerated one by its names.
#[tactic(auto, unfolding(crate::specs::Reading::kind_spelled))]
fn kind_spelled(word: &[u8]) -> Option<Kind>
    ensures { result ≡ kind_spelled word.now }
{
    match kind_of(word) {
        Some(kind) => Some(kind),
        None => enumeration_in(word),
    }
}

/// Whether the bytes may be a path: at least one, and each of them visible.
fn is_path_text(path: &[u8]) -> bool
    ensures { result ≡ is_path_text path.now }
{
    !path.is_empty() && are_visible(path)
}

fn are_visible(bytes: &[u8]) -> bool
    ensures { result ≡ list_all is_visible bytes.now }
{
    bytes.iter().all(|byte| (33..=126).contains(byte))
}
