//! Comments.

ghost use Rattle.std.specs.Prelude.{◌≡◌, ◌≤◌, ◌<◌, ◌+◌, ◌^◌, length};
ghost use Rattle.std.specs.List.{list_all};
ghost use Rattle.st_lex.specs.Characters.{is_allowed};
ghost use Rattle.st_lex.specs.Comments as comments;

use crate::character::{begins, is_allowed};
use crate::fault::LexFault;
use crate::front::Front;

/// How many bytes come before the first place where the two begin; all, if they begin nowhere.
fn before(first: u8, second: u8, text: &[u8]) -> usize
    ensures value { result ≡ comments.before first second text.now }
    ensures bound { result ≤ length text.now }
    ensures found { result < length text.now → result + 2 ≤ length text.now }
{
    let mut at = 0;
    let mut rest = text;
    while let [_, after @ ..] = rest {
        if begins(first, second, rest) {
            return at;
        }
        at += 1;
        rest = after;
    }
    at
}

fn has_allowed_bytes_alone(text: &[u8]) -> bool
    ensures { result ≡ list_all is_allowed text.now }
{
    text.iter().all(|b| is_allowed(*b))
}

/// A comment, by the text after its opening. The next `(*` is never looked for past the next comment, so a whole text
/// is read in time linear in its length.
#[tactic(auto, unfolding(crate::specs::Comments::comment_front))]
pub fn comment_front(inside: &[u8]) -> Front
    requires { length inside.now + 2 < 2 ^ 64 }
    ensures { result ≡ comments.comment_front inside.now }
{
    let to_close = before(b'*', b')', inside);
    let to_open = before(b'(', b'*', inside);
    if !has_allowed_bytes_alone(&inside[..to_close]) {
        return Front::Fault(LexFault::Byte, 0);
    }
    if to_open < to_close {
        return Front::Fault(LexFault::Comment, 2 + to_open);
    }
    if to_close < inside.len() {
        return Front::Blank(2 + to_close + 2);
    }
    Front::Fault(LexFault::Comment, 0)
}
