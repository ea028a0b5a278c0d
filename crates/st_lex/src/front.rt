//! The front of a text.

ghost use Rattle.std.specs.Prelude.{◌≡◌, ◌<◌, ◌^◌, length, IfOk};
ghost use Rattle.st_lex.specs.Fronts as fronts;

use crate::character::{begins, is_space};
use crate::comment::comment_front;
use crate::fault::LexFault;
use crate::mark::mark_front;
use crate::token::TokenKind;
use crate::word::{word_front, word_length};
use std::alloc::{AllocError, Global};

/// The front of a text, and how many bytes it takes.
#[derive(Drop)]
pub enum Front {
    End,
    /// A space or a comment.
    Blank(usize),
    Token(TokenKind, usize),
    /// A fault, and how many bytes come before its place.
    Fault(LexFault, usize),
}

#[tactic(auto, unfolding(crate::specs::Fronts::front_of))]
fn front_in(alloc: Global, text: &[u8]) -> Result<Front, AllocError>
    ensures { IfOk result (λ front. front ≡ fronts.front_of text.now) }
{
    let [b, ..] = text else {
        return Ok(Front::End);
    };
    if is_space(*b) {
        return Ok(Front::Blank(1));
    }
    if begins(b'(', b'*', text) {
        return Ok(comment_front(&text[2..]));
    }
    let len = word_length(text);
    if len > 0 {
        return word_front(alloc, &text[..len]);
    }
    Ok(mark_front(text))
}

/// The front of a text, which is within the text.
#[tactic(auto, using(crate::proofs::Within::ok_within))]
pub fn read_front(alloc: Global, text: &[u8]) -> Result<Front, AllocError>
    ensures value { IfOk result (λ front. front ≡ fronts.front_of text.now) }
    ensures within { IfOk result (λ front. fronts.IsWithin (length text.now) front) }
{
    front_in(alloc, text)
}
