//! The lexer.

ghost use Rattle.std.specs.Prelude.{◌≡◌, ◌≤◌, ◌<◌, length, List, IfOk, IfErr};
ghost use Rattle.st_lex.specs.declared.token.Token.{Token};
ghost use Rattle.st_lex.specs.Texts.{Lexes, LexErrorApplies, GivesTokens};

use crate::fault::LexError;
use crate::front::{Front, read_front};
use crate::token::Token;
use st_types::limits::MAX_SOURCE_BYTES;
use std::alloc::Global;

/// The tokens of a text, in order.
///
/// L5 if the text is longer than 1,048,576 bytes, else the first of the faults L1 to L4 by place, or L6 if an
/// allocation fails.
pub fn lex(alloc: Global, text: &[u8]) -> Result<Vec<Token>, LexError>
    // The tokens that are read spell the text.
    ensures found { IfOk result (λ tokens. Lexes text.now tokens.items) }
    // A refusal applies, at its place.
    ensures refused { IfErr result (λ e. LexErrorApplies text.now e) }
    // Tokens that spell the text are read, unless an allocation fails.
    ensures only { (tokens : List Token) → Lexes text.now tokens → GivesTokens result tokens }
{
    if text.len() > MAX_SOURCE_BYTES {
        return Err(LexError::TooLong);
    }
    let mut tokens = Vec::new(alloc);
    let mut at = 0;
    loop {
        match read_front(alloc, &text[at..])? {
            Front::End => return Ok(tokens),
            Front::Blank(n) => at += n,
            Front::Token(kind, n) => {
                tokens.push(Token {
                    kind,
                    start: at,
                    end: at + n,
                })?;
                at += n;
            }
            Front::Fault(fault, n) => return Err(LexError::Fault(fault, at + n)),
        }
    }
}
