//! Numbers with their sign.

ghost use Rattle.std.specs.Prelude.{◌≡◌};
ghost use Rattle.st_parse.specs.Parsers.{Reads, as_is, number_at, negative_number_at};

use crate::fault::ReadError;
use crate::tokens::{begins, mark, negative_at, whole};
use st_lex::{Mark, Token};
use st_types::Number;

/// `negative_number = "-", whole .`
#[tactic(auto, unfolding(crate::specs::Parsers::negative_number_at))]
pub fn negative_number(tokens: &[Token]) -> Result<(Number, &[Token]), ReadError>
    ensures { Reads as_is result (negative_number_at tokens.now) }
{
    let (place, rest) = mark(Mark::Minus, tokens)?;
    let (number, rest) = whole(rest)?;
    Ok((negative_at(place, number), rest))
}

/// `number = negative_number | whole .`
#[tactic(auto, unfolding(crate::specs::Parsers::number_at))]
pub fn signed_number(tokens: &[Token]) -> Result<(Number, &[Token]), ReadError>
    ensures { Reads as_is result (number_at tokens.now) }
{
    if begins(Mark::Minus, tokens) {
        return negative_number(tokens);
    }
    whole(tokens)
}
