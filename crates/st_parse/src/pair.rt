//! A part that was read, kept beside the next one.

ghost use Rattle.st_parse.specs.Parsers.{Beside};

use crate::fault::ReadError;
use st_lex::Token;

/// The part that was read before, the next one, and the tokens after it.
pub fn beside<'a, A: Drop, B>(
    first: A,
    next: Result<(B, &'a [Token]), ReadError>,
) -> Result<((A, B), &'a [Token]), ReadError>
    ensures { Beside first next.entry result }
{
    match next {
        Ok((second, rest)) => Ok(((first, second), rest)),
        Err(error) => Err(error),
    }
}
