//! Lists of names.

ghost use Rattle.std.specs.Prelude.{◌≡◌, ◌∷◌, []};
ghost use Rattle.std.specs.Vec.{vec_items};
ghost use Rattle.st_lex.specs.declared.mark.Mark.TheVariants.{Comma};
ghost use Rattle.st_parse.specs.Tokens as tokens_of;
ghost use Rattle.st_parse.specs.Parsers as parsers;
ghost use Rattle.st_parse.specs.Parsers.{Reads, as_is, one};
ghost use Rattle.st_parse.specs.UnitReading as reading;

use crate::fault::ReadError;
use crate::list::several;
use crate::tokens::{begins, mark, name};
use st_lex::{Mark, Token};
use st_types::Identifier;
use std::alloc::Global;

/// Names, and the tokens after them.
pub type Names<'a> = Result<(Vec<Identifier>, &'a [Token]), ReadError>;

/// `next_name = ",", name .`
#[tactic(auto, unfolding(crate::specs::Parsers::after_comma))]
fn next_name(alloc: Global, tokens: &[Token]) -> Result<(Identifier, &[Token]), ReadError>
    ensures { Reads as_is result (parsers.after_comma (one tokens_of.name) tokens.now) }
{
    let (_, rest) = mark(Mark::Comma, tokens)?;
    name(alloc, rest)
}

/// `more_names = { next_name } .`
/// Names after a first one.
pub fn more_names<'a>(alloc: Global, first: Identifier, tokens: &'a [Token]) -> Names<'a>
    ensures { Reads vec_items result
        (parsers.several (tokens_of.is_mark Comma) (parsers.after_comma (one tokens_of.name)) (first ∷ []) tokens.now) }
{
    let mut found = Vec::new(alloc);
    found.push(first)?;
    several(
        found,
        tokens,
        |tokens| begins(Mark::Comma, tokens),
        |tokens| next_name(alloc, tokens),
    )
}

/// `names = name, more_names .`
#[tactic(auto, unfolding(crate::specs::UnitReading::names_at, crate::specs::Parsers::listed))]
pub fn names(alloc: Global, tokens: &[Token]) -> Names<'_>
    ensures { Reads vec_items result (reading.names_at tokens.now) }
{
    let (first, rest) = name(alloc, tokens)?;
    more_names(alloc, first, rest)
}
