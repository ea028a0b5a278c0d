//! Arguments of block calls.

ghost use Rattle.std.specs.Prelude.{◌≡◌, ◌<◌, map};
ghost use Rattle.st_types.specs.declared.limits.TheConstants.{MAX_DEPTH};
ghost use Rattle.st_lex.specs.declared.mark.Mark.TheVariants as marks;
ghost use Rattle.st_types.specs.StatementViews.{argument_view};
ghost use Rattle.st_parse.specs.Tokens.{is_mark};
ghost use Rattle.st_parse.specs.Parsers as parsers;
ghost use Rattle.st_parse.specs.Parsers.{Reads, each, several};
ghost use Rattle.st_parse.specs.StatementReading as reading;

use crate::expression::{expr, variable};
use crate::fault::ReadError;
use crate::tokens::{begins, mark, name};
use st_lex::{Mark, Token};
use st_types::Argument;
use std::alloc::Global;

/// An argument and the tokens after it.
type Found<'a> = Result<(Argument, &'a [Token]), ReadError>;

/// `argument = name, ( ":=", expr | "=>", variable ) .`
#[tactic(auto, unfolding(crate::specs::StatementReading::argument_at, crate::specs::StatementReading::given_of, crate::specs::StatementReading::copied_of))]
fn argument(alloc: Global, below: usize, tokens: &[Token]) -> Found<'_>
    requires { below < MAX_DEPTH }
    ensures { Reads argument_view result (reading.argument_at below tokens.now) }
{
    let (found, rest) = name(alloc, tokens)?;
    if begins(Mark::Assign, rest) {
        let (_, rest) = mark(Mark::Assign, rest)?;
        let (value, rest) = expr(alloc, below, 1, rest)?;
        return Ok((Argument::input(found, value), rest));
    }
    let (_, rest) = mark(Mark::Arrow, rest)?;
    let (target, rest) = variable(alloc, below, rest)?;
    Ok((Argument::output(found, target), rest))
}

/// `next_argument = ",", argument .`
#[tactic(auto, unfolding(crate::specs::Parsers::after_comma))]
fn next_argument(alloc: Global, below: usize, tokens: &[Token]) -> Found<'_>
    requires { below < MAX_DEPTH }
    ensures { Reads argument_view result (parsers.after_comma (reading.argument_at below) tokens.now) }
{
    let (_, rest) = mark(Mark::Comma, tokens)?;
    argument(alloc, below, rest)
}

/// `more_arguments = { next_argument } .`
fn more_arguments<'a>(
    alloc: Global,
    below: usize,
    mut found: Vec<Argument>,
    mut tokens: &'a [Token],
) -> Result<(Vec<Argument>, &'a [Token]), ReadError>
    requires { below < MAX_DEPTH }
    ensures { Reads (each argument_view) result (several (is_mark marks.Comma)
        (parsers.after_comma (reading.argument_at below)) (map argument_view found.items) tokens.entry.now) }
{
    for _turn in 0..tokens.len() {
        if !begins(Mark::Comma, tokens) {
            return Ok((found, tokens));
        }
        let (next, rest) = next_argument(alloc, below, tokens)?;
        found.push(next)?;
        tokens = rest;
    }
    Ok((found, tokens))
}

/// `arguments = [ argument, more_arguments ] .`
/// The arguments in the parentheses of a block call.
#[tactic(auto, unfolding(crate::specs::StatementReading::arguments_at, crate::specs::Parsers::listed))]
pub fn arguments(
    alloc: Global,
    below: usize,
    tokens: &[Token],
) -> Result<(Vec<Argument>, &[Token]), ReadError>
    requires { below < MAX_DEPTH }
    ensures { Reads (each argument_view) result (reading.arguments_at below tokens.now) }
{
    let mut found = Vec::new(alloc);
    if begins(Mark::Close, tokens) {
        return Ok((found, tokens));
    }
    let (first, rest) = argument(alloc, below, tokens)?;
    found.push(first)?;
    more_arguments(alloc, below, found, rest)
}
