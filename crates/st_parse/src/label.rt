//! Labels of CASE.

ghost use Rattle.std.specs.Prelude.{◌≡◌};
ghost use Rattle.std.specs.Vec.{vec_items};
ghost use Rattle.st_lex.specs.declared.mark.Mark.TheVariants as marks;
ghost use Rattle.st_parse.specs.Tokens.{is_mark, next};
ghost use Rattle.st_parse.specs.Parsers as parsers;
ghost use Rattle.st_parse.specs.Parsers.{Reads, as_is, several};
ghost use Rattle.st_parse.specs.StatementReading as reading;

use crate::fault::ReadError;
use crate::pair::beside;
use crate::tokens::{begins, begins_number, begins_value, mark, signed_number, value};
use st_lex::{Mark, Token};
use st_types::{EnumeratedValue, Identifier, Label};
use std::alloc::Global;

/// `number_label = number, [ "..", number ] .`
#[tactic(auto, unfolding(crate::specs::StatementReading::number_label_at, crate::specs::StatementReading::range_of))]
fn number_label(tokens: &[Token]) -> Result<(Label, &[Token]), ReadError>
    ensures { Reads as_is result (reading.number_label_at tokens.now) }
{
    let (number, rest) = signed_number(tokens)?;
    if begins(Mark::Range, rest) {
        let (_, rest) = mark(Mark::Range, rest)?;
        let (greatest, rest) = signed_number(rest)?;
        return Ok((Label::Range(number, greatest), rest));
    }
    Ok((Label::Single(number), rest))
}

/// `label = number_label | value .`
#[tactic(auto, unfolding(crate::specs::StatementReading::label_at, crate::specs::StatementReading::named_label_at))]
pub fn label(alloc: Global, tokens: &[Token]) -> Result<(Label, &[Token]), ReadError>
    ensures { Reads as_is result (reading.label_at tokens.now) }
{
    if begins_value(tokens) {
        let (found, rest) = value(alloc, tokens)?;
        return Ok((Label::Enumerated(found), rest));
    }
    number_label(tokens)
}

/// A name as a label.
pub fn label_of(name: Identifier) -> Label
    ensures { result ≡ reading.label_of name }
{
    Label::Enumerated(EnumeratedValue {
        place: name.place,
        type_name: None,
        name: name.into_name(),
    })
}

/// Whether a label comes next.
pub fn begins_label(tokens: &[Token]) -> bool
    ensures { result ≡ next reading.starts_label tokens.now }
{
    begins_number(tokens) || begins(Mark::Minus, tokens) || begins_value(tokens)
}

/// Whether a token that may follow a label comes next.
pub fn ends_label(tokens: &[Token]) -> bool
    ensures { result ≡ next reading.ends_label tokens.now }
{
    begins(Mark::Comma, tokens) || begins(Mark::Colon, tokens)
}

/// `next_label = ",", label .`
#[tactic(auto, unfolding(crate::specs::Parsers::after_comma))]
fn next_label(alloc: Global, tokens: &[Token]) -> Result<(Label, &[Token]), ReadError>
    ensures { Reads as_is result (parsers.after_comma reading.label_at tokens.now) }
{
    let (_, rest) = mark(Mark::Comma, tokens)?;
    label(alloc, rest)
}

/// `more_labels = { next_label } .`
fn more_labels<'a>(
    alloc: Global,
    mut found: Vec<Label>,
    mut tokens: &'a [Token],
) -> Result<(Vec<Label>, &'a [Token]), ReadError>
    ensures { Reads vec_items result
        (several (is_mark marks.Comma) (parsers.after_comma reading.label_at) found.items tokens.entry.now) }
{
    for _turn in 0..tokens.len() {
        if !begins(Mark::Comma, tokens) {
            return Ok((found, tokens));
        }
        let (next, rest) = next_label(alloc, tokens)?;
        found.push(next)?;
        tokens = rest;
    }
    Ok((found, tokens))
}

/// `head_of = more_labels, ":" .`
/// The labels of an arm with their colon, after the first.
#[tactic(auto, unfolding(crate::specs::StatementReading::head_of))]
pub fn head_of(
    alloc: Global,
    first: Label,
    tokens: &[Token],
) -> Result<(Vec<Label>, &[Token]), ReadError>
    ensures { Reads vec_items result (reading.head_of first tokens.now) }
{
    let mut found = Vec::new(alloc);
    found.push(first)?;
    let (found, rest) = more_labels(alloc, found, tokens)?;
    let ((found, _), rest) = beside(found, mark(Mark::Colon, rest))?;
    Ok((found, rest))
}

/// `head = label, head_of .`
#[tactic(auto, unfolding(crate::specs::StatementReading::head_at))]
pub fn head(alloc: Global, tokens: &[Token]) -> Result<(Vec<Label>, &[Token]), ReadError>
    ensures { Reads vec_items result (reading.head_at tokens.now) }
{
    let (first, rest) = label(alloc, tokens)?;
    head_of(alloc, first, rest)
}
