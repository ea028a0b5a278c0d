//! Initial values.

ghost use Rattle.std.specs.Prelude.{◌≡◌, ◌≤◌, ◌<◌, map};
ghost use Rattle.st_types.specs.declared.limits.TheConstants.{MAX_DEPTH};
ghost use Rattle.st_lex.specs.declared.mark.Mark.TheVariants as marks;
ghost use Rattle.st_types.specs.InitialViews.{initial_view, element_view, member_view};
ghost use Rattle.st_parse.specs.Tokens.{next, is_mark};
ghost use Rattle.st_parse.specs.Parsers as parsers;
ghost use Rattle.st_parse.specs.Parsers.{Reads, each, several};
ghost use Rattle.st_parse.specs.InitialReading.{starts_constant};
ghost use Rattle.st_parse.specs.InitialReading as reading;

use crate::fault::ReadError;
use crate::tokens::{
    begins, begins_number, constant, is_mark, mark, name, negative_number, sunk, whole,
};
use st_lex::{Mark, Token, TokenKind};
use st_types::{Initial, InitialElement, InitialMember, Literal, Number};
use std::alloc::Global;

/// An initial value and the tokens after it.
type Found<'a> = Result<(Initial, &'a [Token]), ReadError>;

/// An element of an array's initial value and the tokens after it.
type FoundElement<'a> = Result<(InitialElement, &'a [Token]), ReadError>;

/// A field with its initial value and the tokens after it.
type FoundMember<'a> = Result<(InitialMember, &'a [Token]), ReadError>;

fn starts_constant(kind: &TokenKind) -> bool
    ensures { result ≡ starts_constant kind.now }
{
    match kind {
        TokenKind::Number(_) | TokenKind::Truth(_) | TokenKind::Duration(_) => true,
        TokenKind::Enumerated(_, _) | TokenKind::Name(_) => true,
        _ => false,
    }
}

fn starts_initial(tokens: &[Token]) -> bool
    ensures { result ≡ next reading.starts_initial tokens.now }
{
    match tokens {
        [t, ..] => {
            is_mark(Mark::OpenBracket, &t.kind)
                || is_mark(Mark::Open, &t.kind)
                || is_mark(Mark::Minus, &t.kind)
                || starts_constant(&t.kind)
        }
        [] => false,
    }
}

/// `member = name, ":=", initial .`
#[cycle(initial)]
#[tactic(auto, unfolding(crate::specs::InitialReading::member_at))]
fn member(alloc: Global, depth: usize, tokens: &[Token]) -> FoundMember<'_>
    requires { depth ≤ MAX_DEPTH }
    ensures { Reads member_view result (reading.member_at (reading.initial_at depth) tokens.now) }
{
    let (name, rest) = name(alloc, tokens)?;
    let (_, rest) = mark(Mark::Assign, rest)?;
    let (value, rest) = initial(alloc, depth, rest)?;
    Ok((InitialMember { name, value }, rest))
}

/// `next_member = ",", member .`
#[cycle(initial)]
#[tactic(auto, unfolding(crate::specs::Parsers::after_comma))]
fn next_member(alloc: Global, depth: usize, tokens: &[Token]) -> FoundMember<'_>
    requires { depth ≤ MAX_DEPTH }
    ensures { Reads member_view result (parsers.after_comma (reading.member_at (reading.initial_at depth)) tokens.now) }
{
    let (_, rest) = mark(Mark::Comma, tokens)?;
    member(alloc, depth, rest)
}

/// `more_members = { next_member } .`
#[cycle(initial)]
fn more_members<'a>(
    alloc: Global,
    depth: usize,
    mut found: Vec<InitialMember>,
    mut tokens: &'a [Token],
) -> Result<(Vec<InitialMember>, &'a [Token]), ReadError>
    requires { depth ≤ MAX_DEPTH }
    ensures { Reads (each member_view) result
        (several (is_mark marks.Comma) (parsers.after_comma (reading.member_at (reading.initial_at depth)))
        (map member_view found.items) tokens.entry.now) }
{
    for _turn in 0..tokens.len() {
        if !begins(Mark::Comma, tokens) {
            return Ok((found, tokens));
        }
        let (next, rest) = next_member(alloc, depth, tokens)?;
        found.push(next)?;
        tokens = rest;
    }
    Ok((found, tokens))
}

/// `structure = "(", member, more_members, ")" .`
#[cycle(initial)]
#[tactic(auto, unfolding(crate::specs::InitialReading::structure_at, crate::specs::Parsers::listed))]
fn structure(alloc: Global, below: usize, tokens: &[Token]) -> Found<'_>
    requires { below < MAX_DEPTH }
    ensures { Reads initial_view result (reading.structure_at (reading.initial_at below) tokens.now) }
{
    let (place, rest) = mark(Mark::Open, tokens)?;
    let (first, rest) = member(alloc, below, rest)?;
    let mut found = Vec::new(alloc);
    found.push(first)?;
    let (members, rest) = more_members(alloc, below, found, rest)?;
    let (_, rest) = mark(Mark::Close, rest)?;
    Ok((Initial::structure(place, members), rest))
}

/// `repetition_of = "(", [ initial ], ")" .`
#[cycle(initial)]
#[tactic(auto, unfolding(crate::specs::InitialReading::repetition_of, crate::specs::InitialReading::defaults_of, crate::specs::InitialReading::repeated_of))]
fn repetition_of(alloc: Global, depth: usize, count: Number, tokens: &[Token]) -> FoundElement<'_>
    requires { depth ≤ MAX_DEPTH }
    ensures { Reads element_view result (reading.repetition_of (reading.initial_at depth) count tokens.now) }
{
    let (_, rest) = mark(Mark::Open, tokens)?;
    if begins(Mark::Close, rest) {
        let (_, rest) = mark(Mark::Close, rest)?;
        return Ok((InitialElement::defaults(count), rest));
    }
    let (value, rest) = initial(alloc, depth, rest)?;
    let (_, rest) = mark(Mark::Close, rest)?;
    Ok((InitialElement::repeated(count, value), rest))
}

/// `counted = whole, [ repetition_of ] .`
#[cycle(initial)]
#[tactic(auto, unfolding(crate::specs::InitialReading::counted_at))]
fn counted(alloc: Global, depth: usize, tokens: &[Token]) -> FoundElement<'_>
    requires { depth ≤ MAX_DEPTH }
    ensures { Reads element_view result (reading.counted_at (reading.initial_at depth) tokens.now) }
{
    let (number, rest) = whole(tokens)?;
    if begins(Mark::Open, rest) {
        return repetition_of(alloc, depth, number, rest);
    }
    let constant = Initial::constant(Literal::Number(number));
    Ok((InitialElement::single(constant), rest))
}

/// `element = counted | initial .`
#[cycle(initial)]
#[tactic(auto, unfolding(crate::specs::InitialReading::element_at, crate::specs::InitialReading::single_at))]
fn element(alloc: Global, depth: usize, tokens: &[Token]) -> FoundElement<'_>
    requires { depth ≤ MAX_DEPTH }
    ensures { Reads element_view result (reading.element_at (reading.initial_at depth) depth tokens.now) }
{
    if depth == 0 {
        return Err(sunk(starts_initial(tokens), tokens));
    }
    if begins_number(tokens) {
        return counted(alloc, depth, tokens);
    }
    let (value, rest) = initial(alloc, depth, tokens)?;
    Ok((InitialElement::single(value), rest))
}

/// `next_element = ",", element .`
#[cycle(initial)]
#[tactic(auto, unfolding(crate::specs::Parsers::after_comma))]
fn next_element(alloc: Global, depth: usize, tokens: &[Token]) -> FoundElement<'_>
    requires { depth ≤ MAX_DEPTH }
    ensures { Reads element_view result
        (parsers.after_comma (reading.element_at (reading.initial_at depth) depth) tokens.now) }
{
    let (_, rest) = mark(Mark::Comma, tokens)?;
    element(alloc, depth, rest)
}

/// `more_elements = { next_element } .`
#[cycle(initial)]
fn more_elements<'a>(
    alloc: Global,
    depth: usize,
    mut found: Vec<InitialElement>,
    mut tokens: &'a [Token],
) -> Result<(Vec<InitialElement>, &'a [Token]), ReadError>
    requires { depth ≤ MAX_DEPTH }
    ensures { Reads (each element_view) result
        (several (is_mark marks.Comma) (parsers.after_comma (reading.element_at (reading.initial_at depth) depth))
        (map element_view found.items) tokens.entry.now) }
{
    for _turn in 0..tokens.len() {
        if !begins(Mark::Comma, tokens) {
            return Ok((found, tokens));
        }
        let (next, rest) = next_element(alloc, depth, tokens)?;
        found.push(next)?;
        tokens = rest;
    }
    Ok((found, tokens))
}

/// `list = "[", element, more_elements, "]" .`
#[cycle(initial)]
#[tactic(auto, unfolding(crate::specs::InitialReading::list_at, crate::specs::Parsers::listed))]
fn list(alloc: Global, below: usize, tokens: &[Token]) -> Found<'_>
    requires { below < MAX_DEPTH }
    ensures { Reads initial_view result
        (reading.list_at (reading.element_at (reading.initial_at below) below) tokens.now) }
{
    let (place, rest) = mark(Mark::OpenBracket, tokens)?;
    let (first, rest) = element(alloc, below, rest)?;
    let mut found = Vec::new(alloc);
    found.push(first)?;
    let (elements, rest) = more_elements(alloc, below, found, rest)?;
    let (_, rest) = mark(Mark::CloseBracket, rest)?;
    Ok((Initial::list(place, elements), rest))
}

/// `initial = list | structure | negative_number | literal .`
/// An initial value of at most a depth.
#[cycle(initial)]
#[tactic(auto, unfolding(crate::specs::InitialReading::initial_at, crate::specs::InitialReading::negative_constant_at, crate::specs::InitialReading::literal_constant_at))]
pub fn initial(alloc: Global, depth: usize, tokens: &[Token]) -> Found<'_>
    requires { depth ≤ MAX_DEPTH }
    ensures { Reads initial_view result (reading.initial_at depth tokens.now) }
{
    if depth == 0 {
        return Err(sunk(starts_initial(tokens), tokens));
    }
    if begins(Mark::OpenBracket, tokens) {
        return list(alloc, depth - 1, tokens);
    }
    if begins(Mark::Open, tokens) {
        return structure(alloc, depth - 1, tokens);
    }
    if begins(Mark::Minus, tokens) {
        let (number, rest) = negative_number(tokens)?;
        return Ok((Initial::constant(Literal::Number(number)), rest));
    }
    let (found, rest) = constant(alloc, tokens)?;
    Ok((Initial::constant(found), rest))
}
