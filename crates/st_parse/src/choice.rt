//! CASE. A name in an arm begins a label or a statement, and the next token decides which.

ghost use Rattle.std.specs.Prelude.{◌≡◌, ◌≤◌, ◌<◌};
ghost use Rattle.st_types.specs.declared.limits.TheConstants.{MAX_DEPTH};
ghost use Rattle.st_types.specs.StatementViews.{stmt_view, case_arm_view};
ghost use Rattle.st_parse.specs.ArmsView.{arms_view};
ghost use Rattle.st_parse.specs.Tokens.{next};
ghost use Rattle.st_parse.specs.Parsers.{Reads, each, turns};
ghost use Rattle.st_parse.specs.Calls.{CallsRead};
ghost use Rattle.st_parse.specs.StatementReading as reading;

use crate::arms::Arms;
use crate::expression::expr;
use crate::fault::ReadError;
use crate::label::{begins_label, ends_label, head, head_of, label, label_of};
use crate::statement::{Found, else_part, named_line_of, starts_stmt};
use crate::tokens::{begins_name, keyword, name};
use st_lex::{Keyword, Token};
use st_types::{CaseArm, Identifier, Label, Stmt};
use std::alloc::Global;

/// The arms so far and the tokens after them.
type FoundArms<'a> = Result<(Arms, &'a [Token]), ReadError>;

/// The arms of a CASE and the tokens after them.
type FoundCaseArms<'a> = Result<(Vec<CaseArm>, &'a [Token]), ReadError>;

/// The arms of a CASE with the statements after its ELSE, and the tokens after them.
type FoundChoices<'a> = Result<((Vec<CaseArm>, Vec<Stmt>), &'a [Token]), ReadError>;

/// Whether a part of an arm comes next, or the beginning of the next arm.
fn starts_part(tokens: &[Token]) -> bool
    ensures { result ≡ next reading.starts_part tokens.now }
{
    begins_label(tokens) || starts_stmt(tokens)
}

/// `next_arm_of = head_of .`
/// One more arm, after its first label.
#[tactic(auto, unfolding(crate::specs::StatementReading::next_arm_of))]
fn next_arm_of<'a>(alloc: Global, arms: Arms, first: Label, tokens: &'a [Token]) -> FoundArms<'a>
    ensures { Reads arms_view result (reading.next_arm_of (arms_view arms) first tokens.now) }
{
    let (labels, rest) = head_of(alloc, first, tokens)?;
    Ok((arms.with_arm(alloc, labels)?, rest))
}

/// `label_part = label, next_arm_of .`
#[tactic(auto, unfolding(crate::specs::StatementReading::label_part))]
fn label_part<'a>(alloc: Global, arms: Arms, tokens: &'a [Token]) -> FoundArms<'a>
    ensures { Reads arms_view result (reading.label_part (arms_view arms) tokens.now) }
{
    let (first, rest) = label(alloc, tokens)?;
    next_arm_of(alloc, arms, first, rest)
}

/// `named_line_part = named_line_of .`
#[tactic(auto, unfolding(crate::specs::StatementReading::named_line_part))]
fn named_line_part<'a>(
    alloc: Global,
    below: usize,
    arms: Arms,
    first: Identifier,
    tokens: &'a [Token],
) -> FoundArms<'a>
    requires { below < MAX_DEPTH }
    ensures { Reads arms_view result (reading.named_line_part below (arms_view arms) first tokens.now) }
{
    let (found, rest) = named_line_of(alloc, below, first, tokens)?;
    Ok((arms.with_statement(found)?, rest))
}

/// `named_part = name, ( next_arm_of | named_line_part ) .`
#[tactic(auto, unfolding(crate::specs::StatementReading::named_part))]
fn named_part<'a>(alloc: Global, below: usize, arms: Arms, tokens: &'a [Token]) -> FoundArms<'a>
    requires { below < MAX_DEPTH }
    ensures { Reads arms_view result (reading.named_part below (arms_view arms) tokens.now) }
{
    let (first, rest) = name(alloc, tokens)?;
    if ends_label(rest) {
        return next_arm_of(alloc, arms, label_of(first), rest);
    }
    named_line_part(alloc, below, arms, first, rest)
}

/// `line_part = line .`
#[tactic(auto, unfolding(crate::specs::StatementReading::line_part))]
fn line_part<'a, L: Fn(&[Token]) -> Found<'_>>(
    below: usize,
    arms: Arms,
    tokens: &'a [Token],
    line: &L,
) -> FoundArms<'a>
    requires line { L.IsAlwaysCallable line.now }
    requires reads { CallsRead stmt_view (L.post line.now) (reading.line_at below) }
    ensures { Reads arms_view result (reading.line_part below (reading.line_at below) (arms_view arms) tokens.now) }
{
    let (found, rest) = line(tokens)?;
    Ok((arms.with_statement(found)?, rest))
}

/// `part = named_part | label_part | line_part .`
#[tactic(auto, unfolding(crate::specs::StatementReading::part_at))]
fn part<'a, L: Fn(&[Token]) -> Found<'_>>(
    alloc: Global,
    below: usize,
    arms: Arms,
    tokens: &'a [Token],
    line: &L,
) -> FoundArms<'a>
    requires below { below < MAX_DEPTH }
    requires line { L.IsAlwaysCallable line.now }
    requires reads { CallsRead stmt_view (L.post line.now) (reading.line_at below) }
    ensures { Reads arms_view result
        (reading.part_at below (reading.line_at below) (arms_view arms) tokens.now) }
{
    if begins_name(tokens) {
        return named_part(alloc, below, arms, tokens);
    }
    if begins_label(tokens) {
        return label_part(alloc, arms, tokens);
    }
    line_part(below, arms, tokens, line)
}

/// `parts = { part } .`
fn parts<'a, L: Fn(&[Token]) -> Found<'_>>(
    alloc: Global,
    below: usize,
    mut arms: Arms,
    mut tokens: &'a [Token],
    line: &L,
) -> FoundArms<'a>
    requires below { below < MAX_DEPTH }
    requires line { L.IsAlwaysCallable line.now }
    requires reads { CallsRead stmt_view (L.post line.now) (reading.line_at below) }
    ensures { Reads arms_view result (turns reading.starts_part (reading.part_at below (reading.line_at below))
        (arms_view arms) tokens.entry.now) }
{
    for _turn in 0..tokens.len() {
        if !starts_part(tokens) {
            return Ok((arms, tokens));
        }
        let (next, rest) = part(alloc, below, arms, tokens, line)?;
        arms = next;
        tokens = rest;
    }
    Ok((arms, tokens))
}

/// `some_arms = head, parts .`
#[tactic(auto, unfolding(crate::specs::StatementReading::some_arms_at))]
fn some_arms<'a, L: Fn(&[Token]) -> Found<'_>>(
    alloc: Global,
    below: usize,
    tokens: &'a [Token],
    line: &L,
) -> FoundCaseArms<'a>
    requires below { below < MAX_DEPTH }
    requires line { L.IsAlwaysCallable line.now }
    requires reads { CallsRead stmt_view (L.post line.now) (reading.line_at below) }
    ensures { Reads (each case_arm_view) result
        (reading.some_arms_at below (reading.line_at below) tokens.now) }
{
    let (labels, rest) = head(alloc, tokens)?;
    let (arms, rest) = parts(alloc, below, Arms::first(alloc, labels), rest, line)?;
    Ok((arms.all()?, rest))
}

/// `case_arms = [ some_arms ] .`
#[tactic(auto, unfolding(crate::specs::StatementReading::case_arms_at))]
fn case_arms<'a, L: Fn(&[Token]) -> Found<'_>>(
    alloc: Global,
    below: usize,
    tokens: &'a [Token],
    line: &L,
) -> FoundCaseArms<'a>
    requires below { below < MAX_DEPTH }
    requires line { L.IsAlwaysCallable line.now }
    requires reads { CallsRead stmt_view (L.post line.now) (reading.line_at below) }
    ensures { Reads (each case_arm_view) result
        (reading.case_arms_at below (reading.line_at below) tokens.now) }
{
    if begins_label(tokens) {
        return some_arms(alloc, below, tokens, line);
    }
    Ok((Vec::new(alloc), tokens))
}

/// `choices = "OF", case_arms, else, "END_CASE" .`
#[tactic(auto, unfolding(crate::specs::StatementReading::choices_at))]
fn choices<'a, L: Fn(&[Token]) -> Found<'_>>(
    alloc: Global,
    below: usize,
    tokens: &'a [Token],
    line: &L,
) -> FoundChoices<'a>
    requires below { below < MAX_DEPTH }
    requires line { L.IsAlwaysCallable line.now }
    requires reads { CallsRead stmt_view (L.post line.now) (reading.line_at below) }
    ensures { Reads (λ c. (each case_arm_view c.0, each stmt_view c.1)) result
        (reading.choices_at below (reading.line_at below) tokens.now) }
{
    let (_, rest) = keyword(Keyword::Of, tokens)?;
    let (arms, rest) = case_arms(alloc, below, rest, line)?;
    let (other, rest) = else_part(alloc, below, rest, line)?;
    let (_, rest) = keyword(Keyword::EndCase, rest)?;
    Ok(((arms, other), rest))
}

/// `case_stmt = "CASE", expr, choices .`
#[tactic(auto, unfolding(crate::specs::StatementReading::case_at))]
pub fn case_stmt<'a, L: Fn(&[Token]) -> Found<'_>>(
    alloc: Global,
    below: usize,
    tokens: &'a [Token],
    line: &L,
) -> Found<'a>
    requires below { below < MAX_DEPTH }
    requires line { L.IsAlwaysCallable line.now }
    requires reads { CallsRead stmt_view (L.post line.now) (reading.line_at below) }
    ensures { Reads stmt_view result (reading.case_at below (reading.line_at below) tokens.now) }
{
    let (_, rest) = keyword(Keyword::Case, tokens)?;
    let (selector, rest) = expr(alloc, below, 1, rest)?;
    let ((arms, other), rest) = choices(alloc, below, rest, line)?;
    Ok((Stmt::select(selector, arms, other), rest))
}
