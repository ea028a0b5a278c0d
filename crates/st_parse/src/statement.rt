//! Statements.

ghost use Rattle.std.specs.Prelude.{◌≡◌, ◌≤◌, ◌<◌, [], ◌∷◌, option_map};
ghost use Rattle.st_types.specs.declared.limits.TheConstants.{MAX_DEPTH};
ghost use Rattle.st_lex.specs.declared.keyword.Keyword.TheVariants as words;
ghost use Rattle.st_types.specs.ExpressionViews.{expr_view};
ghost use Rattle.st_types.specs.StatementViews.{stmt_view, arm_view};
ghost use Rattle.st_parse.specs.Tokens.{next, is_keyword};
ghost use Rattle.st_parse.specs.Parsers.{Reads, each, between};
ghost use Rattle.st_parse.specs.Parsers as parsers;
ghost use Rattle.st_parse.specs.Calls.{CallsRead};
ghost use Rattle.st_parse.specs.StatementReading as reading;

use crate::argument::arguments;
use crate::choice::case_stmt;
use crate::expression::{expr, variable_of};
use crate::fault::ReadError;
use crate::list::several;
use crate::pair::beside;
use crate::tokens::{begins, keyword, leads, mark, name, refused, sunk};
use st_lex::{Keyword, Mark, Token, TokenKind};
use st_types::{Arm, Expr, Identifier, Stmt};
use std::alloc::Global;

/// A statement and the tokens after it.
pub type Found<'a> = Result<(Stmt, &'a [Token]), ReadError>;

/// Statements and the tokens after them.
pub type Block<'a> = Result<(Vec<Stmt>, &'a [Token]), ReadError>;

/// A condition with its statements and the tokens after them.
type FoundArm<'a> = Result<(Arm, &'a [Token]), ReadError>;

/// The start and the limit of a FOR, its step, and the tokens after them.
type FoundBounds<'a> = Result<((Expr, Expr, Option<Expr>), &'a [Token]), ReadError>;

pub fn starts_stmt(tokens: &[Token]) -> bool
    ensures { result ≡ next reading.starts_stmt tokens.now }
{
    match tokens {
        [t, ..] => matches!(
            &t.kind,
            TokenKind::Name(_)
                | TokenKind::Mark(Mark::Semicolon)
                | TokenKind::Keyword(Keyword::If)
                | TokenKind::Keyword(Keyword::Case)
                | TokenKind::Keyword(Keyword::For)
                | TokenKind::Keyword(Keyword::While)
                | TokenKind::Keyword(Keyword::Repeat)
                | TokenKind::Keyword(Keyword::Exit)
                | TokenKind::Keyword(Keyword::Return)
        ),
        [] => false,
    }
}

/// Whether a token that may follow the first name of a statement comes next.
fn goes_on_named(tokens: &[Token]) -> bool
    ensures { result ≡ next reading.goes_on_named tokens.now }
{
    begins(Mark::Open, tokens)
        || begins(Mark::Assign, tokens)
        || begins(Mark::Dot, tokens)
        || begins(Mark::OpenBracket, tokens)
}

/// `exit_stmt = "EXIT" .`
#[tactic(auto, unfolding(crate::specs::StatementReading::exit_at))]
fn exit_stmt(tokens: &[Token]) -> Found<'_>
    ensures { Reads stmt_view result (reading.exit_at tokens.now) }
{
    let (place, rest) = keyword(Keyword::Exit, tokens)?;
    Ok((Stmt::exit(place), rest))
}

/// `return_stmt = "RETURN" .`
#[tactic(auto, unfolding(crate::specs::StatementReading::return_at))]
fn return_stmt(tokens: &[Token]) -> Found<'_>
    ensures { Reads stmt_view result (reading.return_at tokens.now) }
{
    let (_, rest) = keyword(Keyword::Return, tokens)?;
    Ok((Stmt::leave(), rest))
}

/// `assign_of = variable_of, ":=", expr .`
#[tactic(auto, unfolding(crate::specs::StatementReading::assign_of))]
fn assign_of<'a>(alloc: Global, below: usize, target: Identifier, tokens: &'a [Token]) -> Found<'a>
    requires { below < MAX_DEPTH }
    ensures { Reads stmt_view result (reading.assign_of below target tokens.now) }
{
    let (variable, rest) = variable_of(alloc, below.saturating_sub(1), target, tokens)?;
    let (_, rest) = mark(Mark::Assign, rest)?;
    let (value, rest) = expr(alloc, below, 1, rest)?;
    Ok((Stmt::assign(variable, value), rest))
}

/// `invoke_of = "(", arguments, ")" .`
#[tactic(auto, unfolding(crate::specs::StatementReading::invoke_of))]
fn invoke_of<'a>(
    alloc: Global,
    below: usize,
    instance: Identifier,
    tokens: &'a [Token],
) -> Found<'a>
    requires { below < MAX_DEPTH }
    ensures { Reads stmt_view result (reading.invoke_of below instance tokens.now) }
{
    let (_, rest) = mark(Mark::Open, tokens)?;
    let (found, rest) = arguments(alloc, below, rest)?;
    let (_, rest) = mark(Mark::Close, rest)?;
    Ok((Stmt::invoke(instance, found), rest))
}

/// `named_of = invoke_of | assign_of .`
/// A statement after its first name.
#[tactic(auto, unfolding(crate::specs::StatementReading::named_of))]
fn named_of<'a>(alloc: Global, below: usize, first: Identifier, tokens: &'a [Token]) -> Found<'a>
    requires { below < MAX_DEPTH }
    ensures { Reads stmt_view result (reading.named_of below first tokens.now) }
{
    if begins(Mark::Open, tokens) {
        return invoke_of(alloc, below, first, tokens);
    }
    assign_of(alloc, below, first, tokens)
}

/// `named = name, named_of .`
#[tactic(auto, unfolding(crate::specs::StatementReading::named_at))]
fn named(alloc: Global, below: usize, tokens: &[Token]) -> Found<'_>
    requires { below < MAX_DEPTH }
    ensures { Reads stmt_view result (reading.named_at below tokens.now) }
{
    let (first, rest) = name(alloc, tokens)?;
    named_of(alloc, below, first, rest)
}

/// `closed = ";" .`
/// A statement with the semicolon after it.
fn closed(found: Stmt, tokens: &[Token]) -> Found<'_>
    ensures { Reads stmt_view result (reading.closed (stmt_view found) tokens.now) }
{
    let ((found, _), rest) = beside(found, mark(Mark::Semicolon, tokens))?;
    Ok((found, rest))
}

/// `named_line_of = named_of, ";" .`
/// A statement of at most a depth with its semicolon, after its first name.
#[tactic(auto, unfolding(crate::specs::StatementReading::named_line_of))]
pub fn named_line_of<'a>(
    alloc: Global,
    depth: usize,
    first: Identifier,
    tokens: &'a [Token],
) -> Found<'a>
    requires { depth ≤ MAX_DEPTH }
    ensures { Reads stmt_view result (reading.named_line_of depth first tokens.now) }
{
    if depth == 0 {
        return Err(sunk(goes_on_named(tokens), tokens));
    }
    let (found, rest) = named_of(alloc, depth - 1, first, tokens)?;
    closed(found, rest)
}

/// `step = [ "BY", expr ] .`
#[tactic(auto, unfolding(crate::specs::StatementReading::step_at, crate::specs::StatementReading::by_at))]
fn step(
    alloc: Global,
    below: usize,
    tokens: &[Token],
) -> Result<(Option<Expr>, &[Token]), ReadError>
    requires { below < MAX_DEPTH }
    ensures { Reads (option_map expr_view) result (reading.step_at below tokens.now) }
{
    if leads(Keyword::By, tokens) {
        let (_, rest) = keyword(Keyword::By, tokens)?;
        let (step, rest) = expr(alloc, below, 1, rest)?;
        return Ok((Some(step), rest));
    }
    Ok((None, tokens))
}

/// `bounds = expr, "TO", expr, step .`
#[tactic(auto, unfolding(crate::specs::StatementReading::bounds_at))]
fn bounds(alloc: Global, below: usize, tokens: &[Token]) -> FoundBounds<'_>
    requires { below < MAX_DEPTH }
    ensures { Reads (λ b. (expr_view b.0, expr_view b.1, option_map expr_view b.2)) result
        (reading.bounds_at below tokens.now) }
{
    let (start, rest) = expr(alloc, below, 1, tokens)?;
    let ((start, _), rest) = beside(start, keyword(Keyword::To, rest))?;
    let (range, rest) = beside(start, expr(alloc, below, 1, rest))?;
    let (((start, limit), by), rest) = beside(range, step(alloc, below, rest))?;
    Ok(((start, limit, by), rest))
}

/// `lines = { line } .`
/// Statements, each with its semicolon.
pub fn lines<'a, L: Fn(&[Token]) -> Found<'_>>(
    alloc: Global,
    below: usize,
    tokens: &'a [Token],
    line: &L,
) -> Block<'a>
    requires line { L.IsAlwaysCallable line.now }
    requires reads { CallsRead stmt_view (L.post line.now) (reading.line_at below) }
    ensures { Reads (each stmt_view) result (reading.stmts_at below tokens.now) }
{
    several(Vec::new(alloc), tokens, starts_stmt, |tokens| line(tokens))
}

/// `block(first, last) = first, lines, last .`
#[tactic(auto, unfolding(crate::specs::Parsers::between))]
fn block<'a, L: Fn(&[Token]) -> Found<'_>>(
    alloc: Global,
    below: usize,
    first: Keyword,
    last: Keyword,
    tokens: &'a [Token],
    line: &L,
) -> Block<'a>
    requires line { L.IsAlwaysCallable line.now }
    requires reads { CallsRead stmt_view (L.post line.now) (reading.line_at below) }
    ensures { Reads (each stmt_view) result (between first last (reading.stmts_at below) tokens.now) }
{
    let (_, rest) = keyword(first, tokens)?;
    let (body, rest) = lines(alloc, below, rest, line)?;
    let (_, rest) = keyword(last, rest)?;
    Ok((body, rest))
}

/// `arm = expr, "THEN", lines .`
#[tactic(auto, unfolding(crate::specs::StatementReading::arm_at))]
fn arm<'a, L: Fn(&[Token]) -> Found<'_>>(
    alloc: Global,
    below: usize,
    tokens: &'a [Token],
    line: &L,
) -> FoundArm<'a>
    requires below { below < MAX_DEPTH }
    requires line { L.IsAlwaysCallable line.now }
    requires reads { CallsRead stmt_view (L.post line.now) (reading.line_at below) }
    ensures { Reads arm_view result (reading.arm_at below (reading.line_at below) tokens.now) }
{
    let (condition, rest) = expr(alloc, below, 1, tokens)?;
    let ((condition, _), rest) = beside(condition, keyword(Keyword::Then, rest))?;
    let ((condition, body), rest) = beside(condition, lines(alloc, below, rest, line))?;
    Ok((Arm { condition, body }, rest))
}

/// `elsif = "ELSIF", arm .`
#[tactic(auto, unfolding(crate::specs::StatementReading::elsif_at))]
fn elsif<'a, L: Fn(&[Token]) -> Found<'_>>(
    alloc: Global,
    below: usize,
    tokens: &'a [Token],
    line: &L,
) -> FoundArm<'a>
    requires below { below < MAX_DEPTH }
    requires line { L.IsAlwaysCallable line.now }
    requires reads { CallsRead stmt_view (L.post line.now) (reading.line_at below) }
    ensures { Reads arm_view result (reading.elsif_at below (reading.line_at below) tokens.now) }
{
    let (_, rest) = keyword(Keyword::Elsif, tokens)?;
    arm(alloc, below, rest, line)
}

/// `more_arms = { elsif } .`
/// Arms after a first one.
fn more_arms<'a, L: Fn(&[Token]) -> Found<'_>>(
    alloc: Global,
    below: usize,
    first: Arm,
    tokens: &'a [Token],
    line: &L,
) -> Result<(Vec<Arm>, &'a [Token]), ReadError>
    requires below { below < MAX_DEPTH }
    requires line { L.IsAlwaysCallable line.now }
    requires reads { CallsRead stmt_view (L.post line.now) (reading.line_at below) }
    ensures { Reads (each arm_view) result
        (parsers.several (is_keyword words.Elsif) (reading.elsif_at below (reading.line_at below))
        (arm_view first ∷ []) tokens.now) }
{
    let mut found = Vec::new(alloc);
    found.push(first)?;
    several(
        found,
        tokens,
        |tokens| leads(Keyword::Elsif, tokens),
        |tokens| elsif(alloc, below, tokens, line),
    )
}

/// `else = [ "ELSE", lines ] .`
#[tactic(auto, unfolding(crate::specs::StatementReading::else_at, crate::specs::StatementReading::otherwise_at))]
pub fn else_part<'a, L: Fn(&[Token]) -> Found<'_>>(
    alloc: Global,
    below: usize,
    tokens: &'a [Token],
    line: &L,
) -> Block<'a>
    requires below { below < MAX_DEPTH }
    requires line { L.IsAlwaysCallable line.now }
    requires reads { CallsRead stmt_view (L.post line.now) (reading.line_at below) }
    ensures { Reads (each stmt_view) result (reading.else_at below (reading.line_at below) tokens.now) }
{
    if leads(Keyword::Else, tokens) {
        let (_, rest) = keyword(Keyword::Else, tokens)?;
        return lines(alloc, below, rest, line);
    }
    Ok((Vec::new(alloc), tokens))
}

/// `if_stmt = "IF", arm, more_arms, else, "END_IF" .`
#[tactic(auto, unfolding(crate::specs::StatementReading::if_at))]
fn if_stmt<'a, L: Fn(&[Token]) -> Found<'_>>(
    alloc: Global,
    below: usize,
    tokens: &'a [Token],
    line: &L,
) -> Found<'a>
    requires below { below < MAX_DEPTH }
    requires line { L.IsAlwaysCallable line.now }
    requires reads { CallsRead stmt_view (L.post line.now) (reading.line_at below) }
    ensures { Reads stmt_view result (reading.if_at below (reading.line_at below) tokens.now) }
{
    let (_, rest) = keyword(Keyword::If, tokens)?;
    let (first, rest) = arm(alloc, below, rest, line)?;
    let (arms, rest) = more_arms(alloc, below, first, rest, line)?;
    let (other, rest) = else_part(alloc, below, rest, line)?;
    let (_, rest) = keyword(Keyword::EndIf, rest)?;
    Ok((Stmt::choose(arms, other), rest))
}

/// `for_stmt = "FOR", name, ":=", bounds, block("DO", "END_FOR") .`
#[tactic(auto, unfolding(crate::specs::StatementReading::for_at))]
fn for_stmt<'a, L: Fn(&[Token]) -> Found<'_>>(
    alloc: Global,
    below: usize,
    tokens: &'a [Token],
    line: &L,
) -> Found<'a>
    requires below { below < MAX_DEPTH }
    requires line { L.IsAlwaysCallable line.now }
    requires reads { CallsRead stmt_view (L.post line.now) (reading.line_at below) }
    ensures { Reads stmt_view result (reading.for_at below (reading.line_at below) tokens.now) }
{
    let (_, rest) = keyword(Keyword::For, tokens)?;
    let (control, rest) = name(alloc, rest)?;
    let (_, rest) = mark(Mark::Assign, rest)?;
    let (bounds, rest) = bounds(alloc, below, rest)?;
    let (((start, limit, step), body), rest) = beside(
        bounds,
        block(alloc, below, Keyword::Do, Keyword::EndFor, rest, line),
    )?;
    Ok((Stmt::count(control, start, limit, step, body), rest))
}

/// `while_stmt = "WHILE", expr, block("DO", "END_WHILE") .`
#[tactic(auto, unfolding(crate::specs::StatementReading::while_at))]
fn while_stmt<'a, L: Fn(&[Token]) -> Found<'_>>(
    alloc: Global,
    below: usize,
    tokens: &'a [Token],
    line: &L,
) -> Found<'a>
    requires below { below < MAX_DEPTH }
    requires line { L.IsAlwaysCallable line.now }
    requires reads { CallsRead stmt_view (L.post line.now) (reading.line_at below) }
    ensures { Reads stmt_view result (reading.while_at below (reading.line_at below) tokens.now) }
{
    let (_, rest) = keyword(Keyword::While, tokens)?;
    let (condition, rest) = expr(alloc, below, 1, rest)?;
    let body = block(alloc, below, Keyword::Do, Keyword::EndWhile, rest, line);
    let ((condition, body), rest) = beside(condition, body)?;
    Ok((Stmt::repeat_while(condition, body), rest))
}

/// `repeat_stmt = "REPEAT", lines, "UNTIL", expr, "END_REPEAT" .`
#[tactic(auto, unfolding(crate::specs::StatementReading::repeat_at))]
fn repeat_stmt<'a, L: Fn(&[Token]) -> Found<'_>>(
    alloc: Global,
    below: usize,
    tokens: &'a [Token],
    line: &L,
) -> Found<'a>
    requires below { below < MAX_DEPTH }
    requires line { L.IsAlwaysCallable line.now }
    requires reads { CallsRead stmt_view (L.post line.now) (reading.line_at below) }
    ensures { Reads stmt_view result (reading.repeat_at below (reading.line_at below) tokens.now) }
{
    let (_, rest) = keyword(Keyword::Repeat, tokens)?;
    let (body, rest) = lines(alloc, below, rest, line)?;
    let (_, rest) = keyword(Keyword::Until, rest)?;
    let (condition, rest) = expr(alloc, below, 1, rest)?;
    let ((condition, _), rest) = beside(condition, keyword(Keyword::EndRepeat, rest))?;
    Ok((Stmt::repeat_until(body, condition), rest))
}

/// `stmt = [ named | if_stmt | case_stmt | for_stmt | while_stmt | repeat_stmt | exit_stmt | return_stmt ] .`
#[tactic(auto, unfolding(crate::specs::StatementReading::stmt_at))]
fn stmt<'a, L: Fn(&[Token]) -> Found<'_>>(
    alloc: Global,
    below: usize,
    tokens: &'a [Token],
    line: &L,
) -> Found<'a>
    requires below { below < MAX_DEPTH }
    requires line { L.IsAlwaysCallable line.now }
    requires reads { CallsRead stmt_view (L.post line.now) (reading.line_at below) }
    ensures { Reads stmt_view result (reading.stmt_at below (reading.line_at below) tokens.now) }
{
    let [t, ..] = tokens else {
        return Err(refused(tokens));
    };
    match &t.kind {
        TokenKind::Name(_) => named(alloc, below, tokens),
        TokenKind::Mark(Mark::Semicolon) => Ok((Stmt::empty(), tokens)),
        TokenKind::Keyword(Keyword::If) => if_stmt(alloc, below, tokens, line),
        TokenKind::Keyword(Keyword::Case) => case_stmt(alloc, below, tokens, line),
        TokenKind::Keyword(Keyword::For) => for_stmt(alloc, below, tokens, line),
        TokenKind::Keyword(Keyword::While) => while_stmt(alloc, below, tokens, line),
        TokenKind::Keyword(Keyword::Repeat) => repeat_stmt(alloc, below, tokens, line),
        TokenKind::Keyword(Keyword::Exit) => exit_stmt(tokens),
        TokenKind::Keyword(Keyword::Return) => return_stmt(tokens),
        _ => Err(refused(tokens)),
    }
}

/// `line = stmt, ";" .`
/// A statement of at most a depth, with its semicolon.
#[cycle(line)]
#[tactic(auto, unfolding(crate::specs::StatementReading::line_at))]
fn line(alloc: Global, depth: usize, tokens: &[Token]) -> Found<'_>
    requires { depth ≤ MAX_DEPTH }
    ensures { Reads stmt_view result (reading.line_at depth tokens.now) }
{
    if depth == 0 {
        return Err(sunk(starts_stmt(tokens), tokens));
    }
    let below = depth - 1;
    let (found, rest) = stmt(
        alloc,
        below,
        tokens,
        &|tokens: &[Token]| -> Found<'_>
            requires { below < MAX_DEPTH }
            ensures { Reads stmt_view result (reading.line_at below tokens.now) }
        { line(alloc, below, tokens) },
    )?;
    closed(found, rest)
}

/// `stmts = lines .`
/// Statements of at most a depth.
pub fn stmts(alloc: Global, depth: usize, tokens: &[Token]) -> Block<'_>
    requires { depth ≤ MAX_DEPTH }
    ensures { Reads (each stmt_view) result (reading.stmts_at depth tokens.now) }
{
    lines(
        alloc,
        depth,
        tokens,
        &|tokens: &[Token]| -> Found<'_>
            requires { depth ≤ MAX_DEPTH }
            ensures { Reads stmt_view result (reading.line_at depth tokens.now) }
        { line(alloc, depth, tokens) },
    )
}
