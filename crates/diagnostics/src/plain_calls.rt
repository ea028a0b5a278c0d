//! Calls of standard functions whose operands are numbers without a type: they give a LINT.

use crate::finding::Finding;
use crate::site::Site;
use crate::spot::is_mark;
use st_lex::{Keyword, Mark, Token, TokenKind};
use st_rules::Typing;
use st_types::{Kind, Sort};
use std::alloc::AllocError;
use symbols::{Standard, standard_function};

/// A call whose operands are numbers without a type.
#[derive(Clone, Copy)]
struct PlainCall<'a> {
    /// The name of its function.
    name: &'a Token,
    called: Standard,
    /// Its first number.
    number: &'a Token,
    /// Whether a minus is before its first number.
    is_negative: bool,
}

/// The tokens after the first ones.
fn after(tokens: &[Token], count: usize) -> &[Token] {
    let (_, rest) = tokens.split_at(count.min(tokens.len()));
    rest
}

/// Whether no expression has the token.
fn is_outside_expressions(kind: &TokenKind) -> bool {
    match kind {
        TokenKind::Keyword(keyword) => !matches!(
            keyword,
            Keyword::And | Keyword::Or | Keyword::Xor | Keyword::Not | Keyword::Mod
        ),
        TokenKind::Mark(mark) => matches!(mark, Mark::Semicolon | Mark::Assign | Mark::Arrow),
        _ => false,
    }
}

fn closes(kind: &TokenKind) -> bool {
    matches!(kind, TokenKind::Mark(Mark::Close | Mark::CloseBracket))
}

/// How many parentheses and brackets are open after a token, by those before it.
fn open_after(open: usize, kind: &TokenKind) -> usize {
    match kind {
        TokenKind::Mark(Mark::Open | Mark::OpenBracket) => open.saturating_add(1),
        TokenKind::Mark(Mark::Close | Mark::CloseBracket) => open.saturating_sub(1),
        _ => open,
    }
}

/// The part of an expression up to this mark, or to the parenthesis or bracket that closes it, outside others.
fn up_to(tokens: &[Token], mark: Mark) -> &[Token] {
    let mut open: usize = 0;
    let mut count: usize = 0;
    for token in tokens {
        let kind = &token.kind;
        let is_end = is_mark(Some(kind), mark) || closes(kind);
        if is_outside_expressions(kind) || is_end && open == 0 {
            break;
        }
        open = open_after(open, kind);
        count = count.saturating_add(1);
    }
    let (front, _) = tokens.split_at(count.min(tokens.len()));
    front
}

/// The standard function of a name.
fn called_by(token: &Token) -> Option<Standard> {
    match &token.kind {
        TokenKind::Name(name) => standard_function(name),
        _ => None,
    }
}

/// Whether the token may be in an operand that is a number without a type.
fn is_plain(token: &Token) -> bool {
    match &token.kind {
        TokenKind::Number(number) => number.written.is_none(),
        TokenKind::Keyword(keyword) => *keyword == Keyword::Mod,
        TokenKind::Mark(_) => true,
        TokenKind::Name(_) => matches!(
            called_by(token),
            Some(Standard::Abs | Standard::Min | Standard::Max | Standard::Limit)
        ),
        _ => false,
    }
}

/// The operands that have the type of the result, by the tokens in the parentheses of a call.
fn operands(called: Standard, inside: &[Token]) -> &[Token] {
    match called {
        Standard::Sel => {
            let selector = up_to(inside, Mark::Comma);
            after(inside, selector.len().saturating_add(1))
        }
        Standard::Abs | Standard::Min | Standard::Max | Standard::Limit => inside,
        _ => &[],
    }
}

/// The first number, and whether a minus is before it.
fn first_number(tokens: &[Token]) -> Option<(&Token, bool)> {
    let mut is_negative = false;
    for token in tokens {
        if let TokenKind::Number(_) = &token.kind {
            return Some((token, is_negative));
        }
        is_negative = is_mark(Some(&token.kind), Mark::Minus);
    }
    None
}

/// The call that begins an expression, perhaps after parentheses and signs.
fn call_in_front(tokens: &[Token]) -> Option<PlainCall<'_>> {
    let before = tokens
        .iter()
        .take_while(|t| is_mark(Some(&t.kind), Mark::Open) || is_mark(Some(&t.kind), Mark::Minus))
        .count();
    let [name, open, rest @ ..] = after(tokens, before) else {
        return None;
    };
    let called = called_by(name)?;
    let numbers = operands(called, up_to(rest, Mark::Close));
    if !is_mark(Some(&open.kind), Mark::Open) || !numbers.iter().all(|t| is_plain(t)) {
        return None;
    }
    let (number, is_negative) = first_number(numbers)?;
    Some(PlainCall {
        name,
        called,
        number,
        is_negative,
    })
}

/// The first call right of an operator of this sign in the expression at the place, outside parentheses.
fn call_after<'a>(site: &Site<'a>, sign: &str) -> Option<PlainCall<'a>> {
    let tokens = up_to(site.spot.behind, Mark::Comma);
    let mut open: usize = 0;
    for (at, token) in tokens.iter().enumerate() {
        let spelled = site.text.spelled_token(token).as_bytes();
        if open == 0 && spelled.eq_ignore_ascii_case(sign.as_bytes()) {
            let call = call_in_front(after(tokens, at.saturating_add(1)));
            if call.is_some() {
                return call;
            }
        }
        open = open_after(open, &token.kind);
    }
    None
}

/// Whether the call gives this type if its numbers have it.
fn may_give(call: PlainCall, kind: Kind) -> bool {
    match kind.row().sort {
        Sort::Signed | Sort::Unsigned => true,
        Sort::Bits => call.called == Standard::Sel,
        _ => false,
    }
}

/// The finding on a call that isn't of this type, at the call.
fn with_typed_number(
    site: &Site,
    finding: Finding,
    call: PlainCall,
    kind: Kind,
) -> Result<Finding, AllocError> {
    if !may_give(call, kind) {
        return Ok(finding);
    }
    let (name, number) = (kind.row().keyword, site.text.spelled_token(call.number));
    let sign = if call.is_negative { "-" } else { "" };
    let help = format!(in site.text.alloc;
        "numbers without a type are LINT in a call: write `{sign}{name}#{number}`"
    )?;
    Ok(finding.helped(help).at(call.name.start))
}

/// The finding on the expression at the place, if it begins with such a call, and another type is expected.
pub fn with_call(
    site: &Site,
    finding: Finding,
    given: Typing,
    expected: Kind,
) -> Result<Finding, AllocError> {
    match (given, call_in_front(site.spot.behind)) {
        (Typing::Elementary(Kind::Lint), Some(call)) => {
            with_typed_number(site, finding, call, expected)
        }
        _ => Ok(finding),
    }
}

/// An operator between operands of these types, before they take one.
#[derive(Clone, Copy)]
pub struct Operation {
    pub sign: &'static str,
    pub left: Typing,
    pub right: Typing,
}

/// The finding on the operation at the place, of which one operand may be such a call.
pub fn with_operand(
    site: &Site,
    finding: Finding,
    operation: Operation,
) -> Result<Finding, AllocError> {
    let Operation { sign, left, right } = operation;
    match (left, right) {
        (Typing::Elementary(Kind::Lint), Typing::Elementary(kind)) => {
            with_call(site, finding, left, kind)
        }
        (Typing::Elementary(kind), Typing::Elementary(Kind::Lint)) => {
            match call_after(site, sign) {
                Some(call) => with_typed_number(site, finding, call, kind),
                None => Ok(finding),
            }
        }
        _ => Ok(finding),
    }
}
