//! Functions of the standard for which the profile has an operator alone.

use crate::part::{part, shown};
use crate::spot::{Spot, is_mark};
use st_lex::{Mark, Token, TokenKind};
use std::alloc::{AllocError, Global};

/// A function of the standard, and the sign of its operator.
struct OperatorName {
    name: &'static [u8],
    sign: &'static str,
}

static NAMES: [OperatorName; 14] = [
    OperatorName {
        name: b"ADD",
        sign: "+",
    },
    OperatorName {
        name: b"SUB",
        sign: "-",
    },
    OperatorName {
        name: b"MUL",
        sign: "*",
    },
    OperatorName {
        name: b"DIV",
        sign: "/",
    },
    OperatorName {
        name: b"MOD",
        sign: "MOD",
    },
    OperatorName {
        name: b"GT",
        sign: ">",
    },
    OperatorName {
        name: b"GE",
        sign: ">=",
    },
    OperatorName {
        name: b"EQ",
        sign: "=",
    },
    OperatorName {
        name: b"LE",
        sign: "<=",
    },
    OperatorName {
        name: b"LT",
        sign: "<",
    },
    OperatorName {
        name: b"NE",
        sign: "<>",
    },
    OperatorName {
        name: b"AND",
        sign: "AND",
    },
    OperatorName {
        name: b"OR",
        sign: "OR",
    },
    OperatorName {
        name: b"XOR",
        sign: "XOR",
    },
];

/// The sign of the operator that does the work of a function.
fn sign_of(name: &[u8]) -> Option<&'static str> {
    for row in &NAMES {
        if row.name.eq_ignore_ascii_case(name) {
            return Some(row.sign);
        }
    }
    None
}

/// Whether a token is an operand by itself.
fn is_operand(token: &Token) -> bool {
    matches!(
        token.kind,
        TokenKind::Name(_) | TokenKind::Number(_) | TokenKind::Truth(_) | TokenKind::Duration(_)
    )
}

fn spelled<'a>(spot: &Spot<'a>, token: &Token) -> &'a str {
    shown(part(spot.text, token.start, token.end))
}

/// The two operands of the call at the place, if each is a token.
fn operands<'a>(spot: &Spot<'a>) -> Option<(&'a str, &'a str)> {
    match spot.behind {
        [_, _, left, comma, right, close, ..]
            if is_operand(left)
                && is_mark(Some(&comma.kind), Mark::Comma)
                && is_operand(right)
                && is_mark(Some(&close.kind), Mark::Close) => {
            Some((spelled(spot, left), spelled(spot, right)))
        }
        _ => None,
    }
}

/// What to write for the call at the place, if an operator does the work of its function.
pub fn operator_call(alloc: Global, spot: &Spot) -> Result<Option<String>, AllocError> {
    if !is_mark(spot.next(), Mark::Open) {
        return Ok(None);
    }
    let Some(sign) = sign_of(spot.spelled().as_bytes()) else {
        return Ok(None);
    };
    let (left, right) = match operands(spot) {
        Some(both) => both,
        None => ("a", "b"),
    };
    Ok(Some(format!(in alloc; "write the operator, as in `{left} {sign} {right}`")?))
}
