//! Findings on the operands of operators (C3).

use crate::conversions::{TIME_STAYS, WRITE_TIME, is_number};
use crate::finding::Finding;
use crate::plain_calls::{Operation, with_operand};
use crate::site::Site;
use crate::type_names::typing_name;
use st_rules::{Sorts, Typing};
use st_types::{BinaryOperator, Kind, Sort, UnaryOperator};
use std::alloc::AllocError;

/// The typing of a value beside one of a type: a number takes that type if it may.
pub fn beside(kind: Option<Kind>, typing: Typing) -> Typing {
    match (kind, typing) {
        (Some(kind), Typing::Untyped) if is_number(kind) => Typing::Elementary(kind),
        _ => typing,
    }
}

fn kind_of(typing: Typing) -> Option<Kind> {
    match typing {
        Typing::Elementary(kind) => Some(kind),
        _ => None,
    }
}

/// An operator between two operands.
#[derive(Clone, Copy)]
struct BetweenTwo {
    sign: &'static str,
    /// The sorts of values that it takes on both sides.
    sorts: Sorts,
}

fn row_of(operator: BinaryOperator) -> BetweenTwo {
    let (sign, sorts) = match operator {
        BinaryOperator::Or => ("OR", Sorts::TruthOrBits),
        BinaryOperator::Xor => ("XOR", Sorts::TruthOrBits),
        BinaryOperator::And => ("AND", Sorts::TruthOrBits),
        BinaryOperator::Equal => ("=", Sorts::Any),
        BinaryOperator::NotEqual => ("<>", Sorts::Any),
        BinaryOperator::Less => ("<", Sorts::Ordered),
        BinaryOperator::Greater => (">", Sorts::Ordered),
        BinaryOperator::LessOrEqual => ("<=", Sorts::Ordered),
        BinaryOperator::GreaterOrEqual => (">=", Sorts::Ordered),
        BinaryOperator::Add => ("+", Sorts::WholeOrTime),
        BinaryOperator::Subtract => ("-", Sorts::WholeOrTime),
        BinaryOperator::Multiply => ("*", Sorts::Whole),
        BinaryOperator::Divide => ("/", Sorts::Whole),
        BinaryOperator::Modulo => ("MOD", Sorts::Whole),
    };
    BetweenTwo { sign, sorts }
}

/// The values that an operator of these sorts takes.
fn words_of(sorts: Sorts) -> &'static str {
    match sorts {
        Sorts::TruthOrBits => "BOOLs or bit strings",
        Sorts::Ordered => "numbers, bit strings or TIMEs",
        Sorts::WholeOrTime => "integers or TIMEs",
        Sorts::Whole => "integers",
        _ => "single values",
    }
}

/// Whether an operator of these sorts takes an operand. A number without a type may take one.
fn is_taken(sorts: Sorts, operand: Typing) -> bool {
    let Typing::Elementary(kind) = operand else {
        return operand != Typing::Composite;
    };
    let sort = kind.row().sort;
    match sorts {
        Sorts::TruthOrBits => matches!(sort, Sort::Truth | Sort::Bits),
        Sorts::Ordered => !matches!(sort, Sort::Truth | Sort::Place),
        Sorts::WholeOrTime => matches!(sort, Sort::Signed | Sort::Unsigned | Sort::Duration),
        Sorts::Whole => matches!(sort, Sort::Signed | Sort::Unsigned),
        _ => true,
    }
}

fn operands_sentence(
    site: &Site,
    operator: BetweenTwo,
    left: Typing,
    right: Typing,
) -> Result<String, AllocError> {
    let (alloc, sign, sorts) = (site.text.alloc, operator.sign, operator.sorts);
    let (first, second) = (typing_name(site, left), typing_name(site, right));
    let taken = words_of(sorts);
    match (left, right) {
        (Typing::Untyped, Typing::Untyped) => {
            format!(in alloc; "`{sign}` takes {taken}; the operands are numbers of another type")
        }
        _ if left == right && left != Typing::Composite => {
            format!(in alloc; "`{sign}` takes {taken}; the operands are {first}")
        }
        _ if !is_taken(sorts, left) => {
            format!(in alloc; "`{sign}` takes {taken}; an operand is {first}")
        }
        _ if !is_taken(sorts, right) => {
            format!(in alloc; "`{sign}` takes {taken}; an operand is {second}")
        }
        _ => format!(in alloc;
            "the operands of `{sign}` are {first} and {second}: they must have the same type"
        ),
    }
}

/// What to write for an operation on a TIME and another operand.
fn help_of_time(operator: BinaryOperator, other: Typing) -> Option<&'static str> {
    match (operator, other) {
        (BinaryOperator::Multiply, _) => {
            Some("a TIME can't be multiplied: add it up, as in `t + t`, or write a TIME literal")
        }
        (BinaryOperator::Divide | BinaryOperator::Modulo, _) => {
            Some("a TIME can't be divided: write a TIME literal, as in `T#500ms`")
        }
        (BinaryOperator::And | BinaryOperator::Or | BinaryOperator::Xor, _) => None,
        (_, Typing::Untyped) => Some(WRITE_TIME),
        (_, Typing::Elementary(kind)) if is_number(kind) => Some(TIME_STAYS),
        _ => None,
    }
}

/// What to write for an operation on operands of these types, if one is a TIME.
fn help_of_operands(operator: BinaryOperator, left: Typing, right: Typing) -> Option<&'static str> {
    let time = Typing::Elementary(Kind::Time);
    if left == time {
        help_of_time(operator, right)
    } else if right == time {
        help_of_time(operator, left)
    } else {
        None
    }
}

/// The finding on an operator between operands of these types, before they take one.
pub fn wrong_operands(
    site: &Site,
    operator: BinaryOperator,
    left: Typing,
    right: Typing,
) -> Result<Finding, AllocError> {
    let row = row_of(operator);
    let first = beside(kind_of(right), left);
    let second = beside(kind_of(left), right);
    let finding = Finding::new(operands_sentence(site, row, first, second)?);
    match help_of_operands(operator, left, right) {
        Some(help) => finding.with_help(site.text.alloc, help),
        None => {
            let sign = row.sign;
            with_operand(site, finding, Operation { sign, left, right })
        }
    }
}

/// What to write for an operator before an operand that it doesn't take.
fn help_of_operand(operator: UnaryOperator, operand: Typing) -> Option<&'static str> {
    match (operator, operand) {
        (UnaryOperator::Negate, Typing::Elementary(Kind::Time)) => {
            Some("subtract it, as in `T#0s - t`")
        }
        _ => None,
    }
}

/// The finding on an operator before an operand of this type, before it takes one.
pub fn wrong_operand(
    site: &Site,
    operator: UnaryOperator,
    operand: Typing,
) -> Result<Finding, AllocError> {
    let taking = match operator {
        UnaryOperator::Negate => "`-` takes a signed number",
        UnaryOperator::Not => "NOT takes a BOOL or a bit string",
    };
    let given = match operand {
        Typing::Untyped => "a number of another type",
        _ => typing_name(site, operand),
    };
    let alloc = site.text.alloc;
    let finding = Finding::new(format!(in alloc; "{taking}; the operand is {given}")?);
    match help_of_operand(operator, operand) {
        Some(help) => finding.with_help(alloc, help),
        None => Ok(finding),
    }
}
