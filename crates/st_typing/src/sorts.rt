//! The operands of operators.

ghost use Rattle.std.specs.Prelude.{◌≡◌};
ghost use Rattle.st_meaning.specs.Resolution.{is_joining};
ghost use Rattle.st_rules.specs.Demands.{in_sorts, sorts_of_unary, sorts_of_binary};

use st_rules::Sorts;
use st_types::{BinaryOperator, Sort, UnaryOperator};

/// Whether the operator joins untyped operands to an untyped expression.
pub fn is_joining(operator: BinaryOperator) -> bool
    ensures { result ≡ is_joining operator }
{
    !matches!(
        operator,
        BinaryOperator::Equal
            | BinaryOperator::NotEqual
            | BinaryOperator::Less
            | BinaryOperator::Greater
            | BinaryOperator::LessOrEqual
            | BinaryOperator::GreaterOrEqual
    )
}

/// Whether the set has the types of this sort.
pub fn in_sorts(sorts: Sorts, sort: Sort) -> bool
    ensures { result ≡ in_sorts sorts sort }
{
    match sorts {
        Sorts::Any => true,
        Sorts::Whole => matches!(sort, Sort::Signed | Sort::Unsigned),
        Sorts::Selecting => matches!(sort, Sort::Signed | Sort::Unsigned | Sort::Place),
        Sorts::WholeOrTime => matches!(sort, Sort::Signed | Sort::Unsigned | Sort::Duration),
        Sorts::WithSign => matches!(sort, Sort::Signed),
        Sorts::BitString => matches!(sort, Sort::Bits),
        Sorts::TruthOrBits => matches!(sort, Sort::Truth | Sort::Bits),
        Sorts::Ordered => !matches!(sort, Sort::Truth | Sort::Place),
        Sorts::NoSort => false,
    }
}

/// The operands that an operator before its operand takes.
pub fn sorts_of_unary(operator: UnaryOperator) -> Sorts
    ensures { result ≡ sorts_of_unary operator }
{
    match operator {
        UnaryOperator::Negate => Sorts::WithSign,
        UnaryOperator::Not => Sorts::TruthOrBits,
    }
}

/// The operands that an operator between its operands takes.
pub fn sorts_of_binary(operator: BinaryOperator) -> Sorts
    ensures { result ≡ sorts_of_binary operator }
{
    match operator {
        BinaryOperator::Add | BinaryOperator::Subtract => Sorts::WholeOrTime,
        BinaryOperator::Multiply | BinaryOperator::Divide | BinaryOperator::Modulo => Sorts::Whole,
        BinaryOperator::And | BinaryOperator::Or | BinaryOperator::Xor => Sorts::TruthOrBits,
        BinaryOperator::Equal | BinaryOperator::NotEqual => Sorts::Any,
        BinaryOperator::Less
        | BinaryOperator::Greater
        | BinaryOperator::LessOrEqual
        | BinaryOperator::GreaterOrEqual => Sorts::Ordered,
    }
}
