//! Typings, and how operators and places judge them.

ghost use Rattle.std.specs.Prelude.{◌≡◌, ◌&&◌, if◌then◌else◌, None};
ghost use Rattle.st_types.specs.declared.kind.Kind.TheVariants.{Bool};
ghost use Rattle.st_meaning.specs.Resolution.{is_joining};
ghost use Rattle.st_rules.specs.declared.reason.Reason.TheVariants.{WrongOperand, WrongOperands, Mismatch};
ghost use Rattle.st_rules.specs.declared.typings.Typing.TheVariants.{Elementary};
ghost use Rattle.st_rules.specs.Faults.{breaking, unless};
ghost use Rattle.st_rules.specs.Collecting.{Collects};
ghost use Rattle.st_rules.specs.Demands.{expected_of, sorts_of_unary, sorts_of_binary};
ghost use Rattle.st_rules.specs.Typings.{kind_of, is_untyped_typing, is_nothing, typing_of_kind, joined, settled};
ghost use Rattle.st_rules.specs.Typings.{fits, allows, are_operands};
ghost use Rattle.st_rules.specs.Nodes.{offered};
ghost use Rattle.st_rules.specs.Roots.{demand_of_typing};

use crate::kinds::{is_kind, taken_kind};
use crate::sorts::{in_sorts, is_joining, sorts_of_binary, sorts_of_unary};
use st_rules::{BrokenRules, Demand, Purpose, Reason, Sorts, Typing};
use st_types::{BinaryOperator, Kind, UnaryOperator};

/// The type of a typing, if it is elementary or enumerated.
pub fn kind_of(typing: Typing) -> Option<Kind>
    ensures { result ≡ kind_of typing }
{
    match typing {
        Typing::Elementary(kind) => Some(kind),
        _ => None,
    }
}

/// The typing of a type, if there is one.
pub fn typing_of_kind(kind: Option<Kind>) -> Typing
    ensures { result ≡ typing_of_kind kind }
{
    match kind {
        Some(kind) => Typing::Elementary(kind),
        None => Typing::Nothing,
    }
}

pub fn is_untyped_typing(typing: Typing) -> bool
    ensures { result ≡ is_untyped_typing typing }
{
    matches!(typing, Typing::Untyped)
}

pub fn are_untyped(left: Typing, right: Typing) -> bool
    ensures { result ≡ (is_untyped_typing left && is_untyped_typing right) }
{
    is_untyped_typing(left) && is_untyped_typing(right)
}

/// Whether a typing depends on an unknown name.
pub fn is_nothing(typing: Typing) -> bool
    ensures { result ≡ is_nothing typing }
{
    matches!(typing, Typing::Nothing)
}

/// The demand of a variable on a value: its type. A variable with parts takes none, and an unknown one has no demand.
pub fn demand_of_typing(purpose: Purpose, typing: Typing) -> Demand
    ensures { result ≡ demand_of_typing purpose typing }
{
    match typing {
        Typing::Elementary(kind) => Demand::Asked(Some(kind), Sorts::Any, purpose),
        Typing::Composite => Demand::Asked(None, Sorts::NoSort, purpose),
        Typing::Untyped | Typing::Nothing => Demand::Operand(None),
    }
}

/// The type that a place offers to an untyped expression.
pub fn expected_of(demand: Demand) -> Option<Kind>
    ensures { result ≡ expected_of demand }
{
    match demand {
        Demand::Operand(kind) => kind,
        Demand::Asked(kind, _, _) => kind,
    }
}

/// The typing at a place that offers a type: an untyped expression takes it.
pub fn settled(offered: Option<Kind>, typing: Typing) -> Typing
    ensures { result ≡ settled offered typing }
{
    match typing {
        Typing::Untyped => Typing::Elementary(taken_kind(offered)),
        _ => typing,
    }
}

/// Whether a typing is of these sorts, and of the expected type if one is expected. One that depends on an unknown name is.
pub fn fits(expected: Option<Kind>, sorts: Sorts, typing: Typing) -> bool
    ensures { result ≡ fits expected sorts typing }
{
    match typing {
        Typing::Untyped => false,
        Typing::Elementary(kind) => is_kind(expected, kind) && in_sorts(sorts, kind.row().sort),
        Typing::Composite => false,
        Typing::Nothing => true,
    }
}

/// Whether the typing meets the demand of a place.
pub fn allows(demand: Demand, typing: Typing) -> bool
    ensures { result ≡ allows demand typing }
{
    match demand {
        Demand::Operand(_) => true,
        Demand::Asked(expected, sorts, _) => fits(expected, sorts, typing),
    }
}

/// The typing of an operation that joins two: that of the operand which has a type.
pub fn joined(left: Typing, right: Typing) -> Typing
    ensures { result ≡ joined left right }
{
    match left {
        Typing::Elementary(_) => left,
        Typing::Untyped => right,
        Typing::Composite | Typing::Nothing => match right {
            Typing::Elementary(_) => right,
            _ => left,
        },
    }
}

/// The typing of an operation.
pub fn typing_of_operation(operator: BinaryOperator, left: Typing, right: Typing) -> Typing
    ensures { result ≡ (if is_joining operator then joined left right else Elementary Bool) }
{
    if is_joining(operator) {
        joined(left, right)
    } else {
        Typing::Elementary(Kind::Bool)
    }
}

/// Whether an operation has only untyped literals.
pub fn stays_untyped(operator: BinaryOperator, left: Typing, right: Typing) -> bool
    ensures { result ≡ (is_joining operator && (is_untyped_typing left && is_untyped_typing right)) }
{
    is_joining(operator) && are_untyped(left, right)
}

/// Whether the two are operands of one type, of these sorts.
fn are_operands(sorts: Sorts, left: Typing, right: Typing) -> bool
    ensures { result ≡ are_operands sorts left right }
{
    match left {
        Typing::Nothing => true,
        Typing::Elementary(kind) => match right {
            Typing::Nothing => true,
            Typing::Elementary(other) => kind.is(other) && in_sorts(sorts, kind.row().sort),
            _ => false,
        },
        _ => matches!(right, Typing::Nothing),
    }
}

/// The type offered to the operands of an operator: that of one, or, if none has one, the expected one of the place.
pub fn offered(
    expected: Option<Kind>,
    operator: BinaryOperator,
    left: Typing,
    right: Typing,
) -> Option<Kind>
    ensures { result ≡ offered expected operator left right }
{
    match (is_untyped_typing(left), is_untyped_typing(right)) {
        (true, true) => { if is_joining(operator) { expected } else { None } }
        (true, false) => kind_of(right),
        (false, _) => kind_of(left),
    }
}

/// Adds a fault at an operator before its operand, which is offered a type (C3).
pub fn wrong_unary(
    operator: UnaryOperator,
    place: usize,
    operand: Typing,
    offered: Option<Kind>,
    broken: &mut BrokenRules,
)
    ensures { Collects (breaking (WrongOperand operator operand)
        (unless (fits None (sorts_of_unary operator) (settled offered operand)) place)) broken.old broken.new }
{
    let right = fits(None, sorts_of_unary(operator), settled(offered, operand));
    broken.add_unless(right, Reason::WrongOperand(operator, operand), place);
}

/// Adds a fault at an operator between its operands, which are offered a type (C3).
pub fn wrong_binary(
    operator: BinaryOperator,
    place: usize,
    left: Typing,
    right: Typing,
    offered: Option<Kind>,
    broken: &mut BrokenRules,
)
    ensures { Collects (breaking (WrongOperands operator left right)
        (unless (are_operands (sorts_of_binary operator) (settled offered left) (settled offered right)) place))
        broken.old broken.new }
{
    let sorts = sorts_of_binary(operator);
    let fit = are_operands(sorts, settled(offered, left), settled(offered, right));
    broken.add_unless(fit, Reason::WrongOperands(operator, left, right), place);
}

/// Adds a typing that doesn't meet the demand of its place (C3).
pub fn wrong_typing(demand: Demand, typing: Typing, place: usize, broken: &mut BrokenRules)
    ensures { Collects (breaking (Mismatch demand typing)
        (unless (allows demand (settled (expected_of demand) typing)) place)) broken.old broken.new }
{
    let right = allows(demand, settled(expected_of(demand), typing));
    broken.add_unless(right, Reason::Mismatch(demand, typing), place);
}
