//! The code of values.

ghost use Rattle.std.specs.Prelude.{◌≡◌, ◌⊎◌, ℕ, IfOk, IfSome, Some, map, slice_get};
ghost use Rattle.slot_trees.specs.SlotTrees as tree;
ghost use Rattle.slot_trees.specs.SlotEvaluation.{slot_at};
ghost use Rattle.slot_trees.specs.Chains.{exprs_of};
ghost use Rattle.symbols.specs.Standard.{standard_view};
ghost use Rattle.slot_trees.specs.ExpressionViews.{anchor_view, slot_expr_view};
ghost use Rattle.quick_code.specs.declared.quick_instr.QuickInstr.TheVariants as instrs;
ghost use Rattle.quick_trees.specs.Pieces.{IsConstant, IsFetched, IsMoved, IsNumber, IsSet};
ghost use Rattle.quick_trees.specs.UnitValues.{base_of};
ghost use Rattle.quick_trees.specs.TreeCode.{IsAssignedTo, IsRead, IsReadApart};
ghost use Rattle.quick_checks.specs.Checking.{Always, frame_of, point_of};

use crate::calls::check_call;
use crate::constants::{Reading, literal_value, number_for, read_constant};
use crate::cursor::{Cursor, expect, instr_at, is_instr, step};
use crate::draft::QuickDraft;
use crate::expressions::{
    constant_taken, deeper, element_of, expect_load, is_wider, only_argument, read_elements,
    read_variable, temporary, variable_of,
};
use crate::functions::{check_evaluated, is_widening};
use crate::instructions::{comparison_instr, instr_for};
use crate::ranges::{constant_as_lint, expect_kept, expect_within};
use crate::refusal::Refusal;
use crate::scope::{Scope, is_kind};
use crate::signs::check_unary;
use crate::subscripts::check_subscript;
use crate::within::{check_made_within, check_read_within};
use quick_code::{QuickInstr, is_same};
use slot_trees::{Anchor, Operands, SlotExpr, SlotLibrary, Subscript};
use st_types::{BinaryOperator, Kind, Literal};
use symbols::Standard;

/// Finds the code that reads an expression: the type of its value, and the word that has it then. Temporaries from a
/// depth on are free.
#[cycle(check)]
pub fn check_read(
    draft: &QuickDraft,
    library: &SlotLibrary,
    scope: &Scope,
    expression: &SlotExpr,
    depth: u16,
    at: &mut Cursor,
) -> Result<Reading, Refusal>
    ensures { IfOk result (λ r. Always draft.now library.now scope.now (λ f s units. IsRead f s units
        (slot_expr_view expression.now) r.kind depth r.word (point_of at.old) (point_of at.new))) }
{
    match expression {
        SlotExpr::Constant(literal) => read_constant(draft, literal),
        SlotExpr::Load(place) => {
            if let Some(anchor) = variable_of(place) {
                return read_variable(draft, &scope.values, anchor, at);
            }
            let Some((anchor, subscript)) = element_of(place) else {
                return check_read_within(draft, library, scope, place, depth, at);
            };
            temporary(draft, depth)?;
            let kind = check_fetched(draft, library, scope, anchor, subscript, depth, depth, at)?;
            Ok(Reading { kind, word: depth })
        }
        SlotExpr::Binary(operator, operands) => {
            temporary(draft, depth)?;
            let kind = check_binary(draft, library, scope, *operator, operands, depth, depth, at)?;
            Ok(Reading { kind, word: depth })
        }
        SlotExpr::Compute(function, arguments) => {
            if is_widening(*function) {
                return check_converted(draft, library, scope, *function, arguments, depth, at);
            }
            temporary(draft, depth)?;
            let kind = check_evaluated(
                draft, library, scope, *function, arguments, depth, depth, at,
            )?;
            Ok(Reading { kind, word: depth })
        }
        SlotExpr::Call(function, arguments) => {
            temporary(draft, depth)?;
            let kind = check_call(
                draft, library, scope, *function, arguments, depth, depth, at,
            )?;
            Ok(Reading { kind, word: depth })
        }
        SlotExpr::Unary(operator, operand) => {
            temporary(draft, depth)?;
            let kind = check_unary(draft, library, scope, *operator, operand, depth, depth, at)?;
            Ok(Reading { kind, word: depth })
        }
    }
}

/// The same for a conversion to a wider type.
#[cycle(check)]
fn check_converted(
    draft: &QuickDraft,
    library: &SlotLibrary,
    scope: &Scope,
    function: Standard,
    arguments: &[SlotExpr],
    depth: u16,
    at: &mut Cursor,
) -> Result<Reading, Refusal>
    ensures { IfOk result (λ r. Always draft.now library.now scope.now (λ f s units. IsRead f s units
        (tree.compute (standard_view function) (exprs_of (map slot_expr_view arguments.now))) r.kind depth r.word
        (point_of at.old) (point_of at.new))) }
{
    let Standard::Convert(from, to) = function else {
        return Err(Refusal::Other);
    };
    let Some(argument) = only_argument(arguments) else {
        return Err(Refusal::Other);
    };
    let read = check_read(draft, library, scope, argument, depth, at)?;
    if !is_kind(read.kind, from) || !is_wider(from, to) {
        return Err(Refusal::Other);
    }
    Ok(Reading {
        kind: to,
        word: read.word,
    })
}

/// Finds the code that assigns an expression to a word: the type of its value.
#[cycle(check)]
pub fn check_made(
    draft: &QuickDraft,
    library: &SlotLibrary,
    scope: &Scope,
    expression: &SlotExpr,
    depth: u16,
    to: u16,
    at: &mut Cursor,
) -> Result<Kind, Refusal>
    ensures { IfOk result (λ t. Always draft.now library.now scope.now (λ f s units. IsAssignedTo f s units
        (slot_expr_view expression.now) t depth to (point_of at.old) (point_of at.new))) }
{
    match expression {
        SlotExpr::Load(place) => {
            if let Some(anchor) = variable_of(place) {
                let read = read_variable(draft, &scope.values, anchor, at)?;
                expect(
                    draft,
                    at,
                    QuickInstr::Move {
                        from: read.word,
                        to,
                    },
                )?;
                return Ok(read.kind);
            }
            let Some((anchor, subscript)) = element_of(place) else {
                return check_made_within(draft, library, scope, place, depth, to, at);
            };
            check_fetched(draft, library, scope, anchor, subscript, depth, to, at)
        }
        SlotExpr::Binary(operator, operands) => {
            check_binary(draft, library, scope, *operator, operands, depth, to, at)
        }
        SlotExpr::Constant(literal) => made_constant(draft, expression, literal, to, at),
        SlotExpr::Compute(function, arguments) => {
            if !is_widening(*function) {
                let kind = check_evaluated(
                    draft, library, scope, *function, arguments, depth, to, at,
                )?;
                return Ok(kind);
            }
            let read = check_converted(draft, library, scope, *function, arguments, depth, at)?;
            expect(
                draft,
                at,
                QuickInstr::Move {
                    from: read.word,
                    to,
                },
            )?;
            Ok(read.kind)
        }
        SlotExpr::Call(function, arguments) => {
            check_call(draft, library, scope, *function, arguments, depth, to, at)
        }
        SlotExpr::Unary(operator, operand) => {
            check_unary(draft, library, scope, *operator, operand, depth, to, at)
        }
    }
}

/// The same for an operator on two expressions.
#[cycle(check)]
pub fn check_binary(
    draft: &QuickDraft,
    library: &SlotLibrary,
    scope: &Scope,
    operator: BinaryOperator,
    operands: &Operands,
    depth: u16,
    to: u16,
    at: &mut Cursor,
) -> Result<Kind, Refusal>
    ensures { IfOk result (λ t. Always draft.now library.now scope.now (λ f s units. IsAssignedTo f s units
        (tree.binary operator (slot_expr_view operands.now.left) (slot_expr_view operands.now.right)) t depth to
        (point_of at.old) (point_of at.new))) }
{
    let left = check_read(draft, library, scope, &operands.left, depth, at)?;
    if let Some(_) = constant_taken(draft, at, operator, left, &operands.right, to) {
        step(at)?;
        return Ok(left.kind);
    }
    if let Some(_) = constant_as_lint(draft, at, operator, left, &operands.right, depth) {
        step(at)?;
        expect_within(draft, left.kind, depth, to, at)?;
        return Ok(left.kind);
    }
    let below = deeper(depth)?;
    let right = check_read(draft, library, scope, &operands.right, below, at)?;
    if !is_kind(right.kind, left.kind) {
        return Err(Refusal::Other);
    }
    if is_instr(
        draft,
        at,
        instr_for(operator, left.kind, left.word, right.word, to),
    ) {
        step(at)?;
        return Ok(left.kind);
    }
    if is_instr(
        draft,
        at,
        comparison_instr(operator, left.word, right.word, to),
    ) {
        step(at)?;
        return Ok(Kind::Bool);
    }
    let sum = instr_for(operator, Kind::Lint, left.word, right.word, depth);
    expect_kept(draft, left.kind, sum, depth, to, at)?;
    Ok(left.kind)
}

/// The same for an element of an array.
#[cycle(check)]
pub fn check_fetched(
    draft: &QuickDraft,
    library: &SlotLibrary,
    scope: &Scope,
    anchor: Anchor,
    subscript: &Subscript,
    depth: u16,
    to: u16,
    at: &mut Cursor,
) -> Result<Kind, Refusal>
    ensures { IfOk result (λ t. Always draft.now library.now scope.now (λ f s units. IsFetched f s
        (λ u n. IsReadApart f s units (slot_expr_view subscript.now.index) u n depth) subscript.now.lower
        (slot_at (base_of s) (anchor_view anchor)) subscript.now.count subscript.now.stride t to
        (point_of at.old) (point_of at.new))) }
{
    let index = check_subscript(draft, library, scope, subscript, depth, at)?;
    let elements = read_elements(draft, &scope.values, at, anchor, subscript)?;
    expect_load(draft, at, index, to, elements.word, subscript)?;
    Ok(elements.kind)
}

/// A constant that the instruction here assigns.
#[derive(Clone, Copy)]
struct Constant {
    kind: Kind,
    word: i32,
}

/// The constant that the instruction here assigns to a word, if it is the expression.
fn set_here(
    draft: &QuickDraft,
    expression: &SlotExpr,
    literal: &Literal,
    to: u16,
    at: &Cursor,
) -> Option<Constant>
    ensures number { IfSome result (λ k. IsNumber (slot_expr_view expression.now) k.kind k.word) }
    ensures stands { IfSome result (λ k. slice_get draft.now.code.instrs.items at.now.place
        ≡ Some (instrs.Set k.word to)) }
{
    let Ok(value) = literal_value(literal) else {
        return None;
    };
    let kind = value.kind();
    let word = number_for(expression, kind)?;
    match instr_at(draft, at.place) {
        Ok(there) if is_same(there, QuickInstr::Set { constant: word, to }) => Some(Constant {
            kind,
            word,
        }),
        _ => None,
    }
}

/// The same for a constant.
fn made_constant(
    draft: &QuickDraft,
    expression: &SlotExpr,
    literal: &Literal,
    to: u16,
    at: &mut Cursor,
) -> Result<Kind, Refusal>
    requires { slot_expr_view expression.now ≡ tree.constant literal.now }
    ensures { IfOk result (λ t. (now : ℕ) → (IsMoved (frame_of draft.now now)
        (λ k p q. (p ≡ q) × IsConstant (frame_of draft.now now) literal.now t k) to (point_of at.old) (point_of at.new))
        ⊎ IsSet (frame_of draft.now now) (tree.constant literal.now) t to (point_of at.old) (point_of at.new)) }
{
    if let Some(constant) = set_here(draft, expression, literal, to, at) {
        step(at)?;
        return Ok(constant.kind);
    }
    let read = read_constant(draft, literal)?;
    expect(
        draft,
        at,
        QuickInstr::Move {
            from: read.word,
            to,
        },
    )?;
    Ok(read.kind)
}
