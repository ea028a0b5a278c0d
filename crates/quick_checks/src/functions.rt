//! The code of standard functions.

ghost use Rattle.std.specs.Prelude.{◌≡◌, ◌≤◌, ℕ, IfOk, IfSome, OnOk, map, pos};
ghost use Rattle.st_types.specs.Kinds.{row_of};
ghost use Rattle.symbols.specs.Standard.{standard_view};
ghost use Rattle.slot_trees.specs.Chains.{exprs_of};
ghost use Rattle.slot_trees.specs.ExpressionViews.{slot_expr_view};
ghost use Rattle.quick_trees.specs.Functions.{AreThree, AreTwo, IsPicked, IsConverted, IsEvaluated, IsFunctionOf};
ghost use Rattle.quick_trees.specs.Functions.{IsGreater, IsLesser, IsLimited, IsOne, IsSelected, IsShifted};
ghost use Rattle.quick_trees.specs.Functions.{IsWithoutSign};
ghost use Rattle.quick_trees.specs.Pieces.{IsNumberAt};
ghost use Rattle.quick_trees.specs.TreeCode.{AreArguments};
ghost use Rattle.quick_checks.specs.Checking.{Always, frame_of, kinds_read, point_of, words_read};

use crate::calls::check_arguments;
use crate::constants::Reading;
use crate::cursor::{Cursor, expect, expect_for};
use crate::draft::QuickDraft;
use crate::expressions::{deeper, is_wider, temporary};
use crate::instructions::by_bits;
use crate::ranges::{constant_of, expect_within};
use crate::refusal::Refusal;
use crate::scope::{Scope, is_kind, narrow};
use crate::turning::{expect_shifted_up, expect_turned};
use quick_code::QuickInstr;
use slot_trees::{SlotExpr, SlotLibrary};
use st_types::{Kind, is_wide};
use symbols::Standard;

/// Whether a standard function converts to a type that has each number, so that the word stays where it is.
pub fn is_widening(function: Standard) -> bool {
    match function {
        Standard::Convert(from, into) => is_wider(from, into),
        _ => false,
    }
}

/// Finds the code of a standard function: the type of its value, which is then in a word.
#[cycle(check)]
pub fn check_evaluated(
    draft: &QuickDraft,
    library: &SlotLibrary,
    scope: &Scope,
    function: Standard,
    arguments: &[SlotExpr],
    depth: u16,
    to: u16,
    at: &mut Cursor,
) -> Result<Kind, Refusal>
    ensures { IfOk result (λ t. Always draft.now library.now scope.now (λ f s units. IsEvaluated f
        (AreArguments f s units (exprs_of (map slot_expr_view arguments.now)) depth) (standard_view function) t depth to
        (point_of at.old) (point_of at.new))) }
{
    let read = check_arguments(draft, library, scope, arguments, depth, at)?;
    let Some(below) = (depth as usize).checked_add(read.len()) else {
        return Err(Refusal::Other);
    };
    let kind = expect_function(draft, function, &read, narrow(below)?, to, at)?;
    Ok(kind)
}

/// Finds the code of a standard function whose arguments are read.
fn expect_function(
    draft: &QuickDraft,
    function: Standard,
    read: &[Reading],
    depth: u16,
    to: u16,
    at: &mut Cursor,
) -> Result<Kind, Refusal>
    ensures { IfOk result (λ t. (now : ℕ) → IsFunctionOf (frame_of draft.now now) (standard_view function)
        (kinds_read read.now) (words_read read.now) t depth to (point_of at.old) (point_of at.new)) }
{
    match function {
        Standard::Convert(from, into) => expect_converted(draft, from, into, read, to, at),
        Standard::Shr => expect_shifted(draft, read, to, at),
        Standard::Min => expect_lesser(draft, read, depth, to, at),
        Standard::Max => expect_greater(draft, read, depth, to, at),
        Standard::Limit => expect_limited(draft, read, depth, to, at),
        Standard::Sel => expect_selected(draft, read, to, at),
        Standard::Abs => expect_without_sign(draft, read, depth, to, at),
        Standard::Shl => expect_shifted_up(draft, read, depth, to, at),
        Standard::Rol => expect_turned(draft, read, false, depth, to, at),
        Standard::Ror => expect_turned(draft, read, true, depth, to, at),
    }
}

/// The argument, if there is only one.
#[tactic(auto, using(crate::proofs::Given::one_reading))]
fn only_one(read: &[Reading]) -> Option<Reading>
    ensures { IfSome result (λ r. IsOne (kinds_read read.now) (words_read read.now) r.kind r.word) }
{
    if read.len() == 1 { Some(read[0]) } else { None }
}

/// The arguments, if there are two.
#[tactic(auto, using(crate::proofs::Given::two_readings))]
pub fn only_two(read: &[Reading]) -> Option<(Reading, Reading)>
    ensures { IfSome result (λ r. AreTwo (kinds_read read.now) (words_read read.now) r.0.kind r.1.kind r.0.word
        r.1.word) }
{
    if read.len() == 2 {
        Some((read[0], read[1]))
    } else {
        None
    }
}

/// The arguments, if there are three.
#[tactic(auto, using(crate::proofs::Given::three_readings))]
fn only_three(read: &[Reading]) -> Option<(Reading, Reading, Reading)>
    ensures { IfSome result (λ r. AreThree (kinds_read read.now) (words_read read.now) r.0.kind r.1.kind r.2.kind
        r.0.word r.1.word r.2.word) }
{
    if read.len() == 3 {
        Some((read[0], read[1], read[2]))
    } else {
        None
    }
}

/// Finds the code of a conversion.
fn expect_converted(
    draft: &QuickDraft,
    from: Kind,
    into: Kind,
    read: &[Reading],
    to: u16,
    at: &mut Cursor,
) -> Result<Kind, Refusal>
    ensures { IfOk result (λ t. (now : ℕ) → IsConverted (frame_of draft.now now) from into (kinds_read read.now)
        (words_read read.now) t to (point_of at.old) (point_of at.new)) }
{
    let Some(argument) = only_one(read) else {
        return Err(Refusal::Other);
    };
    if !is_kind(argument.kind, from) || is_wide(from) {
        return Err(Refusal::Other);
    }
    expect_within(draft, into, argument.word, to, at)?;
    Ok(into)
}

/// The number of bits of a type whose bits can be moved.
pub fn width_of(kind: Kind) -> Option<u8>
    ensures bits { IfSome result (λ n. n ≡ (row_of kind).bits) }
    ensures few { IfSome result (λ n. n ≤ 32) }
{
    match kind {
        Kind::Byte => Some(8),
        Kind::Word => Some(16),
        Kind::Dword => Some(32),
        _ => None,
    }
}

/// The number of places by which the instruction here moves bits.
fn places_at(draft: &QuickDraft, at: &Cursor) -> Option<u8> {
    match draft.code.instrs.get(at.place) {
        Some(QuickInstr::ShiftRight { places, .. }) => Some(*places),
        _ => None,
    }
}

/// Finds the code that moves bits down by a constant number of places.
fn expect_shifted(
    draft: &QuickDraft,
    read: &[Reading],
    to: u16,
    at: &mut Cursor,
) -> Result<Kind, Refusal>
    ensures { IfOk result (λ t. (now : ℕ) → IsShifted (frame_of draft.now now) (kinds_read read.now)
        (words_read read.now) t to (point_of at.old) (point_of at.new)) }
{
    let (Some((value, count)), Some(places)) = (only_two(read), places_at(draft, at)) else {
        return Err(Refusal::Other);
    };
    let Some(width) = width_of(value.kind) else {
        return Err(Refusal::Other);
    };
    let place = constant_of(draft, count.kind, places as i128)?;
    if place != count.word || places >= width {
        return Err(Refusal::Other);
    }
    expect_for(
        draft,
        at,
        by_bits(
            value.kind,
            QuickInstr::ShiftRight {
                from: value.word,
                places,
                to,
            },
        ),
    )?;
    Ok(value.kind)
}

/// Two words that are compared, and two of which one is chosen if the first is at most the second.
#[derive(Clone, Copy)]
struct Choice {
    left: u16,
    right: u16,
    yes: u16,
    no: u16,
}

/// Finds the code that assigns one of two words.
fn expect_chosen(
    draft: &QuickDraft,
    choice: Choice,
    depth: u16,
    to: u16,
    at: &mut Cursor,
) -> Result<(), Refusal>
    ensures { OnOk result ((now : ℕ) → IsPicked (frame_of draft.now now) choice.left choice.right choice.yes choice.no
        depth to (point_of at.old) (point_of at.new)) }
{
    temporary(draft, depth)?;
    expect(
        draft,
        at,
        QuickInstr::AtMost {
            left: choice.left,
            right: choice.right,
            to: depth,
        },
    )?;
    expect(
        draft,
        at,
        QuickInstr::Select {
            condition: depth,
            yes: choice.yes,
            no: choice.no,
            to,
        },
    )?;
    Ok(())
}

/// Finds the code that assigns the lesser of two values.
fn expect_lesser(
    draft: &QuickDraft,
    read: &[Reading],
    depth: u16,
    to: u16,
    at: &mut Cursor,
) -> Result<Kind, Refusal>
    ensures { IfOk result (λ t. (now : ℕ) → IsLesser (frame_of draft.now now) (kinds_read read.now)
        (words_read read.now) t depth to (point_of at.old) (point_of at.new)) }
{
    let Some((left, right)) = only_two(read) else {
        return Err(Refusal::Other);
    };
    if !is_kind(right.kind, left.kind) {
        return Err(Refusal::Other);
    }
    let choice = Choice {
        left: left.word,
        right: right.word,
        yes: left.word,
        no: right.word,
    };
    expect_chosen(draft, choice, depth, to, at)?;
    Ok(left.kind)
}

/// Finds the code that assigns the greater of two values.
fn expect_greater(
    draft: &QuickDraft,
    read: &[Reading],
    depth: u16,
    to: u16,
    at: &mut Cursor,
) -> Result<Kind, Refusal>
    ensures { IfOk result (λ t. (now : ℕ) → IsGreater (frame_of draft.now now) (kinds_read read.now)
        (words_read read.now) t depth to (point_of at.old) (point_of at.new)) }
{
    let Some((left, right)) = only_two(read) else {
        return Err(Refusal::Other);
    };
    if !is_kind(right.kind, left.kind) {
        return Err(Refusal::Other);
    }
    let choice = Choice {
        left: right.word,
        right: left.word,
        yes: left.word,
        no: right.word,
    };
    expect_chosen(draft, choice, depth, to, at)?;
    Ok(left.kind)
}

/// Finds the code that assigns a value between two limits.
fn expect_limited(
    draft: &QuickDraft,
    read: &[Reading],
    depth: u16,
    to: u16,
    at: &mut Cursor,
) -> Result<Kind, Refusal>
    ensures { IfOk result (λ t. (now : ℕ) → IsLimited (frame_of draft.now now) (kinds_read read.now)
        (words_read read.now) t depth to (point_of at.old) (point_of at.new)) }
{
    let Some((lower, value, upper)) = only_three(read) else {
        return Err(Refusal::Other);
    };
    if !is_kind(value.kind, lower.kind) || !is_kind(upper.kind, lower.kind) {
        return Err(Refusal::Other);
    }
    let first = Choice {
        left: lower.word,
        right: value.word,
        yes: value.word,
        no: lower.word,
    };
    expect_chosen(draft, first, depth, depth, at)?;
    let second = Choice {
        left: depth,
        right: upper.word,
        yes: depth,
        no: upper.word,
    };
    expect_chosen(draft, second, deeper(depth)?, to, at)?;
    Ok(lower.kind)
}

/// Finds the instruction that assigns one of two values if a BOOL is FALSE, and the other if it is TRUE.
fn expect_selected(
    draft: &QuickDraft,
    read: &[Reading],
    to: u16,
    at: &mut Cursor,
) -> Result<Kind, Refusal>
    ensures { IfOk result (λ t. (now : ℕ) → IsSelected (frame_of draft.now now) (kinds_read read.now)
        (words_read read.now) t to (point_of at.old) (point_of at.new)) }
{
    let Some((truth, left, right)) = only_three(read) else {
        return Err(Refusal::Other);
    };
    if !is_kind(truth.kind, Kind::Bool) || !is_kind(right.kind, left.kind) {
        return Err(Refusal::Other);
    }
    expect(
        draft,
        at,
        QuickInstr::Select {
            condition: truth.word,
            yes: right.word,
            no: left.word,
            to,
        },
    )?;
    Ok(left.kind)
}

/// Finds the code that assigns a number without its sign.
fn expect_without_sign(
    draft: &QuickDraft,
    read: &[Reading],
    depth: u16,
    to: u16,
    at: &mut Cursor,
) -> Result<Kind, Refusal>
    ensures { IfOk result (λ t. (now : ℕ) → IsWithoutSign (frame_of draft.now now) (kinds_read read.now)
        (words_read read.now) t depth to (point_of at.old) (point_of at.new)) }
{
    let Some(argument) = only_one(read) else {
        return Err(Refusal::Other);
    };
    temporary(draft, depth)?;
    let nought = constant_of(draft, argument.kind, 0)?;
    expect(
        draft,
        at,
        QuickInstr::SubtractLint {
            left: nought,
            right: argument.word,
            to: depth,
        },
    )?;
    let choice = Choice {
        left: nought,
        right: argument.word,
        yes: argument.word,
        no: depth,
    };
    expect_chosen(draft, choice, deeper(depth)?, depth, at)?;
    expect_within(draft, argument.kind, depth, to, at)?;
    Ok(argument.kind)
}
