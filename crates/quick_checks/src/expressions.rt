//! Values of expressions.

ghost use Rattle.std.specs.Prelude.{◌≡◌, ◌<◌, ◌+◌, ◌*◌, ◌⊎◌, ℕ, IfOk, IfSome, IsTrue, OnOk, Some, map, slice_get, suc};
ghost use Rattle.slot_trees.specs.SlotEvaluation.{slot_at};
ghost use Rattle.slot_trees.specs.SlotTrees as tree;
ghost use Rattle.slot_trees.specs.Chains.{exprs_of};
ghost use Rattle.slot_trees.specs.ExpressionViews.{anchor_view, place_view, slot_expr_view};
ghost use Rattle.quick_trees.specs.Notes as notes;
ghost use Rattle.quick_trees.specs.Instructions as instrs;
ghost use Rattle.quick_trees.specs.Pieces.{AreElements, IsNumber, IsTemporary, IsWider, Loads, IsInstr, Stores};
ghost use Rattle.quick_trees.specs.Points.{next};
ghost use Rattle.quick_trees.specs.UnitValues.{HasOwnWord, HasWord, IsExact, Touches, base_of, kinds_of};
ghost use Rattle.quick_checks.specs.Checking.{frame_of, point_of, site_of};

use crate::constants::{Reading, number_for};
use crate::cursor::{Cursor, expect, is_instr, look};
use crate::draft::QuickDraft;
use crate::instructions::instr_by;
use crate::refusal::Refusal;
use crate::scope::{Values, is_kind, kind_at, narrow, own_word_of, slot_of, word_of};
use crate::subscripts::Indexed;
use quick_code::QuickInstr;
use quick_trees::Noting;
use slot_trees::{Anchor, Place, SlotExpr, Subscript};
use st_types::{BinaryOperator, Kind, is_wide};

/// The number of elements up to which quick code goes into an array.
const MAX_ELEMENTS: usize = 8192;

/// Looks up a variable: its type and its word.
pub fn read_variable(
    draft: &QuickDraft,
    values: &Values,
    anchor: Anchor,
    at: &mut Cursor,
) -> Result<Reading, Refusal>
    ensures of_type { IfOk result (λ r. (now : ℕ) → slice_get (kinds_of (frame_of draft.now now) (site_of values.now))
        (slot_at (base_of (site_of values.now)) (anchor_view anchor)) ≡ Some r.kind) }
    ensures has { IfOk result (λ r. HasWord draft.now.window.items (site_of values.now)
        (slot_at (base_of (site_of values.now)) (anchor_view anchor)) r.word) }
    ensures same { OnOk result (point_of at.new ≡ record (point_of at.old) { noted = at.new.noted.items }) }
    ensures touches { IfOk result (λ r. Touches notes.at_look (site_of values.now) r.word at.old.noted.items
        at.new.noted.items) }
{
    let slot = slot_of(values, anchor)?;
    read_slot(draft, values, slot, at)
}

/// Looks up a value: its type and its word.
pub fn read_slot(
    draft: &QuickDraft,
    values: &Values,
    slot: usize,
    at: &mut Cursor,
) -> Result<Reading, Refusal>
    ensures of_type { IfOk result (λ r. (now : ℕ)
        → slice_get (kinds_of (frame_of draft.now now) (site_of values.now)) slot ≡ Some r.kind) }
    ensures has { IfOk result (λ r. HasWord draft.now.window.items (site_of values.now) slot r.word) }
    ensures same { OnOk result (point_of at.new ≡ record (point_of at.old) { noted = at.new.noted.items }) }
    ensures touches { IfOk result (λ r. Touches notes.at_look (site_of values.now) r.word at.old.noted.items
        at.new.noted.items) }
{
    let kind = kind_at(draft, values, slot)?;
    let word = word_of(draft, values, slot)?;
    look(values, at, word)?;
    Ok(Reading { kind, word })
}

/// The variable of a place without subscripts.
pub fn variable_of(place: &Place) -> Option<Anchor>
    ensures { IfSome result (λ a. place_view place.now ≡ tree.place (anchor_view a) tree.no_subscripts) }
{
    if place.subscripts.is_empty() {
        Some(place.anchor)
    } else {
        None
    }
}

/// The slot of the element at an index, from the first of an array.
pub fn element_at(first: usize, index: usize, stride: usize) -> Option<usize>
    ensures { IfSome result (λ k. k ≡ first + index * stride) }
{
    first.checked_add(index.checked_mul(stride)?)
}

/// The array whose elements are looked at: its first slot and the word of that, and the type of the values there.
#[derive(Clone, Copy)]
struct Elements {
    slot: usize,
    word: u16,
    kind: Kind,
    stride: usize,
}

/// Whether an element begins with a value of the type, has the word, and nothing is known of its note.
fn is_element(
    draft: &QuickDraft,
    values: &Values,
    at: &Cursor,
    array: Elements,
    index: usize,
) -> bool
    ensures of_type { IsTrue result → (now : ℕ) → slice_get (kinds_of (frame_of draft.now now) (site_of values.now))
        (array.slot + index * array.stride) ≡ Some array.kind }
    ensures has { IsTrue result → HasOwnWord draft.now.window.items (site_of values.now)
        (array.slot + index * array.stride) (array.word + index * array.stride) }
    ensures exact { IsTrue result → IsExact (site_of values.now) at.now.noted.items
        (array.word + index * array.stride) }
{
    let (Some(slot), Some(word)) = (
        element_at(array.slot, index, array.stride),
        element_at(array.word as usize, index, array.stride),
    ) else {
        return false;
    };
    let (Ok(kind), Ok(own)) = (
        kind_at(draft, values, slot),
        own_word_of(draft, values, slot),
    ) else {
        return false;
    };
    is_kind(kind, array.kind) && own as usize == word && is_exact(values, &at.noted, word)
}

/// Whether nothing is known of the note of a word.
pub fn is_exact(values: &Values, noted: &[Noting], word: usize) -> bool
    ensures { IsTrue result → IsExact (site_of values.now) noted.now word }
{
    match values {
        Values::Whole(_) => match noted.get(word) {
            Some(Noting::Exact) => true,
            _ => false,
        },
        Values::Called(_, _) => true,
    }
}

/// The elements of an array: the type and the word of each one's first value.
pub fn read_elements(
    draft: &QuickDraft,
    values: &Values,
    at: &Cursor,
    anchor: Anchor,
    subscript: &Subscript,
) -> Result<Reading, Refusal>
    ensures { IfOk result (λ r. (now : ℕ) → AreElements (frame_of draft.now now) (site_of values.now)
        at.now.noted.items (slot_at (base_of (site_of values.now)) (anchor_view anchor))
        subscript.now.count subscript.now.stride r.word r.kind) }
{
    if subscript.count > MAX_ELEMENTS {
        return Err(Refusal::Other);
    }
    let first = slot_of(values, anchor)?;
    let kind = kind_at(draft, values, first)?;
    let word = own_word_of(draft, values, first)?;
    let array = Elements {
        slot: first,
        word,
        kind,
        stride: subscript.stride,
    };
    let mut index = 0;
    while index < subscript.count {
        if !is_element(draft, values, at, array, index) {
            return Err(Refusal::Other);
        }
        index += 1;
    }
    Ok(Reading { kind, word })
}

/// Finds the instruction that loads an element.
pub fn expect_load(
    draft: &QuickDraft,
    at: &mut Cursor,
    index: Indexed,
    to: u16,
    first: u16,
    subscript: &Subscript,
) -> Result<(), Refusal>
    ensures loads { OnOk result ((now : ℕ) → Loads (frame_of draft.now now) index.word index.shift to first
        subscript.now.count subscript.now.stride at.old.place) }
    ensures next { OnOk result (point_of at.new ≡ next (point_of at.old)) }
{
    let Indexed { word, shift } = index;
    let count = narrow(subscript.count)?;
    let stride = narrow(subscript.stride)?;
    if stride == 1 {
        expect(
            draft,
            at,
            QuickInstr::LoadElement {
                subscript: word,
                shift,
                to,
                first,
                count,
            },
        )?;
    } else {
        expect(
            draft,
            at,
            QuickInstr::LoadMember {
                subscript: word,
                shift,
                to,
                first,
                count,
                stride,
            },
        )?;
    }
    Ok(())
}

/// The same for the instruction that assigns to an element.
pub fn expect_store(
    draft: &QuickDraft,
    at: &mut Cursor,
    index: Indexed,
    from: u16,
    first: u16,
    subscript: &Subscript,
) -> Result<(), Refusal>
    ensures stores { OnOk result ((now : ℕ) → Stores (frame_of draft.now now) index.word index.shift from first
        subscript.now.count subscript.now.stride at.old.place) }
    ensures next { OnOk result (point_of at.new ≡ next (point_of at.old)) }
{
    let Indexed { word, shift } = index;
    let count = narrow(subscript.count)?;
    let stride = narrow(subscript.stride)?;
    if stride == 1 {
        expect(
            draft,
            at,
            QuickInstr::StoreElement {
                subscript: word,
                shift,
                from,
                first,
                count,
            },
        )?;
    } else {
        expect(
            draft,
            at,
            QuickInstr::StoreMember {
                subscript: word,
                shift,
                from,
                first,
                count,
                stride,
            },
        )?;
    }
    Ok(())
}

/// The constant with which the instruction here computes an operator on a word and an expression.
pub fn constant_taken(
    draft: &QuickDraft,
    at: &Cursor,
    operator: BinaryOperator,
    left: Reading,
    right: &SlotExpr,
    to: u16,
) -> Option<i32>
    ensures number { IfSome result (λ w. IsNumber (slot_expr_view right.now) left.kind w) }
    ensures stands { IfSome result (λ w. (now : ℕ) → IsInstr (frame_of draft.now now)
        (instrs.instr_by operator left.kind left.word w to) at.now.place) }
{
    let word = number_for(right, left.kind)?;
    if is_instr(
        draft,
        at,
        instr_by(operator, left.kind, left.word, word, to),
    ) {
        Some(word)
    } else {
        None
    }
}

/// Whether each number of a type is one of another, and both are words as they are.
#[tactic(auto, using(crate::proofs::Wider::wider))]
pub fn is_wider(from: Kind, to: Kind) -> bool
    ensures { IsTrue result → IsWider from to }
{
    !is_wide(from) && !is_wide(to) && to.least() <= from.least() && from.greatest() <= to.greatest()
}

/// The array and the subscript of a place that has one alone.
#[tactic(auto, using(crate::proofs::Chains::one_subscript))]
pub fn element_of(place: &Place) -> Option<(Anchor, &Subscript)>
    ensures { IfSome result (λ e. place_view place.now ≡ tree.place (anchor_view e.0)
        (tree.subscript_then (slot_expr_view e.1.now.index) e.1.now.lower e.1.now.count e.1.now.stride
        tree.no_subscripts)) }
{
    if place.subscripts.len() == 1 {
        Some((place.anchor, &place.subscripts[0]))
    } else {
        None
    }
}

/// The argument, if there is only one.
#[tactic(auto, using(crate::proofs::Chains::one_expr))]
pub fn only_argument(arguments: &[SlotExpr]) -> Option<&SlotExpr>
    ensures { IfSome result (λ e. exprs_of (map slot_expr_view arguments.now)
        ≡ tree.expr_then (slot_expr_view e.now) tree.no_exprs) }
{
    if arguments.len() == 1 {
        Some(&arguments[0])
    } else {
        None
    }
}

/// A temporary of a depth, if there is one.
pub fn temporary(draft: &QuickDraft, depth: u16) -> Result<(), Refusal>
    ensures { OnOk result ((now : ℕ) → IsTemporary (frame_of draft.now now) depth depth) }
{
    if (depth as usize) < draft.words {
        Ok(())
    } else {
        Err(Refusal::Other)
    }
}

/// One level deeper.
pub fn deeper(depth: u16) -> Result<u16, Refusal>
    ensures { IfOk result (λ d. d ≡ suc depth) }
{
    match depth.checked_add(1) {
        Some(depth) => Ok(depth),
        None => Err(Refusal::Other),
    }
}
