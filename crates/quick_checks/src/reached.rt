//! Values of arrays in arrays: where subscripts may lead, and the instructions that go there.

ghost use Rattle.std.specs.Prelude.{◌≡◌, ◌+◌, ℕ, IfOk, IsTrue, OnOk, Some, map, slice_get};
ghost use Rattle.quick_code.specs.declared.quick_instr.QuickInstr.TheVariants as instrs;
ghost use Rattle.slot_trees.specs.Chains.{subscripts_of};
ghost use Rattle.slot_trees.specs.ExpressionViews.{subscript_view};
ghost use Rattle.quick_trees.specs.Pieces.{AreReached, IsOffset};
ghost use Rattle.quick_trees.specs.Points.{next};
ghost use Rattle.quick_checks.specs.Checking.{frame_of, point_of, site_of};
ghost use Rattle.quick_checks.specs.Within.{IsReached, access_instr};

use crate::cursor::{Cursor, expect};
use crate::draft::QuickDraft;
use crate::expressions::{element_at, is_exact};
use crate::refusal::Refusal;
use crate::scope::{Values, is_kind, kind_at, narrow, own_word_of};
use crate::subscripts::Indexed;
use quick_code::QuickInstr;
use slot_trees::Subscript;
use st_types::Kind;

/// The number of values up to which quick code follows subscripts.
const MAX_REACHED: usize = 8192;

/// The use of a value of an array in an array: it is loaded to a word, or assigned from one.
#[derive(Clone, Copy)]
pub enum Access {
    Load(u16),
    Store(u16),
}

/// The addend of a subscript, in an instruction with less room for it.
fn short(shift: i32) -> Result<i16, Refusal>
    ensures { IfOk result (λ n. n ≡ shift) }
{
    match i16::try_from(shift) {
        Ok(short) => Ok(short),
        Err(_) => Err(Refusal::Other),
    }
}

/// Finds the instruction that assigns the offset of an element to a temporary.
pub fn expect_located(
    draft: &QuickDraft,
    at: &mut Cursor,
    index: Indexed,
    subscript: &Subscript,
    depth: u16,
) -> Result<(), Refusal>
    ensures stands { OnOk result (slice_get draft.now.code.instrs.items at.old.place
        ≡ Some (instrs.Locate index.word index.shift depth subscript.now.count subscript.now.stride)) }
    ensures next { OnOk result (point_of at.new ≡ next (point_of at.old)) }
{
    let count = narrow(subscript.count)?;
    let stride = narrow(subscript.stride)?;
    expect(
        draft,
        at,
        QuickInstr::Locate {
            subscript: index.word,
            shift: index.shift,
            to: depth,
            count,
            stride,
        },
    )?;
    Ok(())
}

/// The same for an element of an array that is already at an offset.
pub fn expect_located_nested(
    draft: &QuickDraft,
    at: &mut Cursor,
    index: Indexed,
    subscript: &Subscript,
    depth: u16,
) -> Result<(), Refusal>
    ensures stands { OnOk result (slice_get draft.now.code.instrs.items at.old.place
        ≡ Some (instrs.LocateNested depth index.word index.shift depth subscript.now.count subscript.now.stride)) }
    ensures next { OnOk result (point_of at.new ≡ next (point_of at.old)) }
{
    let shift = short(index.shift)?;
    let count = narrow(subscript.count)?;
    let stride = narrow(subscript.stride)?;
    expect(
        draft,
        at,
        QuickInstr::LocateNested {
            offset: depth,
            subscript: index.word,
            shift,
            to: depth,
            count,
            stride,
        },
    )?;
    Ok(())
}

/// The same for the instruction that loads such an element, or assigns to it.
pub fn expect_access(
    draft: &QuickDraft,
    at: &mut Cursor,
    index: Indexed,
    subscript: &Subscript,
    depth: u16,
    word: u16,
    access: Access,
) -> Result<(), Refusal>
    ensures stands { OnOk result (slice_get draft.now.code.instrs.items at.old.place
        ≡ Some (access_instr access depth word index.word index.shift subscript.now.count subscript.now.stride)) }
    ensures next { OnOk result (point_of at.new ≡ next (point_of at.old)) }
{
    let shift = short(index.shift)?;
    let count = narrow(subscript.count)?;
    let stride = narrow(subscript.stride)?;
    let instr = match access {
        Access::Load(to) => QuickInstr::LoadNested {
            offset: depth,
            subscript: index.word,
            shift,
            to,
            first: word,
            count,
            stride,
        },
        Access::Store(from) => QuickInstr::StoreNested {
            offset: depth,
            subscript: index.word,
            shift,
            from,
            first: word,
            count,
            stride,
        },
    };
    expect(draft, at, instr)?;
    Ok(())
}

/// The array whose values are looked at: its first slot and the word of that, and the type of the values.
#[derive(Clone, Copy)]
struct Reached {
    slot: usize,
    word: u16,
    kind: Kind,
}

/// Whether the value at an offset from the first one is of the type, has the word, and nothing is known of its note.
fn is_reached(
    draft: &QuickDraft,
    values: &Values,
    at: &Cursor,
    array: Reached,
    offset: usize,
) -> bool
    ensures { IsTrue result → (now : ℕ) → IsReached (frame_of draft.now now) (site_of values.now) at.now.noted.items
        (array.slot + offset) (array.word + offset) array.kind }
{
    let (Some(slot), Some(word)) = (
        array.slot.checked_add(offset),
        (array.word as usize).checked_add(offset),
    ) else {
        return false;
    };
    let (Ok(kind), Ok(own)) = (
        kind_at(draft, values, slot),
        own_word_of(draft, values, slot),
    ) else {
        return false;
    };
    is_kind(kind, array.kind) && own as usize == word && is_exact(values, &at.noted, word)
}

/// Whether that holds for each value to which subscripts may lead from an offset on.
fn are_reached(
    draft: &QuickDraft,
    values: &Values,
    at: &Cursor,
    array: Reached,
    subscripts: &[Subscript],
    offset: usize,
) -> bool
    ensures { IsTrue result → (now o n : ℕ) → IsOffset (subscripts_of (map subscript_view subscripts.now)) o
        → n ≡ offset + o → IsReached (frame_of draft.now now) (site_of values.now) at.now.noted.items
        (array.slot + n) (array.word + n) array.kind }
{
    if subscripts.is_empty() {
        return is_reached(draft, values, at, array, offset);
    }
    let Some((subscript, rest)) = subscripts.split_first() else {
        return false;
    };
    for index in 0..subscript.count {
        let Some(element) = element_at(offset, index, subscript.stride) else {
            return false;
        };
        if !are_reached(draft, values, at, array, rest, element) {
            return false;
        }
    }
    true
}

/// Whether subscripts lead to a value each, and to few enough of them that all are looked at.
fn are_few(subscripts: &[Subscript]) -> bool {
    let mut count: usize = 1;
    for subscript in subscripts {
        count = count.saturating_mul(subscript.count);
        if count == 0 || count > MAX_REACHED {
            return false;
        }
    }
    true
}

/// The type of the values to which subscripts may lead from a slot on, whose words are in the same order from a word on.
pub fn read_reached(
    draft: &QuickDraft,
    values: &Values,
    at: &Cursor,
    slot: usize,
    word: u16,
    subscripts: &[Subscript],
) -> Result<Kind, Refusal>
    ensures { IfOk result (λ t. (now : ℕ) → AreReached (frame_of draft.now now) (site_of values.now)
        at.now.noted.items slot (subscripts_of (map subscript_view subscripts.now)) word t) }
{
    if !are_few(subscripts) {
        return Err(Refusal::Other);
    }
    let kind = kind_at(draft, values, slot)?;
    let array = Reached { slot, word, kind };
    if !are_reached(draft, values, at, array, subscripts, 0) {
        return Err(Refusal::Other);
    }
    Ok(kind)
}
