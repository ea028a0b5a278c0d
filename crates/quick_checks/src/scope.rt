//! Where the values of a unit are.

ghost use Rattle.std.specs.Prelude.{◌≡◌, ℕ, IfOk, IsTrue, Some, map, slice_get};
ghost use Rattle.slot_trees.specs.SlotEvaluation.{slot_at};
ghost use Rattle.slot_trees.specs.ExpressionViews.{anchor_view};
ghost use Rattle.quick_trees.specs.UnitValues.{HasOwnWord, HasWord, base_of, kinds_of};
ghost use Rattle.quick_checks.specs.Checking.{frame_of, seat_of, site_of};

use crate::constants::Reading;
use crate::draft::QuickDraft;
use crate::refusal::Refusal;
use slot_trees::Anchor;
use st_types::Kind;

/// The word of a function's value, which the function may assign or not.
#[derive(Clone, Copy)]
pub struct FunctionWord {
    pub word: u16,
    pub is_own: bool,
}

/// The values of a unit.
pub enum Values {
    /// Those of all slots, among which the unit's own variables begin at the base.
    Whole(usize),
    /// Those of a function, with their types.
    Called(Vec<Kind>, Vec<FunctionWord>),
}

impl Drop for Values {
    fn drop(self) {
        match self {
            Self::Whole(_) | Self::Called(_, _) => {}
        }
    }
}

/// A unit: its values, and how deep its calls may be.
#[derive(Drop)]
pub struct Scope {
    pub values: Values,
    pub calls: usize,
}

/// The value that an anchor means.
pub fn slot_of(values: &Values, anchor: Anchor) -> Result<usize, Refusal>
    ensures { IfOk result (λ k. k ≡ slot_at (base_of (site_of values.now)) (anchor_view anchor)) }
{
    let base = match values {
        Values::Whole(base) => *base,
        Values::Called(_, _) => 0,
    };
    match anchor {
        Anchor::Own(offset) => base.checked_add(offset).ok_or(Refusal::Other),
        Anchor::Absolute(slot) => Ok(slot),
    }
}

/// The type of a value.
pub fn kind_at(draft: &QuickDraft, values: &Values, slot: usize) -> Result<Kind, Refusal>
    ensures { IfOk result (λ t. (now : ℕ)
        → slice_get (kinds_of (frame_of draft.now now) (site_of values.now)) slot ≡ Some t) }
{
    let kinds = match values {
        Values::Whole(_) => &draft.kinds,
        Values::Called(kinds, _) => kinds,
    };
    match kinds.get(slot) {
        Some(kind) => Ok(*kind),
        None => Err(Refusal::Other),
    }
}

/// The seat of a value.
#[tactic(auto, using(crate::proofs::Seats::seat_seen))]
pub fn function_word_at(seats: &[FunctionWord], slot: usize) -> Result<FunctionWord, Refusal>
    ensures { IfOk result (λ s. slice_get (map seat_of seats.now) slot ≡ Some (seat_of s)) }
{
    match seats.get(slot) {
        Some(seat) => Ok(*seat),
        None => Err(Refusal::Other),
    }
}

/// The word of a slot.
pub fn word_in(draft: &QuickDraft, slot: usize) -> Result<u16, Refusal>
    ensures { IfOk result (λ w. slice_get draft.now.window.items w ≡ Some slot) }
{
    let Some(word) = draft.words_by_slot.get(slot) else {
        return Err(Refusal::Other);
    };
    let word = *word;
    match draft.window.get(word as usize) {
        Some(there) => {
            if *there != slot {
                return Err(Refusal::Other);
            }
            Ok(word)
        }
        None => Err(Refusal::Other),
    }
}

/// The word of a value.
pub fn word_of(draft: &QuickDraft, values: &Values, slot: usize) -> Result<u16, Refusal>
    ensures { IfOk result (λ w. HasWord draft.now.window.items (site_of values.now) slot w) }
{
    match values {
        Values::Whole(_) => word_in(draft, slot),
        Values::Called(_, seats) => Ok(function_word_at(seats, slot)?.word),
    }
}

/// The word of a value that may be assigned.
pub fn own_word_of(draft: &QuickDraft, values: &Values, slot: usize) -> Result<u16, Refusal>
    ensures { IfOk result (λ w. HasOwnWord draft.now.window.items (site_of values.now) slot w) }
{
    match values {
        Values::Whole(_) => word_in(draft, slot),
        Values::Called(_, seats) => {
            let seat = function_word_at(seats, slot)?;
            if !seat.is_own {
                return Err(Refusal::Other);
            }
            Ok(seat.word)
        }
    }
}

/// A variable that is assigned: its type and its word.
pub fn target_of(draft: &QuickDraft, values: &Values, anchor: Anchor) -> Result<Reading, Refusal>
    ensures of_type { IfOk result (λ r. (now : ℕ) → slice_get (kinds_of (frame_of draft.now now) (site_of values.now))
        (slot_at (base_of (site_of values.now)) (anchor_view anchor)) ≡ Some r.kind) }
    ensures own { IfOk result (λ r. HasOwnWord draft.now.window.items (site_of values.now)
        (slot_at (base_of (site_of values.now)) (anchor_view anchor)) r.word) }
{
    let slot = slot_of(values, anchor)?;
    let kind = kind_at(draft, values, slot)?;
    let word = own_word_of(draft, values, slot)?;
    Ok(Reading { kind, word })
}

/// A number that instructions can name.
pub fn narrow(number: usize) -> Result<u16, Refusal>
    ensures { IfOk result (λ w. w ≡ number) }
{
    match u16::try_from(number) {
        Ok(word) => Ok(word),
        Err(_) => Err(Refusal::Other),
    }
}

/// Whether two types are the same.
pub fn is_kind(one: Kind, other: Kind) -> bool
    ensures { IsTrue result → (one ≡ other) }
{
    one == other
}
