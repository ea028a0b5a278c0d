//! The code of arrays in arrays.

ghost use Rattle.std.specs.Prelude.{IfOk, OnOk, map};
ghost use Rattle.slot_trees.specs.SlotTrees as tree;
ghost use Rattle.slot_trees.specs.SlotEvaluation.{slot_at};
ghost use Rattle.slot_trees.specs.Chains.{subscripts_of};
ghost use Rattle.slot_trees.specs.ExpressionViews.{anchor_view, place_view, slot_expr_view, subscript_view};
ghost use Rattle.quick_trees.specs.Pieces.{IsWithin};
ghost use Rattle.quick_trees.specs.UnitValues.{base_of};
ghost use Rattle.quick_trees.specs.TreeCode.{IsLedOn, IsAssignedTo, IsRead};
ghost use Rattle.quick_checks.specs.Checking.{Always, point_of};
ghost use Rattle.quick_checks.specs.Within.{AreLed, PlaceStored, access_instr};

use crate::constants::Reading;
use crate::cursor::Cursor;
use crate::draft::QuickDraft;
use crate::expressions::{deeper, temporary};
use crate::reached::{Access, expect_access, expect_located, expect_located_nested, read_reached};
use crate::reading::check_read;
use crate::refusal::Refusal;
use crate::scope::{Scope, is_kind, own_word_of, slot_of};
use crate::subscripts::check_subscript;
use slot_trees::{Anchor, Place, SlotExpr, SlotLibrary, Subscript};
use st_types::Kind;

/// Finds the code that reads a value of an array in an array.
#[cycle(check)]
pub fn check_read_within(
    draft: &QuickDraft,
    library: &SlotLibrary,
    scope: &Scope,
    place: &Place,
    depth: u16,
    at: &mut Cursor,
) -> Result<Reading, Refusal>
    ensures { IfOk result (λ r. Always draft.now library.now scope.now (λ f s units. IsRead f s units
        (tree.load (place_view place.now)) r.kind depth r.word (point_of at.old) (point_of at.new))) }
{
    let subscripts = place.subscripts.as_slice();
    if subscripts.len() < 2 {
        return Err(Refusal::Other);
    }
    temporary(draft, depth)?;
    let kind = check_within(
        draft,
        library,
        scope,
        place.anchor,
        subscripts,
        depth,
        Access::Load(depth),
        at,
    )?;
    Ok(Reading { kind, word: depth })
}

/// Finds the code that assigns such a value to a word: its type.
#[cycle(check)]
pub fn check_made_within(
    draft: &QuickDraft,
    library: &SlotLibrary,
    scope: &Scope,
    place: &Place,
    depth: u16,
    to: u16,
    at: &mut Cursor,
) -> Result<Kind, Refusal>
    ensures { IfOk result (λ t. Always draft.now library.now scope.now (λ f s units. IsAssignedTo f s units
        (tree.load (place_view place.now)) t depth to (point_of at.old) (point_of at.new))) }
{
    let subscripts = place.subscripts.as_slice();
    if subscripts.len() < 2 {
        return Err(Refusal::Other);
    }
    let kind = check_within(
        draft,
        library,
        scope,
        place.anchor,
        subscripts,
        depth,
        Access::Load(to),
        at,
    )?;
    Ok(kind)
}

/// Finds the code of an assignment to such a value, but for its tick.
#[cycle(check)]
pub fn check_stored_within(
    draft: &QuickDraft,
    library: &SlotLibrary,
    scope: &Scope,
    place: &Place,
    value: &SlotExpr,
    depth: u16,
    at: &mut Cursor,
) -> Result<(), Refusal>
    ensures { OnOk result (Always draft.now library.now scope.now (λ f s units. PlaceStored f s units
        (place_view place.now) (slot_expr_view value.now) depth (point_of at.old) (point_of at.new))) }
{
    let subscripts = place.subscripts.as_slice();
    if subscripts.len() < 2 {
        return Err(Refusal::Other);
    }
    let from = check_read(draft, library, scope, value, depth, at)?;
    let below = deeper(depth)?;
    let kind = check_within(
        draft,
        library,
        scope,
        place.anchor,
        subscripts,
        below,
        Access::Store(from.word),
        at,
    )?;
    if !is_kind(kind, from.kind) {
        return Err(Refusal::Other);
    }
    Ok(())
}

/// Finds the code that goes along subscripts to a value, and its use there: the type of the value.
#[cycle(check)]
fn check_within(
    draft: &QuickDraft,
    library: &SlotLibrary,
    scope: &Scope,
    anchor: Anchor,
    subscripts: &[Subscript],
    depth: u16,
    access: Access,
    at: &mut Cursor,
) -> Result<Kind, Refusal>
    ensures { IfOk result (λ t. Always draft.now library.now scope.now (λ f s units. IsWithin f s
        (slot_at (base_of s) (anchor_view anchor)) (subscripts_of (map subscript_view subscripts.now)) t
        (λ word. AreLed f s units (subscripts_of (map subscript_view subscripts.now)) depth
        (access_instr access depth word)) (point_of at.old) (point_of at.new))) }
{
    let slot = slot_of(&scope.values, anchor)?;
    let word = own_word_of(draft, &scope.values, slot)?;
    check_led(draft, library, scope, subscripts, depth, word, access, at)?;
    let kind = read_reached(draft, &scope.values, at, slot, word, subscripts)?;
    Ok(kind)
}

/// Finds the code that goes along subscripts.
#[cycle(check)]
fn check_led(
    draft: &QuickDraft,
    library: &SlotLibrary,
    scope: &Scope,
    subscripts: &[Subscript],
    depth: u16,
    word: u16,
    access: Access,
    at: &mut Cursor,
) -> Result<(), Refusal>
    ensures { OnOk result (Always draft.now library.now scope.now (λ f s units. AreLed f s units
        (subscripts_of (map subscript_view subscripts.now)) depth (access_instr access depth word)
        (point_of at.old) (point_of at.new))) }
{
    let Some((subscript, rest)) = subscripts.split_first() else {
        return Err(Refusal::Other);
    };
    temporary(draft, depth)?;
    let index = check_subscript(draft, library, scope, subscript, depth, at)?;
    expect_located(draft, at, index, subscript, depth)?;
    check_led_on(draft, library, scope, rest, depth, word, access, at)?;
    Ok(())
}

/// The same for further subscripts.
#[cycle(check)]
fn check_led_on(
    draft: &QuickDraft,
    library: &SlotLibrary,
    scope: &Scope,
    subscripts: &[Subscript],
    depth: u16,
    word: u16,
    access: Access,
    at: &mut Cursor,
) -> Result<(), Refusal>
    ensures { OnOk result (Always draft.now library.now scope.now (λ f s units. IsLedOn f s units
        (subscripts_of (map subscript_view subscripts.now)) depth (access_instr access depth word)
        (point_of at.old) (point_of at.new))) }
{
    let Some((subscript, rest)) = subscripts.split_first() else {
        return Err(Refusal::Other);
    };
    let below = deeper(depth)?;
    let index = check_subscript(draft, library, scope, subscript, below, at)?;
    if rest.is_empty() {
        expect_access(draft, at, index, subscript, depth, word, access)?;
        return Ok(());
    }
    expect_located_nested(draft, at, index, subscript, depth)?;
    check_led_on(draft, library, scope, rest, depth, word, access, at)?;
    Ok(())
}
