//! The code of calls of blocks.

ghost use Rattle.std.specs.Prelude.{◌≡◌, ◌∷◌, ◌++◌, List, IfOk, OnOk, map};
ghost use Rattle.slot_trees.specs.SlotTrees as tree;
ghost use Rattle.slot_trees.specs.ExpressionViews.{anchor_view, slot_expr_view};
ghost use Rattle.slot_trees.specs.StatementViews.{block_code_view, slot_argument_view};
ghost use Rattle.quick_trees.specs.Pieces.{Input};
ghost use Rattle.quick_trees.specs.Points.{Point};
ghost use Rattle.quick_trees.specs.UnitValues.{IsProgramOrBlock};
ghost use Rattle.quick_trees.specs.TreeCode.{InputsRead, IsInvoked, IsReadOrMoved};
ghost use Rattle.quick_checks.specs.Checking.{Always, inputs_taken, point_of, site_of};

use crate::constants::Reading;
use crate::cursor::{Cursor, exits_in_body, expect, go, instr_at, joins, landing};
use crate::draft::QuickDraft;
use crate::expressions::{deeper, temporary};
use crate::members::{Taken, check_copied, check_given, check_step, put_taken};
use crate::reading::check_read;
use crate::refusal::Refusal;
use crate::scope::{Scope, Values, slot_of};
use crate::statements::check_stmts;
use quick_code::{QuickInstr, is_same};
use slot_trees::{Anchor, BlockCode, SlotArgument, SlotExpr, SlotLibrary};
use st_compile::block_at;

/// Finds the code of a call of a block, but for its tick.
#[cycle(check)]
pub fn check_invoked(
    draft: &QuickDraft,
    library: &SlotLibrary,
    scope: &Scope,
    instance: Anchor,
    block: BlockCode,
    arguments: &[SlotArgument],
    depth: u16,
    at: &mut Cursor,
) -> Result<(), Refusal>
    ensures { OnOk result (Always draft.now library.now scope.now (λ f s units. IsInvoked f s units
        (anchor_view instance) (block_code_view block) (map slot_argument_view arguments.now) depth
        (point_of at.old) (point_of at.new))) }
{
    of_program(&scope.values)?;
    let first = slot_of(&scope.values, instance)?;
    let inputs = check_inputs(draft, library, scope, arguments, depth, at)?;
    check_given(draft, &scope.values, first, &inputs, at)?;
    check_block(draft, library, scope, block, first, depth, at)?;
    check_copied(draft, &scope.values, first, arguments, at)?;
    Ok(())
}

/// The unit is a program or a block.
fn of_program(values: &Values) -> Result<(), Refusal>
    ensures { OnOk result (IsProgramOrBlock (site_of values.now)) }
{
    match values {
        Values::Whole(_) => Ok(()),
        Values::Called(_, _) => Err(Refusal::Other),
    }
}

/// Finds the code that reads the inputs which arguments give, one after another.
#[cycle(check)]
fn check_inputs(
    draft: &QuickDraft,
    library: &SlotLibrary,
    scope: &Scope,
    arguments: &[SlotArgument],
    depth: u16,
    at: &mut Cursor,
) -> Result<Vec<Taken>, Refusal>
    ensures { IfOk result (λ v. Always draft.now library.now scope.now (λ f s units. InputsRead f s units
        (map slot_argument_view arguments.now) depth (inputs_taken v.items) (point_of at.old) (point_of at.new))) }
{
    let mut inputs = Vec::new(at.alloc);
    let mut below = depth;
    let mut index = 0;
    while index < arguments.len() {
        let argument = &arguments[index];
        below = check_argument(draft, library, scope, argument, below, &mut inputs, at)?;
        index += 1;
    }
    Ok(inputs)
}

/// The same for an argument, after the inputs before it: from which depth on temporaries are free then.
#[cycle(check)]
fn check_argument(
    draft: &QuickDraft,
    library: &SlotLibrary,
    scope: &Scope,
    argument: &SlotArgument,
    depth: u16,
    inputs: &mut Vec<Taken>,
    at: &mut Cursor,
) -> Result<u16, Refusal>
    ensures { IfOk result (λ d. Always draft.now library.now scope.now (λ f s units.
        (rest : List tree.SlotArgument) (js : List Input) (q : Point)
        → InputsRead f s units rest d js (point_of at.new) q → (is : List Input) × ((inputs_taken inputs.new.items ++ js ≡ inputs_taken inputs.old.items ++ is)
        × InputsRead f s units (slot_argument_view argument.now ∷ rest) depth is (point_of at.old) q))) }
{
    match argument {
        SlotArgument::Given(member, value) => {
            let read = check_input(draft, library, scope, value, depth, at)?;
            put_taken(inputs, *member, read)?;
            let below = deeper(depth)?;
            Ok(below)
        }
        SlotArgument::Copied(_, _) => Ok(depth),
    }
}

/// Finds the code that reads an input: its value is then in its own word, or moved to a temporary.
#[cycle(check)]
fn check_input(
    draft: &QuickDraft,
    library: &SlotLibrary,
    scope: &Scope,
    value: &SlotExpr,
    depth: u16,
    at: &mut Cursor,
) -> Result<Reading, Refusal>
    ensures { IfOk result (λ r. Always draft.now library.now scope.now (λ f s units. IsReadOrMoved f s units
        (slot_expr_view value.now) r.kind depth r.word (point_of at.old) (point_of at.new))) }
{
    let read = check_read(draft, library, scope, value, depth, at)?;
    let moved = QuickInstr::Move {
        from: read.word,
        to: depth,
    };
    if !is_same(instr_at(draft, at.place)?, moved) {
        return Ok(read);
    }
    temporary(draft, depth)?;
    expect(draft, at, moved)?;
    Ok(Reading {
        kind: read.kind,
        word: depth,
    })
}

/// Finds the code of a block on an instance.
#[cycle(check)]
fn check_block(
    draft: &QuickDraft,
    library: &SlotLibrary,
    scope: &Scope,
    block: BlockCode,
    first: usize,
    depth: u16,
    at: &mut Cursor,
) -> Result<(), Refusal>
    ensures { OnOk result (Always draft.now library.now scope.now (λ f s units. units.blocks (block_code_view block)
        first depth (point_of at.old) (point_of at.new))) }
{
    let Some(calls) = scope.calls.checked_sub(1) else {
        return Err(Refusal::Other);
    };
    match block {
        BlockCode::Own(number) => check_own(draft, library, scope, number, first, depth, at),
        BlockCode::Standard(standard) => {
            check_step(draft, standard, first, at)?;
            Ok(())
        }
    }
}

/// The same for a block of the text: its body takes the place of the call, with calls one less deep, and RETURN leads to the
/// code after it.
#[cycle(check)]
fn check_own(
    draft: &QuickDraft,
    library: &SlotLibrary,
    scope: &Scope,
    number: usize,
    first: usize,
    depth: u16,
    at: &mut Cursor,
) -> Result<(), Refusal>
    ensures { OnOk result (Always draft.now library.now scope.now (λ f s units. units.blocks (tree.own_block number)
        first depth (point_of at.old) (point_of at.new))) }
{
    let Some(calls) = scope.calls.checked_sub(1) else {
        return Err(Refusal::Other);
    };
    let Ok(body) = block_at(library, number) else {
        return Err(Refusal::Other);
    };
    let inner = Scope {
        values: Values::Whole(first),
        calls,
    };
    let last = landing(at)?;
    let exits = exits_in_body(&last)?;
    check_stmts(draft, library, &inner, body, depth, &exits, at)?;
    if !joins(draft, at, &last) {
        return Err(Refusal::Other);
    }
    go(at, last);
    Ok(())
}
