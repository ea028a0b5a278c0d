//! The code of functions in the place of their calls.

ghost use Rattle.std.specs.Prelude.{◌≡◌, ◌≤◌, ◌+◌, ℕ, IfOk, OnOk, length, map};
ghost use Rattle.slot_trees.specs.Chains.{exprs_of};
ghost use Rattle.slot_trees.specs.ExpressionViews.{slot_expr_view};
ghost use Rattle.slot_trees.specs.LibraryViews.{slot_function_view};
ghost use Rattle.quick_trees.specs.Calls.{kinds_in};
ghost use Rattle.quick_trees.specs.TreeCode.{AreArguments, IsCall};
ghost use Rattle.quick_checks.specs.Checking.{Always, kinds_read, point_of, words_read};

use crate::constants::Reading;
use crate::cursor::{Cursor, exits_in_body, expect, go, joins, landing};
use crate::draft::QuickDraft;
use crate::expressions::deeper;
use crate::prologues::{are_inputs, begin};
use crate::reading::check_read;
use crate::refusal::Refusal;
use crate::scope::{Scope, Values, kind_at, narrow, word_of};
use crate::statements::check_stmts;
use quick_code::QuickInstr;
use slot_trees::{SlotExpr, SlotFunction, SlotLibrary};
use st_compile::function_at;
use st_types::Kind;
use std::alloc::Global;

/// Finds the code of a call: the type of the result, which is then in a word.
#[cycle(check)]
pub fn check_call(
    draft: &QuickDraft,
    library: &SlotLibrary,
    scope: &Scope,
    function: usize,
    arguments: &[SlotExpr],
    depth: u16,
    to: u16,
    at: &mut Cursor,
) -> Result<Kind, Refusal>
    ensures { IfOk result (λ t. Always draft.now library.now scope.now (λ f s units. IsCall units
        (AreArguments f s units (exprs_of (map slot_expr_view arguments.now)) depth) function t depth to
        (point_of at.old) (point_of at.new))) }
{
    let read = check_arguments(draft, library, scope, arguments, depth, at)?;
    let Some(below) = (depth as usize).checked_add(read.len()) else {
        return Err(Refusal::Other);
    };
    let kind = check_function(
        draft,
        library,
        scope,
        function,
        &read,
        narrow(below)?,
        to,
        at,
    )?;
    Ok(kind)
}

/// Finds the code of arguments one after another: their types and words.
#[cycle(check)]
pub fn check_arguments(
    draft: &QuickDraft,
    library: &SlotLibrary,
    scope: &Scope,
    arguments: &[SlotExpr],
    depth: u16,
    at: &mut Cursor,
) -> Result<Vec<Reading>, Refusal>
    ensures { IfOk result (λ v. Always draft.now library.now scope.now (λ f s units. AreArguments f s units
        (exprs_of (map slot_expr_view arguments.now)) depth (kinds_read v.items) (words_read v.items)
        (point_of at.old) (point_of at.new))) }
{
    let mut read = Vec::new(at.alloc);
    let mut below = depth;
    let mut index = 0;
    while index < arguments.len() {
        let argument = check_read(draft, library, scope, &arguments[index], below, at)?;
        read.push(argument)?;
        below = deeper(below)?;
        index += 1;
    }
    Ok(read)
}

/// The types of a function's values.
fn kinds_of(alloc: Global, function: &SlotFunction) -> Result<Vec<Kind>, Refusal>
    ensures { IfOk result (λ v. v.items ≡ kinds_in (slot_function_view function.now)) }
{
    let mut kinds = Vec::new(alloc);
    let mut index = 0;
    while index < function.fresh.len() {
        kinds.push(function.fresh[index].kind())?;
        index += 1;
    }
    Ok(kinds)
}

/// Finds the code, in the place of its call, of a function whose values begin at a word: the type of the result, which is
/// then in a word.
#[cycle(check)]
fn check_function(
    draft: &QuickDraft,
    library: &SlotLibrary,
    scope: &Scope,
    number: usize,
    read: &[Reading],
    start: u16,
    to: u16,
    at: &mut Cursor,
) -> Result<Kind, Refusal>
    ensures { IfOk result (λ t. Always draft.now library.now scope.now (λ f s units. units.functions number
        (kinds_read read.now) (words_read read.now) start t to (point_of at.old) (point_of at.new))) }
{
    let Some(calls) = scope.calls.checked_sub(1) else {
        return Err(Refusal::Other);
    };
    let Ok(function) = function_at(library, number) else {
        return Err(Refusal::Other);
    };
    if !are_inputs(function, read) {
        return Err(Refusal::Other);
    }
    let below = room(draft, function, start)?;
    let seats = begin(draft, at, function, read, start)?;
    let kinds = kinds_of(at.alloc, function)?;
    let values = Values::Called(kinds, seats);
    let result = word_of(draft, &values, function.result)?;
    let kind = kind_at(draft, &values, function.result)?;
    let inner = Scope { values, calls };
    let last = landing(at)?;
    let exits = exits_in_body(&last)?;
    check_stmts(draft, library, &inner, &function.body, below, &exits, at)?;
    if !joins(draft, at, &last) {
        return Err(Refusal::Other);
    }
    go(at, last);
    expect(draft, at, QuickInstr::Move { from: result, to })?;
    Ok(kind)
}

/// Where temporaries begin after the values of a function, which begin at a word, if there is room for these.
fn room(draft: &QuickDraft, function: &SlotFunction, start: u16) -> Result<u16, Refusal>
    ensures below { IfOk result (λ d. d ≡ start + length (slot_function_view function.now).fresh) }
    ensures room { OnOk result (start + length (slot_function_view function.now).fresh ≤ draft.now.words) }
{
    let Some(below) = (start as usize).checked_add(function.fresh.len()) else {
        return Err(Refusal::Other);
    };
    if below > draft.words {
        return Err(Refusal::Other);
    }
    narrow(below)
}
