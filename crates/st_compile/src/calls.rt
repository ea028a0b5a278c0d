//! The code that replaces calls.

ghost use Rattle.std.specs.Prelude.{◌≡◌, ◌≤◌, ◌<◌, ◌+◌, OnOk, IfErr, length, map};
ghost use Rattle.machine_code.specs.declared.limits.TheConstants.{MAX_INSTRUCTIONS, MAX_MEMORY};
ghost use Rattle.slot_trees.specs.SlotEvaluation.{slot_at};
ghost use Rattle.slot_trees.specs.ExpressionViews.{anchor_view};
ghost use Rattle.slot_trees.specs.StatementViews.{block_code_view, slot_argument_view};
ghost use Rattle.machine_code.specs.Codes.{inputs_code, outputs_code, invoke_code};
ghost use Rattle.machine_code.specs.Fitting.{of_function, of_block, ArgumentsFit};
ghost use Rattle.machine_code.specs.UnitFrames.{end_of, instance_frame};
ghost use Rattle.st_compile.specs.Emitting.{frame_of, units_in, lengths_in, FitsIn, LinkedIn, InputsFit};
ghost use Rattle.st_compile.specs.Emitting.{OutputsFit, InputsLinked, OutputsLinked};
ghost use Rattle.st_compile.specs.Lengths.{inputs_length, outputs_length, invoke_length};
ghost use Rattle.st_compile.specs.Linked.{ArgumentsLinked};

use crate::access::Access;
use crate::compile_error::CompileError;
use crate::draft::Draft;
use crate::expressions::{put_expr, put_place};
use crate::places::{slot_after, value_at};
use crate::scope::Scope;
use crate::statements::put_statements;
use crate::units::{
    block_at, function_at, function_scope, given_count, has_signature, put_members, put_resets,
    put_stores,
};
use machine_code::{Instr, JumpTargets};
use slot_trees::{Anchor, BlockCode, SlotArgument, SlotLibrary};
use symbols::member_count;

/// Puts the code of a function in place of its call with `count` arguments.
#[cycle(unit)]
pub fn put_function(
    library: &SlotLibrary,
    scope: Scope,
    code: &mut Draft,
    number: usize,
    count: usize,
) -> Result<(), CompileError>
    requires room { scope.start + scope.size ≤ scope.memory }
    requires numbered { scope.memory ≤ MAX_MEMORY }
    ensures code { OnOk result (code.new
        ≡ (units_in library.now scope).functions number (end_of (frame_of scope)) code.old) }
    ensures fits { OnOk result (FitsIn library.now scope (of_function number (end_of (frame_of scope)) count)) }
    ensures long { OnOk result (length code.new
        ≡ (lengths_in library.now scope).functions number + length code.old) }
    ensures wrong { IfErr result (λ e. e ≡ CompileError.NotLinked
        → ¬ (LinkedIn library.now scope (of_function number (end_of (frame_of scope)) count))) }
    ensures full { IfErr result (λ e. e ≡ CompileError.TooManyInstructions → MAX_INSTRUCTIONS
        < (lengths_in library.now scope).functions number + length code.old) }
    ensures crowded { IfErr result (λ e. e ≡ CompileError.TooManyPlaces
        → ¬ (FitsIn library.now scope (of_function number (end_of (frame_of scope)) count))) }
{
    let Some(depth) = scope.depth.checked_sub(1) else {
        return Err(CompileError::NotLinked);
    };
    let function = function_at(library, number)?;
    if !has_signature(function, count) {
        return Err(CompileError::NotLinked);
    }
    let Ok(taken) = u16::try_from(count) else {
        return Err(CompileError::TooManyInstructions);
    };
    let inner = function_scope(scope, depth, function)?;
    code.put(Instr::LoadRaw(slot_after(inner.start, function.result)))?;
    let end = code.len();
    let ways = JumpTargets {
        exit: end,
        back: end,
        held: 0,
    };
    put_statements(library, inner, code, &function.body, ways)?;
    put_stores(code, inner.start, &function.inputs)?;
    put_resets(code, inner.start, &function.fresh)?;
    code.put(Instr::Reverse(taken))
}

/// The code of a block on the slots of an instance, the first of which is the base.
#[cycle(unit)]
fn put_block(
    library: &SlotLibrary,
    scope: Scope,
    code: &mut Draft,
    block: BlockCode,
) -> Result<(), CompileError>
    requires room { scope.start + scope.size ≤ scope.memory }
    requires numbered { scope.memory ≤ MAX_MEMORY }
    ensures code { OnOk result (code.new
        ≡ (units_in library.now scope).blocks (block_code_view block) (frame_of scope) code.old) }
    ensures fits { OnOk result (FitsIn library.now scope (of_block (block_code_view block) (frame_of scope))) }
    ensures long { OnOk result (length code.new
        ≡ (lengths_in library.now scope).blocks (block_code_view block) + length code.old) }
    ensures wrong { IfErr result (λ e. e ≡ CompileError.NotLinked
        → ¬ (LinkedIn library.now scope (of_block (block_code_view block) (frame_of scope)))) }
    ensures full { IfErr result (λ e. e ≡ CompileError.TooManyInstructions → MAX_INSTRUCTIONS
        < (lengths_in library.now scope).blocks (block_code_view block) + length code.old) }
    ensures crowded { IfErr result (λ e. e ≡ CompileError.TooManyPlaces
        → ¬ (FitsIn library.now scope (of_block (block_code_view block) (frame_of scope)))) }
{
    let Some(depth) = scope.depth.checked_sub(1) else {
        return Err(CompileError::NotLinked);
    };
    match block {
        BlockCode::Standard(block) => {
            if scope.base > scope.size || member_count(block) > scope.size - scope.base {
                return Err(CompileError::NotLinked);
            }
            code.put(Instr::Step(block, slot_after(scope.start, scope.base)))
        }
        BlockCode::Own(number) => {
            let body = block_at(library, number)?;
            let end = code.len();
            let ways = JumpTargets {
                exit: end,
                back: end,
                held: 0,
            };
            put_statements(library, Scope { depth, ..scope }, code, body, ways)
        }
    }
}

/// The code of a call of a block, except for its tick.
#[cycle(unit)]
pub fn put_invocation(
    library: &SlotLibrary,
    scope: Scope,
    code: &mut Draft,
    instance: Anchor,
    block: BlockCode,
    arguments: &[SlotArgument],
) -> Result<(), CompileError>
    requires room { scope.start + scope.size ≤ scope.memory }
    requires numbered { scope.memory ≤ MAX_MEMORY }
    ensures code { OnOk result (code.new ≡ invoke_code (units_in library.now scope) (frame_of scope)
        (slot_at scope.base (anchor_view instance)) (block_code_view block) (map slot_argument_view arguments.now)
        code.old) }
    ensures block { OnOk result (FitsIn library.now scope (of_block (block_code_view block)
        (instance_frame (frame_of scope) (slot_at scope.base (anchor_view instance))))) }
    ensures fits { OnOk result (ArgumentsFit (FitsIn library.now scope) (frame_of scope)
        (slot_at scope.base (anchor_view instance)) (map slot_argument_view arguments.now)) }
    ensures long { OnOk result (length code.new
        ≡ invoke_length (lengths_in library.now scope) (block_code_view block) (map slot_argument_view arguments.now)
        + length code.old) }
    ensures wrong { IfErr result (λ e. e ≡ CompileError.NotLinked
        → let at = slot_at scope.base (anchor_view instance) in ¬ ((at ≤ scope.size)
        × LinkedIn library.now scope (of_block (block_code_view block) (instance_frame (frame_of scope) at))
        × ArgumentsLinked (LinkedIn library.now scope) (frame_of scope) at (map slot_argument_view arguments.now))) }
    ensures full { IfErr result (λ e. e ≡ CompileError.TooManyInstructions → MAX_INSTRUCTIONS
        < invoke_length (lengths_in library.now scope) (block_code_view block) (map slot_argument_view arguments.now)
        + length code.old) }
    ensures crowded { IfErr result (λ e. e ≡ CompileError.TooManyPlaces
        → ¬ (FitsIn library.now scope (of_block (block_code_view block)
        (instance_frame (frame_of scope) (slot_at scope.base (anchor_view instance))))
        × ArgumentsFit (FitsIn library.now scope) (frame_of scope) (slot_at scope.base (anchor_view instance))
        (map slot_argument_view arguments.now))) }
{
    let first = value_at(scope.base, instance);
    if first > scope.size {
        return Err(CompileError::NotLinked);
    }
    let Ok(count) = u16::try_from(given_count(arguments)) else {
        return Err(CompileError::TooManyInstructions);
    };
    put_outputs(library, scope, code, first, arguments)?;
    let inner = Scope {
        base: first,
        ..scope
    };
    put_block(library, inner, code, block)?;
    put_members(code, scope.start + first, arguments)?;
    code.put(Instr::Reverse(count))?;
    put_inputs(library, scope, code, first, arguments)
}

/// The values of inputs are pushed on the stack, for members of an instance from a slot on.
#[cycle(unit)]
#[tactic(auto, using(crate::proofs::Elements::argument_smaller, crate::proofs::Behind::inputs_behind))]
fn put_inputs(
    library: &SlotLibrary,
    scope: Scope,
    code: &mut Draft,
    first: usize,
    arguments: &[SlotArgument],
) -> Result<(), CompileError>
    requires room { scope.start + scope.size ≤ scope.memory }
    requires numbered { scope.memory ≤ MAX_MEMORY }
    ensures code { OnOk result (code.new ≡ inputs_code (units_in library.now scope) (frame_of scope)
        (map slot_argument_view arguments.now) code.old) }
    ensures fits { OnOk result (InputsFit (FitsIn library.now scope) (frame_of scope) first
        (map slot_argument_view arguments.now)) }
    ensures long { OnOk result (length code.new
        ≡ inputs_length (lengths_in library.now scope) (map slot_argument_view arguments.now) + length code.old) }
    ensures wrong { IfErr result (λ e. e ≡ CompileError.NotLinked
        → ¬ (InputsLinked (LinkedIn library.now scope) (frame_of scope) first
        (map slot_argument_view arguments.now))) }
    ensures full { IfErr result (λ e. e ≡ CompileError.TooManyInstructions → MAX_INSTRUCTIONS
        < inputs_length (lengths_in library.now scope) (map slot_argument_view arguments.now) + length code.old) }
    ensures crowded { IfErr result (λ e. e ≡ CompileError.TooManyPlaces
        → ¬ (InputsFit (FitsIn library.now scope) (frame_of scope) first (map slot_argument_view arguments.now))) }
{
    let mut left = arguments.len();
    while left > 0 {
        left -= 1;
        if let SlotArgument::Given(member, value) = &arguments[left] {
            if first.saturating_add(*member) >= scope.size {
                return Err(CompileError::NotLinked);
            }
            put_expr(library, scope, code, value)?;
        }
    }
    Ok(())
}

/// Members of an instance from a slot on are copied to places.
#[cycle(unit)]
#[tactic(auto, using(crate::proofs::Elements::argument_smaller, crate::proofs::Behind::outputs_behind))]
fn put_outputs(
    library: &SlotLibrary,
    scope: Scope,
    code: &mut Draft,
    first: usize,
    arguments: &[SlotArgument],
) -> Result<(), CompileError>
    requires room { scope.start + scope.size ≤ scope.memory }
    requires numbered { scope.memory ≤ MAX_MEMORY }
    ensures code { OnOk result (code.new ≡ outputs_code (units_in library.now scope) (frame_of scope) first
        (map slot_argument_view arguments.now) code.old) }
    ensures fits { OnOk result (OutputsFit (FitsIn library.now scope) (frame_of scope) first
        (map slot_argument_view arguments.now)) }
    ensures long { OnOk result (length code.new
        ≡ outputs_length (lengths_in library.now scope) (map slot_argument_view arguments.now) + length code.old) }
    ensures wrong { IfErr result (λ e. e ≡ CompileError.NotLinked
        → ¬ (OutputsLinked (LinkedIn library.now scope) (frame_of scope) first
        (map slot_argument_view arguments.now))) }
    ensures full { IfErr result (λ e. e ≡ CompileError.TooManyInstructions → MAX_INSTRUCTIONS
        < outputs_length (lengths_in library.now scope) (map slot_argument_view arguments.now) + length code.old) }
    ensures crowded { IfErr result (λ e. e ≡ CompileError.TooManyPlaces
        → ¬ (OutputsFit (FitsIn library.now scope) (frame_of scope) first (map slot_argument_view arguments.now))) }
{
    let mut left = arguments.len();
    while left > 0 {
        left -= 1;
        if let SlotArgument::Copied(member, target) = &arguments[left] {
            let slot = first.saturating_add(*member);
            if slot >= scope.size {
                return Err(CompileError::NotLinked);
            }
            put_place(library, scope, code, target, Access::Store)?;
            code.put(Instr::LoadRaw(slot_after(scope.start, slot)))?;
        }
    }
    Ok(())
}
