//! The code of a program.

ghost use Rattle.std.specs.Prelude.{◌≡◌, ◌≤◌, ◌<◌, ◌+◌, ℕ, IfOk, IfErr, length, max};
ghost use Rattle.machine_code.specs.declared.limits.TheConstants.{MAX_INSTRUCTIONS, MAX_MEMORY};
ghost use Rattle.slot_trees.specs.SlotTrees as tree;
ghost use Rattle.st_compile.specs.declared.limits.TheConstants.{FUNCTION_PLACES};
ghost use Rattle.slot_trees.specs.LibraryViews.{IsKeptOf, slot_library_view};
ghost use Rattle.slot_trees.specs.StatementViews.{slot_stmts_view};
ghost use Rattle.machine_code.specs.Programs.{program_code, ProgramFits};
ghost use Rattle.st_compile.specs.Emitting.{filled};
ghost use Rattle.st_compile.specs.Linked.{ProgramLinked};
ghost use Rattle.st_compile.specs.Resets.{slot_after_resets};
ghost use Rattle.st_compile.specs.Sizes.{IsWithinLimits};

use crate::compile_error::CompileError;
use crate::draft::Draft;
use crate::limits::{CALL_DEPTH, FUNCTION_PLACES};
use crate::scope::Scope;
use crate::statements::put_statements;
use machine_code::{Instr, JumpTargets, MAX_MEMORY};
use slot_trees::{SlotLibrary, SlotStmt};
use std::alloc::Global;

/// The code of a program, and the memory that it needs.
#[derive(Drop)]
pub struct Compiled {
    /// The instructions from the end on: the one that runs first is last.
    pub code: Vec<Instr>,
    /// How many slots there are for the values of the program and of the functions that run.
    pub memory: usize,
}

/// The code of a program for a memory of `memory` slots.
fn compile_within(
    alloc: Global,
    library: &SlotLibrary,
    base: usize,
    size: usize,
    memory: usize,
    body: &[SlotStmt],
) -> Result<Compiled, CompileError>
    requires room { size ≤ memory }
    requires numbered { memory ≤ MAX_MEMORY }
    ensures code { IfOk result (λ x. (whole : tree.SlotLibrary) → IsKeptOf (slot_library_view library.now) whole
        → x.code.items ≡ program_code whole base size (slot_stmts_view body.now) 64) }
    ensures fits { IfOk result (λ x. (whole : tree.SlotLibrary) → IsKeptOf (slot_library_view library.now) whole
        → ProgramFits x.memory whole base size (slot_stmts_view body.now) 64) }
    ensures few { IfOk result (λ x. length x.code.items ≤ MAX_INSTRUCTIONS) }
    ensures memory { IfOk result (λ x. x.memory ≡ memory) }
    ensures wrong { IfErr result (λ e. e ≡ CompileError.NotLinked
        → ¬ (ProgramLinked (slot_library_view library.now) base size (slot_stmts_view body.now) 64)) }
    ensures long { IfErr result (λ e. e ≡ CompileError.TooManyInstructions
        → (whole : tree.SlotLibrary) → IsKeptOf (slot_library_view library.now) whole
        → MAX_INSTRUCTIONS < length (program_code whole base size (slot_stmts_view body.now) 64)) }
    ensures crowded { IfErr result (λ e. e ≡ CompileError.TooManyPlaces
        → ¬ (ProgramFits memory (filled (slot_library_view library.now)) base size (slot_stmts_view body.now)
        64)) }
{
    let scope = Scope {
        depth: CALL_DEPTH,
        memory,
        start: 0,
        base,
        size,
    };
    let ways = JumpTargets {
        exit: 0,
        back: 0,
        held: 0,
    };
    let mut code = Draft::new(alloc);
    put_statements(library, scope, &mut code, body, ways)?;
    Ok(Compiled {
        code: code.into_instructions(),
        memory,
    })
}

/// How many slots code needs. A call resets all values of its function, so the greatest slot that is reset gives it.
fn needed(size: usize, code: &[Instr]) -> usize
    requires { size ≤ MAX_MEMORY }
    ensures memory { result ≡ max size (slot_after_resets code.now) }
    ensures numbered { result ≤ MAX_MEMORY }
{
    let mut memory = size;
    let mut left = code.len();
    while left > 0 {
        left -= 1;
        if let Instr::StoreRaw(slot) = code[left] {
            memory = memory.max(usize::from(slot) + 1);
        }
    }
    memory
}

/// The code of a program with its own variables from slot `base` on, over `size` slots.
///
/// It has at most 16,384 instructions, and at most 4,096 places for values of functions. The memory is the least that the
/// program fits, for which the code is made again.
///
/// M1 if the values of its functions take too many places, M2 if it has too many instructions, M3 if memory runs out.
/// `NotLinked` for a tree that isn't linked: no text gives one.
pub fn compile(
    alloc: Global,
    library: &SlotLibrary,
    base: usize,
    size: usize,
    body: &[SlotStmt],
) -> Result<Compiled, CompileError>
    ensures code { IfOk result (λ x. (whole : tree.SlotLibrary) → IsKeptOf (slot_library_view library.now) whole
        → x.code.items ≡ program_code whole base size (slot_stmts_view body.now) 64) }
    ensures fits { IfOk result (λ x. (whole : tree.SlotLibrary) → IsKeptOf (slot_library_view library.now) whole
        → ProgramFits x.memory whole base size (slot_stmts_view body.now) 64) }
    ensures sizes { IfOk result (λ x. IsWithinLimits size (length x.code.items) x.memory) }
    ensures least { IfOk result (λ x. (whole : tree.SlotLibrary) (memory : ℕ)
        → IsKeptOf (slot_library_view library.now) whole
        → ProgramFits memory whole base size (slot_stmts_view body.now) 64 → x.memory ≤ memory) }
    ensures wrong { IfErr result (λ e. e ≡ CompileError.NotLinked
        → ¬ (ProgramLinked (slot_library_view library.now) base size (slot_stmts_view body.now) 64)) }
    ensures long { IfErr result (λ e. e ≡ CompileError.TooManyInstructions
        → (whole : tree.SlotLibrary) → IsKeptOf (slot_library_view library.now) whole
        → MAX_INSTRUCTIONS < length (program_code whole base size (slot_stmts_view body.now) 64)) }
    ensures crowded { IfErr result (λ e. e ≡ CompileError.TooManyPlaces
        → ¬ (ProgramFits (size + FUNCTION_PLACES) (filled (slot_library_view library.now)) base size (slot_stmts_view
        body.now)
        64)) }
{
    if size > MAX_MEMORY - FUNCTION_PLACES {
        return Err(CompileError::TooManyPlaces);
    }
    let roomy = compile_within(alloc, library, base, size, size + FUNCTION_PLACES, body)?;
    let memory = needed(size, &roomy.code);
    if memory >= roomy.memory {
        return Ok(roomy);
    }
    // There is such code: only memory can run out.
    match compile_within(alloc, library, base, size, memory, body) {
        Ok(tight) => Ok(tight),
        Err(_) => Err(CompileError::OutOfMemory),
    }
}
