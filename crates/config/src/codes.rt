//! The codes of a text's programs.

ghost use Rattle.std.specs.Prelude.{◌≡◌, ◌≢◌, ◌≤◌, ◌<◌, ◌+◌, ◌-◌, ◌*◌, ◌/◌, IfErr, IfOk, IfSome, false, length, map};
ghost use Rattle.machine_code.specs.declared.limits.TheConstants.{MAX_INSTRUCTIONS};
ghost use Rattle.st_types.specs.declared.limits.TheConstants.{MAX_PATHS};
ghost use Rattle.st_types.specs.SourceViews.{source_view};
ghost use Rattle.st_types.specs.Sources as trees;
ghost use Rattle.st_meaning.specs.ResolvedUnits.{resolved_source};
ghost use Rattle.layout.specs.Libraries.{programs_of_text};
ghost use Rattle.layout.specs.TextLayouts.{slots_of_text};
ghost use Rattle.layout.specs.KeptLayouts.{IsLayoutOf};
ghost use Rattle.slot_trees.specs.SlotTrees as tree;
ghost use Rattle.slot_trees.specs.LibraryViews.{IsKeptOf, slot_library_view};
ghost use Rattle.slot_trees.specs.StatementViews.{slot_stmts_view};
ghost use Rattle.st_link.specs.Accepted.{IsAccepted, IsLinked};
ghost use Rattle.st_link.specs.CalledFunctions.{is_called, program_count, value_count};
ghost use Rattle.st_link.specs.Linked.{linked_text_view};
ghost use Rattle.machine_code.specs.Programs.{program_code, ProgramFits};
ghost use Rattle.slot_code.specs.Quick.{IsAnswering};
ghost use Rattle.slot_code.specs.Codes.{code_view};
ghost use Rattle.st_compile.specs.Linked.{ProgramLinked};
ghost use Rattle.config.specs.Compiled.{AreCompiled};
ghost use Rattle.config.specs.Spelled.{IsSpelled};
ghost use Rattle.config.specs.Codes.{AreCodesOf, AreCodesOver, IsCodeOver};
ghost use Rattle.config.specs.Rooms.{HasOne, IsCrowded, HasTooManyInstructions, LacksRoom};

use crate::fitting_laws::accepted_texts_are_compiled;
use crate::look_ups::codes_of_accepted_texts_look_globals_up;
use crate::meaning::{code_of_texts_fails_as_their_programs, code_of_texts_means_their_programs};
use crate::running::code_of_accepted_texts_does_what_their_programs_do;
use crate::slot_kinds::kinds_of;
use layout::Layout;
use machine_code::MAX_INSTRUCTIONS;
use slot_code::{Code, PlacedParts, quick_code_answers_as_its_instructions};
use slot_trees::{SlotLibrary, SlotStmt};
use st_compile::{CALL_DEPTH, CompileError, Compiled, compile};
use st_link::{
    CalledFunctions, LinkError, LinkedText, accepted_texts_are_orderly, link,
    programs_of_accepted_texts_run_by_slots,
};
use st_types::{Kind, Source};
use std::alloc::{AllocError, Global};
use std::sync::Arc;

/// Whether there may be room for the values with which calls of these functions begin: each takes two instructions of a
/// program.
fn may_have_room(called: &CalledFunctions<'_>) -> bool
    ensures { result ≡ false → program_count called.now * (MAX_INSTRUCTIONS / 2) < value_count called.now }
{
    called.values() <= called.programs().saturating_mul(MAX_INSTRUCTIONS / 2)
}

/// A text linked with the functions that are called.
fn linked_text(
    alloc: Global,
    source: &Source,
    called: &CalledFunctions<'_>,
) -> Result<LinkedText, CompileError>
    ensures linked { IfOk result (λ linked. (text : trees.Source) → source_view source.now ≡ resolved_source text
        → IsAccepted text → length (slots_of_text text) ≤ MAX_PATHS
        → IsLinked text (is_called called.now) (linked_text_view linked)) }
    ensures there { IfErr result (λ e. (text : trees.Source) → source_view source.now ≡ resolved_source text
        → IsAccepted text → length (slots_of_text text) ≤ MAX_PATHS → e ≢ CompileError.NotLinked) }
    ensures places { IfErr result (λ e. e ≢ CompileError.TooManyPlaces) }
    ensures instructions { IfErr result (λ e. e ≢ CompileError.TooManyInstructions) }
{
    match link(alloc, source, called) {
        Ok(linked) => Ok(linked),
        Err(LinkError::NotThere) => Err(CompileError::NotLinked),
        Err(LinkError::OutOfMemory) => Err(CompileError::OutOfMemory),
    }
}

/// Quick code of a linked body over slots of these types, if it has some: it answers as the instructions do.
fn quick_of(
    alloc: Global,
    library: &SlotLibrary,
    kinds: &[Kind],
    body: &[SlotStmt],
    compiled: &Compiled,
) -> Result<Option<PlacedParts>, AllocError>
    requires code { (whole : tree.SlotLibrary) → IsKeptOf (slot_library_view library.now) whole
        → compiled.now.code.items ≡ program_code whole 0 (length kinds.now) (slot_stmts_view body.now) 64 }
    requires fits { (whole : tree.SlotLibrary) → IsKeptOf (slot_library_view library.now) whole
        → ProgramFits compiled.now.memory whole 0 (length kinds.now) (slot_stmts_view body.now) 64 }
    requires room { length kinds.now ≤ compiled.now.memory }
    ensures { IfOk result (λ o. IfSome o (λ q. IsAnswering compiled.now.code.items kinds.now
        (compiled.now.memory - length kinds.now) q.parts q.window.items)) }
{
    quick_code_answers_as_its_instructions();
    quick_compiler::compile(alloc, library, kinds, 0, CALL_DEPTH, body)
}

/// The code of a linked body over slots of these types. It may share quick code with the code before, if there is one.
fn code_of(
    alloc: Global,
    library: &SlotLibrary,
    kinds: &Arc<Vec<Kind>>,
    body: &[SlotStmt],
    before: Option<&Code>,
) -> Result<Code, CompileError>
    ensures code { IfOk result (λ code. (whole : tree.SlotLibrary) → IsKeptOf (slot_library_view library.now) whole
        → IsCodeOver whole kinds.now.value.items (slot_stmts_view body.now) (code_view code)) }
    ensures there { IfErr result (λ e. e ≡ CompileError.NotLinked
        → ¬ (ProgramLinked (slot_library_view library.now) 0 (length kinds.now.value.items) (slot_stmts_view body.now)
        64)) }
    ensures long { IfErr result (λ e. e ≡ CompileError.TooManyInstructions
        → (whole : tree.SlotLibrary) → IsKeptOf (slot_library_view library.now) whole
        → HasTooManyInstructions whole (length kinds.now.value.items) (slot_stmts_view body.now)) }
    ensures crowded { IfErr result (λ e. e ≡ CompileError.TooManyPlaces
        → IsCrowded (slot_library_view library.now) (length kinds.now.value.items) (slot_stmts_view body.now)) }
{
    let size = kinds.len();
    let compiled = compile(alloc, library, 0, size, body)?;
    let extra = compiled.memory - size;
    let quick = quick_of(alloc, library, kinds, body, &compiled)?;
    Ok(Code::new(
        alloc,
        compiled.code,
        Arc::clone(kinds)?,
        extra,
        quick,
        before,
    )?)
}

/// The codes of linked bodies, in order.
fn codes_of_programs(
    alloc: Global,
    library: &SlotLibrary,
    kinds: &Arc<Vec<Kind>>,
    programs: &[Vec<SlotStmt>],
) -> Result<Vec<Code>, CompileError>
    ensures codes { IfOk result (λ codes. (whole : tree.SlotLibrary) → IsKeptOf (slot_library_view library.now) whole
        → AreCodesOver whole kinds.now.value.items (map (λ b. slot_stmts_view b.items) programs.now)
        (map code_view codes.items)) }
    ensures there { IfErr result (λ e. e ≡ CompileError.NotLinked
        → ¬ (AreCompiled (slot_library_view library.now) (length kinds.now.value.items)
        (map (λ b. slot_stmts_view b.items) programs.now))) }
    ensures long { IfErr result (λ e. e ≡ CompileError.TooManyInstructions
        → (whole : tree.SlotLibrary) → IsKeptOf (slot_library_view library.now) whole
        → HasOne (HasTooManyInstructions whole (length kinds.now.value.items)) (map (λ b. slot_stmts_view b.items) programs.now)) }
    ensures crowded { IfErr result (λ e. e ≡ CompileError.TooManyPlaces
        → HasOne (IsCrowded (slot_library_view library.now) (length kinds.now.value.items))
        (map (λ b. slot_stmts_view b.items) programs.now)) }
{
    let mut codes = Vec::new(alloc);
    for body in programs {
        let code = code_of(alloc, library, kinds, body, codes.last())?;
        codes.push(code)?;
    }
    Ok(codes)
}

/// The code of each program of an accepted text, in the order of the configuration's instances, over the text's layout.
/// The text is given by its tree in which each literal has its type.
///
/// Each code means its program: over any values of the layout's slots the machine ends as the program does, with the same
/// outcome, and leaves the same variables. The program asks for all globals and inputs that its runs read. There are as many
/// codes as the text has programs.
///
/// M1 if calls of functions take more than 4,096 places in one program. M2 if the code of a program has more than 16,384
/// instructions; that is known before it is made if single calls of all called functions begin with more than 8,192 values
/// for each program. M3 out of memory. An accepted text over its layout, with its literals as the grammar gives them, gets
/// no other error.
pub fn codes_of_text(
    alloc: Global,
    source: &Source,
    layout: &Layout,
) -> Result<Vec<Code>, CompileError>
    ensures codes { IfOk result (λ codes. (text : trees.Source) → source_view source.now ≡ resolved_source text
        → IsAccepted text → IsLayoutOf text layout.now.slots → AreCodesOf text (map code_view codes.items)) }
    ensures count { IfOk result (λ codes. (text : trees.Source) → source_view source.now ≡ resolved_source text
        → IsAccepted text → IsLayoutOf text layout.now.slots
        → length codes.items ≡ length (programs_of_text text)) }
    ensures linked { IfErr result (λ e. (text : trees.Source) → source_view source.now ≡ resolved_source text
        → IsAccepted text → IsSpelled text → IsLayoutOf text layout.now.slots → e ≢ CompileError.NotLinked) }
    ensures instructions { IfErr result (λ e. (text : trees.Source) → source_view source.now ≡ resolved_source text
        → IsAccepted text → IsLayoutOf text layout.now.slots → e ≡ CompileError.TooManyInstructions
        → LacksRoom text e) }
    ensures places { IfErr result (λ e. (text : trees.Source) → source_view source.now ≡ resolved_source text
        → IsAccepted text → IsLayoutOf text layout.now.slots → e ≡ CompileError.TooManyPlaces
        → LacksRoom text e) }
{
    accepted_texts_are_orderly();
    accepted_texts_are_compiled();
    code_of_accepted_texts_does_what_their_programs_do();
    code_of_texts_means_their_programs();
    code_of_texts_fails_as_their_programs();
    codes_of_accepted_texts_look_globals_up();
    programs_of_accepted_texts_run_by_slots();
    let called = CalledFunctions::new(alloc, source)?;
    if !may_have_room(&called) {
        return Err(CompileError::TooManyInstructions);
    }
    let linked = linked_text(alloc, source, &called)?;
    let kinds = Arc::new(alloc, kinds_of(alloc, layout.facts())?)?;
    codes_of_programs(alloc, &linked.library, &kinds, &linked.programs)
}
