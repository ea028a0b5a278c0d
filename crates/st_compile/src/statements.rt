//! The code of statements.

ghost use Rattle.std.specs.Prelude.{◌≡◌, ◌≤◌, ◌<◌, ◌+◌, OnOk, IfErr, length, map, option_map};
ghost use Rattle.machine_code.specs.declared.instr.Instr.TheVariants as instrs;
ghost use Rattle.machine_code.specs.declared.limits.TheConstants.{MAX_INSTRUCTIONS, MAX_MEMORY};
ghost use Rattle.slot_trees.specs.Chains.{stmts_of, arms_of, case_arms_of};
ghost use Rattle.slot_trees.specs.ExpressionViews.{slot_expr_view};
ghost use Rattle.slot_trees.specs.StatementViews.{slot_stmt_view, slot_arm_view, slot_case_arm_view};
ghost use Rattle.slot_trees.specs.SlotTrees as trees;
ghost use Rattle.machine_code.specs.Codes.{stmt_code, stmts_code, arms_code, case_code, step_code};
ghost use Rattle.machine_code.specs.Fitting.{StmtFits, StmtsFit, ArmsFit, CaseArmsFit, StepFits};
ghost use Rattle.st_compile.specs.Emitting.{frame_of, units_in, lengths_in, FitsIn, LinkedIn, turns_code};
ghost use Rattle.st_compile.specs.Lengths.{stmt_length, stmts_length, turns_length, arms_length, case_length};
ghost use Rattle.st_compile.specs.Lengths.{step_length};
ghost use Rattle.st_compile.specs.Linked.{StmtLinked, StmtsLinked, ArmsLinked, CaseArmsLinked, StepLinked};

use crate::access::Access;
use crate::calls::put_invocation;
use crate::compile_error::CompileError;
use crate::draft::Draft;
use crate::expressions::{put_expr, put_place};
use crate::labels::{put_labels, put_number};
use crate::places::control_slot;
use crate::scope::Scope;
use machine_code::{Instr, JumpTargets};
use slot_trees::{SlotArm, SlotCaseArm, SlotExpr, SlotLibrary, SlotStmt};

/// Puts the code of a statement with these jump targets before the code that runs after it.
#[cycle(unit)]
#[tactic(auto, using(slot_trees::proofs::Bridge::choose_view, slot_trees::proofs::Bridge::select_view))]
fn put_statement(
    library: &SlotLibrary,
    scope: Scope,
    code: &mut Draft,
    statement: &SlotStmt,
    ways: JumpTargets,
) -> Result<(), CompileError>
    requires room { scope.start + scope.size ≤ scope.memory }
    requires numbered { scope.memory ≤ MAX_MEMORY }
    requires held { ways.held ≤ length code.old }
    ensures code { OnOk result (code.new ≡ stmt_code (units_in library.now scope) (frame_of scope)
        (slot_stmt_view statement.now) ways code.old) }
    ensures fits { OnOk result (StmtFits (FitsIn library.now scope) (frame_of scope) (slot_stmt_view statement.now)) }
    ensures long { OnOk result (length code.new
        ≡ stmt_length (lengths_in library.now scope) (slot_stmt_view statement.now) + length code.old) }
    ensures wrong { IfErr result (λ e. e ≡ CompileError.NotLinked
        → ¬ (StmtLinked (LinkedIn library.now scope) (frame_of scope) (slot_stmt_view statement.now))) }
    ensures full { IfErr result (λ e. e ≡ CompileError.TooManyInstructions → MAX_INSTRUCTIONS
        < stmt_length (lengths_in library.now scope) (slot_stmt_view statement.now) + length code.old) }
    ensures crowded { IfErr result (λ e. e ≡ CompileError.TooManyPlaces
        → ¬ (StmtFits (FitsIn library.now scope) (frame_of scope) (slot_stmt_view statement.now))) }
{
    match statement {
        SlotStmt::Empty => code.put(Instr::Tick),
        SlotStmt::Assign(target, value) => {
            put_place(library, scope, code, target, Access::Store)?;
            put_expr(library, scope, code, value)?;
            code.put(Instr::Tick)
        }
        SlotStmt::Invoke(instance, block, arguments) => {
            put_invocation(library, scope, code, *instance, *block, arguments)?;
            code.put(Instr::Tick)
        }
        SlotStmt::If(arms, otherwise) => put_if(library, scope, code, arms, otherwise, ways),
        SlotStmt::Case(selector, arms, otherwise) => {
            put_case(library, scope, code, selector, arms, otherwise, ways)
        }
        SlotStmt::For {
            control,
            start,
            limit,
            step,
            body,
        } => {
            let slot = control_slot(scope, *control)?;
            put_turns(library, scope, code, slot, body, ways)?;
            code.put(Instr::ForBegin(slot))?;
            put_step(library, scope, code, step)?;
            put_expr(library, scope, code, limit)?;
            put_expr(library, scope, code, start)?;
            code.put(Instr::Tick)
        }
        SlotStmt::While(condition, body) => put_while(library, scope, code, condition, body, ways),
        SlotStmt::Repeat(body, condition) => put_repeat(
            library, scope, code, body, condition, ways,
        ),
        SlotStmt::Exit => {
            code.put(Instr::Jump(ways.exit))?;
            code.put(Instr::Tick)
        }
        SlotStmt::Return => {
            code.put(Instr::Jump(ways.back))?;
            code.put(Instr::Pop(ways.held))?;
            code.put(Instr::Tick)
        }
    }
}

/// The same for an IF: its arms, and the statements that run if no condition holds.
#[cycle(unit)]
fn put_if(
    library: &SlotLibrary,
    scope: Scope,
    code: &mut Draft,
    arms: &[SlotArm],
    otherwise: &[SlotStmt],
    ways: JumpTargets,
) -> Result<(), CompileError>
    requires room { scope.start + scope.size ≤ scope.memory }
    requires numbered { scope.memory ≤ MAX_MEMORY }
    requires held { ways.held ≤ length code.old }
    ensures code { OnOk result (code.new ≡ stmt_code (units_in library.now scope) (frame_of scope)
        (trees.IF (arms_of (map slot_arm_view arms.now))
        (stmts_of (map slot_stmt_view otherwise.now))) ways code.old) }
    ensures fits { OnOk result (StmtFits (FitsIn library.now scope) (frame_of scope)
        (trees.IF (arms_of (map slot_arm_view arms.now))
        (stmts_of (map slot_stmt_view otherwise.now)))) }
    ensures long { OnOk result (length code.new
        ≡ stmt_length (lengths_in library.now scope) (trees.IF (arms_of (map slot_arm_view arms.now))
        (stmts_of (map slot_stmt_view otherwise.now))) + length code.old) }
    ensures wrong { IfErr result (λ e. e ≡ CompileError.NotLinked
        → ¬ (StmtLinked (LinkedIn library.now scope) (frame_of scope)
        (trees.IF (arms_of (map slot_arm_view arms.now))
        (stmts_of (map slot_stmt_view otherwise.now))))) }
    ensures full { IfErr result (λ e. e ≡ CompileError.TooManyInstructions → MAX_INSTRUCTIONS
        < stmt_length (lengths_in library.now scope) (trees.IF (arms_of (map slot_arm_view arms.now))
        (stmts_of (map slot_stmt_view otherwise.now))) + length code.old) }
    ensures crowded { IfErr result (λ e. e ≡ CompileError.TooManyPlaces
        → ¬ (StmtFits (FitsIn library.now scope) (frame_of scope) (trees.IF (arms_of (map slot_arm_view arms.now))
        (stmts_of (map slot_stmt_view otherwise.now))))) }
{
    let end = code.len();
    put_statements(library, scope, code, otherwise, ways)?;
    put_arms(library, scope, code, arms, ways, end)?;
    code.put(Instr::Tick)
}

/// The same for a CASE: its selector, its arms, and the statements that run if no label holds.
#[cycle(unit)]
fn put_case(
    library: &SlotLibrary,
    scope: Scope,
    code: &mut Draft,
    selector: &SlotExpr,
    arms: &[SlotCaseArm],
    otherwise: &[SlotStmt],
    ways: JumpTargets,
) -> Result<(), CompileError>
    requires room { scope.start + scope.size ≤ scope.memory }
    requires numbered { scope.memory ≤ MAX_MEMORY }
    requires held { ways.held ≤ length code.old }
    ensures code { OnOk result (code.new ≡ stmt_code (units_in library.now scope) (frame_of scope)
        (trees.CASE (slot_expr_view selector.now) (case_arms_of (map slot_case_arm_view arms.now))
        (stmts_of (map slot_stmt_view otherwise.now))) ways code.old) }
    ensures fits { OnOk result (StmtFits (FitsIn library.now scope) (frame_of scope)
        (trees.CASE (slot_expr_view selector.now) (case_arms_of (map slot_case_arm_view arms.now))
        (stmts_of (map slot_stmt_view otherwise.now)))) }
    ensures long { OnOk result (length code.new
        ≡ stmt_length (lengths_in library.now scope) (trees.CASE (slot_expr_view selector.now)
        (case_arms_of (map slot_case_arm_view arms.now))
        (stmts_of (map slot_stmt_view otherwise.now))) + length code.old) }
    ensures wrong { IfErr result (λ e. e ≡ CompileError.NotLinked
        → ¬ (StmtLinked (LinkedIn library.now scope) (frame_of scope)
        (trees.CASE (slot_expr_view selector.now) (case_arms_of (map slot_case_arm_view arms.now))
        (stmts_of (map slot_stmt_view otherwise.now))))) }
    ensures full { IfErr result (λ e. e ≡ CompileError.TooManyInstructions → MAX_INSTRUCTIONS
        < stmt_length (lengths_in library.now scope) (trees.CASE (slot_expr_view selector.now)
        (case_arms_of (map slot_case_arm_view arms.now))
        (stmts_of (map slot_stmt_view otherwise.now))) + length code.old) }
    ensures crowded { IfErr result (λ e. e ≡ CompileError.TooManyPlaces
        → ¬ (StmtFits (FitsIn library.now scope) (frame_of scope) (trees.CASE (slot_expr_view selector.now)
        (case_arms_of (map slot_case_arm_view arms.now))
        (stmts_of (map slot_stmt_view otherwise.now))))) }
{
    let end = code.len();
    put_statements(library, scope, code, otherwise, ways)?;
    code.put(Instr::Pop(1))?;
    put_case_arms(library, scope, code, arms, ways, end)?;
    put_expr(library, scope, code, selector)?;
    code.put(Instr::Tick)
}

/// The same for a WHILE.
#[cycle(unit)]
fn put_while(
    library: &SlotLibrary,
    scope: Scope,
    code: &mut Draft,
    condition: &SlotExpr,
    body: &[SlotStmt],
    ways: JumpTargets,
) -> Result<(), CompileError>
    requires room { scope.start + scope.size ≤ scope.memory }
    requires numbered { scope.memory ≤ MAX_MEMORY }
    requires held { ways.held ≤ length code.old }
    ensures code { OnOk result (code.new ≡ stmt_code (units_in library.now scope) (frame_of scope)
        (trees.WHILE (slot_expr_view condition.now)
        (stmts_of (map slot_stmt_view body.now))) ways code.old) }
    ensures fits { OnOk result (StmtFits (FitsIn library.now scope) (frame_of scope)
        (trees.WHILE (slot_expr_view condition.now)
        (stmts_of (map slot_stmt_view body.now)))) }
    ensures long { OnOk result (length code.new
        ≡ stmt_length (lengths_in library.now scope) (trees.WHILE (slot_expr_view condition.now) (stmts_of (map
        slot_stmt_view body.now)))
        + length code.old) }
    ensures wrong { IfErr result (λ e. e ≡ CompileError.NotLinked
        → ¬ (StmtLinked (LinkedIn library.now scope) (frame_of scope)
        (trees.WHILE (slot_expr_view condition.now)
        (stmts_of (map slot_stmt_view body.now))))) }
    ensures full { IfErr result (λ e. e ≡ CompileError.TooManyInstructions → MAX_INSTRUCTIONS
        < stmt_length (lengths_in library.now scope) (trees.WHILE (slot_expr_view condition.now) (stmts_of (map
        slot_stmt_view body.now)))
        + length code.old) }
    ensures crowded { IfErr result (λ e. e ≡ CompileError.TooManyPlaces
        → ¬ (StmtFits (FitsIn library.now scope) (frame_of scope)
        (trees.WHILE (slot_expr_view condition.now) (stmts_of (map slot_stmt_view body.now))))) }
{
    let end = code.len();
    code.put(Instr::LoopBack(0))?;
    put_statements(
        library,
        scope,
        code,
        body,
        JumpTargets { exit: end, ..ways },
    )?;
    code.put(Instr::JumpIfFalse(end))?;
    put_expr(library, scope, code, condition)?;
    code.close(end);
    code.put(Instr::Tick)
}

/// The same for a REPEAT.
#[cycle(unit)]
fn put_repeat(
    library: &SlotLibrary,
    scope: Scope,
    code: &mut Draft,
    body: &[SlotStmt],
    condition: &SlotExpr,
    ways: JumpTargets,
) -> Result<(), CompileError>
    requires room { scope.start + scope.size ≤ scope.memory }
    requires numbered { scope.memory ≤ MAX_MEMORY }
    requires held { ways.held ≤ length code.old }
    ensures code { OnOk result (code.new ≡ stmt_code (units_in library.now scope) (frame_of scope)
        (trees.REPEAT (stmts_of (map slot_stmt_view body.now))
        (slot_expr_view condition.now)) ways code.old) }
    ensures fits { OnOk result (StmtFits (FitsIn library.now scope) (frame_of scope)
        (trees.REPEAT (stmts_of (map slot_stmt_view body.now))
        (slot_expr_view condition.now))) }
    ensures long { OnOk result (length code.new
        ≡ stmt_length (lengths_in library.now scope) (trees.REPEAT (stmts_of (map slot_stmt_view body.now))
        (slot_expr_view condition.now))
        + length code.old) }
    ensures wrong { IfErr result (λ e. e ≡ CompileError.NotLinked
        → ¬ (StmtLinked (LinkedIn library.now scope) (frame_of scope)
        (trees.REPEAT (stmts_of (map slot_stmt_view body.now))
        (slot_expr_view condition.now)))) }
    ensures full { IfErr result (λ e. e ≡ CompileError.TooManyInstructions → MAX_INSTRUCTIONS
        < stmt_length (lengths_in library.now scope) (trees.REPEAT (stmts_of (map slot_stmt_view body.now))
        (slot_expr_view condition.now))
        + length code.old) }
    ensures crowded { IfErr result (λ e. e ≡ CompileError.TooManyPlaces
        → ¬ (StmtFits (FitsIn library.now scope) (frame_of scope)
        (trees.REPEAT (stmts_of (map slot_stmt_view body.now)) (slot_expr_view condition.now)))) }
{
    let end = code.len();
    code.put(Instr::LoopBack(0))?;
    code.put(Instr::JumpIfTrue(end))?;
    put_expr(library, scope, code, condition)?;
    put_statements(
        library,
        scope,
        code,
        body,
        JumpTargets { exit: end, ..ways },
    )?;
    code.close(end);
    code.put(Instr::Tick)
}

/// The same for statements one after another.
#[cycle(unit)]
#[tactic(auto, using(crate::proofs::Elements::stmt_smaller, crate::proofs::Behind::stmts_behind))]
pub fn put_statements(
    library: &SlotLibrary,
    scope: Scope,
    code: &mut Draft,
    statements: &[SlotStmt],
    ways: JumpTargets,
) -> Result<(), CompileError>
    requires room { scope.start + scope.size ≤ scope.memory }
    requires numbered { scope.memory ≤ MAX_MEMORY }
    requires held { ways.held ≤ length code.old }
    ensures code { OnOk result (code.new ≡ stmts_code (units_in library.now scope) (frame_of scope)
        (stmts_of (map slot_stmt_view statements.now)) ways code.old) }
    ensures fits { OnOk result (StmtsFit (FitsIn library.now scope) (frame_of scope)
        (stmts_of (map slot_stmt_view statements.now))) }
    ensures long { OnOk result (length code.new
        ≡ stmts_length (lengths_in library.now scope) (stmts_of (map slot_stmt_view statements.now))
        + length code.old) }
    ensures wrong { IfErr result (λ e. e ≡ CompileError.NotLinked
        → ¬ (StmtsLinked (LinkedIn library.now scope) (frame_of scope)
        (stmts_of (map slot_stmt_view statements.now)))) }
    ensures full { IfErr result (λ e. e ≡ CompileError.TooManyInstructions → MAX_INSTRUCTIONS
        < stmts_length (lengths_in library.now scope) (stmts_of (map slot_stmt_view statements.now))
        + length code.old) }
    ensures crowded { IfErr result (λ e. e ≡ CompileError.TooManyPlaces
        → ¬ (StmtsFit (FitsIn library.now scope) (frame_of scope) (stmts_of (map slot_stmt_view statements.now)))) }
{
    let mut left = statements.len();
    while left > 0 {
        left -= 1;
        put_statement(library, scope, code, &statements[left], ways)?;
    }
    Ok(())
}

/// The same for the arms of an IF that ends at a place, before the statements that run if no condition holds.
#[cycle(unit)]
#[tactic(auto, using(crate::proofs::Elements::condition_smaller, crate::proofs::Elements::body_smaller, crate::proofs::Behind::arms_behind))]
fn put_arms(
    library: &SlotLibrary,
    scope: Scope,
    code: &mut Draft,
    arms: &[SlotArm],
    ways: JumpTargets,
    end: u16,
) -> Result<(), CompileError>
    requires room { scope.start + scope.size ≤ scope.memory }
    requires numbered { scope.memory ≤ MAX_MEMORY }
    requires held { ways.held ≤ length code.old }
    ensures code { OnOk result (code.new ≡ arms_code (units_in library.now scope) (frame_of scope)
        (arms_of (map slot_arm_view arms.now)) ways end code.old) }
    ensures fits { OnOk result (ArmsFit (FitsIn library.now scope) (frame_of scope)
        (arms_of (map slot_arm_view arms.now))) }
    ensures long { OnOk result (length code.new
        ≡ arms_length (lengths_in library.now scope) (arms_of (map slot_arm_view arms.now)) + length code.old) }
    ensures wrong { IfErr result (λ e. e ≡ CompileError.NotLinked
        → ¬ (ArmsLinked (LinkedIn library.now scope) (frame_of scope) (arms_of (map slot_arm_view arms.now)))) }
    ensures full { IfErr result (λ e. e ≡ CompileError.TooManyInstructions → MAX_INSTRUCTIONS
        < arms_length (lengths_in library.now scope) (arms_of (map slot_arm_view arms.now)) + length code.old) }
    ensures crowded { IfErr result (λ e. e ≡ CompileError.TooManyPlaces
        → ¬ (ArmsFit (FitsIn library.now scope) (frame_of scope) (arms_of (map slot_arm_view arms.now)))) }
{
    let mut left = arms.len();
    while left > 0 {
        left -= 1;
        let next = code.len();
        code.put(Instr::Jump(end))?;
        put_statements(library, scope, code, &arms[left].body, ways)?;
        code.put(Instr::JumpIfFalse(next))?;
        put_expr(library, scope, code, &arms[left].condition)?;
    }
    Ok(())
}

/// The same for those of a CASE, whose selector is on the stack until statements are chosen.
#[cycle(unit)]
#[tactic(auto, using(crate::proofs::Elements::case_smaller, crate::proofs::Behind::case_behind))]
fn put_case_arms(
    library: &SlotLibrary,
    scope: Scope,
    code: &mut Draft,
    arms: &[SlotCaseArm],
    ways: JumpTargets,
    end: u16,
) -> Result<(), CompileError>
    requires room { scope.start + scope.size ≤ scope.memory }
    requires numbered { scope.memory ≤ MAX_MEMORY }
    requires held { ways.held ≤ length code.old }
    ensures code { OnOk result (code.new ≡ case_code (units_in library.now scope) (frame_of scope)
        (case_arms_of (map slot_case_arm_view arms.now)) ways end code.old) }
    ensures fits { OnOk result (CaseArmsFit (FitsIn library.now scope) (frame_of scope)
        (case_arms_of (map slot_case_arm_view arms.now))) }
    ensures long { OnOk result (length code.new
        ≡ case_length (lengths_in library.now scope) (case_arms_of (map slot_case_arm_view arms.now))
        + length code.old) }
    ensures wrong { IfErr result (λ e. e ≡ CompileError.NotLinked
        → ¬ (CaseArmsLinked (LinkedIn library.now scope) (frame_of scope)
        (case_arms_of (map slot_case_arm_view arms.now)))) }
    ensures full { IfErr result (λ e. e ≡ CompileError.TooManyInstructions → MAX_INSTRUCTIONS
        < case_length (lengths_in library.now scope) (case_arms_of (map slot_case_arm_view arms.now))
        + length code.old) }
    ensures crowded { IfErr result (λ e. e ≡ CompileError.TooManyPlaces
        → ¬ (CaseArmsFit (FitsIn library.now scope) (frame_of scope)
        (case_arms_of (map slot_case_arm_view arms.now)))) }
{
    let mut left = arms.len();
    while left > 0 {
        left -= 1;
        let next = code.len();
        code.put(Instr::Jump(end))?;
        put_statements(library, scope, code, &arms[left].body, ways)?;
        code.put(Instr::Pop(1))?;
        let chosen = code.len();
        code.put(Instr::Jump(next))?;
        put_labels(code, &arms[left].labels, chosen)?;
    }
    Ok(())
}

/// The turns of a FOR over a slot: its body, the test before it, the step after it, and the end of the loop.
#[cycle(unit)]
fn put_turns(
    library: &SlotLibrary,
    scope: Scope,
    code: &mut Draft,
    control: u16,
    body: &[SlotStmt],
    ways: JumpTargets,
) -> Result<(), CompileError>
    requires room { scope.start + scope.size ≤ scope.memory }
    requires numbered { scope.memory ≤ MAX_MEMORY }
    requires held { ways.held ≤ length code.old }
    ensures code { OnOk result (code.new ≡ turns_code (units_in library.now scope) (frame_of scope) control
        (stmts_of (map slot_stmt_view body.now)) ways code.old) }
    ensures fits { OnOk result (StmtsFit (FitsIn library.now scope) (frame_of scope)
        (stmts_of (map slot_stmt_view body.now))) }
    ensures long { OnOk result (length code.new
        ≡ turns_length (lengths_in library.now scope) (stmts_of (map slot_stmt_view body.now)) + length code.old) }
    ensures wrong { IfErr result (λ e. e ≡ CompileError.NotLinked
        → ¬ (StmtsLinked (LinkedIn library.now scope) (frame_of scope) (stmts_of (map slot_stmt_view body.now)))) }
    ensures full { IfErr result (λ e. e ≡ CompileError.TooManyInstructions → MAX_INSTRUCTIONS
        < turns_length (lengths_in library.now scope) (stmts_of (map slot_stmt_view body.now)) + length code.old) }
    ensures crowded { IfErr result (λ e. e ≡ CompileError.TooManyPlaces
        → ¬ (StmtsFit (FitsIn library.now scope) (frame_of scope) (stmts_of (map slot_stmt_view body.now)))) }
{
    code.put(Instr::Pop(2))?;
    let end = code.len();
    code.put(Instr::LoopBack(0))?;
    let inner = JumpTargets {
        exit: end,
        back: ways.back,
        held: ways.held + 2,
    };
    put_statements(library, scope, code, body, inner)?;
    code.put(Instr::ForTest { control, end })?;
    let turn = code.len();
    code.put(Instr::ForStep { control, end })?;
    code.close(end);
    code.put(Instr::Jump(turn))
}

/// The step of a FOR.
#[cycle(unit)]
fn put_step(
    library: &SlotLibrary,
    scope: Scope,
    code: &mut Draft,
    step: &Option<SlotExpr>,
) -> Result<(), CompileError>
    requires room { scope.start + scope.size ≤ scope.memory }
    requires numbered { scope.memory ≤ MAX_MEMORY }
    ensures code { OnOk result (code.new ≡ step_code (units_in library.now scope) (frame_of scope)
        (option_map slot_expr_view step.now) code.old) }
    ensures fits { OnOk result (StepFits (FitsIn library.now scope) (frame_of scope)
        (option_map slot_expr_view step.now)) }
    ensures long { OnOk result (length code.new
        ≡ step_length (lengths_in library.now scope) (option_map slot_expr_view step.now) + length code.old) }
    ensures wrong { IfErr result (λ e. e ≡ CompileError.NotLinked
        → ¬ (StepLinked (LinkedIn library.now scope) (frame_of scope) (option_map slot_expr_view step.now))) }
    ensures full { IfErr result (λ e. e ≡ CompileError.TooManyInstructions → MAX_INSTRUCTIONS
        < step_length (lengths_in library.now scope) (option_map slot_expr_view step.now) + length code.old) }
    ensures crowded { IfErr result (λ e. e ≡ CompileError.TooManyPlaces
        → ¬ (StepFits (FitsIn library.now scope) (frame_of scope) (option_map slot_expr_view step.now))) }
{
    match step {
        Some(step) => put_expr(library, scope, code, step),
        None => put_number(code, 1),
    }
}
