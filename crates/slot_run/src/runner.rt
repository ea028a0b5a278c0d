//! Runs of code.

ghost use Rattle.std.specs.Prelude.{◌≡◌, [], IfOk, IfSome, length, map, replicate};
ghost use Rattle.st_meaning.specs.Failures.{in_runs};
ghost use Rattle.machine_code.specs.Machine.{runs};
ghost use Rattle.machine_code.specs.Tracking.{are_assigned, are_read, tracking, tracked};
ghost use Rattle.slot_memory.specs.Cells.{cell_view};
ghost use Rattle.st_meaning.specs.declared.outcome.Outcome.TheVariants.{Done};
ghost use Rattle.slot_machine.specs.Steps.{RunEnds};
ghost use Rattle.slot_code.specs.Quick.{AreTyped, Wherever, unmarked};
ghost use Rattle.slot_code.specs.Codes.{code_view};
ghost use Rattle.slot_code.specs.Windows.{window_of};
ghost use Rattle.slot_run.specs.Runs.{EndsAs, HasRoomFor, marked_run};
ghost use Rattle.slot_run.specs.Executions.{IsEffectOf, IsRunOf, run_of};
ghost use Rattle.slot_run.specs.QuickExecutions.{IsQuickEffectOf, run_over};
ghost use Rattle.slot_run.specs.Windows.{picked_in};

use crate::execution::{Execution, Machine};
use crate::gathering::{reads_in, writes_in};
use crate::memory::{memory_over, unmarked};
use crate::quick_snapshot::QuickSnapshot;
use crate::snapshot::Snapshot;
use machine_code::Mark;
use slot_code::{Code, QuickRun};
use slot_machine::Stop;
use slot_memory::{Cells, reads_of, writes_left};
use st_meaning::Outcome;
use st_types::Value;
use std::alloc::{AllocError, Global};

/// How a run of the code ends, with its memory and marks.
fn end_of(
    alloc: Global,
    code: &Code,
    moment: u64,
    memory: &mut [Value],
    marks: &mut [Mark],
    budget: u32,
) -> Result<Outcome, AllocError>
    requires { marks.old ≡ replicate (length memory.old) unmarked }
    ensures { IfOk result (λ outcome. EndsAs outcome (runs tracking in_runs moment code.now.instrs.value.items
        (length code.now.instrs.value.items) [] (tracked memory.old marks.old) budget)
        (tracked memory.new marks.new)) }
{
    match slot_machine::run(alloc, &code.instrs, moment, memory, marks, budget) {
        Ok(_) => Ok(Outcome::Done),
        Err(Stop::Fault(fault)) => Ok(Outcome::Faulted(fault)),
        Err(Stop::Memory) => Err(AllocError),
    }
}

/// The reads and writes of a run, and how it ended.
#[derive(Drop)]
pub struct Ran {
    pub reads: Cells,
    pub writes: Cells,
    pub outcome: Outcome,
    pub machine: Machine,
}

/// The result of a run of quick code over the slots of a window, which had these values.
fn ran_of(
    alloc: Global,
    window: &[usize],
    begun: &[Value],
    left: &QuickRun,
) -> Result<Ran, AllocError>
    requires begun { length begun.now ≡ length window.now }
    requires values { length left.now.values.items ≡ length window.now }
    requires marks { length left.now.marks.items ≡ length window.now }
    ensures reads { IfOk result (λ ran. map cell_view ran.reads.items
        ≡ picked_in window.now (are_read left.now.marks.items) begun.now) }
    ensures writes { IfOk result (λ ran. map cell_view ran.writes.items
        ≡ picked_in window.now (are_assigned left.now.marks.items) left.now.values.items) }
    ensures done { IfOk result (λ ran. ran.outcome ≡ Done) }
{
    let reads = reads_in(alloc, window, begun, &left.marks)?;
    let writes = writes_in(alloc, window, &left.values, &left.marks)?;
    Ok(Ran {
        reads,
        writes,
        outcome: Outcome::Done,
        machine: Machine::Quick,
    })
}

/// Runs code on the values of the slots that it names, by the quick machine. None if the machine cannot predict how the run
/// ends, or if there is no quick code.
fn run_named(
    alloc: Global,
    code: &Code,
    moment: u64,
    values: &[Value],
    budget: u32,
) -> Result<Option<Ran>, AllocError>
    requires typed { AreTyped code.now.kinds.value.items (window_of code.now) values.now }
    ensures ran { IfOk result (λ o. IfSome o (λ ran. Wherever code.now.kinds.value.items (window_of code.now) values.now
        (λ slots. IsRunOf (marked_run (code_view code.now) moment slots budget) slots ran))) }
    ensures long { IfOk result (λ o. IfSome o (λ ran. Wherever code.now.kinds.value.items (window_of code.now) values.now
        (λ slots. HasRoomFor (length slots) (marked_run (code_view code.now) moment slots budget)))) }
{
    let Some(quick) = &code.quick else {
        return Ok(None);
    };
    match quick.run(alloc, values, moment, budget)? {
        Some(left) => Ok(Some(ran_of(alloc, quick.window(), values, &left)?)),
        None => Ok(None),
    }
}

/// The same on the values of all slots.
fn run_quick_code(
    alloc: Global,
    code: &Code,
    moment: u64,
    slots: &[Value],
    budget: u32,
) -> Result<Option<Ran>, AllocError>
    requires typed { map (λ v. v.kind) slots.now ≡ code.now.kinds.value.items }
    ensures ran { IfOk result (λ o. IfSome o (IsRunOf (marked_run (code_view code.now) moment slots.now budget)
        slots.now)) }
    ensures long { IfOk result (λ o. IfSome o (λ _. HasRoomFor (length slots.now) (marked_run (code_view code.now) moment
        slots.now budget))) }
{
    let Some(quick) = &code.quick else {
        return Ok(None);
    };
    let values = quick.named(alloc, slots)?;
    run_named(alloc, code, moment, &values, budget)
}

/// Runs code on the values of its slots, by the machine on values.
fn run_values(
    alloc: Global,
    code: &Code,
    moment: u64,
    slots: &[Value],
    budget: u32,
) -> Result<Ran, AllocError>
    requires typed { map (λ v. v.kind) slots.now ≡ code.now.kinds.value.items }
    ensures ran { IfOk result (IsRunOf (marked_run (code_view code.now) moment slots.now budget) slots.now) }
    ensures long { IfOk result (λ _. HasRoomFor (length slots.now) (marked_run (code_view code.now) moment slots.now
        budget)) }
{
    let mut memory = memory_over(alloc, slots, code.extra)?;
    let mut marks = unmarked(alloc, memory.len())?;
    let outcome = end_of(alloc, code, moment, &mut memory, &mut marks, budget)?;
    let reads = reads_of(alloc, slots, &marks)?;
    let writes = writes_left(alloc, outcome, &memory[..slots.len()], &marks)?;
    Ok(Ran {
        reads,
        writes,
        outcome,
        machine: Machine::Values,
    })
}

/// Runs code on the values of its slots: by the quick machine if it can predict how the run ends.
fn run_code(
    alloc: Global,
    code: &Code,
    moment: u64,
    slots: &[Value],
    budget: u32,
) -> Result<Ran, AllocError>
    requires typed { map (λ v. v.kind) slots.now ≡ code.now.kinds.value.items }
    ensures ran { IfOk result (IsRunOf (marked_run (code_view code.now) moment slots.now budget) slots.now) }
    ensures long { IfOk result (λ _. HasRoomFor (length slots.now) (marked_run (code_view code.now) moment slots.now
        budget)) }
{
    match run_quick_code(alloc, code, moment, slots, budget)? {
        Some(ran) => Ok(ran),
        None => run_values(alloc, code, moment, slots, budget),
    }
}

/// The execution of a snapshot's code with this result.
fn execution_of(snapshot: Snapshot, ran: Ran) -> Execution
    requires ran { IsRunOf (run_of snapshot) snapshot.slots.items ran }
    requires long { HasRoomFor (length snapshot.slots.items) (run_of snapshot) }
    ensures { IsEffectOf snapshot result }
{
    let Snapshot {
        code,
        activation,
        moment,
        budget,
        slots: _,
        ..
    } = snapshot;
    Execution::new(
        code,
        activation,
        moment,
        budget,
        ran.reads,
        ran.writes,
        ran.outcome,
        ran.machine,
    )
}

/// The execution of a quick snapshot's code with this result.
fn quick_execution_of(quick: QuickSnapshot, ran: Ran) -> Execution
    requires ran { Wherever quick.code.value.kinds.value.items (window_of quick.code.value) quick.values.items
        (λ slots. IsRunOf (run_over quick slots) slots ran) }
    requires long { Wherever quick.code.value.kinds.value.items (window_of quick.code.value) quick.values.items
        (λ slots. HasRoomFor (length slots) (run_over quick slots)) }
    ensures { IsQuickEffectOf quick result }
{
    let _window = quick.code.window();
    let QuickSnapshot {
        code,
        activation,
        moment,
        budget,
        values: _,
        ..
    } = quick;
    Execution::new(
        code,
        activation,
        moment,
        budget,
        ran.reads,
        ran.writes,
        ran.outcome,
        ran.machine,
    )
}

/// Runs a quick snapshot's code on its values, by the quick machine. None if the machine cannot predict how the run ends: it
/// faults, or the budget is short, say. The execution is that of each snapshot that the quick one is part of, whatever
/// values the slots have that the code does not name.
///
/// The only error is out of memory.
pub fn run_quick(alloc: Global, quick: QuickSnapshot) -> Result<Option<Execution>, AllocError>
    ensures { IfOk result (λ o. IfSome o (IsQuickEffectOf quick)) }
{
    match run_named(
        alloc,
        &quick.code,
        quick.moment,
        &quick.values,
        quick.budget,
    )? {
        Some(ran) => Ok(Some(quick_execution_of(quick, ran))),
        None => Ok(None),
    }
}

/// Runs a snapshot's code on its values. Its reads are the slots that it looked up before it assigned them, and its writes
/// those that it assigned. Whatever the code is, the machine on values ends within `(budget + 1) * (length + 1)`
/// instructions, where `length` is that of the code. Those of quick code, with which a run begins, are not counted in that.
///
/// The only error is out of memory.
pub fn run(alloc: Global, snapshot: Snapshot) -> Result<Execution, AllocError>
    ensures { IfOk result (IsEffectOf snapshot) }
{
    let ran = run_code(
        alloc,
        &snapshot.code,
        snapshot.moment,
        &snapshot.slots,
        snapshot.budget,
    )?;
    Ok(execution_of(snapshot, ran))
}

/// The same by the machine on values alone. A comparison of the two machines calls both.
///
/// The only error is out of memory.
pub fn run_by_values(alloc: Global, snapshot: Snapshot) -> Result<Execution, AllocError>
    ensures { IfOk result (IsEffectOf snapshot) }
{
    let ran = run_values(
        alloc,
        &snapshot.code,
        snapshot.moment,
        &snapshot.slots,
        snapshot.budget,
    )?;
    Ok(execution_of(snapshot, ran))
}
