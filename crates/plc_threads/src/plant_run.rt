//! The run of a core in threads.

ghost use Rattle.std.specs.Prelude.{◌≡◌, ◌+◌, ◌++◌, Some, IfOk, IfErr, MatchResult, length};
ghost use Rattle.st_meaning.specs.Logs.{done_count};
ghost use Rattle.serial_core.specs.Steps.{past_in};
ghost use Rattle.durable_core.specs.Flushing.{IsAcknowledged};
ghost use Rattle.plan.specs.PlanViews.{plan_view};
ghost use Rattle.st_meaning.specs.Logs.{IsLegal};
ghost use Rattle.run_lock.specs.Lives.{IsGrownFrom, NothingIsDue};
ghost use Rattle.run_lock.specs.Phases.{IsCauseIn};
ghost use Rattle.plc_threads.specs.Reports.{committed_in};

use crate::crew::{Joined, in_scope};
use crate::driver::Pace;
use crate::gate::Gate;
use crate::report::{Report, RunError};
use crate::shared::Shared;
use crossbeam_utils::CachePadded;
use disk::Disk;
use durable_core::Core;
use run_lock::{Locked, Mark, Pass, Phase, RaisePass, Run, RunFault, is_settled};
use st_types::Row;
use std::alloc::Global;
use std::collections::VecDeque;
use std::marker::Brand;
use std::sync::Wait;
use std::sync::ledger::{Blank, Book};
use std::thread::Threads;

/// The state of a run under its lock at the beginning.
fn locked<J: Run, D: Disk>(
    core: Core<D>,
    book: Book<J>,
    raises: RaisePass,
    rows: Vec<Row>,
) -> Locked<J, D>
    requires began { (done_count core.state.log ≡ J.dones) × (book.total ≡ 0) }
    requires mark { (raises.mark ≡ J.mark) × (raises.top ≡ 0) }
    requires life { (J.life ≡ Some core.state) × (J.entries ≡ length core.state.log) }
    requires start { (J.mode ≡ core.mode) × (J.acked ≡ core.acked) }
    requires rows { (past_in core.state).rows ++ rows.items ≡ J.rows }
{
    Locked {
        core,
        book,
        raises,
        rest: VecDeque::from(rows),
        phase: Phase::Running,
    }
}

/// A run that was stopped, with its core.
fn stopped<D: Disk>(core: Core<D>, fault: RunFault) -> RunError<D>
    ensures core { result.core ≡ core }
    ensures fault { result.fault ≡ fault }
    ensures legal { IsLegal (plan_view core.state.plan) core.state.start core.state.before core.state.log }
{
    let _length = core.len();
    RunError { core, fault }
}

/// A run that `J` names.
fn run_as<J: Run + Send + Sync, D: Disk + Drop + Send, G: Gate + Sync, R: Threads + Wait + Sync>(
    rt: &R,
    alloc: Global,
    blank: Blank,
    core: Core<D>,
    mark: &Mark,
    raises: RaisePass,
    pass: Pass,
    resources: usize,
    rows: Vec<Row>,
    pace: Pace,
    gate: &G,
) -> Result<Report<D>, RunError<D>>
    requires book { (blank.name ≡ J.name) × (blank.parts ≡ J.parts) × (blank.parts ≡ resources + 1) }
    requires dones { done_count core.state.log ≡ J.dones }
    requires mark { (mark.now ≡ J.mark) × (raises.mark ≡ J.mark) × (pass.mark ≡ J.mark) × (raises.top ≡ 0) }
    requires life { (J.life ≡ Some core.state) × (J.entries ≡ length core.state.log) }
    requires start { (J.mode ≡ core.mode) × (J.acked ≡ core.acked) }
    requires rows { (past_in core.state).rows ++ rows.items ≡ J.rows }
    ensures counted { IfOk result
        (λ r. done_count r.core.state.log ≡ done_count core.state.log + committed_in r.told.items) }
    ensures latched { IfOk result (λ r. (past_in r.core.state).rows ≡ (past_in core.state).rows ++ rows.items) }
    ensures nothing_waits { IfOk result (λ r. NothingIsDue r.core.state resources) }
    ensures acknowledged { IfOk result (λ r. IsAcknowledged r.core) }
    ensures each { IfOk result (λ r. length r.told.items ≡ resources) }
    ensures life { MatchResult result (λ r. IsGrownFrom core r.core) (λ e. IsGrownFrom core e.core) }
    ensures why { IfErr result (λ e. IsCauseIn e.fault e.core) }
    ensures legal { IfErr result (λ e. IsLegal (plan_view e.core.state.plan) e.core.state.start e.core.state.before
        e.core.state.log) }
{
    let count = rows.len();
    let (book, all) = blank.open::<J>();
    let shared = Shared::new(locked(core, book, raises, rows));
    let joined = in_scope(
        rt, alloc, &shared, mark, gate, pass, all, resources, count, pace,
    );
    let Shared {
        locked,
        due: _,
        longer: _,
        acknowledged: _,
    } = shared;
    let Locked {
        core,
        mut book,
        raises: _,
        rest,
        phase,
    } = locked.into_inner();
    if let Phase::Stopped(fault) = phase {
        return Err(stopped(core, fault));
    }
    let Joined { mut share, told } = match joined {
        Ok(joined) => joined,
        Err(fault) => return Err(stopped(core, fault)),
    };
    book.audit(&mut share);
    if !rest.is_empty() || !is_settled(&core, resources) {
        return Err(stopped(core, RunFault::NotSettled));
    }
    Ok(Report { core, told })
}

/// Runs a core of the plan in threads: one for each resource, one that flushes, and the caller, which latches the rows.
/// It ends when all rows are latched, nothing waits and all is acknowledged, or at the first refusal.
///
/// K5 if the core has failed, for this cause, and K1 if its log is full; K3 and K4 if a row was refused, K6 if an
/// allocation failed, H1 if a thread could not be started, H2 if all threads have ended well and yet something is left.
/// The core comes back with each of them.
pub fn run_plant<D: Disk + Drop + Send, G: Gate + Sync, R: Threads + Wait + Sync>(
    rt: &R,
    alloc: Global,
    core: Core<D>,
    rows: Vec<Row>,
    pace: Pace,
    gate: &G,
) -> Result<Report<D>, RunError<D>>

    // The log gained one Done for each Committed that the workers got.
    ensures counted { IfOk result
        (λ r. done_count r.core.state.log ≡ done_count core.state.log + committed_in r.told.items) }

    // The log gained these rows, in their order, and no others.
    ensures latched { IfOk result (λ r. (past_in r.core.state).rows ≡ (past_in core.state).rows ++ rows.items) }
    ensures nothing_waits { IfOk result (λ r. NothingIsDue r.core.state core.state.plan.resources) }
    ensures acknowledged { IfOk result (λ r. IsAcknowledged r.core) }
    ensures each { IfOk result (λ r. length r.told.items ≡ core.state.plan.resources) }

    // The core that comes back continues the one that was given: its log begins with that one's log, and no fewer
    // entries are acknowledged.
    ensures life { MatchResult result (λ r. IsGrownFrom core r.core) (λ e. IsGrownFrom core e.core) }

    // If a run was stopped, its cause holds for its core, whose log is legal.
    ensures why { IfErr result (λ e. IsCauseIn e.fault e.core) }
    ensures legal { IfErr result (λ e. IsLegal (plan_view e.core.state.plan) e.core.state.start e.core.state.before
        e.core.state.log) }
{
    let Ok((mark, raises, pass)) = Mark::new(alloc) else {
        return Err(stopped(core, RunFault::NO_MEMORY));
    };
    let mark = CachePadded::new(mark);
    let resources = core.plan().resources();
    let blank = Blank::new(resources as u64 + 1);
    run_as::<Brand, D, G, R>(
        rt, alloc, blank, core, &mark, raises, pass, resources, rows, pace, gate,
    )
}
