//! Starting and joining the threads of a run.

ghost use Rattle.std.specs.Prelude.{◌≡◌, ◌+◌, IfOk, IfErr};
ghost use Rattle.run_lock.specs.Phases.{IsOfNoCore};
ghost use Rattle.plc_threads.specs.Reports.{AreJoined};

use crate::driver::{Pace, drive};
use crate::gate::Gate;
use crate::report::AnswerCounts;
use crate::shared::Shared;
use crate::worker::{flush_all, work};
use disk::Disk;
use run_lock::{Mark, Pass, Phase, Run, RunFault, Tally};
use std::alloc::Global;
use std::sync::Wait;
use std::sync::ledger::Share;
use std::thread;
use std::thread::{Scope, Threads};

/// The answers that the workers of a run got, with the shares of all.
#[derive(Drop)]
pub struct Joined<J: Run> {
    pub share: Share<J>,
    pub told: Vec<AnswerCounts>,
}

/// Starts a worker for each resource and the flusher, latches the rows, and joins all threads.
fn run_crew<
    's,
    'e,
    J: Run + Send + Sync,
    D: Disk + Drop + Send,
    G: Gate + Sync,
    R: Threads + Wait + Sync,
>(
    scope: &'s Scope<'s, &'e ()>,
    rt: &'e R,
    alloc: Global,
    shared: &'e Shared<J, D>,
    mark: &'e Mark,
    gate: &'e G,
    pass: Pass,
    all: Share<J>,
    resources: usize,
    rows: usize,
    pace: Pace,
) -> Result<Joined<J>, RunFault>
    requires mark { (mark.now ≡ J.mark) × (pass.mark ≡ mark.now) }
    requires share { (all.parts ≡ resources + 1) × (all.amount ≡ 0) }
    ensures joined { IfOk result (λ joined.
        AreJoined resources joined.share.parts joined.share.amount joined.told.items) }
    ensures refused { IfErr result IsOfNoCore }
{
    let mut rest = all;
    let Ok(mut handles) = Vec::with_capacity(alloc, resources) else {
        return Err(RunFault::NO_MEMORY);
    };
    let Ok(mut told) = Vec::with_capacity(alloc, resources) else {
        return Err(RunFault::NO_MEMORY);
    };
    let Ok(flusher) = scope.spawn(move || flush_all(rt, shared, mark, resources, pace)) else {
        return Err(RunFault::NotStarted);
    };
    for resource in 0..resources {
        let share = rest.split_off(1, 0);
        match scope.spawn(move || work(rt, alloc, shared, gate, resource, share)) {
            Ok(handle) => handles.push_reserved(handle),
            Err(_) => shared.end(rt, Phase::Stopped(RunFault::NotStarted)),
        }
    }
    drive(rt, shared, mark, pass, resources, rows, pace);
    flusher.join(rt);
    for handle in handles {
        let Tally {
            share,
            committed,
            stale,
        } = handle.join(rt);
        rest.merge(share);
        told.push_reserved(AnswerCounts { committed, stale });
    }
    if told.len() < resources {
        return Err(RunFault::NotStarted);
    }
    Ok(Joined { share: rest, told })
}

/// Runs the crew in a scope, which ends once each of its threads has.
pub fn in_scope<
    'e,
    J: Run + Send + Sync,
    D: Disk + Drop + Send,
    G: Gate + Sync,
    R: Threads + Wait + Sync,
>(
    rt: &'e R,
    alloc: Global,
    shared: &'e Shared<J, D>,
    mark: &'e Mark,
    gate: &'e G,
    pass: Pass,
    all: Share<J>,
    resources: usize,
    rows: usize,
    pace: Pace,
) -> Result<Joined<J>, RunFault>
    requires mark { (mark.now ≡ J.mark) × (pass.mark ≡ J.mark) }
    requires share { (all.parts ≡ resources + 1) × (all.amount ≡ 0) }
    ensures joined { IfOk result (λ joined.
        AreJoined resources joined.share.parts joined.share.amount joined.told.items) }
    ensures refused { IfErr result IsOfNoCore }
{
    thread::scope(
        thread::scope_env(),
        rt,
        |scope| -> Result<Joined<J>, RunFault>
            requires mark { (mark.now ≡ J.mark) × (pass.mark ≡ J.mark) }
            requires share { (all.parts ≡ resources + 1) × (all.amount ≡ 0) }
            ensures joined { IfOk result (λ joined.
                AreJoined resources joined.share.parts joined.share.amount joined.told.items) }
            ensures refused { IfErr result IsOfNoCore }
        {
            run_crew(
                scope, rt, alloc, shared, mark, gate, pass, all, resources, rows, pace,
            )
        },
    )
}
