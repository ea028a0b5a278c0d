//! The state that all threads of a run share.

ghost use Rattle.std.specs.Prelude.{◌≡◌, ◌+◌, Ok, IfSome, IfNone};
ghost use Rattle.run_lock.specs.Answers.{committed_by, committed_here, stale_after};
ghost use Rattle.run_lock.specs.Phases.{MayEnd};

use disk::Disk;
use durable_core::{Answer, Core, Refusal};
use run_lock::{Locked, OwnExecution, OwnTaken, Phase, Run, Tally};
use slot_run::Taken;
use st_types::{Activation, Entry};
use std::alloc::Global;
use std::sync::{Condvar, Mutex, Wait};

/// The one lock of a run, and the signals to its threads that something under it has changed. Each kind of thread is
/// woken for the change that it waits for, and all of them when the run ends.
#[derive(Drop)]
pub struct Shared<J: Run, D: Disk> {
    pub locked: Mutex<Locked<J, D>>,
    /// For the workers: a row was latched, after which programs may be due.
    pub due: Condvar,
    /// For the flusher: the log is longer.
    pub longer: Condvar,
    /// For the driver: more of the log is acknowledged.
    pub acknowledged: Condvar,
}

/// The result of a commit in one step.
#[derive(Clone, Copy)]
pub struct Served {
    /// The log's length after it; none if nothing waited.
    pub length: Option<usize>,
    /// The activation of the log's last entry.
    pub last: Option<Activation>,
}

/// The activation of the log's last entry; none if that is a row.
fn last_activation<D: Disk>(core: &Core<D>) -> Option<Activation> {
    let last = core.len().checked_sub(1)?;
    match core.entry(last) {
        Some(Entry::Done(activation)) => Some(*activation),
        Some(Entry::Row(_)) | None => None,
    }
}

/// Which slots are taken for a run.
#[derive(Clone, Copy, Debug, PartialEq, Eq)]
pub enum Extent {
    /// Those that the code names, if there is quick code.
    Named,
    /// All slots.
    Whole,
}

/// The slots that the code of the best activation of a resource names, or all slots if it has no quick code.
fn named<J: Run, D: Disk>(
    locked: &mut Locked<J, D>,
    alloc: Global,
    resource: usize,
) -> Result<Option<OwnTaken<J>>, Refusal> {
    match locked.take_quick(alloc, resource)? {
        Some(taken) => Ok(Some(locked.own(taken))),
        None => Ok(None),
    }
}

/// All slots for it.
fn whole<J: Run, D: Disk>(
    locked: &mut Locked<J, D>,
    alloc: Global,
    resource: usize,
) -> Result<Option<OwnTaken<J>>, Refusal> {
    match locked.take(alloc, resource)? {
        Some(snapshot) => Ok(Some(locked.own(Taken::Whole(snapshot)))),
        None => Ok(None),
    }
}

/// The input of a run that is taken for a resource.
fn taken<J: Run, D: Disk>(
    locked: &mut Locked<J, D>,
    alloc: Global,
    resource: usize,
    extent: Extent,
) -> Result<Option<OwnTaken<J>>, Refusal> {
    match extent {
        Extent::Named => named(locked, alloc, resource),
        Extent::Whole => whole(locked, alloc, resource),
    }
}

impl<J: Run, D: Disk + Drop> Shared<J, D> {
    /// The shared state at the beginning of a run.
    pub fn new(locked: Locked<J, D>) -> Shared<J, D> {
        Shared {
            locked: Mutex::new(locked),
            due: Condvar::new(),
            longer: Condvar::new(),
            acknowledged: Condvar::new(),
        }
    }

    /// Wakes all threads: the run has ended.
    pub fn wake_all(&self) {
        self.due.notify_all();
        self.longer.notify_all();
        self.acknowledged.notify_all();
    }

    /// Wakes the threads that wait for a longer log or for the end of the run.
    fn wake_after<T, E>(&self, answer: &Result<T, E>) {
        match answer {
            Ok(_) => self.longer.notify_all(),
            Err(_) => self.wake_all(),
        }
    }

    /// Ends the run, unless it has ended: it is stopped for a reason that no core has given.
    pub fn end<R: Wait>(&self, rt: &R, end: Phase)
        requires { MayEnd end }
    {
        self.locked.lock(rt).end(end);
        self.wake_all();
    }

    /// The input of a run of the best activation of a resource, once there is one; none if the run has ended. It has
    /// all slots if they are asked for, otherwise those that the code names.
    pub fn next<R: Wait>(
        &self,
        rt: &R,
        alloc: Global,
        resource: usize,
        extent: Extent,
    ) -> Option<OwnTaken<J>> {
        let mut guard = self.locked.lock(rt);
        for _ in rt.forever() {
            if guard.phase != Phase::Running {
                return None;
            }
            match taken(&mut guard, alloc, resource, extent) {
                Ok(Some(taken)) => return Some(taken),
                Ok(None) => guard = self.due.wait(rt, guard),
                Err(_) => {
                    self.wake_all();
                    return None;
                }
            }
        }
        unreachable!()
    }

    /// Commits; none if the commit was refused, which ends the run.
    pub fn commit<R: Wait>(
        &self,
        rt: &R,
        tally: &mut Tally<J>,
        execution: OwnExecution<J>,
    ) -> Option<Answer>
        ensures committed { IfSome result (λ a. tally.new.committed ≡ tally.old.committed + committed_by (Ok a)) }
        ensures stale { IfSome result (λ a. tally.new.stale ≡ stale_after tally.old.stale (Ok a)) }
        ensures none { IfNone result (tally.new.committed ≡ tally.old.committed) }
    {
        let mut guard = self.locked.lock(rt);
        let result = tally.commit(&mut *guard, execution);
        self.wake_after(&result);
        result.ok()
    }

    /// Commits the best activation of a resource in one step; none if the commit was refused, which ends the run.
    pub fn commit_here<R: Wait>(
        &self,
        rt: &R,
        tally: &mut Tally<J>,
        alloc: Global,
        resource: usize,
    ) -> Option<Served>
        ensures committed { IfSome result
            (λ s. tally.new.committed ≡ tally.old.committed + committed_here (Ok s.length)) }
        ensures stale { tally.new.stale ≡ tally.old.stale }
        ensures none { IfNone result (tally.new.committed ≡ tally.old.committed) }
    {
        let mut guard = self.locked.lock(rt);
        let result = tally.commit_here(&mut *guard, alloc, resource);
        self.wake_after(&result);
        match result {
            Ok(length) => Some(Served {
                length,
                last: last_activation(&guard.core),
            }),
            Err(_) => None,
        }
    }
}
