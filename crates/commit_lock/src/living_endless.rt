//! Lives of cores that keep no log, one after another.

ghost use Rattle.std.specs.Prelude.{◌≡◌, None, [], IfOk, IsOk};
ghost use Rattle.retain_store.specs.declared.shape.TheConstants.{FILE_BYTES};
ghost use Rattle.disk.specs.Simulated.{IsReliable};
ghost use Rattle.durable_core.specs.Endless.{IsCoreOf, first_core};
ghost use Rattle.commit_lock.specs.Lives.{EachLife, IsLife, IsLived, IsAllWell};

use crate::disks::disk_of;
use crate::driving_endless::drive_endless;
use crate::event::Event;
use crate::life::{Course, Life, LifeEnd};
use disk::SimDisk;
use durable_core::EndlessCore;
use plan::Plan;
use std::alloc::{AllocError, Global};
use std::sync::Arc;

/// Makes the calls of a life that was started, and lets power fail.
fn live_on(
    alloc: Global,
    core: EndlessCore<SimDisk>,
    events: Vec<Event>,
) -> Result<LifeEnd, AllocError>
    requires life { IsCoreOf core.engine.values [] core }
    requires fresh { core.acked ≡ 0 }
    requires unfailed { core.failed ≡ None }
    ensures started { IfOk result (λ end. IsOk end.course) }
    ensures lived { IfOk result
        (λ end. IfOk end.course (λ course. IsLived (first_core core) events.items course end.file.items)) }
    ensures well { IsReliable core.store.disk FILE_BYTES
        → IfOk result (λ end. IfOk end.course (IsAllWell core.store.generation)) }
{
    let mut core = core;
    let values = Vec::from_slice(alloc, core.values())?;
    let replies = drive_endless(&mut core, alloc, events)?;
    let course = Course {
        values,
        replies,
        len: core.entries() as usize,
        acked: core.acked() as usize,
    };
    Ok(LifeEnd {
        course: Ok(course),
        file: core.stop().left(),
    })
}

/// Lives a life over the file.
fn live(alloc: Global, plan: &Arc<Plan>, file: Vec<u8>, life: Life) -> Result<LifeEnd, AllocError>
    ensures { IfOk result (λ end. IsLife plan.now.value file.items life end) }
{
    let Life {
        mode,
        log_room,
        events,
        stop,
        fails,
    } = life;
    let disk = disk_of(alloc, file, stop, fails)?;
    match EndlessCore::start(alloc, Arc::clone(plan)?, disk, mode, log_room as u64) {
        Ok(core) => live_on(alloc, core, events),
        Err((fault, disk)) => Ok(LifeEnd {
            course: Err(fault),
            file: disk.left(),
        }),
    }
}

/// Lives these lives as `lives` does, by cores that keep no log. So a log may have any number of entries: a life has
/// `usize::MAX` as its `log_room` if it is to go on for ever.
pub fn endless_lives(
    alloc: Global,
    plan: &Arc<Plan>,
    file: Vec<u8>,
    lives: Vec<Life>,
) -> Result<Vec<LifeEnd>, AllocError>
    // All that `lives` promises of each life, for logs of any length.
    ensures { IfOk result (λ ends. EachLife (IsLife plan.now.value) file.items lives.items ends.items) }
{
    let mut ends = Vec::with_capacity(alloc, lives.len())?;
    let mut file = file;
    for life in lives {
        let end = live(alloc, plan, file, life)?;
        file = Vec::from_slice(alloc, &end.file)?;
        ends.push(end)?;
    }
    Ok(ends)
}
