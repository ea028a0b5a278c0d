//! Lives, one after another.

ghost use Rattle.std.specs.Prelude.{◌≡◌, ◌≤◌, None, IfOk, IsOk, List};
ghost use Rattle.std.specs.List.{AllByRecursion};
ghost use Rattle.st_types.specs.declared.limits.TheConstants.{MAX_LOG_ROOM};
ghost use Rattle.retain_store.specs.declared.shape.TheConstants.{FILE_BYTES};
ghost use Rattle.disk.specs.Simulated.{IsReliable};
ghost use Rattle.durable_core.specs.Starting.{IsNew};
ghost use Rattle.commit_lock.specs.Lives.{EachLife, IsLife, IsLived, BeginsFrom, IsAnswered, IsAcked, LeavesLog, IsRefused};
ghost use Rattle.commit_lock.specs.Lives.{HasCause, IsAllWell};

use crate::disks::disk_of;
use crate::driving::drive;
use crate::event::Event;
use crate::life::{Course, Life, LifeEnd};
use disk::SimDisk;
use durable_core::Core;
use plan::Plan;
use std::alloc::{AllocError, Global};
use std::sync::Arc;

/// Makes the calls of a life that was started, and lets power fail.
fn live_on(alloc: Global, core: Core<SimDisk>, events: Vec<Event>) -> Result<LifeEnd, AllocError>
    requires fresh { core.acked ≡ 0 }
    requires unfailed { core.failed ≡ None }
    requires new { IsNew core.state core.state.plan core.state.room }
    ensures started { IfOk result (λ end. IsOk end.course) }
    ensures lived { IfOk result (λ end. IfOk end.course (λ course. IsLived core events.items course end.file.items)) }
    ensures well { IsReliable core.store.disk FILE_BYTES
        → IfOk result (λ end. IfOk end.course (IsAllWell core.store.generation)) }
{
    let mut core = core;
    let values = Vec::from_slice(alloc, core.start_values())?;
    let replies = drive(&mut core, alloc, events)?;
    let course = Course {
        values,
        replies,
        len: core.len(),
        acked: core.acked(),
    };
    Ok(LifeEnd {
        course: Ok(course),
        file: core.stop().left(),
    })
}

/// Lives a life over the file.
fn live(alloc: Global, plan: &Arc<Plan>, file: Vec<u8>, life: Life) -> Result<LifeEnd, AllocError>
    requires room { life.log_room ≤ MAX_LOG_ROOM }
    ensures { IfOk result (λ end. IsLife plan.now.value file.items life end) }
{
    let Life {
        mode,
        log_room,
        events,
        stop,
        fails,
    } = life;
    let disk = disk_of(alloc, file, stop, fails)?;
    match Core::start(alloc, Arc::clone(plan)?, disk, mode, log_room) {
        Ok(core) => live_on(alloc, core, events),
        Err((fault, disk)) => Ok(LifeEnd {
            course: Err(fault),
            file: disk.left(),
        }),
    }
}

/// Lives these lives one after another, the first over this file, and each other over the file that the one before it left.
/// The only error is out of memory, and gives no life's end.
pub fn lives(
    alloc: Global,
    plan: &Arc<Plan>,
    file: Vec<u8>,
    lives: Vec<Life>,
) -> Result<Vec<LifeEnd>, AllocError>
    requires room { AllByRecursion (λ life. life.log_room ≤ MAX_LOG_ROOM) lives.items }

    // A life that was started begins with the values of its start; one that was not was refused for a cause that applies.
    ensures begins { IfOk result (λ ends. EachLife (BeginsFrom plan.now.value) file.items lives.items ends.items) }

    // Its answers are serial history: the calls of one core, one after another.
    ensures answered { IfOk result (λ ends. EachLife (IsAnswered plan.now.value) file.items lives.items ends.items) }

    // The number acknowledged is the greatest that a flush answered.
    ensures acked { IfOk result (λ ends. EachLife IsAcked file.items lives.items ends.items) }

    // The file that it leaves survives for the log that its events and replies make.
    ensures survives { IfOk result (λ ends. EachLife (LeavesLog plan.now.value) file.items lives.items ends.items) }

    // A life that was refused leaves a file that is recovered to the same as the file before or, if its start saves it, to
    // the record of the values with which it would have started.
    ensures refused { IfOk result (λ ends. EachLife (IsRefused plan.now.value) file.items lives.items ends.items) }

    // S3 comes only in a life with a stop or a failing step, and so does K5, unless the generations are used up, from that
    // of the file on.
    ensures cause { IfOk result (λ ends. EachLife (HasCause plan.now.value) file.items lives.items ends.items) }
{
    let mut ends = Vec::with_capacity(alloc, lives.len())?;
    let mut file = file;
    for life in lives {
        let end = live(alloc, plan, file, life)?;
        file = Vec::from_slice(alloc, &end.file)?;
        ends.push(end)?;
    }
    Ok(ends)
}
