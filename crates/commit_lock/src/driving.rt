//! A list of calls, one after another.

ghost use Rattle.std.specs.Prelude.{◌≡◌, ◌+◌, ◌<◌, ◌≤◌, ◌++◌, ◌∷◌, [], List, Option, None, Result, slice_set, vec_len};
ghost use Rattle.std.specs.Prelude.{vec_capacity, length, IfOk, OnErr};
ghost use Rattle.std.specs.List.{AllByRecursion};
ghost use Rattle.slot_run.specs.declared.snapshot.Snapshot.{Snapshot};
ghost use Rattle.serial_core.specs.Steps.{Takes};
ghost use Rattle.durable_core.specs.declared.refusal.Refusal.{Refusal};
ghost use Rattle.commit_lock.specs.declared.event.Event.{Event};
ghost use Rattle.commit_lock.specs.declared.event.Reply.{Reply};
ghost use Rattle.durable_core.specs.Cores.{Guards, Outlives};
ghost use Rattle.commit_lock.specs.Driving.{Held, Step, Drives, Endures, CommitsHeld, held_at, held_of};
ghost use Rattle.commit_lock.specs.Driving.{reply_to, taken_of, IsWell, IsWellAnswered, SurvivesSomeFront};
ghost use Rattle.disk.specs.Runs.{LeavesOnly};
ghost use Rattle.retain_store.specs.Recovered.{recovered};

use crate::event::{Event, Reply};
use disk::Disk;
use durable_core::{Core, Refusal};
use slot_run::{Snapshot, run};
use std::alloc::{AllocError, Global};

/// Takes out the snapshot that is held under a number, which holds none from then on.
pub(crate) fn take_held(held: &mut Vec<Option<Snapshot>>, i: usize) -> Option<Snapshot>
    ensures value { result ≡ held_at held.old.items i }
    ensures rest { held.new.items ≡ slice_set held.old.items i None }
    ensures capacity { vec_capacity held.new ≡ vec_capacity held.old }
{
    if i < held.len() { held[i].take() } else { None }
}

/// Runs and commits the snapshot that was held.
fn commit_held<D: Disk>(core: &mut Core<D>, alloc: Global, held: Option<Snapshot>) -> Reply
    ensures commits { CommitsHeld D.failure_count core.old held result core.new }
    ensures outlives { D.tells → Outlives D.left_since D.may_leave core.old core.new }
    ensures serves { IsWell D.serves core.old → IsWell D.serves core.new × IsWellAnswered result }
{
    core.kept();
    let Some(snapshot) = held else {
        return Reply::Refused(Refusal::Serial(serial_core::Refusal::NotWaiting));
    };
    match run(alloc, snapshot) {
        Ok(execution) => match core.commit(execution) {
            Ok(answer) => Reply::Answered(answer),
            Err(refusal) => Reply::Refused(refusal),
        },
        Err(_) => Reply::Refused(Refusal::Serial(serial_core::Refusal::NoMemory)),
    }
}

/// Takes for a resource, and holds the snapshot taken.
fn take_to_hold<D: Disk>(
    core: &Core<D>,
    alloc: Global,
    held: &mut Vec<Option<Snapshot>>,
    resource: usize,
) -> Reply
    requires room { vec_len held.old < vec_capacity held.old }
    ensures takes { (taken : Result (Option Snapshot) Refusal)
        × Guards core.now taken core.now (λ r. Takes core.now.state resource r) × (result ≡ reply_to taken_of taken)
        × (held.new.items ≡ held.old.items ++ held_of taken ∷ []) }
    ensures len { vec_len held.new ≤ vec_len held.old + 1 }
    ensures capacity { vec_capacity held.old ≤ vec_capacity held.new }
{
    match core.take(alloc, resource) {
        Ok(taken) => {
            let reply = Reply::Taken(taken.is_some());
            held.push_reserved(taken);
            reply
        }
        Err(refusal) => {
            held.push_reserved(None);
            Reply::Refused(refusal)
        }
    }
}

/// Answers one event, and appends the snapshot that it takes to those held.
fn step<D: Disk>(
    core: &mut Core<D>,
    alloc: Global,
    held: &mut Vec<Option<Snapshot>>,
    event: Event,
) -> Reply
    requires room { vec_len held.old < vec_capacity held.old }
    ensures step { Step D.failure_count core.old held.old.items event result core.new held.new.items }
    ensures outlives { D.tells → Outlives D.left_since D.may_leave core.old core.new }
    ensures serves { IsWell D.serves core.old → IsWell D.serves core.new × IsWellAnswered result }
    ensures len { vec_len held.new ≤ vec_len held.old + 1 }
    ensures capacity { vec_capacity held.old ≤ vec_capacity held.new }
{
    core.kept();
    match event {
        Event::Latch(row) => match core.latch(row) {
            Ok(number) => Reply::Latched(number),
            Err(refusal) => Reply::Refused(refusal),
        },
        Event::Take(resource) => take_to_hold(core, alloc, held, resource),
        Event::Commit(i) => {
            let snapshot = take_held(held, i);
            commit_held(core, alloc, snapshot)
        }
        Event::CommitHere(resource) => match core.commit_here(alloc, resource) {
            Ok(length) => Reply::Here(length),
            Err(refusal) => Reply::Refused(refusal),
        },
        Event::Flush => match core.flush() {
            Ok(length) => Reply::Flushed(length),
            Err(refusal) => Reply::Refused(refusal),
        },
    }
}

/// Makes the calls one after another, and gives the answer to each. An error, which is out of memory for the list of
/// replies, leaves the core as it was.
///
/// A stop at any moment leaves a file from which a warm restart gives the initial values, with the values kept after
/// a prefix of the log written over them; this prefix holds all that was acknowledged before the event in which the stop
/// fell.
pub fn drive<D: Disk>(
    core: &mut Core<D>,
    alloc: Global,
    events: Vec<Event>,
) -> Result<Vec<Reply>, AllocError>
    ensures drives { IfOk result (λ replies. (held : Held)
        × Drives D.failure_count D.tells D.left_since D.may_leave core.old [] events.items replies.items core.new
        held) }

    // The whole promise: whatever the calls are, and wherever power fails within one of them or after it, a warm restart
    // gives the values after a prefix of the log, and this prefix holds all that the answers have acknowledged.
    ensures survives { D.tells → IfOk result (λ replies. (front rest : List Event) (said answers : List Reply)
        (event : Event) (reply : Reply) → events.items ≡ front ++ event ∷ rest
        → replies.items ≡ said ++ reply ∷ answers → length front ≡ length said
        → Endures D.failure_count D.tells D.left_since D.may_leave core.old [] core.old.acked front said event reply
        rest answers core.new) }

    // The same for the list as a whole, and for the disk before it and the disk after it: a stop at any moment since the
    // first call leaves a file that survives for some front of the calls and their answers.
    ensures any_moment { D.tells → IfOk result (λ replies. LeavesOnly D.left_since D.may_leave
        core.old.store.disk core.new.store.disk (λ file. SurvivesSomeFront core.old.state [] core.old.acked events.items
        replies.items (recovered file))) }

    // Over a disk that serves a whole file K5 comes by S4 alone, unless the device has failed before.
    ensures serves { IsWell D.serves core.old
        → IsWell D.serves core.new × IfOk result (λ replies. AllByRecursion IsWellAnswered replies.items) }
    ensures err { OnErr result (core.new ≡ core.old) }
{
    core.kept();
    let mut held = Vec::with_capacity(alloc, events.len())?;
    let mut replies = Vec::with_capacity(alloc, events.len())?;
    for event in events {
        let reply = step(core, alloc, &mut held, event);
        replies.push_reserved(reply);
    }
    Ok(replies)
}
