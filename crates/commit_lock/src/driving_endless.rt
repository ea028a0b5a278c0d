//! A list of calls of a core without its log, one after another.

ghost use Rattle.std.specs.Prelude.{◌≡◌, ◌+◌, ◌<◌, ◌≤◌, ◌++◌, ◌∷◌, [], List, Option, Result, vec_len};
ghost use Rattle.std.specs.Prelude.{vec_capacity, length, IfOk, OnErr};
ghost use Rattle.std.specs.List.{AllByRecursion};
ghost use Rattle.disk.specs.Runs.{LeavesOnly};
ghost use Rattle.retain_store.specs.Recovered.{recovered};
ghost use Rattle.slot_run.specs.declared.snapshot.Snapshot.{Snapshot};
ghost use Rattle.serial_core.specs.Steps.{Takes};
ghost use Rattle.durable_core.specs.declared.refusal.Refusal.{Refusal};
ghost use Rattle.durable_core.specs.Cores.{Guards};
ghost use Rattle.durable_core.specs.Endless.{EachCoreGoesOn, InEachCore};
ghost use Rattle.commit_lock.specs.declared.event.Event.{Event};
ghost use Rattle.commit_lock.specs.declared.event.Reply.{Reply};
ghost use Rattle.commit_lock.specs.Driving.{Held, Step, Drives, Endures, CommitsHeld, held_of};
ghost use Rattle.commit_lock.specs.Driving.{reply_to, taken_of, IsWellAnswered, IsWellStored, SurvivesSomeFront, Withstands};

use crate::driving::take_held;
use crate::event::{Event, Reply};
use disk::Disk;
use durable_core::{EndlessCore, Refusal};
use slot_run::{Snapshot, run};
use std::alloc::{AllocError, Global};

/// Runs and commits the snapshot that was held.
fn commit_held<D: Disk>(core: &mut EndlessCore<D>, alloc: Global, held: Option<Snapshot>) -> Reply
    ensures { EachCoreGoesOn (λ a b. CommitsHeld D.failure_count a held result b
        × Withstands D.tells D.left_since D.may_leave D.serves a result b) core.old core.new }
{
    core.kept();
    let Some(snapshot) = held else {
        return Reply::Refused(Refusal::Serial(serial_core::Refusal::NotWaiting));
    };
    match run(alloc, snapshot) {
        Ok(execution) => match core.commit(execution) {
            Ok(answer) => Reply::Answered(answer),
            Err(refusal) => Reply::Refused(refusal),
        },
        Err(_) => Reply::Refused(Refusal::Serial(serial_core::Refusal::NoMemory)),
    }
}

/// Takes for a resource, and holds the snapshot taken.
fn take_to_hold<D: Disk>(
    core: &EndlessCore<D>,
    alloc: Global,
    held: &mut Vec<Option<Snapshot>>,
    resource: usize,
) -> Reply
    requires room { vec_len held.old < vec_capacity held.old }
    ensures takes { (taken : Result (Option Snapshot) Refusal)
        × InEachCore core.now (λ a. Guards a taken a (λ r. Takes a.state resource r)) × (result ≡ reply_to taken_of taken)
        × (held.new.items ≡ held.old.items ++ held_of taken ∷ []) }
    ensures len { vec_len held.new ≤ vec_len held.old + 1 }
    ensures capacity { vec_capacity held.old ≤ vec_capacity held.new }
{
    match core.take(alloc, resource) {
        Ok(taken) => {
            let reply = Reply::Taken(taken.is_some());
            held.push_reserved(taken);
            reply
        }
        Err(refusal) => {
            held.push_reserved(None);
            Reply::Refused(refusal)
        }
    }
}

/// Answers one event, and appends the snapshot that it takes to those held.
fn step<D: Disk>(
    core: &mut EndlessCore<D>,
    alloc: Global,
    held: &mut Vec<Option<Snapshot>>,
    event: Event,
) -> Reply
    requires room { vec_len held.old < vec_capacity held.old }
    ensures step { EachCoreGoesOn (λ a b. Step D.failure_count a held.old.items event result b held.new.items
        × Withstands D.tells D.left_since D.may_leave D.serves a result b) core.old core.new }
    ensures len { vec_len held.new ≤ vec_len held.old + 1 }
    ensures capacity { vec_capacity held.old ≤ vec_capacity held.new }
{
    core.kept();
    match event {
        Event::Latch(row) => match core.latch(&row) {
            Ok(number) => Reply::Latched(number as usize),
            Err(refusal) => Reply::Refused(refusal),
        },
        Event::Take(resource) => take_to_hold(core, alloc, held, resource),
        Event::Commit(i) => {
            let snapshot = take_held(held, i);
            commit_held(core, alloc, snapshot)
        }
        Event::CommitHere(resource) => match core.commit_here(alloc, resource) {
            Ok(length) => Reply::Here(length),
            Err(refusal) => Reply::Refused(refusal),
        },
        Event::Flush => match core.flush() {
            Ok(length) => Reply::Flushed(length as usize),
            Err(refusal) => Reply::Refused(refusal),
        },
    }
}

/// Makes the calls one after another, and gives the answer to each, as `drive` does for a core with its log. The core keeps no
/// log, so its memory is the same after any number of such lists. An error, which is out of memory for the list of
/// replies, leaves the core as it was.
///
/// A stop at any moment leaves a file from which a warm restart gives the initial values, with the values kept after
/// a prefix of all entries since the life's start written over them; this prefix holds all that was acknowledged before
/// the event in which the stop fell.
pub fn drive_endless<D: Disk>(
    core: &mut EndlessCore<D>,
    alloc: Global,
    events: Vec<Event>,
) -> Result<Vec<Reply>, AllocError>
    // In each life that the core may be of, these are the answers of the core that keeps the whole log.
    ensures drives { IfOk result (λ replies. EachCoreGoesOn (λ a b. (held : Held)
        × Drives D.failure_count D.tells D.left_since D.may_leave a [] events.items replies.items b held)
        core.old core.new) }

    // The whole promise, for a life that goes on for ever: whatever the calls are, and wherever power fails within one of
    // them or after it, a warm restart gives the values after a prefix of the log that nobody keeps, and this prefix
    // holds all that the answers have acknowledged.
    ensures survives { D.tells → IfOk result (λ replies. (front rest : List Event) (said answers : List Reply)
        (event : Event) (reply : Reply) → events.items ≡ front ++ event ∷ rest
        → replies.items ≡ said ++ reply ∷ answers → length front ≡ length said
        → EachCoreGoesOn (λ a b. Endures D.failure_count D.tells D.left_since D.may_leave a [] a.acked front said
        event reply rest answers b) core.old core.new) }

    // The same for the list as a whole, and for the disk before it and the disk after it: a stop at any moment since the
    // first call leaves a file that survives for some front of the calls and their answers.
    ensures any_moment { D.tells → IfOk result (λ replies. InEachCore core.old (λ a. LeavesOnly D.left_since D.may_leave
        core.old.store.disk core.new.store.disk (λ file. SurvivesSomeFront a.state [] a.acked events.items
        replies.items (recovered file)))) }

    // Over a disk that serves a whole file K5 comes by S4 alone, unless the device has failed before.
    ensures serves { IsWellStored D.serves core.old.store.disk core.old.failed
        → IsWellStored D.serves core.new.store.disk core.new.failed
        × IfOk result (λ replies. AllByRecursion IsWellAnswered replies.items) }
    ensures err { OnErr result (core.new ≡ core.old) }
{
    core.kept();
    let mut held = Vec::with_capacity(alloc, events.len())?;
    let mut replies = Vec::with_capacity(alloc, events.len())?;
    for event in events {
        let reply = step(core, alloc, &mut held, event);
        replies.push_reserved(reply);
    }
    Ok(replies)
}
