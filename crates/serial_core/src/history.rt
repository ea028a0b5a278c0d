//! The log of a life, beside the engine of it.

ghost use Rattle.std.specs.Prelude.{◌≡◌, ◌<◌, ◌++◌, ◌∷◌, [], ℕ, Some, Ok, IfOk, length, map, option_map, option_and_then};
ghost use Rattle.std.specs.Prelude.{slice_get};
ghost use Rattle.core_values.specs.Restored.{restored};
ghost use Rattle.serial_core.specs.Kept.{log_after, outcomes_after, with_log, with_start};

use core_engine::{Answer, Refusal, initial_values};
use core_values::restore;
use st_meaning::{Outcome, PlanVariable};
use st_types::{Activation, Entry, Value};
use std::alloc::{AllocError, Global};
use std::marker::Model;

/// All that an engine does not have of its life: the values that it started with, its log, and how each execution ended.
/// It has room for all entries that the life may have.
pub struct History {
    /// The values that the variables started with.
    start: Vec<Value>,
    log: Vec<Entry>,
    /// How the execution of each entry ended.
    outcomes: Vec<Option<Outcome>>,
    /// How many entries there is room for.
    room: usize,
}

impl Drop for History {
    fn drop(self) {
        let Self {
            start: _,
            log: _,
            outcomes: _,
            room: _,
        } = self;
    }
}

impl Model for History {
    ghost use Rattle.std.specs.Coded.{codes};
    ghost use Rattle.st_types.specs.contracts.source.Source as source;
    ghost use Rattle.serial_core.specs.Kept.{HistoryView};

    ghost Value = { HistoryView };

    ghost coded = { Prim.hlevel (codes, source.the_row.coded) };

    ghost use Rattle.std.specs.Prelude.{◌≤◌, vec_capacity};

    ghost view = { λ x. record {
      start = x.start.items;
      log = x.log.items;
      outcomes = x.outcomes.items;
      room = x.room;
    } };

    ghost invariant = { λ x. (x.room ≤ vec_capacity x.log) × (x.room ≤ vec_capacity x.outcomes) };
}

impl History {
    /// The history of a life that starts with the initial values, before its first entry. It makes all its memory.
    pub fn new(
        alloc: Global,
        variables: &[PlanVariable],
        room: usize,
    ) -> Result<History, AllocError>
        ensures { IfOk result (λ history. history ≡ record {
          start = map (λ v. v.initial) variables.now;
          log = [];
          outcomes = [];
          room = room;
        }) }
    {
        let start = initial_values(alloc, variables)?;
        let log = Vec::with_capacity(alloc, room)?;
        let outcomes = Vec::with_capacity(alloc, room)?;
        Ok(History {
            start,
            log,
            outcomes,
            room,
        })
    }

    /// Lets the life start with these values. It takes no memory.
    pub fn begin(&mut self, values: &[Value])
        requires sized { length values.now ≡ length self.old.start }
        ensures { self.new ≡ with_start self.old values.now }
    {
        self.start.copy_from_slice(values);
    }

    /// Gives the retained variables these values at the start, in order. It takes no memory.
    pub(crate) fn restore(&mut self, variables: &[PlanVariable], values: &[Value])
        requires sized { length self.old.start ≡ length variables.now }
        ensures { self.new ≡ with_start self.old (restored variables.now values.now) }
    {
        restore(&mut self.start, variables, values);
    }

    /// Appends an entry and how its execution ended. It takes no memory.
    pub fn append(&mut self, entry: Entry, outcome: Option<Outcome>)
        requires log { length self.old.log < self.old.room }
        requires outcomes { length self.old.outcomes < self.old.room }
        ensures { self.new ≡ with_log self.old (self.old.log ++ entry ∷ []) (self.old.outcomes ++ outcome ∷ []) }
    {
        self.log.push_reserved(entry);
        self.outcomes.push_reserved(outcome);
    }

    /// Appends the Done of an execution and how it ended, if this is the answer of its commit. It takes no memory.
    pub fn append_done(
        &mut self,
        answer: &Result<Answer, Refusal>,
        activation: Activation,
        outcome: Outcome,
    )
        requires log { (n : ℕ) → answer.now ≡ Ok (Answer.Committed n) → length self.old.log < self.old.room }
        requires outcomes { (n : ℕ) → answer.now ≡ Ok (Answer.Committed n) → length self.old.outcomes < self.old.room }
        ensures { self.new ≡ with_log self.old (log_after answer.now self.old.log activation)
            (outcomes_after answer.now self.old.outcomes outcome) }
    {
        if let Ok(Answer::Committed(_)) = answer {
            self.append(Entry::Done(activation), Some(outcome));
        }
    }

    /// The values of the variables at the start, in layout order.
    pub fn start(&self) -> &[Value]
        ensures { result.now ≡ self.now.start }
    {
        &self.start
    }

    /// How many entries the log has.
    pub fn len(&self) -> usize
        ensures { result ≡ length self.now.log }
    {
        self.log.len()
    }

    /// The entry of a number from 0; none if the log has no such entry.
    pub fn entry(&self, number: usize) -> Option<&Entry>
        ensures { option_map (λ e. e.now) result ≡ slice_get self.now.log number }
    {
        self.log.get(number)
    }

    /// How the execution of an entry ended; none for a row, and if the log has no such entry.
    pub fn outcome(&self, number: usize) -> Option<Outcome>
        ensures { result ≡ option_and_then (λ o. o) (slice_get self.now.outcomes number) }
    {
        match self.outcomes.get(number) {
            Some(outcome) => *outcome,
            None => None,
        }
    }
}
