//! The ready list.

ghost use Rattle.std.specs.Prelude.{◌≡◌, ◌+◌, ◌≤◌, ◌<◌, ◌^◌, ◌↔◌, ℕ, IsTrue, Some, None, false, if◌then◌else◌, length};
ghost use Rattle.std.specs.Prelude.{IfOk, MatchBool, MatchOption, All};
ghost use Rattle.st_types.specs.declared.limits.TheConstants.{MOMENT_LIMIT};
ghost use Rattle.st_meaning.specs.Due.{History, Waits, NoneWaits, IsBest, HasOverruns, with_row, no_history};
ghost use Rattle.st_meaning.specs.Plans.{schedules_of as schedules_in};
ghost use Rattle.plan.specs.PlanViews.{plan_view};
ghost use Rattle.ready_list.specs.Ready.{state_at, IsReadyOf, Removes};

use crate::order::first_of;
use crate::program_state::{NewRow, ProgramState, mark_all, taken};
use crate::schedules::plan_schedules;
use plan::Plan;
use st_meaning::Schedule;
use st_types::Activation;
use std::alloc::{AllocError, Global};
use std::marker::Model;

/// Which programs wait, and how often each was due while it waited. At most one activation of a program waits.
pub struct ReadyList {
    schedules: Vec<Schedule>,
    /// SINGLE of each task at the last row; FALSE before the first.
    samples: Vec<bool>,
    states: Vec<ProgramState>,
    /// The moment of the first row in milliseconds; 0 before it.
    first: u64,
    /// The moment of the last row in milliseconds; 0 before the first.
    last: u64,
    /// How many rows were taken; the next row's number.
    rows: u64,
}

impl Drop for ReadyList {
    fn drop(self) {
        let Self {
            schedules: _,
            samples: _,
            states: _,
            first: _,
            last: _,
            rows: _,
        } = self;
    }
}

impl Model for ReadyList {
    ghost use Rattle.std.specs.Prelude.{◌≡◌, ◌<◌, ◌≤◌, ◌+◌, ◌^◌, All, length};
    ghost use Rattle.st_types.specs.declared.limits.TheConstants.{MOMENT_LIMIT};
    ghost use Rattle.ready_list.specs.Ready.{Ready};

    ghost Value = { Ready };

    ghost view = { λ x. record {
      schedules = x.schedules.items;
      samples = x.samples.items;
      states = x.states.items;
      first = x.first;
      last = x.last;
      rows = x.rows;
    } };

    ghost invariant = { λ x.
        (length x.states.items ≡ length x.schedules.items)
        × (x.rows ≤ x.last + 1)
        × (x.last < MOMENT_LIMIT)
        × All (λ s. s.overruns ≤ x.rows) x.states.items };
}

/// The state of a program; an empty one if there is no such program.
fn program_state_at(states: &[ProgramState], program: usize) -> ProgramState
    ensures { result ≡ state_at states.now program }
{
    match states.get(program) {
        Some(standing) => *standing,
        None => ProgramState {
            waiting: None,
            overruns: 0,
        },
    }
}

/// The moment if the row is the first, else the old one.
fn moment_or(start: bool, moment: u64, old: u64) -> u64
    ensures { result ≡ (if start then moment else old) }
{
    if start { moment } else { old }
}

/// Whether the program is there and waits with that row.
fn is_listed(states: &[ProgramState], a: Activation) -> bool
    ensures { IsTrue result
        ↔ ((a.program < length states.now) × ((state_at states.now a.program).waiting ≡ Some a.row)) }
{
    a.program < states.len() && states[a.program].waiting == Some(a.row)
}

impl ReadyList {
    /// The list before the first row, of programs at these schedules and this many tasks: nothing waits. It fails only if
    /// memory is short.
    pub fn of_schedules(
        alloc: Global,
        schedules: Vec<Schedule>,
        tasks: usize,
    ) -> Result<ReadyList, AllocError>
        ensures schedules { IfOk result (λ r. r.schedules ≡ schedules.items) }
        ensures number { IfOk result (λ r. length r.samples ≡ tasks) }
        ensures rows { IfOk result (λ r. r.rows ≡ 0) }
        ensures new { IfOk result (λ r. IsReadyOf no_history r) }
    {
        let samples = vec![in alloc; false; tasks]?;
        let states = vec![in alloc; ProgramState {
            waiting: None,
            overruns: 0
        }; schedules.len()]?;
        Ok(ReadyList {
            schedules,
            samples,
            states,
            first: 0,
            last: 0,
            rows: 0,
        })
    }

    /// The list of a plan before its first row: nothing waits. It fails only if memory is short.
    pub fn new(alloc: Global, plan: &Plan) -> Result<ReadyList, AllocError>
        ensures schedules { IfOk result (λ r. r.schedules ≡ schedules_in (plan_view plan.now)) }
        ensures number { IfOk result (λ r. length r.samples ≡ length plan.now.tasks.items) }
        ensures rows { IfOk result (λ r. r.rows ≡ 0) }
        ensures new { IfOk result (λ r. IsReadyOf no_history r) }
    {
        let schedules = plan_schedules(alloc, plan)?;
        ReadyList::of_schedules(alloc, schedules, plan.tasks.len())
    }

    /// Takes a row: its moment in milliseconds, later than that of the row before and less than 2^62, and a sample of SINGLE
    /// for each task, FALSE if it has none. It takes no memory.
    pub fn due(&mut self, moment: u64, samples: &[bool])
        requires number { length samples.now ≡ length self.old.samples }
        requires later { 0 < self.old.rows → self.old.last < moment }
        requires limit { moment < MOMENT_LIMIT }
        ensures schedules { self.new.schedules ≡ self.old.schedules }
        ensures number { length self.new.samples ≡ length self.old.samples }
        ensures last { self.new.last ≡ moment }
        ensures rows { self.new.rows ≡ self.old.rows + 1 }
        ensures due { (h : History) → IsReadyOf h self.old → IsReadyOf (with_row h moment samples.now) self.new }
    {
        let start = self.rows == 0;
        let row = NewRow {
            number: self.rows,
            first: moment_or(start, moment, self.first),
            last: moment_or(start, moment, self.last),
            moment,
        };
        mark_all(
            &self.schedules,
            &mut self.states,
            &self.samples,
            samples,
            row,
        );
        self.samples.copy_from_slice(samples);
        self.first = row.first;
        self.last = moment;
        self.rows += 1;
    }

    /// The next activation to run on the resource, by its number from 0: of those that wait there the lowest PRIORITY
    /// number, then the lowest row, then the program that was declared first. None if nothing waits.
    #[tactic(auto, using(crate::proofs::BestLemmas::best_first))]
    pub fn best(&self, resource: usize) -> Option<Activation>
        ensures { (h : History) → IsReadyOf h self.now
            → MatchOption result (NoneWaits self.now.schedules h resource) (IsBest self.now.schedules h resource) }
    {
        first_of(&self.schedules, &self.states, resource)
    }

    /// Whether something of the resource waits. It takes no memory.
    pub fn waits_on(&self, resource: usize) -> bool
        ensures { (h : History) → IsReadyOf h self.now
            → MatchBool result (NoneWaits self.now.schedules h resource → ⊥) (NoneWaits self.now.schedules h resource) }
    {
        match self.best(resource) {
            Some(_) => true,
            None => false,
        }
    }

    /// Whether the activation waits.
    pub fn waits(&self, a: Activation) -> bool
        ensures { (h : History) → IsReadyOf h self.now → IsTrue result ↔ Waits self.now.schedules h a }
    {
        is_listed(&self.states, a)
    }

    /// The number of the row with which the program waits, by its number from 0; none if nothing of it waits.
    pub fn waiting(&self, program: usize) -> Option<u64>
        ensures { (h : History) → IsReadyOf h self.now → MatchOption result
            ((row : ℕ) → Waits self.now.schedules h record { program = program; row = row } → ⊥)
            (λ row. Waits self.now.schedules h record { program = program; row = row }) }
    {
        program_state_at(&self.states, program).waiting
    }

    /// Takes the activation away and gives true, if it waits; else it changes nothing.
    pub fn remove(&mut self, a: Activation) -> bool
        ensures schedules { self.new.schedules ≡ self.old.schedules }
        ensures number { length self.new.samples ≡ length self.old.samples }
        ensures last { self.new.last ≡ self.old.last }
        ensures rows { self.new.rows ≡ self.old.rows }
        ensures remove { (h : History) → IsReadyOf h self.old → Removes h self.old a result self.new }
    {
        if !is_listed(&self.states, a) {
            return false;
        }
        self.states[a.program] = taken(self.states[a.program]);
        true
    }

    /// SINGLE of each task at the last row; FALSE before the first.
    pub fn samples(&self) -> &[bool]
        ensures { result.now ≡ self.now.samples }
    {
        &self.samples
    }

    /// The moment of the first row in milliseconds; 0 before it.
    pub fn first(&self) -> u64
        ensures { result ≡ self.now.first }
    {
        self.first
    }

    /// How often the program, by its number from 0, was due while it waited; 0 for one that isn't there.
    #[tactic(auto, using(crate::proofs::ReadyLemmas::overruns_there))]
    pub fn overruns(&self, program: usize) -> u64
        ensures none { length self.now.schedules ≤ program → result ≡ 0 }
        ensures state { result ≡ (state_at self.now.states program).overruns }
        ensures overruns { (h : History) → IsReadyOf h self.now → program < length self.now.schedules
            → HasOverruns self.now.schedules h program result }
    {
        program_state_at(&self.states, program).overruns
    }
}
