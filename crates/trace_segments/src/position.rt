//! A life at some point.

ghost use Rattle.std.specs.Prelude.{◌≡◌, ◌≢◌, ◌↔◌, ◌<◌, IsTrue, IfOk, IfErr, None, option_map, length, slice_set};
ghost use Rattle.st_types.specs.declared.entry.Entry.TheVariants as entries;
ghost use Rattle.st_meaning.specs.Plans.{samples_of};
ghost use Rattle.plan.specs.PlanViews.{plan_view};
ghost use Rattle.std.specs.List.{list_any};
ghost use Rattle.checkpoints.specs.Checkpoints.{moment_before_next, progress_at};
ghost use Rattle.checkpoints.specs.Compaction.{compact_done, first_moment, moment_or};
ghost use Rattle.checkpoints.specs.Continuation.{MayContinue};
ghost use Rattle.trace_segments.specs.Positions.{GoesTo, HasRun, checkpoint_at, overruns_in};
ghost use Rattle.trace_segments.specs.Runs.{IsBeginning};

use crate::marking::mark_all;
use crate::progress::Progress;
use core_engine::sample_all;
use core_values::{fits, is_later, write_all};
use plan::Plan;
use ready_list::NewRow;
use slot_run::Execution;
use st_meaning::Schedule;
use st_types::{Activation, Row, Value};
use std::alloc::{AllocError, Global};
use std::marker::Model;
use std::sync::Arc;
use trace::ReplayError;

/// A life at some point, by its checkpoint: all that its further entries need of those before.
pub struct Position {
    pub(crate) plan: Arc<Plan>,
    /// The moment in milliseconds that the life's first row had to be later than.
    pub(crate) before: Option<u64>,
    /// The values of the variables, by their slots.
    pub(crate) values: Vec<Value>,
    /// How many rows there were.
    pub(crate) rows: u64,
    /// The moment of the first row in milliseconds.
    pub(crate) first: u64,
    pub(crate) last_row: Option<Row>,
    /// SINGLE of each task at the last row.
    pub(crate) samples: Vec<bool>,
    pub(crate) schedules: Vec<Schedule>,
    pub(crate) programs: Vec<Progress>,
}

impl Drop for Position {
    fn drop(self) {
        let Self {
            plan: _,
            before: _,
            values: _,
            rows: _,
            first: _,
            last_row: _,
            samples: _,
            schedules: _,
            programs: _,
        } = self;
    }
}

impl Model for Position {
    ghost use Rattle.std.specs.Prelude.{◌≡◌};
    ghost use Rattle.std.specs.Coded.{codes};
    ghost use Rattle.st_types.specs.contracts.source.Source as source;
    ghost use Rattle.slot_code.specs.contracts.code.Code as code;
    ghost use Rattle.st_meaning.specs.Plans.{schedules_of};
    ghost use Rattle.plan.specs.PlanViews.{plan_view};
    ghost use Rattle.trace_segments.specs.Positions.{PositionView, IsPosition};

    ghost Value = { PositionView };

    ghost coded = { Prim.hlevel (codes, source.the_row.coded, code.the_row.coded) };

    ghost view = { λ x. record {
      plan = x.plan.value;
      before = x.before;
      values = x.values.items;
      rows = x.rows;
      first = x.first;
      last_row = x.last_row;
      samples = x.samples.items;
      programs = x.programs.items;
    } };

    ghost invariant = { λ x. IsPosition record {
      plan = x.plan.value;
      before = x.before;
      values = x.values.items;
      rows = x.rows;
      first = x.first;
      last_row = x.last_row;
      samples = x.samples.items;
      programs = x.programs.items;
    } × (x.schedules.items ≡ schedules_of (plan_view x.plan.value)) };
}

/// The execution of one of the programs has ended.
fn end_one(programs: &mut Vec<Progress>, program: usize)
    requires there { program < length programs.old.items }
    ensures { programs.new.items ≡ slice_set programs.old.items program
        record { waiting = None; overruns = (progress_at programs.old.items program).overruns } }
{
    let progress = &mut programs[program];
    progress.ends();
}

/// Whether any sample is TRUE.
fn is_any(samples: &[bool]) -> bool
    ensures { result ≡ list_any (λ sample. sample) samples.now }
{
    samples.iter().any(|sample| *sample)
}

/// The moment of a row, or this one if there is none.
fn moment_or(row: &Option<Row>, moment: u64) -> u64
    ensures { result ≡ moment_or moment row.now }
{
    match row {
        Some(row) => row.moment(),
        None => moment,
    }
}

impl Position {
    /// The plan that it runs.
    pub fn plan(&self) -> &Plan
        ensures { result.now ≡ self.now.plan }
    {
        &self.plan
    }

    /// The values of the variables, in layout order.
    pub fn values(&self) -> &[Value]
        ensures { result.now ≡ self.now.values }
    {
        &self.values
    }

    /// How often programs were due while they waited, in all, up to the greatest number of 64 bits.
    pub fn all_overruns(&self) -> u64
        ensures { result ≡ overruns_in self.now.programs }
    {
        let mut overruns = 0u64;
        for program in &self.programs {
            overruns = overruns.saturating_add(program.overruns());
        }
        overruns
    }

    /// The last row, if there is one.
    pub fn last_row(&self) -> Option<&Row>
        ensures { option_map (λ r. r.now) result ≡ self.now.last_row }
    {
        self.last_row.as_ref()
    }

    /// How often the program, by its number from 0, was due while it waited; 0 for one that isn't there.
    pub fn overruns(&self, program: usize) -> u64
        ensures { result ≡ (progress_at self.now.programs program).overruns }
    {
        match self.programs.get(program) {
            Some(program) => program.overruns(),
            None => 0,
        }
    }

    /// The moment in milliseconds that the next row has to be later than, if there is one.
    pub fn last_moment(&self) -> Option<u64>
        ensures { result ≡ moment_before_next self.now.before self.now.last_row }
    {
        match &self.last_row {
            Some(row) => Some(row.moment()),
            None => self.before,
        }
    }

    /// Whether it is the beginning of a life, before all rows.
    pub(crate) fn is_beginning(&self) -> bool
        ensures { IsTrue result → IsBeginning (checkpoint_at self.now) }
    {
        self.rows == 0 && self.first == 0 && self.last_row.is_none() && !is_any(&self.samples)
    }

    /// Whether the row may come next.
    fn admits(&self, row: &Row) -> bool
        ensures { IsTrue result ↔ MayContinue (plan_view self.now.plan) self.now.before (checkpoint_at self.now) (entries.Row row.now) }
    {
        fits(&self.plan, row) && is_later(self.last_moment(), row.moment())
    }

    /// SINGLE of each task at a row that comes next. The error is out of memory.
    fn samples_at(&self, alloc: Global, row: &Row) -> Result<Vec<bool>, AllocError>
        ensures { IfOk result (λ samples. samples.items
            ≡ samples_of (plan_view self.now.plan) (checkpoint_at self.now).store row.now.image) }
    {
        let mut samples = vec![in alloc; false; self.plan.tasks.len()]?;
        sample_all(&self.plan.tasks, &self.values, row.image(), &mut samples);
        Ok(samples)
    }

    /// What is asked of a row that comes next, to know who is due.
    fn new_row(&self, row: &Row) -> NewRow
        ensures { result ≡ record {
          number = self.now.rows;
          first = first_moment (checkpoint_at self.now) row.now;
          last = moment_or row.now.moment self.now.last_row;
          moment = row.now.moment;
        } }
    {
        let moment = row.moment();
        NewRow {
            number: self.rows,
            first: if self.rows == 0 { moment } else { self.first },
            last: moment_or(&self.last_row, moment),
            moment,
        }
    }

    /// Goes on by a row. V2 if it doesn't fit the plan or isn't later than the one before, V5 out of memory.
    pub fn after_row(self, alloc: Global, row: Row) -> Result<Position, ReplayError>
        ensures goes { IfOk result (GoesTo (entries.Row row) self) }
        ensures refused { IfErr result (λ e. e ≢ ReplayError.NoMemory → (e ≡ ReplayError.Row)
            × (MayContinue (plan_view self.plan) self.before (checkpoint_at self) (entries.Row row) → ⊥)) }
    {
        if !self.admits(&row) {
            return Err(ReplayError::Row);
        }
        let Ok(samples) = self.samples_at(alloc, &row) else {
            return Err(ReplayError::NoMemory);
        };
        let new = self.new_row(&row);
        let Position {
            plan,
            before,
            values,
            rows,
            first: _,
            last_row: _,
            samples: old,
            schedules,
            mut programs,
        } = self;
        match mark_all(alloc, &schedules, &mut programs, &old, &samples, new, &row) {
            Ok(()) => Ok(Position {
                plan,
                before,
                values,
                rows: rows + 1,
                first: new.first,
                last_row: Some(row),
                samples,
                schedules,
                programs,
            }),
            Err(_) => Err(ReplayError::NoMemory),
        }
    }

    /// Goes on by an execution of this activation that was just made.
    pub(crate) fn after_execution(self, activation: Activation, execution: &Execution) -> Position
        requires there { activation.program < length self.programs }
        requires ran { HasRun self activation execution.now }
        ensures plan { result.plan ≡ self.plan }
        ensures before { result.before ≡ self.before }
        ensures after { checkpoint_at result
            ≡ compact_done (plan_view self.plan) (checkpoint_at self) activation.program }
    {
        let Position {
            plan,
            before,
            mut values,
            rows,
            first,
            last_row,
            samples,
            schedules,
            mut programs,
        } = self;
        write_all(&plan.slots, &mut values, execution.writes());
        end_one(&mut programs, activation.program);
        Position {
            plan,
            before,
            values,
            rows,
            first,
            last_row,
            samples,
            schedules,
            programs,
        }
    }
}
