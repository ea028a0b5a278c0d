//! Looks at an engine.

ghost use Rattle.std.specs.Prelude.{◌≡◌, ◌<◌, ◌≤◌, IfSome, slice_get, length, map, Some, option_map};
ghost use Rattle.std.specs.Prelude.{MatchBool};
ghost use Rattle.st_types.specs.declared.limits.TheConstants.{MOMENT_LIMIT};
ghost use Rattle.st_meaning.specs.Due.{HasOverruns};
ghost use Rattle.st_meaning.specs.Logs.{last_moment};
ghost use Rattle.st_meaning.specs.Plans.{schedules_of};
ghost use Rattle.st_meaning.specs.Scopes.{seen};
ghost use Rattle.plan.specs.PlanViews.{plan_view};
ghost use Rattle.checkpoints.specs.Checkpoints.{progress_at};
ghost use Rattle.core_engine.specs.Steps.{past_in, none_waits, first_image, last_image, inputs_now, IsWaiting};
ghost use Rattle.core_engine.specs.Lived.{InEachLife};
ghost use Rattle.core_engine.specs.Checkpointed.{checkpoint_of};

use crate::engine::Engine;
use plan::{Plan, SlotPlace};
use st_types::{Path, Value};

fn value_at(values: &[Value], slot: usize) -> Option<Value>
    ensures { result ≡ slice_get values.now slot }
{
    match values.get(slot) {
        Some(value) => Some(*value),
        None => None,
    }
}

impl Engine {
    /// The plan that it runs.
    pub fn plan(&self) -> &Plan
        ensures { result.now ≡ self.now.plan }
    {
        &self.plan
    }

    /// The moment in milliseconds that the first row has to be later than, if there is one.
    pub fn start_moment(&self) -> Option<u64>
        ensures { result ≡ self.now.before }
    {
        self.before
    }

    /// How many entries the log has.
    pub fn entries(&self) -> u64
        ensures number { InEachLife self.now (λ life. result ≡ length life.log) }
        ensures room { result ≤ self.now.room }
    {
        self.entries
    }

    /// How many rows were latched.
    pub fn rows(&self) -> u64
        ensures { InEachLife self.now (λ life. result ≡ length (past_in life).rows) }
    {
        self.rows
    }

    /// The moment of the last row in milliseconds, or the one that the first row has to be later than.
    pub fn last_moment(&self) -> Option<u64>
        ensures last { InEachLife self.now (λ life. result ≡ last_moment life.before (past_in life).rows) }
        ensures early { IfSome result (λ t. t < MOMENT_LIMIT) }
    {
        self.last
    }

    /// The values of the variables now, in layout order.
    pub fn values(&self) -> &[Value]
        ensures now { InEachLife self.now (λ life. result.now ≡ map (λ e. e.1) (past_in life).store) }
        ensures values { result.now ≡ self.now.values }
    {
        &self.values
    }

    /// The value of a variable, or of an input at the last row, 0 or FALSE before the first; none if there is no such path.
    pub fn value(&self, path: &Path) -> Option<Value>
        ensures { InEachLife self.now (λ life. result ≡ seen (inputs_now life) (past_in life).store path.now) }
    {
        match self.plan.place(path) {
            Some(SlotPlace::Input(number)) => Some(self.input(number)),
            Some(SlotPlace::Variable(number)) => value_at(&self.values, number),
            None => None,
        }
    }

    /// The value of an input at the last row, or 0 or FALSE.
    fn input(&self, number: usize) -> Value
        requires there { number < length self.now.plan.inputs.items }
        ensures { InEachLife self.now (λ life. Some result
            ≡ slice_get (last_image (first_image life.plan.inputs.items) (past_in life).rows) number) }
    {
        self.newest.image()[number]
    }

    /// Whether something of the resource waits. It takes no memory.
    pub fn waits_on(&self, resource: usize) -> bool
        ensures { InEachLife self.now (λ life. MatchBool result (none_waits life resource → ⊥) (none_waits life resource)) }
    {
        self.ready.waits_on(resource)
    }

    /// The number of the row with which a program waits, by its number from 0; none if nothing of it waits.
    pub fn waiting(&self, program: usize) -> Option<u64>
        ensures { InEachLife self.now (λ life. IsWaiting life program result) }
    {
        self.ready.waiting(program)
    }

    /// The moment of the life's first row in milliseconds; 0 before it.
    pub fn first_moment(&self) -> u64
        ensures { result ≡ (checkpoint_of self.now).first }
    {
        self.ready.first()
    }

    /// The moment in milliseconds and the inputs of the last row; none before the first.
    pub fn last_row(&self) -> Option<(u64, &[Value])>
        ensures { option_map (λ row. record { moment = row.0; image = row.1.now }) result
            ≡ (checkpoint_of self.now).last_row }
    {
        if self.rows == 0 {
            return None;
        }
        Some((self.last.unwrap_or(0), self.newest.image()))
    }

    /// SINGLE of each task at the last row; FALSE before the first.
    pub fn samples(&self) -> &[bool]
        ensures { result.now ≡ (checkpoint_of self.now).samples }
    {
        self.ready.samples()
    }

    /// How often the program was due while it waited already; 0 for a program that is not there.
    pub fn overruns(&self, program: usize) -> u64
        ensures none { length self.now.plan.programs.items ≤ program → result ≡ 0 }
        ensures progress { program < length self.now.plan.programs.items
            → result ≡ (progress_at (checkpoint_of self.now).programs program).overruns }
        ensures overruns { program < length self.now.plan.programs.items → InEachLife self.now
            (λ life. HasOverruns (schedules_of (plan_view life.plan)) (past_in life).history program result) }
    {
        self.ready.overruns(program)
    }
}
