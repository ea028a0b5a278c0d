//! Looks at a core.

ghost use Rattle.std.specs.Prelude.{◌≡◌, ◌<◌, ◌≤◌, option_map, option_and_then, slice_get, length, map};
ghost use Rattle.std.specs.Prelude.{MatchBool};
ghost use Rattle.st_meaning.specs.Due.{HasOverruns};
ghost use Rattle.st_meaning.specs.Logs.{IsLegal, outcomes_of};
ghost use Rattle.st_meaning.specs.Plans.{schedules_of};
ghost use Rattle.st_meaning.specs.Scopes.{seen};
ghost use Rattle.plan.specs.PlanViews.{plan_view};
ghost use Rattle.serial_core.specs.Steps.{past_in, none_waits, inputs_now, store_in, IsWaiting};

use crate::serial::SerialCore;
use st_meaning::Outcome;
use st_types::{Entry, Path, Value};

impl SerialCore {
    /// How many entries the log has.
    pub fn len(&self) -> usize
        ensures len { result ≡ length self.now.log }
        ensures room { result ≤ self.now.room }
        ensures legal { IsLegal (plan_view self.now.plan) self.now.start self.now.before self.now.log }
    {
        self.history.len()
    }

    /// The values of the variables at the start, in layout order.
    pub fn start_values(&self) -> &[Value]
        ensures values { result.now ≡ map (λ e. e.1) self.now.start }
        ensures store { self.now.start ≡ store_in self.now.plan result.now }
        ensures len { length result.now ≡ length self.now.plan.variables.items }
    {
        self.history.start()
    }

    /// The moment in milliseconds that the first row has to be later than, if there is one.
    pub fn start_moment(&self) -> Option<u64>
        ensures { result ≡ self.now.before }
    {
        self.engine.start_moment()
    }

    /// The values of the variables now, in layout order.
    pub fn values(&self) -> &[Value]
        ensures { result.now ≡ map (λ e. e.1) (past_in self.now).store }
    {
        self.engine.values()
    }

    /// How many rows were latched.
    pub fn rows(&self) -> usize
        ensures { result ≡ length (past_in self.now).rows }
    {
        self.engine.rows() as usize
    }

    /// Whether something of the resource waits. It takes no memory.
    pub fn waits_on(&self, resource: usize) -> bool
        ensures { MatchBool result (none_waits self.now resource → ⊥) (none_waits self.now resource) }
    {
        self.engine.waits_on(resource)
    }

    /// The number of the row with which a program waits, by its number from 0; none if nothing of it waits.
    pub fn waiting(&self, program: usize) -> Option<u64>
        ensures { IsWaiting self.now program result }
    {
        self.engine.waiting(program)
    }

    /// The entry of a number from 0; none if the log has no such entry.
    pub fn entry(&self, number: usize) -> Option<&Entry>
        ensures { option_map (λ e. e.now) result ≡ slice_get self.now.log number }
    {
        self.history.entry(number)
    }

    /// How the execution of an entry ended; none for a row, and if the log has no such entry.
    pub fn outcome(&self, number: usize) -> Option<Outcome>
        ensures { result ≡ option_and_then (λ o. o)
            (slice_get (outcomes_of (plan_view self.now.plan) self.now.start self.now.log) number) }
    {
        self.history.outcome(number)
    }

    /// The value of a variable, or of an input at the last row, 0 or FALSE before the first; none if there is no such path.
    pub fn value(&self, path: &Path) -> Option<Value>
        ensures { result ≡ seen (inputs_now self.now) (past_in self.now).store path.now }
    {
        self.engine.value(path)
    }

    /// How often the program was due while it waited already; 0 for a program that is not there.
    pub fn overruns(&self, program: usize) -> u64
        ensures none { length self.now.plan.programs.items ≤ program → result ≡ 0 }
        ensures overruns { program < length self.now.plan.programs.items
            → HasOverruns (schedules_of (plan_view self.now.plan)) (past_in self.now).history program result }
    {
        self.engine.overruns(program)
    }
}
