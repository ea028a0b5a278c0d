//! Reading the state of a core.

ghost use Rattle.std.specs.Prelude.{◌≡◌, ◌<◌, ◌≤◌, option_map, option_and_then, slice_get, length, map, MatchBool};
ghost use Rattle.st_meaning.specs.Due.{HasOverruns};
ghost use Rattle.st_meaning.specs.Logs.{IsLegal, outcomes_of};
ghost use Rattle.st_meaning.specs.Plans.{schedules_of};
ghost use Rattle.st_meaning.specs.Scopes.{seen};
ghost use Rattle.plan.specs.PlanViews.{plan_view};
ghost use Rattle.serial_core.specs.Steps.{past_in, none_waits, inputs_now, store_in};

use crate::core_state::Core;
use crate::starting::StartMode;
use disk::Disk;
use plan::Plan;
use st_meaning::Outcome;
use st_types::{Entry, Path, Value};

impl<D: Disk> Core<D> {
    /// How it was started.
    pub fn mode(&self) -> StartMode
        ensures { result ≡ self.now.mode }
    {
        self.endless.mode
    }

    /// The plan that it runs.
    pub fn plan(&self) -> &Plan
        ensures { result.now ≡ self.now.state.plan }
    {
        self.endless.plan()
    }

    /// The values of the variables at the start, in layout order.
    pub fn start_values(&self) -> &[Value]
        ensures values { result.now ≡ map (λ e. e.1) self.now.state.start }
        ensures store { self.now.state.start ≡ store_in self.now.state.plan result.now }
        ensures len { length result.now ≡ length self.now.state.plan.variables.items }
    {
        self.history.start()
    }

    /// The moment in milliseconds that the first row has to be later than, if there is one.
    pub fn start_moment(&self) -> Option<u64>
        ensures { result ≡ self.now.state.before }
    {
        self.endless.start_moment()
    }

    /// The values of the variables now, in layout order.
    pub fn values(&self) -> &[Value]
        ensures { result.now ≡ map (λ e. e.1) (past_in self.now.state).store }
    {
        self.endless.values()
    }

    /// How many entries the log has.
    pub fn len(&self) -> usize
        ensures len { result ≡ length self.now.state.log }
        ensures legal { IsLegal (plan_view self.now.state.plan) self.now.state.start self.now.state.before
            self.now.state.log }
    {
        self.history.len()
    }

    /// How many rows were latched.
    pub fn rows(&self) -> usize
        ensures { result ≡ length (past_in self.now.state).rows }
    {
        self.endless.rows() as usize
    }

    /// Whether something of the resource waits. It allocates nothing.
    pub fn waits_on(&self, resource: usize) -> bool
        ensures { MatchBool result (none_waits self.now.state resource → ⊥) (none_waits self.now.state resource) }
    {
        self.endless.waits_on(resource)
    }

    /// The entry of a number from 0; none if the log has no such entry.
    pub fn entry(&self, number: usize) -> Option<&Entry>
        ensures { option_map (λ e. e.now) result ≡ slice_get self.now.state.log number }
    {
        self.history.entry(number)
    }

    /// How the execution of an entry ended; none for a row, or if the log has no such entry.
    pub fn outcome(&self, number: usize) -> Option<Outcome>
        ensures { result ≡ option_and_then (λ o. o)
            (slice_get (outcomes_of (plan_view self.now.state.plan) self.now.state.start self.now.state.log) number) }
    {
        self.history.outcome(number)
    }

    /// The value of a variable, or of an input at the last row, 0 or FALSE before the first; none if there is no such path.
    pub fn value(&self, path: &Path) -> Option<Value>
        ensures { result ≡ seen (inputs_now self.now.state) (past_in self.now.state).store path.now }
    {
        self.endless.value(path)
    }

    /// How often the program was due while it was already waiting; 0 if there is no such program.
    pub fn overruns(&self, program: usize) -> u64
        ensures none { length self.now.state.plan.programs.items ≤ program → result ≡ 0 }
        ensures overruns { program < length self.now.state.plan.programs.items
            → HasOverruns (schedules_of (plan_view self.now.state.plan)) (past_in self.now.state).history program result }
    {
        self.endless.overruns(program)
    }
}
