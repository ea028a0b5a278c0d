//! The plan of a text.

ghost use Rattle.std.specs.Prelude.{◌≡◌, length, filter, map};
ghost use Rattle.std.specs.Vec.{vec_items};
ghost use Rattle.st_types.specs.SourceViews.{source_view};
ghost use Rattle.plan.specs.LaidOut.{IsLaidOut};
ghost use Rattle.plan.specs.SlotPlaces.{place_of};
ghost use Rattle.plan.specs.Sound.{PlanInvariant};

use crate::slots::{SlotPlace, place_numbered};
use crate::task::{ProgramInstance, Task};
use layout::Layout;
use st_meaning::{PlanInput, PlanVariable};
use st_types::{Name, Path, Source};
use std::sync::Arc;

/// The parts of a text that the runtime needs: its variables, inputs, tasks and programs. It keeps the limits of the
/// language.
pub struct Plan {
    /// The text, with the type of each untyped literal.
    pub text: Arc<Source>,
    /// The names of each enumerated type of the text, in the order of the types' numbers.
    pub enumerations: Vec<Vec<Name>>,
    /// The variables in layout order.
    pub variables: Vec<PlanVariable>,
    /// The inputs of the plant in declaration order.
    pub inputs: Vec<PlanInput>,
    /// The slots of its variables and inputs by their paths, in the order of the text.
    pub layout: Layout,
    /// The contents of these slots.
    pub slots: Vec<SlotPlace>,
    pub resources: usize,
    pub tasks: Vec<Task>,
    pub programs: Vec<ProgramInstance>,
    /// How many ticks an execution may take: 1 to 1,000,000.
    pub budget: u32,
    ghost sound: { PlanInvariant (source_view text.value) (map vec_items enumerations.items) variables.items inputs.items
        slots.items resources tasks.items programs.items budget },
    ghost laid_out: { IsLaidOut (map vec_items enumerations.items) variables.items inputs.items slots.items layout },
}

// Written out, not derived: a proof that a plan is dropped uses this, and need not prove again how its trees are dropped.
impl Drop for Plan {
    fn drop(self) {
        let Self {
            text: _,
            enumerations: _,
            variables: _,
            inputs: _,
            layout: _,
            slots: _,
            resources: _,
            tasks: _,
            programs: _,
            budget: _,
        } = self;
    }
}

impl Plan {
    /// How many resources it has.
    pub fn resources(&self) -> usize
        ensures { result ≡ self.now.resources }
    {
        self.resources
    }

    /// How many tasks it has.
    pub fn tasks(&self) -> usize
        ensures { result ≡ length self.now.tasks.items }
    {
        self.tasks.len()
    }

    /// How many instances of programs it has.
    pub fn programs(&self) -> usize
        ensures { result ≡ length self.now.programs.items }
    {
        self.programs.len()
    }

    /// How many variables it has; inputs don't count.
    pub fn slots(&self) -> usize
        ensures { result ≡ length self.now.variables.items }
    {
        self.variables.len()
    }

    /// How many of the variables are kept over a power failure.
    pub fn retained(&self) -> usize
        ensures { result ≡ length (filter (λ v. v.retained) self.now.variables.items) }
    {
        self.variables.iter().filter(|v| v.retained).count()
    }

    /// The inputs of the plant in declaration order.
    pub fn inputs(&self) -> &[PlanInput]
        ensures { result.now ≡ self.now.inputs.items }
    {
        &self.inputs
    }

    /// Its layout: the slots of its variables and inputs by their paths, and the layout text of its records.
    pub fn layout(&self) -> &Layout
        ensures { result.now ≡ self.now.layout }
    {
        &self.layout
    }

    /// The variable or the input in the slot of a path, by its number from 0; none if there is no such path.
    pub fn place(&self, path: &Path) -> Option<SlotPlace>
        ensures { result ≡ place_of self.now.variables.items self.now.inputs.items path.now }
    {
        match self.layout.slot(path) {
            Some(number) => place_numbered(&self.slots, number),
            None => None,
        }
    }

    /// How many ticks an execution may take.
    pub fn budget(&self) -> u32
        ensures { result ≡ self.now.budget }
    {
        self.budget
    }
}
