//! The result of a run.

ghost use Rattle.std.specs.Prelude.{◌≡◌, map};
ghost use Rattle.slot_code.specs.Codes.{code_view};
ghost use Rattle.slot_memory.specs.Cells.{cell_view};
ghost use Rattle.slot_run.specs.Effects.{IsTrueOf};

use slot_code::Code;
use slot_memory::{Cell, Cells};
use st_meaning::Outcome;
use st_types::Activation;
use std::marker::Model;
use std::sync::Arc;

/// The machine that made a run.
#[derive(Clone, Copy, Debug, PartialEq, Eq)]
pub enum Machine {
    /// The quick machine, which could predict how the run ends.
    Quick,
    /// The machine on values: the program has no quick code, or the quick machine could not predict the end.
    Values,
}

/// A run of an activation's code: its reads, its writes, and how it ended. Contracts see these as an `Effect`.
///
/// Wherever its reads hold, each program that the code means ends so and leaves these writes; one that faulted writes
/// nothing. No slot occurs twice among its reads or among its writes. The run that makes it decides which reads it has.
#[derive(Drop)]
pub struct Execution {
    code: Arc<Code>,
    activation: Activation,
    moment: u64,
    budget: u32,
    reads: Cells,
    writes: Cells,
    outcome: Outcome,
    machine: Machine,
}

impl Model for Execution {
    ghost use Rattle.slot_run.specs.Effects.{Effect};

    ghost Value = { Effect };

    ghost use Rattle.std.specs.Prelude.{map};
    ghost use Rattle.slot_code.specs.Codes.{code_view};
    ghost use Rattle.slot_run.specs.Effects.{IsTrueOf};
    ghost use Rattle.slot_memory.specs.Cells.{cell_view};

    ghost view = { λ x. record {
      code = code_view x.code.value;
      activation = x.activation;
      moment = x.moment;
      budget = x.budget;
      reads = map cell_view x.reads.items;
      writes = map cell_view x.writes.items;
      outcome = x.outcome;
    } };

    ghost invariant = { λ x. IsTrueOf (code_view x.code.value) x.moment x.budget (map cell_view x.reads.items)
        (map cell_view x.writes.items) x.outcome };
}

impl Execution {
    /// The execution with these parts.
    pub(crate) fn new(
        code: Arc<Code>,
        activation: Activation,
        moment: u64,
        budget: u32,
        reads: Cells,
        writes: Cells,
        outcome: Outcome,
        machine: Machine,
    ) -> Execution
        requires { IsTrueOf (code_view code.value) moment budget (map cell_view reads.items) (map cell_view writes.items) outcome }
        ensures { result ≡ record {
          code = code_view code.value;
          activation = activation;
          moment = moment;
          budget = budget;
          reads = map cell_view reads.items;
          writes = map cell_view writes.items;
          outcome = outcome;
        } }
    {
        Execution {
            code,
            activation,
            moment,
            budget,
            reads,
            writes,
            outcome,
            machine,
        }
    }

    /// The code that ran.
    pub fn code(&self) -> &Code
        ensures code { code_view result.now ≡ self.now.code }
        ensures true_of { IsTrueOf self.now.code self.now.moment self.now.budget self.now.reads self.now.writes
            self.now.outcome }
    {
        &self.code
    }

    /// The activation that it served.
    pub fn activation(&self) -> Activation
        ensures { result ≡ self.now.activation }
    {
        self.activation
    }

    /// The moment of the activation's row, in milliseconds.
    pub fn moment(&self) -> u64
        ensures { result ≡ self.now.moment }
    {
        self.moment
    }

    /// The ticks that it may take.
    pub fn budget(&self) -> u32
        ensures { result ≡ self.now.budget }
    {
        self.budget
    }

    /// Its reads, by slots in ascending order.
    pub fn reads(&self) -> &[Cell]
        ensures { map cell_view result.now ≡ self.now.reads }
    {
        self.reads.as_slice()
    }

    /// Its writes, by slots in ascending order.
    pub fn writes(&self) -> &[Cell]
        ensures { map cell_view result.now ≡ self.now.writes }
    {
        self.writes.as_slice()
    }

    /// How it ended.
    pub fn outcome(&self) -> Outcome
        ensures { result ≡ self.now.outcome }
    {
        self.outcome
    }

    /// The machine that made it. The result is the same with either.
    pub fn machine(&self) -> Machine {
        self.machine
    }
}
