//! The entries of the log.

ghost use Rattle.std.specs.Prelude.{◌≡◌, IfOk, ◌↔◌, IsTrue};
ghost use Rattle.st_types.specs.Rows.{Latch};

use crate::value::Value;
use std::marker::Model;

/// A latched moment with the values of the plan's inputs, in declaration order. Contracts see these two.
pub struct Row {
    moment: u64,
    image: Vec<Value>,
}

impl Drop for Row {
    fn drop(self) {
        let Self {
            moment: _,
            image: _,
        } = self;
    }
}

impl Model for Row {
    ghost use Rattle.st_types.specs.Rows.{Latch};

    ghost Value = { Latch };

    ghost view = { λ r. record { moment = r.moment; image = r.image.items } };
}

impl Row {
    /// A row at a moment in milliseconds.
    pub fn new(moment: u64, image: Vec<Value>) -> Row
        ensures { result ≡ record { moment = moment; image = image.items } }
    {
        Row { moment, image }
    }

    /// Its moment in milliseconds.
    pub fn moment(&self) -> u64
        ensures { result ≡ self.now.moment }
    {
        self.moment
    }

    /// The values of the inputs.
    pub fn image(&self) -> &[Value]
        ensures { result.now ≡ self.now.image }
    {
        self.image.as_slice()
    }
}

/// A program's instance and the row that made it due.
#[derive(Clone, Copy, Debug, PartialEq, Eq)]
pub struct Activation {
    /// The program's number in declaration order, from 0.
    pub program: usize,
    /// The row's number in the life's log, from 0.
    pub row: u64,
}

/// An entry of the log.
pub enum Entry {
    /// A row was latched.
    Row(Row),
    /// An activation's execution was committed.
    Done(Activation),
}

impl Drop for Entry {
    fn drop(self) {
        match self {
            Self::Row(_) | Self::Done(_) => {}
        }
    }
}

impl Activation {
    /// Whether the two are one activation.
    pub fn is(self, other: Activation) -> bool
        ensures { IsTrue result ↔ (self ≡ other) }
    {
        self.program == other.program && self.row == other.row
    }
}
