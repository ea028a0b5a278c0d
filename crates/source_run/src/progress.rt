//! The progress of a run, and the machines that made its executions.

use crate::job::AskedMachine;
use durable_core::Answer;
use plc_threads::{Extent, Gate, Machine};
use st_types::Activation;
use std::sync::atomic::{AtomicU64, Ordering};

/// The progress of a run is reported about a hundred times.
const PARTS: u64 = 100;

/// Lets every worker pass, reports on a terminal how many rows are done, and counts the runs of each machine.
#[derive(Drop)]
pub struct Progress<'a, R: Eprint> {
    rt: &'a R,
    /// How many rows the run has.
    rows: u64,
    is_reported: bool,
    /// The machine that is asked for.
    asked: AskedMachine,
    /// How many runs went by quick code.
    quick: AtomicU64,
    /// How many went by the machine on values.
    values: AtomicU64,
}

impl<'a, R: Eprint> Progress<'a, R> {
    /// The progress of a run over `rows` rows, by this machine; reported if the standard error is a terminal.
    pub fn new(rt: &'a R, rows: usize, asked: AskedMachine, is_terminal: bool) -> Progress<'a, R> {
        Progress {
            rt,
            rows: rows as u64,
            is_reported: is_terminal,
            asked,
            quick: AtomicU64::new(0),
            values: AtomicU64::new(0),
        }
    }

    /// Whether it is reported that `done` rows are done.
    fn is_reported_at(&self, done: u64) -> bool {
        self.is_reported && (done == self.rows || done % (self.rows / PARTS).max(1) == 0)
    }

    /// Reports how many runs each machine made. An execution that is taken, run and committed in one step isn't counted.
    pub fn report_machines(&self) {
        let quick = self.quick.load(Ordering::SeqCst);
        let values = self.values.load(Ordering::SeqCst);
        let _ = eprintln!(self.rt; "program runs: quick {quick}, values {values}");
    }

    /// Erases the progress reported so far.
    pub fn clear(&self) {
        if self.is_reported {
            let _ = eprint!(self.rt; "\r\x1b[K");
        }
    }
}

impl<R: Eprint> Gate for Progress<'_, R> {
    fn extent(&self) -> Extent {
        match self.asked {
            AskedMachine::Quick => Extent::Named,
            AskedMachine::Values => Extent::Whole,
        }
    }

    fn between(&self, _resource: usize, _activation: Activation, machine: Machine) {
        match machine {
            Machine::Quick => self.quick.fetch_add(1, Ordering::SeqCst),
            Machine::Values => self.values.fetch_add(1, Ordering::SeqCst),
        };
    }

    fn answered(&self, _resource: usize, activation: Activation, _answer: Answer) {
        let done = activation.row.saturating_add(1);
        if self.is_reported_at(done) {
            let _ = eprint!(self.rt; "\r{done} of {} rows", self.rows);
        }
    }
}
