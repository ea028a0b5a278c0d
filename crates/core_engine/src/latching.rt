//! Latching a row.

ghost use Rattle.core_engine.specs.Steps.{Latches};
ghost use Rattle.core_engine.specs.Lived.{EachLifeGoesOn};

use crate::engine::Engine;
use crate::refusal::Refusal;
use crate::sampling::sample_all;
use core_values::{fits, hold_all, is_later};
use plan::Plan;
use st_types::Row;

impl Engine {
    /// Latches a row, and gives its number from 0. It takes no memory.
    ///
    /// K1 if the log is full, else K3 if the row is not one of the plan's, else K4 if its moment is not later.
    pub fn latch(&mut self, row: &Row) -> Result<u64, Refusal>
        ensures { EachLifeGoesOn (λ a b. Latches a row.now result b) self.old self.new }
    {
        if self.entries >= self.room {
            return Err(Refusal::Full);
        }
        let plan: &Plan = &self.plan;
        if !fits(plan, row) {
            return Err(Refusal::Foreign);
        }
        let moment = row.moment();
        if !is_later(self.last, moment) {
            return Err(Refusal::NotLater);
        }
        let number = self.rows;
        sample_all(&plan.tasks, &self.values, row.image(), &mut self.samples);
        self.ready.due(moment, &self.samples);
        hold_all(&self.ready, &mut self.held, number, row);
        self.newest.take(row);
        self.last = Some(moment);
        self.rows += 1;
        self.entries += 1;
        Ok(number)
    }
}
