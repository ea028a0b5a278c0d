//! The engine.

ghost use Rattle.core_engine.specs.Lived.{IsEngine};

use core_values::HeldRow;
use plan::Plan;
use ready_list::ReadyList;
use st_types::Value;
use std::marker::Model;
use std::sync::Arc;

/// A core without its log. It has the variables now, the rows that activations wait with and the newest row.
///
/// There is a legal log after which these are what it has; contracts speak of each such log.
pub struct Engine {
    pub(crate) plan: Arc<Plan>,
    /// The moment that rows have to be later than, from before the first row.
    pub(crate) before: Option<u64>,
    /// The values of the variables now, by their slots.
    pub(crate) values: Vec<Value>,
    /// Room for the samples of SINGLE, one for each task.
    pub(crate) samples: Vec<bool>,
    pub(crate) ready: ReadyList,
    /// For each program the row that it waits with.
    pub(crate) held: Vec<HeldRow>,
    /// The last row; before the first each input is 0 or FALSE.
    pub(crate) newest: HeldRow,
    /// How many rows there were.
    pub(crate) rows: u64,
    /// The moment of the last row, or the one from before the first.
    pub(crate) last: Option<u64>,
    /// How many entries the log has.
    pub(crate) entries: u64,
    /// How many entries the log may have.
    pub(crate) room: u64,
}

impl Drop for Engine {
    fn drop(self) {
        let Self {
            plan: _,
            before: _,
            values: _,
            samples: _,
            ready: _,
            held: _,
            newest: _,
            rows: _,
            last: _,
            entries: _,
            room: _,
        } = self;
    }
}

impl Model for Engine {
    ghost use Rattle.std.specs.Coded.{codes};
    ghost use Rattle.st_types.specs.contracts.source.Source as source;
    ghost use Rattle.slot_code.specs.contracts.code.Code as code;
    ghost use Rattle.core_engine.specs.Lived.{EngineView};

    ghost Value = { EngineView };

    ghost coded = { Prim.hlevel (codes, source.the_row.coded, code.the_row.coded) };

    ghost use Rattle.core_engine.specs.Lived.{IsEngine};

    ghost view = { λ x. record {
      plan = x.plan.value;
      before = x.before;
      values = x.values.items;
      samples = x.samples.items;
      ready = x.ready;
      held = x.held.items;
      newest = x.newest;
      rows = x.rows;
      last = x.last;
      entries = x.entries;
      room = x.room;
    } };

    ghost invariant = { λ x. IsEngine record {
      plan = x.plan.value;
      before = x.before;
      values = x.values.items;
      samples = x.samples.items;
      ready = x.ready;
      held = x.held.items;
      newest = x.newest;
      rows = x.rows;
      last = x.last;
      entries = x.entries;
      room = x.room;
    } };
}

impl Engine {
    /// It keeps its invariant. So there is a life that it is of: what a contract says of each is never empty.
    pub fn lived(&self)
        ensures { IsEngine self.now }
    {
        let _entries = self.entries;
    }
}
