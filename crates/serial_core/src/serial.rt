//! The core: an engine, and the log of it.

use crate::history::History;
use core_engine::Engine;
use std::marker::Model;

/// A core without a disk. Contracts see it as a `State`: its plan, its start, its log and its room.
///
/// Its log is legal, and its variables are the results of the log's executions, one after another.
pub struct SerialCore {
    pub(crate) engine: Engine,
    pub(crate) history: History,
}

impl Drop for SerialCore {
    fn drop(self) {
        let Self {
            engine: _,
            history: _,
        } = self;
    }
}

impl Model for SerialCore {
    ghost use Rattle.std.specs.Coded.{codes};
    ghost use Rattle.st_types.specs.contracts.source.Source as source;
    ghost use Rattle.slot_code.specs.contracts.code.Code as code;
    ghost use Rattle.core_engine.specs.Steps.{State};

    ghost Value = { State };

    ghost coded = { Prim.hlevel (codes, source.the_row.coded, code.the_row.coded) };

    ghost use Rattle.std.specs.Prelude.{◌≤◌};
    ghost use Rattle.core_engine.specs.Lived.{life_in};
    ghost use Rattle.serial_core.specs.Kept.{SerialInvariant};

    ghost view = { λ x. life_in x.engine x.history.start x.history.log };

    ghost invariant = { λ x.
        SerialInvariant x.engine x.history.start x.history.log x.history.outcomes × (x.engine.room ≤ x.history.room) };
}
