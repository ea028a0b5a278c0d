//! The memory of a core.

ghost use Rattle.std.specs.Prelude.{◌≡◌, ◌≤◌, length, vec_capacity, IfOk};
ghost use Rattle.retain_records.specs.Lines.{lines_of};
ghost use Rattle.durable_core.specs.Restart.{fresh_state, layout_text_of};
ghost use Rattle.durable_core.specs.Endless.{IsFirstEngine, first_state};

use core_engine::Engine;
use plan::Plan;
use retain_records::LineIndex;
use st_types::Value;
use std::alloc::{AllocError, Global};
use std::sync::Arc;

/// All parts of a core but its store: all the memory of its life.
#[derive(Drop)]
pub(crate) struct Parts {
    pub engine: Engine,
    /// Room for the values of a record.
    pub kept: Vec<Value>,
    /// The lines of the plan's layout text, among which the lines of a record are found.
    pub lines: LineIndex,
}

impl Parts {
    /// The parts of a core with the plan's initial values and room for so many entries of its log.
    pub fn new(alloc: Global, plan: Arc<Plan>, room: u64) -> Result<Parts, AllocError>
        ensures new { IfOk result (λ parts. IsFirstEngine parts.engine) }
        ensures life { IfOk result (λ parts. first_state parts.engine ≡ fresh_state plan.value room) }
        ensures lines { IfOk result (λ parts. parts.lines ≡ lines_of (layout_text_of plan.value)) }
        ensures kept { IfOk result (λ parts. length plan.value.variables.items ≤ vec_capacity parts.kept) }
    {
        let kept = Vec::with_capacity(alloc, plan.variables.len())?;
        let lines = LineIndex::new(alloc, plan.layout().text())?;
        let engine = Engine::start(alloc, plan, room)?;
        Ok(Parts {
            engine,
            kept,
            lines,
        })
    }
}

/// The layout text of the records of the engine's plan.
pub(crate) fn layout_text(engine: &Engine) -> &[u8]
    ensures { result.now ≡ layout_text_of engine.now.plan }
{
    engine.plan().layout().text()
}
