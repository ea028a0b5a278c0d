//! Starting an engine.

ghost use Rattle.std.specs.Prelude.{◌≡◌, [], None, IfOk, map, length};
ghost use Rattle.st_meaning.specs.Plans.{initial_store, initial_value};
ghost use Rattle.plan.specs.PlanViews.{plan_view};
ghost use Rattle.core_engine.specs.Steps.{first_image};
ghost use Rattle.core_values.specs.Held.{IsWide};
ghost use Rattle.core_engine.specs.Lived.{IsEngineOf, life_in};

use crate::engine::Engine;
use core_values::HeldRow;
use plan::Plan;
use ready_list::ReadyList;
use st_meaning::{PlanInput, PlanVariable};
use st_types::{Kind, Value};
use std::alloc::{AllocError, Global};
use std::sync::Arc;

/// 0, FALSE or T#0s.
fn zero(kind: Kind) -> Value
    ensures { result ≡ initial_value kind None }
{
    match Value::new(kind, 0) {
        Ok(value) => value,
        Err(_) => unreachable!(),
    }
}

/// The values that the variables start with.
pub fn initial_values(alloc: Global, variables: &[PlanVariable]) -> Result<Vec<Value>, AllocError>
    ensures { IfOk result (λ values. values.items ≡ map (λ v. v.initial) variables.now) }
{
    let mut values = Vec::new(alloc);
    for variable in variables {
        values.push(variable.initial)?;
    }
    Ok(values)
}

/// The values of the inputs before the first row.
fn first_values(alloc: Global, inputs: &[PlanInput]) -> Result<Vec<Value>, AllocError>
    ensures { IfOk result (λ values. values.items ≡ first_image inputs.now) }
{
    let mut values = Vec::new(alloc);
    for input in inputs {
        values.push(zero(input.kind))?;
    }
    Ok(values)
}

/// Places for the rows of so many programs, each with these values.
fn places(alloc: Global, programs: usize, image: &[Value]) -> Result<Vec<HeldRow>, AllocError>
    ensures number { IfOk result (λ places. length places.items ≡ programs) }
    ensures wide { IfOk result (λ places. IsWide (length image.now) places.items) }
{
    let mut places = Vec::new(alloc);
    for _ in 0..programs {
        let mut values = Vec::new(alloc);
        values.extend_from_slice(image)?;
        places.push(HeldRow::new(values))?;
    }
    Ok(places)
}

impl Engine {
    /// An engine of the plan before its first row: every variable has its initial value, and the log may have `room`
    /// entries. It makes all the memory that `latch`, `commit` and the calls that only look at it need. A life that is to go
    /// on for ever has room for 2^64 - 1.
    pub fn start(alloc: Global, plan: Arc<Plan>, room: u64) -> Result<Engine, AllocError>
        ensures lived { IfOk result (λ engine. IsEngineOf (map (λ v. v.initial) plan.value.variables.items) [] engine) }
        ensures life { IfOk result (λ engine. life_in engine (map (λ v. v.initial) plan.value.variables.items) [] ≡ record {
          plan = plan.value;
          start = initial_store (plan_view plan.value);
          before = None;
          log = [];
          room = room;
        }) }
    {
        let values = initial_values(alloc, &plan.variables)?;
        let samples = vec![in alloc; false; plan.tasks.len()]?;
        let ready = ReadyList::new(alloc, &plan)?;
        let newest = HeldRow::new(first_values(alloc, &plan.inputs)?);
        let held = places(alloc, plan.programs.len(), newest.image())?;
        Ok(Engine {
            plan,
            before: None,
            values,
            samples,
            ready,
            held,
            newest,
            rows: 0,
            last: None,
            entries: 0,
            room,
        })
    }
}
