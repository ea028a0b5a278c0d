//! Rows of a log.

ghost use Rattle.std.specs.Prelude.{◌≡◌, ◌&&◌};
ghost use Rattle.st_types.specs.Kinds.{same_kind, holds};
ghost use Rattle.st_meaning.specs.Logs.{is_later as is_later_than};
ghost use Rattle.st_meaning.specs.Plans.{fits as fits_plan, holds_each};
ghost use Rattle.plan.specs.PlanViews.{plan_view};

use plan::Plan;
use st_meaning::PlanInput;
use st_types::limits::MOMENT_LIMIT;
use st_types::{Row, Value};

/// Whether the moment is later than the last one, if there is one.
pub fn is_later(last: Option<u64>, moment: u64) -> bool
    ensures { result ≡ is_later_than last moment }
{
    match last {
        None => true,
        Some(last) => last < moment,
    }
}

/// Whether the value is of the input's type. A type holds each of its values, as `number` ensures.
fn is_of(input: &PlanInput, value: Value) -> bool
    ensures { result ≡ (same_kind input.now.kind value.kind && holds value.kind value.number) }
{
    let _held = value.number();
    input.kind.is(value.kind())
}

/// Whether there is a value of its type for each input.
fn is_image(inputs: &[PlanInput], image: &[Value]) -> bool
    ensures { result ≡ holds_each inputs.now image.now }
{
    if inputs.len() != image.len() {
        return false;
    }
    for i in 0..inputs.len() {
        if !is_of(&inputs[i], image[i]) {
            return false;
        }
    }
    true
}

/// Whether the row has the plan's inputs, and its moment is within its limit.
pub fn fits(plan: &Plan, row: &Row) -> bool
    ensures { result ≡ fits_plan (plan_view plan.now) row.now }
{
    is_image(&plan.inputs, row.image()) && row.moment() < MOMENT_LIMIT
}
