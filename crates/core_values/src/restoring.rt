//! The values of variables after a restart.

ghost use Rattle.std.specs.Prelude.{◌≡◌, length, if◌then◌else◌};
ghost use Rattle.core_values.specs.Restored.{head_or, tail_of, restored};

use st_meaning::PlanVariable;
use st_types::Value;

/// The value with which a variable starts, if these values are left for it and the retained variables after it.
fn value_of(variable: &PlanVariable, kept: &[Value]) -> Value
    ensures { result
        ≡ (if variable.now.retained then head_or variable.now.initial kept.now else variable.now.initial) }
{
    match kept.first() {
        Some(value) if variable.retained => *value,
        _ => variable.initial,
    }
}

/// The values that are left after a variable.
fn left_after<'a>(variable: &PlanVariable, kept: &'a [Value]) -> &'a [Value]
    ensures { result.now ≡ (if variable.now.retained then tail_of kept.now else kept.now) }
{
    match kept {
        [_, others @ ..] if variable.retained => others,
        _ => kept,
    }
}

/// Gives each variable its initial value, except that the retained ones get these, in order.
pub fn restore(values: &mut Vec<Value>, variables: &[PlanVariable], kept: &[Value])
    requires sized { length values.old.items ≡ length variables.now }
    ensures { values.new.items ≡ restored variables.now kept.now }
{
    let mut rest = kept;
    for i in 0..variables.len() {
        values[i] = value_of(&variables[i], rest);
        rest = left_after(&variables[i], rest);
    }
}
