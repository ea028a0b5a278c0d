//! Values between a core and its records.

ghost use Rattle.std.specs.Prelude.{◌≡◌, ◌≤◌, length, map, vec_capacity};
ghost use Rattle.durable_core.specs.Recorded.{all_renumbered, recorded, recorded_kind, renumbered};

use st_types::{Kind, Value};

/// The type as a record knows it: of an enumerated one, only how many names it has.
fn recorded_kind(kind: Kind) -> Kind
    ensures { result ≡ recorded_kind kind }
{
    match kind {
        Kind::Enumerated { names, .. } => Kind::Enumerated { names, number: 0 },
        _ => kind,
    }
}

/// The value as a record knows it.
#[tactic(auto, using(crate::proofs::RecordedLemmas::in_record))]
fn recorded(value: Value) -> Value
    ensures { result ≡ recorded value }
{
    match Value::new(recorded_kind(value.kind()), value.number()) {
        Ok(known) => known,
        Err(_) => unreachable!(),
    }
}

/// Makes each value the one that a record knows.
pub(crate) fn record_all(values: &mut Vec<Value>)
    ensures items { values.new.items ≡ map recorded values.old.items }
    ensures capacity { vec_capacity values.old ≤ vec_capacity values.new }
{
    for i in 0..values.len() {
        values[i] = recorded(values[i]);
    }
}

/// The value with the number of another one, if its type holds that number.
fn renumbered(value: Value, other: Value) -> Value
    ensures { result ≡ renumbered value other }
{
    match Value::new(value.kind(), other.number()) {
        Ok(new) => new,
        Err(_) => value,
    }
}

/// Gives each value the number of the one in its place among the others, if its type holds that number.
pub(crate) fn take_numbers(values: &mut Vec<Value>, others: &[Value])
    requires sized { length others.now ≡ length values.old.items }
    ensures items { values.new.items ≡ all_renumbered values.old.items others.now }
    ensures capacity { vec_capacity values.old ≤ vec_capacity values.new }
{
    for i in 0..values.len() {
        values[i] = renumbered(values[i], others[i]);
    }
}
