//! Rows of a plant.

ghost use Rattle.std.specs.Prelude.{◌≡◌, ◌≢◌, ◌<◌, ◌⊎◌, ◌^◌, ◌∷◌, ℕ, List, true, drop, IfOk, IfErr, IsErrOf, IfSome};
ghost use Rattle.std.specs.Prelude.{IfNone, Err};
ghost use Rattle.std.specs.Fmt.{decimal};
ghost use Rattle.st_types.specs.declared.limits.TheConstants.{MOMENT_LIMIT};
ghost use Rattle.csv.specs.Records.{field_at, fields_of};
ghost use Rattle.st_types.specs.Values.{Datum};
ghost use Rattle.st_meaning.specs.Plans.{holds_each};
ghost use Rattle.st_print.specs.Numbers.{SpellsValueAt};
ghost use Rattle.image.specs.Plants.{IsRowOf, spelled, spelled_values};
ghost use Rattle.image.specs.Faults.{IsNoRow};

use crate::plant_error::PlantError;
use csv::ByteRecord;
use st_meaning::PlanInput;
use st_print::number::{moment, value};
use st_types::{Kind, Row, Value};
use std::alloc::Global;

/// The value of the type that the field at this column spells.
fn value_at(kind: Kind, record: &ByteRecord, column: usize) -> Option<Value>
    ensures spelled { IfSome result (SpellsValueAt kind (field_at (fields_of record.now) column)) }
    ensures none { IfNone result ((v : Datum) → ¬ (SpellsValueAt kind (field_at (fields_of record.now) column) v)) }
{
    match record.get(column) {
        Some(field) => value(kind, field),
        None => None,
    }
}

/// The values of the inputs that the fields after the first spell.
fn image(alloc: Global, inputs: &[PlanInput], record: &ByteRecord) -> Result<Vec<Value>, PlantError>
    ensures spelled { IfOk result (λ image. drop 1 (fields_of record.now) ≡ spelled_values image.items) }
    ensures held { IfOk result (λ image. holds_each inputs.now image.items ≡ true) }
    ensures none { IsErrOf result PlantError.Field → (first : List ℕ) (values : List Datum)
        → holds_each inputs.now values ≡ true → fields_of record.now ≢ first ∷ spelled_values values }
    ensures only { IfErr result (λ e. (e ≡ PlantError.Field) ⊎ (e ≡ PlantError.NoMemory)) }
{
    if record.len() != inputs.len() + 1 {
        return Err(PlantError::Field);
    }
    let mut image = Vec::new(alloc);
    for i in 0..inputs.len() {
        match value_at(inputs[i].kind, record, i + 1) {
            Some(value) => image.push(value)?,
            None => return Err(PlantError::Field),
        }
    }
    Ok(image)
}

/// The moment that the first field spells.
fn moment_of(record: &ByteRecord) -> Option<u64>
    ensures spelled { IfSome result (λ n. field_at (fields_of record.now) 0 ≡ Some (decimal n)) }
    ensures limit { IfSome result (λ n. n < MOMENT_LIMIT) }
    ensures none { IfNone result ((n : ℕ) → n < MOMENT_LIMIT → field_at (fields_of record.now) 0 ≢ Some (decimal n)) }
{
    match record.get(0) {
        Some(field) => moment(field),
        None => None,
    }
}

/// The row that the record spells: its moment in milliseconds, and a value for each input in declaration order. I2 if it spells
/// none, I6 out of memory.
pub fn row_of(alloc: Global, inputs: &[PlanInput], record: &ByteRecord) -> Result<Row, PlantError>
    ensures spelled { IfOk result (λ row. fields_of record.now ≡ spelled row) }
    ensures fits { IfOk result (IsRowOf inputs.now) }
    ensures none { IsErrOf result PlantError.Field → IsNoRow inputs.now (fields_of record.now) }
    ensures only { IfErr result (λ e. (e ≡ PlantError.Field) ⊎ (e ≡ PlantError.NoMemory)) }
{
    let Some(moment) = moment_of(record) else {
        return Err(PlantError::Field);
    };
    let image = image(alloc, inputs, record)?;
    Ok(Row::new(moment, image))
}
