//! The fields of a row, one after another.

ghost use Rattle.std.specs.Prelude.{◌≡◌, ◌≢◌, ◌⊎◌, ◌∷◌, List, true, IfOk, IfErr, IfSome, IfNone, IsErrOf};
ghost use Rattle.memchr.specs.Find.{IsFirstByte, is_byte};
ghost use Rattle.st_types.specs.Values.{Datum};
ghost use Rattle.st_meaning.specs.Plans.{holds_each};
ghost use Rattle.st_print.specs.Numbers.{SpellsValue};
ghost use Rattle.image.specs.Plants.{spelled_values};
ghost use Rattle.live_rows.specs.RowLines.{fields_after, fields_in};

use image::PlantError;
use st_meaning::PlanInput;
use st_print::number;
use st_types::{Kind, Value};
use std::alloc::Global;

/// The place of the first comma. Most fields have a byte or a few, so a look at each costs less than `memchr`.
fn comma_in(bytes: &[u8]) -> Option<usize>
    ensures { IsFirstByte (is_byte 44) bytes.now result }
{
    for (i, byte) in bytes.iter().enumerate() {
        if *byte == b',' {
            return Some(i);
        }
    }
    None
}

/// The first field, and what follows it: a comma and the other fields, or nothing.
pub(crate) fn first_and_others(bytes: &[u8]) -> (&[u8], &[u8])
    ensures { fields_in bytes.now ≡ result.0.now ∷ fields_after result.1.now }
{
    match comma_in(bytes) {
        Some(end) => bytes.split_at(end),
        None => (bytes, &[]),
    }
}

/// The value of the type that the field spells. Most inputs are BOOLs, whose digit says it without a number being read.
fn value_of(kind: Kind, field: &[u8]) -> Option<Value>
    ensures spelled { IfSome result (SpellsValue kind field.now) }
    ensures none { IfNone result ((v : Datum) → ¬ (SpellsValue kind field.now v)) }
{
    if matches!(kind, Kind::Bool) {
        match field {
            [b'0'] => return Some(Value::from_bool(false)),
            [b'1'] => return Some(Value::from_bool(true)),
            _ => {}
        }
    }
    number::value(kind, field)
}

/// The values of the inputs that fields spell, each of which stands after a comma. I2 if they spell none, I6 out of
/// memory. The room for all values is taken at once.
pub(crate) fn values_of(
    alloc: Global,
    inputs: &[PlanInput],
    fields: &[u8],
) -> Result<Vec<Value>, PlantError>
    ensures spelled { IfOk result (λ image. fields_after fields.now ≡ spelled_values image.items) }
    ensures held { IfOk result (λ image. holds_each inputs.now image.items ≡ true) }
    ensures none { IsErrOf result PlantError.Field → (values : List Datum) → holds_each inputs.now values ≡ true
        → fields_after fields.now ≢ spelled_values values }
    ensures only { IfErr result (λ e. (e ≡ PlantError.Field) ⊎ (e ≡ PlantError.NoMemory)) }
{
    let Ok(mut image) = Vec::with_capacity(alloc, inputs.len()) else {
        return Err(PlantError::NoMemory);
    };
    let mut rest = fields;
    for input in inputs {
        let [_, after @ ..] = rest else {
            return Err(PlantError::Field);
        };
        let (field, behind) = first_and_others(after);
        let Some(value) = value_of(input.kind, field) else {
            return Err(PlantError::Field);
        };
        image.push(value)?;
        rest = behind;
    }
    if !rest.is_empty() {
        return Err(PlantError::Field);
    }
    Ok(image)
}
