//! The header of a plant.

ghost use Rattle.std.specs.Prelude.{◌≡◌, ◌↔◌, Some, IsTrue, map, option_map};
ghost use Rattle.std.specs.Char.{to_ascii_lowercase};
ghost use Rattle.csv.specs.Records.{field_at, fields_of};
ghost use Rattle.image.specs.Plants.{IsHeader};

use csv::ByteRecord;
use st_meaning::PlanInput;

/// Whether the field at this column is the name, in any case.
fn is_name_at(record: &ByteRecord, column: usize, name: &[u8]) -> bool
    ensures { IsTrue result ↔ (option_map (map to_ascii_lowercase) (field_at (fields_of record.now) column)
        ≡ Some (map to_ascii_lowercase name.now)) }
{
    match record.get(column) {
        Some(field) => field.eq_ignore_ascii_case(name),
        None => false,
    }
}

/// Whether the record is the header of a plant of these inputs: `t` and their names in declaration order, in any case.
pub fn is_header(inputs: &[PlanInput], record: &ByteRecord) -> bool
    ensures { IsTrue result ↔ IsHeader inputs.now (fields_of record.now) }
{
    if record.len() != inputs.len() + 1 {
        return false;
    }
    if !is_name_at(record, 0, b"t") {
        return false;
    }
    for i in 0..inputs.len() {
        if !is_name_at(record, i + 1, inputs[i].path.name().as_slice()) {
            return false;
        }
    }
    true
}
