//! The row that a line spells.

ghost use Rattle.std.specs.Prelude.{◌≡◌, ◌≢◌, ◌↔◌, ◌⊎◌, ◌<◌, ℕ, IsTrue, IfOk, IfErr, IfSome, IfNone, IsErrOf, OnOk};
ghost use Rattle.std.specs.Fmt.{decimal};
ghost use Rattle.csv.specs.Records.{fields_of};
ghost use Rattle.st_types.specs.Rows.{Latch};
ghost use Rattle.st_types.specs.declared.limits.TheConstants.{MOMENT_LIMIT};
ghost use Rattle.image.specs.Plants.{IsHeader, IsRowOf};
ghost use Rattle.live_rows.specs.RowLines.{first_field, line_fields, row_line, without_cr};

use crate::fields::{first_and_others, values_of};
use csv::ByteRecord;
use image::{PlantError, is_header};
use memchr::memchr;
use st_meaning::PlanInput;
use st_print::number;
use st_types::Row;
use std::alloc::{AllocError, Global};

/// Reads headers and rows from lines. It keeps the memory for the fields of a header.
#[derive(Drop)]
pub struct RowReader {
    fields: ByteRecord,
}

/// A line without a carriage return at its end.
pub(crate) fn without_cr(line: &[u8]) -> &[u8]
    ensures { result.now ≡ without_cr line.now }
{
    match line {
        [bytes @ .., b'\r'] => bytes,
        bytes => bytes,
    }
}

/// The moment in milliseconds that the first field of a line spells, if it does.
pub fn moment_of(line: &[u8]) -> Option<u64>
    ensures spelled { IfSome result (λ n. first_field line.now ≡ decimal n) }
    ensures limit { IfSome result (λ n. n < MOMENT_LIMIT) }
    ensures none { IfNone result ((n : ℕ) → n < MOMENT_LIMIT → first_field line.now ≢ decimal n) }
{
    let line = without_cr(line);
    match memchr(b',', line) {
        Some(end) => number::moment(&line[..end]),
        None => number::moment(line),
    }
}

impl RowReader {
    pub fn new(alloc: Global) -> RowReader {
        RowReader {
            fields: ByteRecord::new(alloc),
        }
    }

    /// Takes the fields of a line apart: what stands between its commas.
    fn split(&mut self, line: &[u8]) -> Result<(), AllocError>
        ensures { OnOk result (fields_of self.new.fields ≡ line_fields line.now) }
    {
        self.fields.clear();
        let mut rest = without_cr(line);
        while let Some(end) = memchr(b',', rest) {
            let (field, after) = rest.split_at(end);
            self.fields.push_field(field)?;
            rest = &after[1..];
        }
        self.fields.push_field(rest)
    }

    /// Whether the line is the header of a plant of these inputs: `t` and their names in declaration order, in any case. The
    /// error is out of memory.
    pub fn is_header(&mut self, inputs: &[PlanInput], line: &[u8]) -> Result<bool, AllocError>
        ensures { IfOk result (λ is. IsTrue is ↔ IsHeader inputs.now (line_fields line.now)) }
    {
        self.split(line)?;
        Ok(is_header(inputs, &self.fields))
    }

    /// The row that the line spells: its moment and its values in decimal, with commas between them. I2 if it spells none, I6
    /// out of memory. Each field is read where it stands, since copies of them would cost more than the values.
    pub fn row(&self, alloc: Global, inputs: &[PlanInput], line: &[u8]) -> Result<Row, PlantError>
        ensures spelled { IfOk result (λ row. without_cr line.now ≡ row_line row) }
        ensures fits { IfOk result (IsRowOf inputs.now) }
        ensures none { IsErrOf result PlantError.Field → (row : Latch) → IsRowOf inputs.now row
            → without_cr line.now ≢ row_line row }
        ensures only { IfErr result (λ e. (e ≡ PlantError.Field) ⊎ (e ≡ PlantError.NoMemory)) }
    {
        let (first, fields) = first_and_others(without_cr(line));
        let Some(moment) = number::moment(first) else {
            return Err(PlantError::Field);
        };
        let image = values_of(alloc, inputs, fields)?;
        Ok(Row::new(moment, image))
    }
}
