//! Plants, row by row.

ghost use Rattle.std.specs.Prelude.{◌≡◌, ◌≤◌, ◌<◌, ◌++◌, ◌∷◌, [], ◌⊎◌, true, length, List, MatchBool};
ghost use Rattle.std.specs.Prelude.{OnOk, OnErr, IfOk, IfErr, IsErrOf, IfSome};
ghost use Rattle.csv.specs.Records.{fields_of};
ghost use Rattle.st_types.specs.Rows.{Latch};
ghost use Rattle.image.specs.Plants.{AreRowsOf, IsLater, IsNotLater, IsPlant, IsRowOf, spelled};
ghost use Rattle.csv.specs.Reading.{error_kind, stops_reader};
ghost use Rattle.image.specs.Faults.{HasNoHeader, HasNoRise, HasTooManyRows, HasWrongField, IsNoRow};
ghost use Rattle.image.specs.ReadFaults.{fault_of};
ghost use Rattle.image.specs.Records.{OfRecords};

use crate::header::is_header;
use crate::plant_error::PlantError;
use crate::row::row_of;
use csv::{ByteRecord, ReaderBuilder};
use plan::Plan;
use st_meaning::PlanInput;
use st_types::Row;
use st_types::limits::MAX_ROWS;
use std::alloc::Global;
use std::io;
use std::io::Read;

/// Whether the moment is later than that of the last row, if there is one.
fn is_later(rows: &[Row], moment: u64) -> bool
    ensures { MatchBool result (IsLater rows.now moment) (IsNotLater rows.now moment) }
{
    match rows.last() {
        Some(last) => last.moment() < moment,
        None => true,
    }
}

/// Adds the row that the record spells.
fn add_row(
    alloc: Global,
    inputs: &[PlanInput],
    rows: &mut Vec<Row>,
    record: &ByteRecord,
) -> Result<(), PlantError>
    requires { AreRowsOf inputs.now rows.old.items }
    ensures added { OnOk result
        ((row : Latch) × (rows.new.items ≡ rows.old.items ++ row ∷ []) × (fields_of record.now ≡ spelled row)) }
    ensures rows_are { OnOk result (AreRowsOf inputs.now rows.new.items) }
    ensures field { IsErrOf result PlantError.Field → IsNoRow inputs.now (fields_of record.now) }
    ensures not_later { IsErrOf result PlantError.NotLater → (row : Latch) × IsRowOf inputs.now row
        × (fields_of record.now ≡ spelled row) × IsNotLater rows.old.items row.moment }
    ensures too_many { IsErrOf result PlantError.TooManyRows → length rows.old.items ≡ MAX_ROWS }
    ensures never { IsErrOf result PlantError.Header → ⊥ }
{
    if rows.len() >= MAX_ROWS {
        return Err(PlantError::TooManyRows);
    }
    let row = row_of(alloc, inputs, record)?;
    if !is_later(rows, row.moment()) {
        return Err(PlantError::NotLater);
    }
    rows.push(row)?;
    Ok(())
}

/// Why a read failed: I6 out of memory, the reader's too, else I5. Only the reader and memory fail it.
fn refusal(error: csv::Error) -> PlantError
    requires { stops_reader (error_kind error) ≡ true }
    ensures { result ≡ fault_of (error_kind error) }
{
    match error.kind() {
        csv::ErrorKind::Io(error) => match error.kind() {
            io::ErrorKind::OutOfMemory => PlantError::NoMemory,
            _ => PlantError::Reading,
        },
        _ => PlantError::NoMemory,
    }
}

/// The rows of a plant: a CSV text with a header. Moments are in milliseconds; each row has a value for each input of
/// the plan, in declaration order. At most 10,000 rows.
///
/// I1 to I4 come only if they apply; if several do, which one comes is not promised. I5 if the reader fails, I6 out of
/// memory, the reader's too.
pub fn read_plant<R: Read + Drop>(
    alloc: Global,
    reader: R,
    plan: &Plan,
) -> Result<Vec<Row>, PlantError>
    ensures rows { IfOk result (λ rows. AreRowsOf plan.now.inputs.items rows.items) }
    ensures plant { IfOk result (λ rows. OfRecords (R.remaining reader) (IsPlant plan.now.inputs.items rows.items)) }
    ensures header { IsErrOf result PlantError.Header
        → OfRecords (R.remaining reader) (HasNoHeader plan.now.inputs.items) }
    ensures field { IsErrOf result PlantError.Field
        → OfRecords (R.remaining reader) (HasWrongField plan.now.inputs.items) }
    ensures not_later { IsErrOf result PlantError.NotLater
        → OfRecords (R.remaining reader) (HasNoRise plan.now.inputs.items) }
    ensures too_many { IsErrOf result PlantError.TooManyRows → OfRecords (R.remaining reader) HasTooManyRows }
{
    let mut records = ReaderBuilder::new()
        .has_headers(false)
        .flexible(true)
        .from_reader(alloc, reader)
        .into_byte_records();
    let header = match records.next() {
        Some(Ok(header)) => header,
        Some(Err(e)) => {
            drop(records);
            return Err(refusal(e));
        }
        None => {
            drop(records);
            return Err(PlantError::Header);
        }
    };
    if !is_header(plan.inputs(), &header) {
        drop(records);
        return Err(PlantError::Header);
    }
    let mut rows = Vec::new(alloc);
    for record in records {
        match record {
            Ok(record) => add_row(alloc, plan.inputs(), &mut rows, &record)?,
            Err(e) => return Err(refusal(e)),
        }
    }
    Ok(rows)
}
