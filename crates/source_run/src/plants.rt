//! Plants.

ghost use Rattle.std.specs.Prelude.{◌≡◌, IfOk, IfErr};
ghost use Rattle.image.specs.declared.plant_error.PlantError.{PlantError};
ghost use Rattle.image.specs.Plants.{AreRowsOf};

use crate::fault::Fault;
use crate::files::Files;
use image::{PlantError, read_plant};
use plan::Plan;
use st_types::Row;
use std::alloc::Global;
use std::io;

/// Why a plant can't be opened: I6 out of memory, else I5.
fn unopened(error: &io::Error) -> PlantError {
    if error.kind() == io::ErrorKind::OutOfMemory {
        return PlantError::NoMemory;
    }
    PlantError::Reading
}

/// The rows of the plant of this name, for the inputs of a plan; I1 to I6.
pub fn read_rows<F: Files>(
    alloc: Global,
    files: &mut F,
    name: &str,
    plan: &Plan,
) -> Result<Vec<Row>, Fault>
    ensures rows { IfOk result (λ rows. AreRowsOf plan.now.inputs.items rows.items) }
    ensures refused { IfErr result (λ fault. (error : PlantError) × (fault ≡ Fault.Plant error)) }
{
    let reader = match files.read(name) {
        Ok(reader) => reader,
        Err(error) => return Err(Fault::Plant(unopened(&error))),
    };
    read_plant(alloc, reader, plan).map_err(Fault::Plant)
}
