//! The instances of programs with their codes.

ghost use Rattle.std.specs.Prelude.{◌≡◌, IfOk, map};
ghost use Rattle.slot_code.specs.Codes.{code_view};
ghost use Rattle.config.specs.Programs.{instance_view, instances_from};

use crate::places::Place;
use plan::ProgramInstance;
use slot_code::Code;
use std::alloc::{AllocError, Global};
use std::sync::Arc;

/// The instance of a program at its place.
fn program_at(
    alloc: Global,
    place: &Place,
    number: usize,
    code: Code,
) -> Result<ProgramInstance, AllocError>
    ensures { IfOk result (λ p. instance_view p ≡ record { place = place.now; number = number; code = code_view code }) }
{
    Ok(ProgramInstance {
        resource: place.resource,
        task: place.task,
        owner: place.owner.copied(alloc)?,
        number,
        code: Arc::new(alloc, code)?,
    })
}

/// The instances at these places with their codes, in order.
pub fn programs_at(
    alloc: Global,
    places: &[Place],
    codes: Vec<Code>,
) -> Result<Vec<ProgramInstance>, AllocError>
    ensures { IfOk result
        (λ ps. map instance_view ps.items ≡ instances_from 0 places.now (map code_view codes.items)) }
{
    let mut programs = Vec::new(alloc);
    for code in codes {
        if let Some(place) = places.get(programs.len()) {
            let program = program_at(alloc, place, programs.len(), code)?;
            programs.push(program)?;
        }
    }
    Ok(programs)
}
