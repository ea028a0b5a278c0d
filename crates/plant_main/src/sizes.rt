//! The sizes of a plan.

ghost use Rattle.std.specs.Prelude.{◌≡◌, IfOk, OnOk};
ghost use Rattle.std.specs.Io.KnownBytes.{Appends};
ghost use Rattle.plant_main.specs.Sizes.{sizes_text};

use plan::Plan;
use std::alloc::{AllocError, Global};
use std::io;
use std::io::Write;

/// Writes how many resources, tasks, programs, variables and retained variables a plan has, a line each.
fn write_sizes<W: Write>(out: &mut W, plan: &Plan) -> io::Result<()>
    ensures spelled { OnOk result (Appends (W.contents out.old) (W.contents out.new) (sizes_text plan.now)) }
{
    writeln!(out, "resources {}", plan.resources())?;
    writeln!(out, "tasks {}", plan.tasks())?;
    writeln!(out, "programs {}", plan.programs())?;
    writeln!(out, "slots {}", plan.slots())?;
    writeln!(out, "retained {}", plan.retained())
}

/// The sizes of a plan as they are printed; the only error is out of memory.
pub fn sizes_of(alloc: Global, plan: &Plan) -> Result<Vec<u8>, AllocError>
    ensures spelled { IfOk result (λ text. text.items ≡ sizes_text plan.now) }
{
    let mut sizes = Vec::new(alloc);
    match write_sizes(&mut sizes, plan) {
        Ok(()) => Ok(sizes),
        Err(_) => Err(AllocError),
    }
}
