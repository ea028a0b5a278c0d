//! Where a segment ends and the next one begins.

ghost use Rattle.std.specs.Prelude.{◌≡◌, ◌++◌, IfOk, IfSome, map, option_map};
ghost use Rattle.trace_segments.specs.Heads.{resting};
ghost use Rattle.trace_segments.specs.Positions.{checkpoint_at};
ghost use Rattle.trace_segments.specs.Segments.{IsResting, head_text};

use crate::head::{Head, push_head};
use crate::position::Position;
use crate::progress::Progress;
use st_types::{Row, Value};
use std::alloc::{AllocError, Global};
use trace::ReplayError;

/// The overruns of programs, none of which waits; none if one waits. The error is out of memory.
fn overruns_of(alloc: Global, programs: &[Progress]) -> Result<Option<Vec<u64>>, AllocError>
    ensures { IfOk result (λ found. IfSome found (λ ns. programs.now ≡ map resting ns.items)) }
{
    let mut overruns = Vec::new(alloc);
    for program in programs {
        match program.number() {
            Some(_) => return Ok(None),
            None => overruns.push(program.overruns())?,
        }
    }
    Ok(Some(overruns))
}

/// The moment and the inputs of a row.
fn parts(row: &Option<Row>) -> Option<(u64, &[Value])>
    ensures { option_map (λ r. record { moment = r.0; image = r.1.now }) result ≡ row.now }
{
    match row {
        Some(row) => Some((row.moment(), row.image())),
        None => None,
    }
}

impl Position {
    /// The head of the segment of this number that begins here. V1 if something waits, V5 out of memory.
    pub fn head(&self, alloc: Global, number: u64) -> Result<Vec<u8>, ReplayError>
        ensures resting { IfOk result (λ text. IsResting (checkpoint_at self.now)) }
        ensures head { IfOk result (λ text. text.items
            ≡ head_text self.now.plan number self.now.before (checkpoint_at self.now)) }
    {
        let overruns = match overruns_of(alloc, &self.programs) {
            Ok(Some(overruns)) => overruns,
            Ok(None) => return Err(ReplayError::Form),
            Err(_) => return Err(ReplayError::NoMemory),
        };
        let head = Head {
            rows: self.rows,
            first: self.first,
            last_row: parts(&self.last_row),
            samples: &self.samples,
            overruns: &overruns,
            values: &self.values,
        };
        let mut text = Vec::new(alloc);
        match push_head(&mut text, &self.plan, number, self.before, &head) {
            Ok(()) => Ok(text),
            Err(_) => Err(ReplayError::NoMemory),
        }
    }
}
