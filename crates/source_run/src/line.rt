//! The line that reports a fault.

ghost use Rattle.std.specs.Prelude.{◌≡◌, OnOk};
ghost use Rattle.std.specs.Io.KnownBytes.{Appends};
ghost use Rattle.source_run.specs.Lines.{fault_line};

use crate::causes::{code_of, place_of};
use crate::fault::Fault;
use std::io;
use std::io::Write;

/// Writes the line of a fault: `fault CODE`, or `fault CODE at PLACE` if a place in the source is reported, and LF.
pub fn write_fault<W: Write>(out: &mut W, fault: Fault) -> io::Result<()>
    ensures { OnOk result (Appends (W.contents out.old) (W.contents out.new) (fault_line fault)) }
{
    let code = code_of(fault).text();
    match place_of(fault) {
        Some(place) => writeln!(out, "fault {code} at {place}"),
        None => writeln!(out, "fault {code}"),
    }
}
