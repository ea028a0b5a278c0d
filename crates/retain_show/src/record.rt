//! Records.

ghost use Rattle.std.specs.Prelude.{◌≡◌, OnOk, IfOk, IfErr};
ghost use Rattle.std.specs.Io.KnownBytes.{Appends};
ghost use Rattle.retain_show.specs.Shown.{generation_shown, moment_shown, record_shown};

use crate::lines::write_lines;
use retain_store::{Record, StoreFault};
use std::alloc::Global;
use std::io;
use std::io::Write;

/// Writes the number of a record.
pub(crate) fn write_generation<W: Write>(out: &mut W, generation: u64) -> io::Result<()>
    ensures { OnOk result (Appends (W.contents out.old) (W.contents out.new) (generation_shown generation)) }
{
    write!(out, "generation {generation}\n")
}

/// Writes the moment of the last row.
pub(crate) fn write_moment<W: Write>(out: &mut W, moment: Option<u64>) -> io::Result<()>
    ensures { OnOk result (Appends (W.contents out.old) (W.contents out.new) (moment_shown moment)) }
{
    match moment {
        Some(moment) => write!(out, "moment {moment}ms\n"),
        None => write!(out, "moment none\n"),
    }
}

/// Writes the generation of a record, its moment, and a line for each value.
fn write_record<W: Write>(
    alloc: Global,
    out: &mut W,
    generation: u64,
    last: &Record,
) -> io::Result<()>
    ensures { OnOk result
        (Appends (W.contents out.old) (W.contents out.new) (record_shown generation last.now)) }
{
    write_generation(out, generation)?;
    write_moment(out, last.moment())?;
    write_lines(alloc, out, last.layout(), last.values())
}

/// The generation of a record, its moment, and a line for each value, as a text; S5 if an allocation fails.
pub(crate) fn record_text(
    alloc: Global,
    generation: u64,
    last: &Record,
) -> Result<Vec<u8>, StoreFault>
    ensures told { IfOk result (λ text. text.items ≡ record_shown generation last.now) }
    ensures memory { IfErr result (λ fault. fault ≡ StoreFault.NoMemory) }
{
    let mut text = Vec::new(alloc);
    match write_record(alloc, &mut text, generation, last) {
        Ok(()) => Ok(text),
        Err(_) => Err(StoreFault::NoMemory),
    }
}

/// A text of these bytes; S5 if an allocation fails.
pub(crate) fn text_of(alloc: Global, bytes: &[u8]) -> Result<Vec<u8>, StoreFault>
    ensures told { IfOk result (λ text. text.items ≡ bytes.now) }
    ensures memory { IfErr result (λ fault. fault ≡ StoreFault.NoMemory) }
{
    match Vec::from_slice(alloc, bytes) {
        Ok(text) => Ok(text),
        Err(_) => Err(StoreFault::NoMemory),
    }
}
