//! Both areas of a file.

ghost use Rattle.std.specs.Prelude.{◌≡◌, ◌≢◌, ◌<◌, ◌++◌, length, IfOk, IfErr, OnOk, slice_set};
ghost use Rattle.std.specs.Io.KnownBytes.{Appends};
ghost use Rattle.retain_store.specs.declared.shape.TheConstants.{FILE_BYTES};
ghost use Rattle.retain_store.specs.Opening.{RefusesFor};
ghost use Rattle.retain_store.specs.Recovered.{recovered};
ghost use Rattle.retain_show.specs.Shown.{alone_shown, areas_shown, both_shown};

use crate::contents::opened;
use crate::record::{record_text, text_of};
use retain_store::{FILE_BYTES, StoreFault};
use std::alloc::{AllocError, Global};
use std::io;
use std::io::Write;

/// Where the second area begins.
const SECOND: usize = FILE_BYTES / 2;

/// A copy of a file in which the area that begins there is closed.
fn closed_at(alloc: Global, file: &[u8], at: usize) -> Result<Vec<u8>, AllocError>
    requires { at < length file.now }
    ensures { IfOk result (λ copy. copy.items ≡ slice_set file.now at 0) }
{
    let mut copy = Vec::from_slice(alloc, file)?;
    copy[at] = 0;
    Ok(copy)
}

/// The content of an area, of a file in which the other one is closed.
fn area_of(alloc: Global, file: Vec<u8>) -> Result<Vec<u8>, StoreFault>
    requires { length file.items ≡ FILE_BYTES }
    ensures told { IfOk result (λ text. text.items ≡ alone_shown (recovered file.items)) }
    ensures memory { IfErr result (λ fault. fault ≡ StoreFault.NoMemory) }
{
    let store = match opened(alloc, file) {
        Ok(store) => store,
        Err(StoreFault::Damaged) => return text_of(alloc, b"damaged\n"),
        // A whole file in memory gives no other fault.
        Err(_) => return Err(StoreFault::NoMemory),
    };
    match store.last() {
        Some(record) => record_text(alloc, store.generation(), record),
        None => text_of(alloc, b"closed\n"),
    }
}

/// Writes both areas under their names.
fn write_both<W: Write>(out: &mut W, first: &[u8], second: &[u8]) -> io::Result<()>
    ensures { OnOk result
        (Appends (W.contents out.old) (W.contents out.new) (both_shown first.now second.now)) }
{
    out.write_all(b"area 0\n")?;
    out.write_all(first)?;
    out.write_all(b"area 1\n")?;
    out.write_all(second)
}

/// The content of both areas of a file, as a text: for each, whether it is closed or damaged, or its record as `shown`
/// writes it; `no areas` if the file is too short for them.
///
/// S1 if the file is too long, S5 if an allocation fails.
pub fn shown_areas(alloc: Global, file: &[u8]) -> Result<Vec<u8>, StoreFault>
    ensures told { IfOk result (λ text. text.items ≡ areas_shown file.now) }
    ensures refused { IfErr result (λ fault. RefusesFor fault (recovered file.now)) }
    ensures read { IfErr result (λ fault. fault ≢ StoreFault.Device) }
{
    if file.len() > FILE_BYTES {
        return Err(StoreFault::TooLong);
    }
    if file.len() < FILE_BYTES {
        return text_of(alloc, b"no areas\n");
    }
    let Ok(without_second) = closed_at(alloc, file, SECOND) else {
        return Err(StoreFault::NoMemory);
    };
    let Ok(without_first) = closed_at(alloc, file, 0) else {
        return Err(StoreFault::NoMemory);
    };
    let first = area_of(alloc, without_second)?;
    let second = area_of(alloc, without_first)?;
    let mut text = Vec::new(alloc);
    match write_both(&mut text, &first, &second) {
        Ok(()) => Ok(text),
        Err(_) => Err(StoreFault::NoMemory),
    }
}
