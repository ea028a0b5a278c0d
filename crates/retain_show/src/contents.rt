//! The content of a file.

ghost use Rattle.std.specs.Prelude.{◌≡◌, ◌≢◌, IfOk, IfErr};
ghost use Rattle.retain_store.specs.Opening.{RefusesFor};
ghost use Rattle.retain_store.specs.Kept.{IsLast};
ghost use Rattle.retain_store.specs.Recovered.{recovered};
ghost use Rattle.retain_show.specs.Shown.{IsAccepted, shown_text};

use crate::record::{record_text, text_of};
use disk::SimDisk;
use retain_store::{Store, StoreFault};
use std::alloc::Global;

/// Opens a copy of the file in memory.
pub(crate) fn opened(alloc: Global, file: Vec<u8>) -> Result<Store<SimDisk>, StoreFault>
    ensures found { IfOk result (λ store. store.last ≡ recovered file.items) }
    ensures last { IfOk result (λ store. IsLast store.generation store.last) }
    ensures accepted { IfOk result (λ _. IsAccepted (recovered file.items)) }
    ensures refused { IfErr result (λ fault. RefusesFor fault (recovered file.items)) }
    ensures read { IfErr result (λ fault. fault ≢ StoreFault.Device) }
{
    let Ok(disk) = SimDisk::new(alloc, file) else {
        return Err(StoreFault::NoMemory);
    };
    match Store::open(alloc, disk, 0) {
        Ok(store) => Ok(store),
        Err((fault, _)) => Err(fault),
    }
}

/// The content of a retain file, as a text: `no record`; or the generation of the last record, the moment of its last
/// row in milliseconds, and a line `PATH TYPE = VALUE` for each RETAIN variable, in order.
///
/// S1 if the file is too long, S2 if it is damaged, S5 if an allocation fails.
pub fn shown(alloc: Global, file: Vec<u8>) -> Result<Vec<u8>, StoreFault>
    ensures told { IfOk result (λ text. text.items ≡ shown_text (recovered file.items)) }
    ensures accepted { IfOk result (λ _. IsAccepted (recovered file.items)) }
    ensures refused { IfErr result (λ fault. RefusesFor fault (recovered file.items)) }
    ensures read { IfErr result (λ fault. fault ≢ StoreFault.Device) }
{
    let store = opened(alloc, file)?;
    match store.last() {
        Some(record) => record_text(alloc, store.generation(), record),
        None => text_of(alloc, b"no record\n"),
    }
}
