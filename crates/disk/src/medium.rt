//! The file of a simulated disk, and which of its bytes a stop may still change.
ghost use Rattle.std.specs.Prelude.{◌≡◌, ◌≤◌, ◌<◌, ◌+◌, ◌-◌, ◌++◌, ℕ, length, take, drop, replicate, slice_index};
ghost use Rattle.std.specs.Prelude.{slice_index_or, count_by, true, false, IfOk};
ghost use Rattle.disk.specs.Medium.{all_synced, synced_len, with_write, IsLeft, IsWritten, torn_byte};

use std::alloc::{AllocError, Global};
use std::marker::Model;

/// The file is the first `len` bytes of `bytes`, whose length is the room.
pub struct Medium {
    bytes: Vec<u8>,
    /// For each byte, whether it was written since the last sync.
    touched: Vec<bool>,
    len: usize,
    synced_len: usize,
}

impl Drop for Medium {
    fn drop(self) {
        let Self {
            bytes: _,
            touched: _,
            len: _,
            synced_len: _,
        } = self;
    }
}

impl Model for Medium {
    ghost use Rattle.std.specs.Prelude.{◌-◌, length, take};
    ghost use Rattle.disk.specs.Medium.{MediumView, MediumInvariant};

    ghost Value = { MediumView };

    ghost view = { λ m. record {
      file = take m.len m.bytes.items;
      written = take m.len m.touched.items;
      appended = m.len - m.synced_len;
      room = length m.bytes.items;
    } };

    ghost invariant = { λ m. MediumInvariant m.bytes.items m.touched.items m.len m.synced_len };
}

impl Medium {
    /// This file, all of it synced.
    pub fn new(alloc: Global, file: Vec<u8>, room: usize) -> Result<Medium, AllocError>
        requires { length file.items ≤ room }
        ensures { IfOk result (λ medium. medium ≡ all_synced file.items room) }
    {
        let mut bytes = file;
        let len = bytes.len();
        bytes.resize(room, 0)?;
        let touched = vec![in alloc; false; room]?;
        Ok(Medium {
            bytes,
            touched,
            len,
            synced_len: len,
        })
    }

    /// The greatest length that the file may have.
    pub fn room(&self) -> usize
        ensures room { result ≡ self.now.room }
        // The bytes appended since the last sync count as written.
        ensures appended { (i : ℕ) → synced_len self.now ≤ i → IsWritten self.now i }
    {
        self.bytes.len()
    }

    /// The length of the file.
    pub fn len(&self) -> usize
        ensures { result ≡ length self.now.file }
    {
        self.len
    }

    /// Fills the buffer with the bytes from `at` on.
    pub fn read(&self, at: usize, buf: &mut [u8])
        requires { at + length buf.old ≤ length self.now.file }
        ensures { buf.new ≡ take (length buf.old) (drop at self.now.file) }
    {
        buf.copy_from_slice(&self.bytes[at..at + buf.len()]);
    }

    /// Writes these bytes from `at` on, with zero bytes in a gap before them.
    pub fn write(&mut self, at: usize, written: &[u8])
        requires { at + length written.now ≤ self.old.room }
        ensures { self.new ≡ with_write self.old at written.now }
    {
        let start = at.min(self.len);
        let end = at + written.len();
        put_bytes(&mut self.bytes, start, at, written);
        mark(&mut self.touched, start, end);
        self.len = self.len.max(end);
    }

    /// Settles the written bytes.
    pub fn sync(&mut self)
        ensures { self.new ≡ all_synced self.old.file self.old.room }
    {
        clear(&mut self.touched);
        self.synced_len = self.len;
    }

    /// The file after a stop that leaves these bytes, and a length as near to this one as may be.
    pub fn left(self, torn: &[u8], len: u64) -> Vec<u8>
        ensures { IsLeft self torn.now len result.items }
    {
        let size = (len.min(self.len as u64) as usize).max(self.synced_len);
        let Medium {
            mut bytes,
            touched,
            len: _,
            synced_len: _,
        } = self;
        if !torn.is_empty() {
            tear(&mut bytes, &touched, torn);
        }
        bytes.truncate(size);
        bytes
    }
}

fn put_bytes(bytes: &mut [u8], start: usize, at: usize, written: &[u8])
    requires order { start ≤ at }
    requires room { at + length written.now ≤ length bytes.old }
    ensures { bytes.new ≡ take start bytes.old ++ replicate (at - start) 0
        ++ written.now ++ drop (at + length written.now) bytes.old }
{
    bytes[start..at].fill(0);
    bytes[at..at + written.len()].copy_from_slice(written);
}

fn mark(touched: &mut [bool], start: usize, end: usize)
    requires order { start ≤ end }
    requires room { end ≤ length touched.old }
    ensures { touched.new ≡ take start touched.old ++ replicate (end - start) true ++ drop end touched.old }
{
    touched[start..end].fill(true);
}

fn clear(touched: &mut [bool])
    ensures { touched.new ≡ replicate (length touched.old) false }
{
    touched.fill(false);
}

/// Puts these bytes in turn wherever one was touched.
fn tear(bytes: &mut [u8], touched: &[bool], torn: &[u8])
    requires room { length touched.now ≡ length bytes.old }
    requires some { 0 < length torn.now }
    ensures torn { (i : ℕ) → i < length bytes.old → slice_index_or touched.now i true ≡ true
        → slice_index bytes.new i ≡ torn_byte torn.now (count_by (λ t. t) (take i touched.now)) }
    ensures kept { (i : ℕ) → slice_index_or touched.now i true ≡ false
        → slice_index bytes.new i ≡ slice_index bytes.old i }
{
    let mut count = 0;
    for i in 0..bytes.len() {
        if touched[i] {
            bytes[i] = torn[count % torn.len()];
            count += 1;
        }
    }
}
