//! A disk that is a real file. It states nothing, since no contract can say what a file holds.
ghost use Rattle.std.specs.Prelude.{◌≡◌, ◌+◌, ◌%◌, ◌^◌, IfOk, MatchResult, OnOk, OnErr};

use crate::disk::{Disk, DiskError};
use std::fs::{OpenFile, OpenOptions};
use std::io;
use std::marker::Model;
use std::os::unix::fs::FileExt;
use std::rt::Files;

/// A disk over a real file, with positioned reads and writes. Whether the file keeps the rules of a disk is for the user to
/// know, so this disk states none of them and promises no success. A contract sees it as the number of its failures.
pub struct FileDisk<F: FileExt + OpenFile + Drop> {
    file: F,
    failures: u64,
}

impl<F: FileExt + OpenFile + Drop> Drop for FileDisk<F> {
    fn drop(self) {
        let Self {
            file: _,
            failures: _,
        } = self;
    }
}

impl<F: FileExt + OpenFile + Drop> Model for FileDisk<F> {
    ghost use Rattle.std.specs.Prelude.{ℕ};

    ghost Value = { ℕ };

    ghost view = { λ disk. disk.failures };
}

impl<F: FileExt + OpenFile + Drop> FileDisk<F> {
    /// A disk over this file, which has to be open for reading and writing.
    pub fn new(file: F) -> FileDisk<F>
        ensures { result ≡ 0 }
    {
        FileDisk { file, failures: 0 }
    }

    /// A disk over the file of that name, which is created empty if it doesn't exist.
    pub fn open<R: Files<File = F>>(rt: &R, name: &str) -> io::Result<FileDisk<F>>
        ensures { IfOk result (λ disk. disk ≡ 0) }
    {
        let file = OpenOptions::new()
            .read(true)
            .write(true)
            .create(true)
            .open(rt, name)?;
        Ok(FileDisk::new(file))
    }

    /// Passes an answer of the file on, and counts an error.
    fn passed_on<T: Drop>(&mut self, answer: io::Result<T>) -> Result<T, DiskError>
        ensures answer { MatchResult answer (λ value. result ≡ Ok value) (λ _. result ≡ Err DiskError.Failed) }
        ensures ok { OnOk result (self.new ≡ self.old) }
        ensures err { OnErr result (self.new ≡ (self.old + 1) % 2 ^ 64) }
    {
        match answer {
            Ok(value) => Ok(value),
            Err(_) => Err(self.failed(DiskError::Failed)),
        }
    }

    /// Counts a failure.
    fn failed(&mut self, error: DiskError) -> DiskError
        ensures count { self.new ≡ (self.old + 1) % 2 ^ 64 }
        ensures same { result ≡ error }
    {
        self.failures = self.failures.wrapping_add(1);
        error
    }
}

impl<F: FileExt + OpenFile + Drop> Disk for FileDisk<F> {
    ghost use Rattle.std.specs.Prelude.{[]};

    ghost tells = { ⊥ };

    ghost seen = { λ _. [] };

    ghost may_leave = { λ _ _. ⊥ };

    ghost left_since = { λ _ _ _. ⊥ };

    ghost failure_count = { λ disk. disk };

    ghost serves = { λ _ _. ⊥ };

    ghost seen_may_be_left = { λ _ none. none };

    ghost only_now = { λ _ _ none _. none };

    fn len(&mut self) -> Result<u64, DiskError> {
        let answer = self.file.metadata();
        let metadata = self.passed_on(answer)?;
        Ok(metadata.len())
    }

    fn read(&mut self, at: u64, buf: &mut [u8]) -> Result<(), DiskError> {
        let len = self.len()?;
        if at > len || buf.len() as u64 > len - at {
            return Err(self.failed(DiskError::OutOfRange));
        }
        let answer = self.file.read_exact_at(buf, at);
        self.passed_on(answer)
    }

    fn write_at(&mut self, at: u64, bytes: &[u8]) -> Result<(), DiskError> {
        if at.checked_add(bytes.len() as u64).is_none() {
            return Err(self.failed(DiskError::OutOfRange));
        }
        let answer = self.file.write_all_at(bytes, at);
        self.passed_on(answer)
    }

    fn sync(&mut self) -> Result<(), DiskError> {
        // The bytes and the length, which are all that a disk promises; not the times.
        let answer = self.file.sync_data();
        self.passed_on(answer)
    }

    fn failures(&self) -> u64 {
        self.failures
    }
}
