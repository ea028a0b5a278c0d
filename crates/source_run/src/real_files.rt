//! The files of the system.

use crate::files::{Files, Folder};
use disk::FileDisk;
use std::alloc::Global;
use std::fs::{File, Metadata, OpenOptions, create_dir_all, read_dir};
use std::io;
use std::os::unix::fs::MetadataExt;

/// Whether both are the same file of the same device.
fn is_same(one: &Metadata, other: &Metadata) -> bool {
    one.dev() == other.dev() && one.ino() == other.ino()
}

/// The standard error as a file.
const STANDARD_ERROR: &str = "/dev/stderr";

/// The bits of a mode that give the kind of a file; and the kind of a character device.
const KIND: u32 = 0o170000;

const CHARACTER_DEVICE: u32 = 0o020000;

/// Whether it is a character device whose major number Linux gives to terminals.
fn is_terminal(file: &Metadata) -> bool {
    let major = (file.rdev() >> 8) & 0xfff;
    file.mode() & KIND == CHARACTER_DEVICE && matches!(major, 4 | 5 | 136..=143)
}

/// A folder of the system.
pub struct RealFolder<R: std::rt::Files<File = File> + Copy> {
    rt: R,
    name: String,
}

impl<R: std::rt::Files<File = File> + Copy> Drop for RealFolder<R> {
    fn drop(self) {
        let Self { rt: _, name: _ } = self;
    }
}

impl<R: std::rt::Files<File = File> + Copy> Folder for RealFolder<R> {
    type Writer = File;

    fn create_new(&mut self, alloc: Global, name: &str) -> io::Result<File> {
        let folder = &self.name;
        let path = format!(in alloc; "{folder}/{name}")?;
        OpenOptions::new()
            .write(true)
            .create_new(true)
            .open(&self.rt, &path)
    }
}

/// The files of the system. A retain file is locked as long as its disk is there.
pub struct RealFiles<'a, R: std::rt::Files<File = File> + Copy> {
    rt: &'a R,
}

impl<'a, R: std::rt::Files<File = File> + Copy> RealFiles<'a, R> {
    pub fn new(rt: &'a R) -> RealFiles<'a, R> {
        RealFiles { rt }
    }
}

impl<R: std::rt::Files<File = File> + Copy> Drop for RealFiles<'_, R> {
    fn drop(self) {
        let Self { rt: _ } = self;
    }
}

impl<R: std::rt::Files<File = File> + Copy> Files for RealFiles<'_, R> {
    type Reader = File;

    type Writer = File;

    type Disk = FileDisk<File>;

    type Folder = RealFolder<R>;

    fn is_one_file(&mut self, one: &str, other: &str) -> bool {
        match (self.rt.metadata(one), self.rt.metadata(other)) {
            (Ok(one), Ok(other)) => is_same(&one, &other),
            _ => false,
        }
    }

    fn is_terminal(&mut self) -> bool {
        match self.rt.metadata(STANDARD_ERROR) {
            Ok(file) => is_terminal(&file),
            Err(_) => false,
        }
    }

    fn read(&mut self, name: &str) -> io::Result<File> {
        File::open(self.rt, name)
    }

    fn create(&mut self, name: &str) -> Option<File> {
        File::create(self.rt, name).ok()
    }

    fn folder(&mut self, alloc: Global, name: &str) -> io::Result<RealFolder<R>> {
        Ok(RealFolder {
            rt: *self.rt,
            name: String::from_str(alloc, name)?,
        })
    }

    fn traces(&mut self, alloc: Global, folder: &str) -> io::Result<Option<Vec<String>>> {
        match self.rt.metadata(folder) {
            Ok(found) if found.is_dir() => {}
            _ => return Ok(None),
        }
        let mut names = Vec::new(alloc);
        for entry in read_dir(&(self.rt, alloc), folder)? {
            let entry = match entry {
                Ok(entry) => entry,
                // a name that isn't UTF-8 is no segment's
                Err(error) if error.kind() == io::ErrorKind::InvalidFilename => continue,
                Err(error) => return Err(error),
            };
            let name = entry.path();
            if name.as_str().ends_with(".trace") {
                names.push(String::from_str(alloc, name.as_str())?)?;
            }
        }
        names.sort()?;
        Ok(Some(names))
    }

    fn make_folder(&mut self, name: &str) -> bool {
        create_dir_all(self.rt, name).is_ok()
    }

    fn store(&mut self, name: &str) -> Option<FileDisk<File>> {
        let file = OpenOptions::new()
            .read(true)
            .write(true)
            .create(true)
            .open(self.rt, name)
            .ok()?;

        // The system releases the lock when the file is closed, also if the process was killed.
        file.try_lock().ok()?;
        Some(FileDisk::new(file))
    }

    fn back(&mut self, _disk: FileDisk<File>) {}
}
