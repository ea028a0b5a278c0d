//! Files by their names.

use disk::Disk;
use std::alloc::Global;
use std::io;
use std::io::{Read, Write};

/// A folder in which files are made.
pub trait Folder {
    type Writer: Write + Drop;

    /// A new file of the folder, to be written; an error if there is one of this name.
    fn create_new(&mut self, alloc: Global, name: &str) -> io::Result<Self::Writer>;
}

/// The files of a program.
pub trait Files {
    type Reader: Read + Drop;

    type Writer: Write + Drop;

    type Disk: Disk + Drop + Send;

    type Folder: Folder + Drop;

    /// Whether two names lead to the same file, if both are there and the system says so.
    fn is_one_file(&mut self, one: &str, other: &str) -> bool;

    /// Whether the standard error is a terminal, as far as the system says.
    fn is_terminal(&mut self) -> bool;

    /// An existing file, to be read.
    fn read(&mut self, name: &str) -> io::Result<Self::Reader>;

    /// A new file, or an old one made empty, to be written; none if it can't be.
    fn create(&mut self, name: &str) -> Option<Self::Writer>;

    /// A folder in which files are made. The error is out of memory.
    fn folder(&mut self, alloc: Global, name: &str) -> io::Result<Self::Folder>;

    /// The paths of the files in a folder whose names end in `.trace`, in the order of the names; none if it is no folder.
    fn traces(&mut self, alloc: Global, folder: &str) -> io::Result<Option<Vec<String>>>;

    /// Makes a folder unless it is there; whether it is there then.
    fn make_folder(&mut self, name: &str) -> bool;

    /// The disk over a retain file, which is created empty if it isn't there; none if it can't be opened, or another run has
    /// it.
    fn store(&mut self, name: &str) -> Option<Self::Disk>;

    /// Takes a disk back when its life has ended.
    fn back(&mut self, disk: Self::Disk);
}
