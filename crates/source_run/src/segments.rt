//! The segments of the trace of a live run, in a folder.

use crate::files::{Files, Folder};
use core_engine::Engine;
use plan::Plan;
use st_meaning::Outcome;
use st_types::{Activation, Row};
use std::alloc::Global;
use std::io;
use std::io::Write;
use thiserror::Error;
use trace_segments::Recorder;

/// Why the trace of a life ends before the life.
#[derive(Clone, Copy, Debug, PartialEq, Eq, Error)]
pub(crate) enum TraceEnd {
    #[error("V5, memory ran out")]
    NoMemory,
    #[error("V6, a segment can't be written")]
    Unwritten,
    #[error("V6, the folder has a segment of this moment or a later one")]
    NotLast,
}

impl TraceEnd {
    pub(crate) fn of(error: &io::Error) -> TraceEnd {
        match error.kind() {
            io::ErrorKind::OutOfMemory => TraceEnd::NoMemory,
            io::ErrorKind::AlreadyExists => TraceEnd::NotLast,
            _ => TraceEnd::Unwritten,
        }
    }
}

/// The name of a file without its folder.
fn base_name(name: &str) -> &str {
    match name.rsplit_once('/') {
        Some((_, base)) => base,
        None => name,
    }
}

/// The name of the last segment in a folder, without the folder; empty if there is none.
fn last_name<F: Files>(alloc: Global, files: &mut F, folder: &str) -> io::Result<String> {
    let last = match files.traces(alloc, folder)? {
        Some(names) => match names.last() {
            Some(name) => String::from_str(alloc, base_name(name))?,
            None => String::new(alloc),
        },
        None => return Err(io::Error::from(io::ErrorKind::NotFound)),
    };
    Ok(last)
}

/// Writes the segments of a life into a folder. The first failure ends the trace, and not the life.
#[derive(Drop)]
pub(crate) struct Segments<D: Folder + Drop> {
    alloc: Global,
    folder: D,
    /// The name of the last segment, without the folder; empty if there is none. Each new one is later.
    last: String,
    recorder: Recorder,
    /// The moment in milliseconds of the first row of the segment, if it has one.
    first: Option<u64>,
    /// The file of the segment, once its first row is saved.
    file: Option<D::Writer>,
}

/// The segments of a life that begins where the engine is, in a folder. The error is out of memory, or why the folder can't be
/// read.
pub(crate) fn begin<F: Files>(
    alloc: Global,
    files: &mut F,
    folder: &str,
    engine: &Engine,
) -> io::Result<Segments<F::Folder>> {
    let last = last_name(alloc, files, folder)?;
    Ok(Segments {
        alloc,
        folder: files.folder(alloc, folder)?,
        last,
        recorder: Recorder::begin(alloc, engine)?,
        first: None,
        file: None,
    })
}

impl<D: Folder + Drop> Segments<D> {
    /// Makes the file of the segment. It has the moment of the first row as its name, so that names are in the order of time,
    /// and is never one that is there, nor before one that is there.
    fn create(&mut self) -> io::Result<D::Writer> {
        let moment = self.first.unwrap_or(0);
        let name = format!(in self.alloc; "{moment:019}.trace")?;
        if name <= self.last {
            return Err(io::Error::from(io::ErrorKind::AlreadyExists));
        }
        let file = self.folder.create_new(self.alloc, &name)?;
        self.last = name;
        Ok(file)
    }

    /// Hands the lines that are made to the file.
    fn write_lines(&mut self) -> io::Result<()> {
        if self.file.is_none() {
            self.file = Some(self.create()?);
        }
        if let Some(file) = &mut self.file {
            file.write_all(self.recorder.lines())?;
            file.flush()?;
            self.recorder.take();
        }
        Ok(())
    }

    /// A row was latched.
    pub(crate) fn latched(&mut self, row: &Row) -> Result<(), TraceEnd> {
        if self.first.is_none() {
            self.first = Some(row.moment());
        }
        self.recorder
            .push_row(row)
            .map_err(|error| TraceEnd::of(&error))
    }

    /// An activation has run, and ended so.
    pub(crate) fn ran(
        &mut self,
        plan: &Plan,
        activation: Activation,
        outcome: Outcome,
    ) -> Result<(), TraceEnd> {
        self.recorder
            .push_done(plan, activation, outcome)
            .map_err(|error| TraceEnd::of(&error))
    }

    /// Ends the segment, and prepares the next.
    fn next(&mut self, engine: &Engine) -> io::Result<()> {
        self.recorder.push_end()?;
        self.write_lines()?;
        self.file = None;
        self.first = None;
        self.recorder.push_next(self.alloc, engine)
    }

    /// A row has settled and is saved: its lines are written, and the segment ends if it is full.
    pub(crate) fn saved(&mut self, engine: &Engine) -> Result<(), TraceEnd> {
        let written = if self.recorder.is_full() {
            self.next(engine)
        } else {
            self.write_lines()
        };
        written.map_err(|error| TraceEnd::of(&error))
    }

    /// The life has ended. The segment is whole then, unless a row of it isn't saved.
    pub(crate) fn end(&mut self) -> Result<(), TraceEnd> {
        if self.file.is_none() || !self.recorder.lines().is_empty() {
            return Ok(());
        }
        let written = match self.recorder.push_end() {
            Ok(()) => self.write_lines(),
            Err(error) => Err(error),
        };
        written.map_err(|error| TraceEnd::of(&error))
    }
}
