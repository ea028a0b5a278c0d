//! How the program ends.

ghost use Rattle.std.specs.Prelude.{◌≡◌};

use source_run::Fault;
use thiserror::Error;

/// The exit status if the words are refused, or the job isn't begun.
const REFUSED: u8 = 1;

/// The exit status if the standard output can't be written.
const OUTPUT_FAILED: u8 = 5;

/// Why a job isn't begun.
#[derive(Clone, Copy, Debug, PartialEq, Eq, Error)]
pub enum Declined {
    /// The retain file is, by another name, the source, the plant, the trace or a standard stream.
    #[error("error: the retain file is the source, the plant, the trace or a standard stream")]
    SharedStore,
    /// The file for the picture is, by another name, the source, the plant or the trace.
    #[error("error: the picture is the source, the plant or the trace")]
    SharedPicture,
    /// A trace of a run has no rows, and needs its plant.
    #[error("error: a trace of a run needs its plant: --plant F")]
    NoPlant,
    /// Segments have their rows, and need no plant.
    #[error("error: segments have their rows: leave out --plant")]
    NeedlessPlant,
    /// The folder for the trace can't be made.
    #[error("error: the folder for the trace can't be made")]
    NoFolder,
    /// The file for the picture can't be written.
    #[error("error: the picture can't be written")]
    NoPicture,
    /// A path names no variable of the source.
    #[error("error: the source has no variable with this path")]
    NoVariable,
    /// No code is explained under that name.
    #[error("error: there is no such code")]
    NoCode,
}

/// How the program ends.
#[derive(Clone, Copy, Debug, PartialEq, Eq)]
pub enum Ending {
    /// The job is done, and its report is on the standard output, or, of a live job, on the standard error.
    Done,
    /// The help that was asked for is on the standard output.
    Helped,
    /// The words are refused.
    Misworded,
    /// The job isn't begun.
    Declined(Declined),
    /// A fault ended the job.
    Fault(Fault),
    /// The standard output takes no more.
    OutputFailed,
}

impl Ending {
    ghost use Rattle.plant_main.specs.Statuses.{ending_status};

    /// The exit status: 0 done or helped, 1 for words that are refused and a job that isn't begun, that of a fault, and 5 if
    /// the standard output takes no more.
    pub fn status(self) -> u8
        ensures { result ≡ ending_status self }
    {
        match self {
            Ending::Done | Ending::Helped => 0,
            Ending::Misworded | Ending::Declined(_) => REFUSED,
            Ending::Fault(fault) => fault.status(),
            Ending::OutputFailed => OUTPUT_FAILED,
        }
    }
}
