//! The output of the program.

ghost use Rattle.std.specs.Prelude.{◌≡◌};
ghost use Rattle.plant_main.specs.Endings.{IsPrinted, IsAboutWords};

use crate::ending::{Declined, Ending};
use crate::reading::WordsError;
use source_run::{Fault, put_text, write_fault};
use std::io;
use std::io::Write;

/// How a job ends well.
#[derive(Drop)]
pub(crate) enum End {
    /// With this text for the standard output.
    Report(Vec<u8>),
    /// The job isn't begun.
    Declined(Declined),
    /// What it says is on the standard output, and this is its report for the standard error.
    Lived(Vec<u8>),
    /// The standard output takes no more.
    OutputFailed,
}

/// Reports how a job ended: its text on the standard output, or one line or a report on the standard error. An ending holds even if its
/// line can't be written.
pub(crate) fn report_end<O: Write, E: Write>(
    end: Result<End, Fault>,
    out: &mut O,
    err: &mut E,
) -> Ending
    ensures { IsPrinted O.contents end result out.old out.new }
{
    match end {
        Ok(End::Report(report)) => match put_text(out, &report) {
            Ok(()) => Ending::Done,
            Err(_) => Ending::OutputFailed,
        },
        Ok(End::Declined(why)) => {
            let _ = writeln!(err, "{why}");
            Ending::Declined(why)
        }
        Ok(End::Lived(report)) => {
            let _ = err.write_all(&report);
            Ending::Done
        }
        Ok(End::OutputFailed) => Ending::OutputFailed,
        Err(fault) => {
            let _ = write_fault(err, fault);
            Ending::Fault(fault)
        }
    }
}

/// Puts a help text on the standard output.
fn print_help<O: Write>(out: &mut O, help: &WordsError) -> io::Result<()> {
    write!(out, "{help}")?;
    out.flush()
}

/// Reports why the words are refused, or prints the help that they ask for.
pub(crate) fn report_words<O: Write, E: Write>(
    refused: &WordsError,
    out: &mut O,
    err: &mut E,
) -> Ending
    ensures known { IsAboutWords result }
    ensures silent { result ≡ Ending.Misworded → out.new ≡ out.old }
{
    if refused.use_stderr() {
        let _ = write!(err, "{refused}");
        return Ending::Misworded;
    }
    match print_help(out, refused) {
        Ok(()) => Ending::Helped,
        Err(_) => Ending::OutputFailed,
    }
}
