//! Reading a command line.

ghost use Rattle.std.specs.Prelude.{◌≡◌, ◌↔◌, IsTrue, IfOk, IfNone};
ghost use Rattle.clap.specs.Words.{kind_of};
ghost use Rattle.source_run.specs.Jobs.{IsSafe};

use crate::command::command;
use crate::number::plain_number;
use crate::period::period;
use clap::error::ErrorKind;
use clap::{ArgMatches, Error};
use source_run::{
    AskedMachine, CheckJob, Job, LiveJob, Pace, PlotJob, ReplayJob, RunJob, ShowJob, Start, View,
};
use std::alloc::{AllocError, Global};

/// Why no job was read. It shows as clap's text.
pub use clap::Error as WordsError;

/// A period that isn't one.
struct WrongPeriod;

fn start(text: &str) -> Option<Start> {
    match text {
        "warm" => Some(Start::Warm),
        "cold" => Some(Start::Cold),
        _ => None,
    }
}

fn pace(text: &str) -> Option<Pace> {
    match text {
        "settle" => Some(Pace::Settle),
        "free" => Some(Pace::Free),
        _ => None,
    }
}

fn machine(text: &str) -> Option<AskedMachine> {
    match text {
        "quick" => Some(AskedMachine::Quick),
        "values" => Some(AskedMachine::Values),
        _ => None,
    }
}

fn run<'a>(given: &ArgMatches<'a>) -> Option<RunJob<'a>> {
    Some(RunJob {
        source: given.get_str("source")?,
        plant: given.get_str("plant")?,
        store: given.get_str("store")?,
        start: start(given.get_str("start")?)?,
        budget: plain_number(given.get_str("budget")?)?,
        pace: pace(given.get_str("pace")?)?,
        machine: machine(given.get_str("machine")?)?,
        trace: given.get_str("trace"),
        stats: given.get_flag("stats"),
        explain: given.get_flag("explain"),
    })
}

/// Milliseconds from row to row, if they are given.
fn every(given: &ArgMatches<'_>) -> Result<Option<u64>, WrongPeriod> {
    match given.get_str("every") {
        None => Ok(None),
        Some(text) => match period(text) {
            Some(millis) => Ok(Some(millis)),
            None => Err(WrongPeriod),
        },
    }
}

fn live<'a>(given: &ArgMatches<'a>, every: Option<u64>) -> Option<LiveJob<'a>> {
    Some(LiveJob {
        source: given.get_str("source")?,
        store: given.get_str("store")?,
        start: start(given.get_str("start")?)?,
        budget: plain_number(given.get_str("budget")?)?,
        stamp: given.get_flag("stamp"),
        newest: given.get_flag("newest"),
        every,
        trace: given.get_str("trace"),
        explain: given.get_flag("explain"),
    })
}

fn replay<'a>(given: &ArgMatches<'a>) -> Option<ReplayJob<'a>> {
    Some(ReplayJob {
        source: given.get_str("source")?,
        plant: given.get_str("plant"),
        trace: given.get_str("trace")?,
        explain: given.get_flag("explain"),
    })
}

fn check<'a>(given: &ArgMatches<'a>) -> Option<CheckJob<'a>> {
    Some(CheckJob {
        source: given.get_str("source")?,
        explain: given.get_flag("explain"),
    })
}

/// The view of a retain file: clap refuses `--both` beside `--against`.
fn view<'a>(given: &ArgMatches<'a>) -> View<'a> {
    match given.get_str("against") {
        Some(source) => View::Against(source),
        None if given.get_flag("both") => View::Both,
        None => View::Last,
    }
}

fn show<'a>(given: &ArgMatches<'a>) -> Option<ShowJob<'a>> {
    Some(ShowJob {
        store: given.get_str("store")?,
        view: view(given),
    })
}

/// A picture of these variables.
fn plot<'a>(given: &ArgMatches<'a>, paths: Vec<&'a str>) -> Option<PlotJob<'a>> {
    Some(PlotJob {
        source: given.get_str("source")?,
        plant: given.get_str("plant"),
        trace: given.get_str("trace")?,
        picture: given.get_str("out"),
        paths,
    })
}

/// The paths that are given.
fn paths<'a>(alloc: Global, given: &ArgMatches<'a>) -> Result<Vec<&'a str>, AllocError> {
    match given.get_strs("path") {
        Some(paths) => Vec::from_slice(alloc, paths),
        None => Ok(Vec::new(alloc)),
    }
}

fn chosen<'a>(alloc: Global, name: &str, given: &ArgMatches<'a>) -> Result<Option<Job<'a>>, Error> {
    let job = match name {
        "first" => Some(Job::First),
        "check" => check(given).map(Job::Check),
        "run" => run(given).map(Job::Run),
        "live" => match every(given) {
            Ok(every) => live(given, every).map(Job::Live),
            Err(WrongPeriod) => return Err(refusal(alloc, NO_PERIOD)?),
        },
        "replay" => replay(given).map(Job::Replay),
        "show" => show(given).map(Job::Show),
        "plot" => plot(given, paths(alloc, given)?).map(Job::Plot),
        "explain" => given.get_str("code").map(|code| Job::Explain { code }),
        _ => None,
    };
    Ok(job)
}

/// The error for a budget with a sign, which clap takes.
const SIGNED: &str = "invalid value for '--budget <N>': it isn't an unsigned 32-bit integer";

/// The error for a period that isn't one.
const NO_PERIOD: &str =
    "invalid value for '--every <T>': it isn't a time such as 10ms or 2s, up to 3600s";

/// The error for a retain file that is another file of the run.
const SHARED_STORE: &str =
    "invalid value for '--store <F>': it names the source, the plant or the trace";

/// The error for a retain file that is the source of a live run.
const SHARED_LIVE_STORE: &str = "invalid value for '--store <F>': it names the source";

/// The error for a picture that is a file which the plot reads.
const SHARED_PICTURE: &str =
    "invalid value for '--out <F>': it names the source, the plant or the trace";

/// The refusal of words that clap takes and `plant` does not.
fn refusal(alloc: Global, text: &str) -> Result<Error, AllocError> {
    command(alloc)?.error(ErrorKind::ValueValidation, text)
}

/// The error for a job that would write over a file which it reads.
fn wrong_file(job: &Job<'_>) -> Option<&'static str>
    ensures { IfNone result (IsSafe job.now) }
{
    match job {
        Job::Run(run) if !run.has_own_store() => Some(SHARED_STORE),
        Job::Live(live) if !live.has_own_store() => Some(SHARED_LIVE_STORE),
        Job::Plot(plot) if !plot.has_own_picture() => Some(SHARED_PICTURE),
        _ => None,
    }
}

/// A job that writes over no file which it reads.
fn safe<'a>(alloc: Global, job: Job<'a>) -> Result<Job<'a>, Error>
    ensures { IfOk result (λ job. IsSafe job) }
{
    match wrong_file(&job) {
        Some(text) => Err(refusal(alloc, text)?),
        None => Ok(job),
    }
}

/// Whether memory ran out while the words were read.
pub fn is_out_of_memory(error: &WordsError) -> bool
    ensures { IsTrue result ↔ (kind_of error.now ≡ ErrorKind.OutOfMemory) }
{
    error.kind() == ErrorKind::OutOfMemory
}

/// Reads the words, the program's name first. A refusal shows as the text for the user; one that asks for help is for
/// the standard output. A retain file that has the name of another file of the run is refused,
/// and so is a picture that has the name of a file which the plot reads.
pub fn read_words<'a>(alloc: Global, words: &'a [&'a str]) -> Result<Job<'a>, Error>
    ensures { IfOk result (λ job. IsSafe job) }
{
    let matches = command(alloc)?.try_get_matches_from(words)?;
    let job = match matches.subcommand() {
        Some((name, given)) => chosen(alloc, name, given)?,
        None => None,
    };
    match job {
        Some(job) => safe(alloc, job),
        None => Err(refusal(alloc, SIGNED)?),
    }
}
