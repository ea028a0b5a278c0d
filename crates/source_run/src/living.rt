//! The run of a plan against rows that come on the standard input.

ghost use Rattle.std.specs.Prelude.{◌≡◌, ◌≢◌, ◌↔◌, ℕ, List, [], Some, true, IfErr, IfOk, IsErrOf, IsTrue};
ghost use Rattle.image.specs.Plants.{IsHeader};
ghost use Rattle.durable_core.specs.Endless.{IsCoreOf, first_core};
ghost use Rattle.durable_core.specs.Started.{IsStarted};
ghost use Rattle.live_rows.specs.RowLines.{headed, line_fields};
ghost use Rattle.source_run.specs.LiveRuns.{EndsLived, HasHeader, HasLived, HasNoHeader, IsEarly, LivesBy};
ghost use Rattle.source_run.specs.LiveRuns.{backlog_of, endless_room, is_before_lives, moments_of};
ghost use Rattle.source_run.specs.Progress.{BeginsAs, mode_of};

use crate::fault::Fault;
use crate::files::{Files, Folder};
use crate::job::{LiveJob, Start};
use crate::layouts::{changes_by, report_changes};
use crate::live_report::{Tally, live_report};
use crate::running::mode;
use crate::segments::{Segments, TraceEnd, begin};
use core_engine::Engine;
use disk::Disk;
use durable_core::{EndlessCore, StartFault};
use image::PlantError;
use live_drive::{
    Answers, Backlog, End, Feed, FeedEnd, LineFeed, Newest, Stamps, TickFeed, outputs_of,
    read_newest, serve,
};
use live_rows::{LineEnd, LineReader, Moments, RowReader, TimedLine, bytes_begin_with_one_line};
use plan::Plan;
use retain_store::StoreFault;
use run_lock::RunFault;
use st_types::Row;
use std::alloc::{AllocError, Global};
use std::io::{Read, Write};
use std::sync::{Arc, Mutex, Wait};
use std::thread::Threads;
use std::time::Clock;
use std::{io, thread};

/// How a life ended whose rows came as lines.
#[derive(Drop)]
pub enum Lived {
    /// With its input; this is its report.
    Report(Vec<u8>),
    /// The standard output takes no more.
    OutputFailed,
}

/// Why the input can't be read: I6 out of memory, else I5.
fn unread(error: &io::Error) -> Fault
    ensures early { IsEarly result }
    ensures unbegun { (cause : StartFault) → result ≡ Fault.Start cause → ⊥ }
{
    if error.kind() == io::ErrorKind::OutOfMemory {
        return Fault::Plant(PlantError::NoMemory);
    }
    Fault::Plant(PlantError::Reading)
}

/// Whether a line that ended so is the header of a plant, after `t` if the clock gives moments.
fn is_header(
    alloc: Global,
    plan: &Plan,
    moments: Moments,
    end: Option<LineEnd>,
    line: &[u8],
) -> Result<bool, AllocError>
    ensures { IfOk result (λ is. IsTrue is
        ↔ ((end ≡ Some LineEnd.Whole) × IsHeader plan.now.inputs.items (line_fields (headed moments line.now)))) }
{
    if end != Some(LineEnd::Whole) {
        return Ok(false);
    }
    let mut timed = TimedLine::new(alloc)?;
    let header = timed.headed(moments, line)?;
    RowReader::new(alloc).is_header(plan.inputs(), header)
}

/// The lines of an input after its header; I1 if its first line is not the header of a plant.
fn lines_after_header<I: Read + Drop>(
    alloc: Global,
    input: I,
    plan: &Plan,
    job: &LiveJob<'_>,
) -> Result<LineReader<I>, Fault>
    ensures read { IfOk result (λ lines. HasHeader plan.now job.now (I.remaining input) lines.left) }
    ensures none { IsErrOf result (Fault.Plant PlantError.Header) → HasNoHeader plan.now job.now (I.remaining input) }
    ensures early { IfErr result (λ fault. is_before_lives fault ≡ true) }
    ensures unbegun { IfErr result (λ fault. (cause : StartFault) → fault ≡ Fault.Start cause → ⊥) }
{
    let mut lines = match LineReader::new(alloc, input) {
        Ok(lines) => lines,
        Err(error) => return Err(unread(&error)),
    };
    let end = match lines.next() {
        Ok(end) => end,
        Err(error) => return Err(unread(&error)),
    };
    bytes_begin_with_one_line();
    if !is_header(alloc, plan, moments(job), end, lines.line())? {
        return Err(Fault::Plant(PlantError::Header));
    }
    Ok(lines)
}

/// A life without end over this disk, as it is asked for. The values that a warm start takes over from another layout are
/// reported.
fn started<D: Disk + Drop, R: Eprint>(
    rt: &R,
    alloc: Global,
    plan: Arc<Plan>,
    asked: Start,
    disk: D,
) -> Result<EndlessCore<D>, (StartFault, D)>
    ensures life { IfOk result (λ core. IsCoreOf core.engine.values [] core) }
    ensures started { IfOk result (λ core. IsStarted (first_core core) plan.value (mode_of asked) endless_room) }
    ensures begins { IfOk result (λ core. BeginsAs asked (first_core core).state) }
{
    let mut disk = disk;
    let changes = match changes_by(alloc, &plan, asked, &mut disk) {
        Ok(changes) => changes,
        Err(fault) => return Err((StartFault::Store(fault), disk)),
    };
    let core = EndlessCore::start(alloc, plan, disk, mode(asked), u64::MAX)?;
    if let Some(changes) = changes {
        report_changes(rt, &changes);
    }
    Ok(core)
}

/// A life over the retain file of a job; S3 if it can't be opened.
fn start<F: Files, R: Eprint>(
    rt: &R,
    alloc: Global,
    files: &mut F,
    plan: Arc<Plan>,
    job: &LiveJob<'_>,
) -> Result<EndlessCore<F::Disk>, Fault>
    ensures life { IfOk result (λ core. IsCoreOf core.engine.values [] core) }
    ensures started { IfOk result (λ core. IsStarted (first_core core) plan.value (mode_of job.now.start) endless_room) }
    ensures begins { IfOk result (λ core. BeginsAs job.now.start (first_core core).state) }
    ensures early { IfErr result IsEarly }
{
    let Some(disk) = files.store(job.store) else {
        return Err(Fault::Start(StartFault::Store(StoreFault::Device)));
    };
    match started(rt, alloc, plan, job.start, disk) {
        Ok(core) => Ok(core),
        Err((fault, disk)) => {
            files.back(disk);
            Err(Fault::Start(fault))
        }
    }
}

/// Which of the rows that were read together are latched, as it is asked for.
fn backlog(job: &LiveJob<'_>) -> Backlog
    ensures { result ≡ backlog_of job.now }
{
    if job.newest {
        Backlog::Newest
    } else {
        Backlog::All
    }
}

/// Where rows have their moments from, as it is asked for.
fn moments(job: &LiveJob<'_>) -> Moments
    ensures { result ≡ moments_of job.now }
{
    match job.every {
        Some(_) => Moments::Clock,
        None if job.stamp => Moments::Clock,
        None => Moments::Own,
    }
}

/// Sends the header, then serves what comes of a feed, and gives the report.
fn served<D: Disk, F: Feed, W: Write, R: Eprint + Clock, S: Folder + Drop>(
    rt: &R,
    alloc: Global,
    core: &mut EndlessCore<D>,
    feed: &mut F,
    answers: &mut Answers,
    out: &mut W,
    segments: Option<Segments<S>>,
) -> Result<Lived, Fault>
    ensures { HasLived D.tells D.left_since D.may_leave F.came F.gives F.ended result core.old feed.old
        answers.old (W.contents out.old) core.new feed.new (W.contents out.new) }
{
    match answers.send_header(out, core.plan()) {
        Ok(()) => {}
        Err(_) => return Ok(Lived::OutputFailed),
    }
    let mut tally = Tally::new(rt, feed.counts().is_some(), segments);
    let end = serve(core, alloc, feed, answers, out, &mut tally);
    tally.end_trace();
    match end {
        End::Feed(FeedEnd::Ended) => match live_report(alloc, core, &tally, feed.counts()) {
            Ok(report) => Ok(Lived::Report(report)),
            Err(_) => Err(Fault::NO_MEMORY),
        },
        End::Feed(FeedEnd::Unreadable) => Err(Fault::Plant(PlantError::Reading)),
        End::Life(refusal) => Err(Fault::Run(RunFault::Refused(refusal))),
        End::Feed(FeedEnd::NoMemory) | End::NoMemory => Err(Fault::NO_MEMORY),
        End::Output => Ok(Lived::OutputFailed),
    }
}

/// The segments of the trace of a life, if they are asked for and can be written. The error is out of memory.
fn segments<F: Files, R: Eprint>(
    rt: &R,
    alloc: Global,
    files: &mut F,
    job: &LiveJob<'_>,
    engine: &Engine,
) -> Result<Option<Segments<F::Folder>>, AllocError> {
    let Some(folder) = job.trace else {
        return Ok(None);
    };
    match begin(alloc, files, folder, engine) {
        Ok(segments) => Ok(Some(segments)),
        Err(error) => match TraceEnd::of(&error) {
            TraceEnd::NoMemory => Err(AllocError),
            why => {
                let _ = eprintln!(rt; "the trace ends: {why}");
                Ok(None)
            }
        },
    }
}

/// Starts, then serves what comes of a feed until it ends, and gives the report.
fn live_feed<F: Files, E: Feed, O: Write, R: Eprint + Clock>(
    rt: &R,
    alloc: Global,
    files: &mut F,
    plan: Arc<Plan>,
    job: &LiveJob<'_>,
    feed: &mut E,
    answers: &mut Answers,
    out: &mut O,
) -> Result<Lived, Fault>
    ensures { LivesBy F.Disk.tells F.Disk.left_since F.Disk.may_leave E.came E.gives E.ended plan.value job.now result
        feed.old answers.old (O.contents out.old) (O.contents out.new) }
{
    let mut core = start(rt, alloc, files, plan, job)?;
    let segments = match segments(rt, alloc, files, job, core.engine()) {
        Ok(segments) => segments,
        Err(_) => {
            files.back(core.stop());
            return Err(Fault::NO_MEMORY);
        }
    };
    let lived = served(rt, alloc, &mut core, feed, answers, out, segments);
    files.back(core.stop());
    lived
}

/// The row that counts before a line comes: that of a plan without inputs, which needs none.
fn first_row(alloc: Global, plan: &Plan) -> Option<Row> {
    if plan.inputs().is_empty() {
        Some(Row::new(0, Vec::new(alloc)))
    } else {
        None
    }
}

/// Starts the thread that reads the lines of an input, of which the newest counts. It isn't joined: it may wait for a line
/// when the life has ended.
fn start_reader<
    I: Read + Drop + Send + 'static,
    R: Threads + Wait + Eprint + Copy + Send + 'static,
>(
    rt: &R,
    alloc: Global,
    lines: LineReader<I>,
    plan: &Arc<Plan>,
) -> Result<Arc<Mutex<Newest>, Global>, Fault>
    ensures { IfErr result IsEarly }
{
    let newest = Arc::new(alloc, Mutex::new(Newest::new()))?;
    let theirs = Arc::try_clone(&newest)?;
    let plan = Arc::try_clone(plan)?;
    let rt = *rt;
    match thread::spawn(&rt, move || {
        read_newest(&rt, alloc, lines, &plan, &theirs)
    }) {
        Ok(_) => Ok(newest),
        Err(_) => Err(Fault::Run(RunFault::NotStarted)),
    }
}

/// Reads the header, opens the store and starts, then serves each row as it comes, as a line of the input or by the clock,
/// until the input ends, and gives the report; the first fault ends the job. A refused line is reported on the standard error,
/// and does not end it.
pub fn live_plan<
    F: Files,
    I: Read + Drop + Send + 'static,
    O: Write,
    R: Threads + Wait + Eprint + Clock + Copy + Send + 'static,
>(
    rt: &R,
    alloc: Global,
    files: &mut F,
    plan: Plan,
    job: &LiveJob<'_>,
    input: I,
    out: &mut O,
) -> Result<Lived, Fault>
    ensures { EndsLived F.Disk.tells F.Disk.left_since F.Disk.may_leave plan job.now (I.remaining input) result
        (O.contents out.old) (O.contents out.new) }
{
    let lines = lines_after_header(alloc, input, &plan, job)?;
    let mut answers = Answers::new(alloc, outputs_of(alloc, &plan)?)?;
    let Ok(plan) = Arc::new(alloc, plan) else {
        return Err(Fault::Start(StartFault::NoMemory));
    };
    match job.every {
        None => {
            let stamps = Stamps::new(rt, moments(job));
            let mut feed = LineFeed::new(alloc, lines, backlog(job), stamps)?;
            live_feed(rt, alloc, files, plan, job, &mut feed, &mut answers, out)
        }
        Some(period) => {
            let newest = start_reader(rt, alloc, lines, &plan)?;
            let mut feed = TickFeed::new(rt, newest, period, first_row(alloc, &plan));
            live_feed(rt, alloc, files, plan, job, &mut feed, &mut answers, out)
        }
    }
}
