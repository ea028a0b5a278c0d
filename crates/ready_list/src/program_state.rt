//! The state of each program, and how a row changes it.

ghost use Rattle.std.specs.Prelude.{◌≡◌, ◌<◌, ◌^◌, ◌==◌, None, All, length};
ghost use Rattle.st_meaning.specs.Due.{sample as sample_in, rule};
ghost use Rattle.ready_list.specs.Ready.{is_due_at, marked as marked_by, AreMarked};

use st_meaning::Schedule;

/// The state of a program.
#[derive(Clone, Copy)]
pub struct ProgramState {
    /// The row that the program waits with.
    pub waiting: Option<u64>,
    /// How often the program was due while it waited.
    pub overruns: u64,
}

/// A row that is being latched. Moments are in milliseconds; for the first row all three are its own.
#[derive(Clone, Copy)]
pub struct NewRow {
    /// How many rows are before it.
    pub number: u64,
    /// The moment of the life's first row.
    pub first: u64,
    /// The moment of the row before.
    pub last: u64,
    pub moment: u64,
}

/// A task's sample of SINGLE; FALSE if there is none.
fn sample(samples: &[bool], task: usize) -> bool
    ensures { result ≡ sample_in samples.now task }
{
    match samples.get(task) {
        Some(b) => *b,
        None => false,
    }
}

/// Whether a program is due at the row, by its task's interval and the samples of SINGLE at the row before and at this
/// one.
fn is_due(row: NewRow, interval: u64, before: bool, sample: bool) -> bool
    ensures { result ≡ rule interval record {
      is_first = row.number == 0;
      single_before = before;
      single = sample;
      first = row.first;
      last = row.last;
      moment = row.moment;
    } }
{
    if sample {
        return !before;
    }
    if interval == 0 {
        return false;
    }
    if row.number == 0 {
        return true;
    }
    let intervals = row.last.saturating_sub(row.first) / interval;
    intervals < row.moment.saturating_sub(row.first) / interval
}

/// A program that is due waits from then on; if it waits already, it has one overrun more.
fn marked(standing: ProgramState, is_due: bool, number: u64) -> ProgramState
    requires { standing.overruns < 2 ^ 63 }
    ensures { result ≡ marked_by standing is_due number }
{
    if !is_due {
        return standing;
    }
    match standing.waiting {
        None => ProgramState {
            waiting: Some(number),
            overruns: standing.overruns,
        },
        Some(waiting) => ProgramState {
            waiting: Some(waiting),
            overruns: standing.overruns + 1,
        },
    }
}

/// Whether a program at this schedule is due at the row, by the samples of SINGLE at the row before and at this one.
pub fn is_due_at(row: NewRow, schedule: Schedule, before: &[bool], samples: &[bool]) -> bool
    ensures { result ≡ is_due_at row schedule before.now samples.now }
{
    is_due(
        row,
        schedule.interval,
        sample(before, schedule.task),
        sample(samples, schedule.task),
    )
}

/// The state of a program after the row.
fn next(
    schedule: Schedule,
    row: NewRow,
    before: &[bool],
    samples: &[bool],
    standing: ProgramState,
) -> ProgramState
    requires { standing.overruns < 2 ^ 63 }
    ensures { result ≡ marked_by standing (is_due_at row schedule before.now samples.now) row.number }
{
    marked(
        standing,
        is_due_at(row, schedule, before, samples),
        row.number,
    )
}

/// A program that was taken waits no more.
pub fn taken(standing: ProgramState) -> ProgramState
    ensures { result ≡ record { waiting = None; overruns = standing.overruns } }
{
    ProgramState {
        waiting: None,
        overruns: standing.overruns,
    }
}

/// Marks each program that is due at the row.
pub fn mark_all(
    schedules: &[Schedule],
    states: &mut Vec<ProgramState>,
    before: &[bool],
    samples: &[bool],
    row: NewRow,
)
    requires sized { length states.old.items ≡ length schedules.now }
    requires room { All (λ s. s.overruns < 2 ^ 63) states.old.items }
    ensures sized { length states.new.items ≡ length states.old.items }
    ensures marked { AreMarked schedules.now states.old.items states.new.items before.now samples.now row }
{
    for program in 0..schedules.len() {
        states[program] = next(schedules[program], row, before, samples, states[program]);
    }
}
