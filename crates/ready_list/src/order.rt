//! The order of the activations that wait.

ghost use Rattle.std.specs.Prelude.{◌≡◌, length};
ghost use Rattle.st_meaning.specs.Due.{schedule_at as place_in, sooner as sooner_in};
ghost use Rattle.ready_list.specs.Ready.{offered as offered_of, sooner_of as sooner_among, IsFirst};

use crate::program_state::ProgramState;
use st_meaning::Schedule;
use st_types::Activation;

/// The activation of the program that waits, if it runs on the resource.
fn offered(
    schedule: Schedule,
    standing: ProgramState,
    resource: usize,
    program: usize,
) -> Option<Activation>
    ensures { result ≡ offered_of schedule standing resource program }
{
    if schedule.resource != resource {
        return None;
    }
    match standing.waiting {
        None => None,
        Some(row) => Some(Activation { program, row }),
    }
}

/// The schedule of a program; one of zeros if there is none.
fn schedule_at(schedules: &[Schedule], program: usize) -> Schedule
    ensures { result ≡ place_in schedules.now program }
{
    match schedules.get(program) {
        Some(schedule) => *schedule,
        None => Schedule {
            resource: 0,
            task: 0,
            interval: 0,
            priority: 0,
        },
    }
}

/// Whether a comes before b: the lower PRIORITY first, then the lower row, then the program that was declared first.
fn is_sooner(schedules: &[Schedule], a: Activation, b: Activation) -> bool
    ensures { result ≡ sooner_in schedules.now a b }
{
    let of_a = schedule_at(schedules, a.program).priority;
    let of_b = schedule_at(schedules, b.program).priority;
    of_a < of_b || (of_a == of_b && (a.row < b.row || (a.row == b.row && a.program < b.program)))
}

/// The sooner of the two.
fn sooner_of(
    schedules: &[Schedule],
    first: Option<Activation>,
    other: Option<Activation>,
) -> Option<Activation>
    ensures { result ≡ sooner_among schedules.now first other }
{
    match (first, other) {
        (None, other) => other,
        (Some(a), None) => Some(a),
        (Some(a), Some(b)) => {
            if is_sooner(schedules, b, a) {
                Some(b)
            } else {
                Some(a)
            }
        }
    }
}

/// The first activation to run on the resource.
pub fn first_of(
    schedules: &[Schedule],
    states: &[ProgramState],
    resource: usize,
) -> Option<Activation>
    requires { length states.now ≡ length schedules.now }
    ensures { IsFirst schedules.now states.now resource (length schedules.now) result }
{
    let mut first: Option<Activation> = None;
    for program in 0..schedules.len() {
        let waiting = offered(schedules[program], states[program], resource, program);
        first = sooner_of(schedules, first, waiting);
    }
    first
}
