//! How far a run is.

ghost use Rattle.std.specs.Prelude.{◌≡◌};
ghost use Rattle.run_lock.specs.Phases.{ended_by, phase_after, phase_after_answer};

use durable_core::Refusal;
use serial_core::Refusal as SerialRefusal;
use thiserror::Error;

/// Why a run ended before its end. It shows as its number.
#[derive(Clone, Copy, Debug, PartialEq, Eq, Error)]
pub enum RunFault {
    /// K1 to K6: the core refused a call, or there was no memory.
    #[error(transparent)]
    Refused(#[from] Refusal),
    /// A thread could not be started.
    #[error("H1")]
    NotStarted,
    /// All threads have ended well, and yet a row is left, something waits or is not acknowledged.
    #[error("H2")]
    NotSettled,
}

impl RunFault {
    /// Out of memory.
    pub const NO_MEMORY: RunFault = RunFault::Refused(Refusal::Serial(SerialRefusal::NoMemory));
}

#[derive(Clone, Copy, Debug, PartialEq, Eq)]
pub enum Phase {
    Running,
    /// All is done.
    Ended,
    Stopped(RunFault),
}

/// The phase that a run is in when it is ended so: the first end stays.
pub fn end_of(now: Phase, end: Phase) -> Phase
    ensures { result ≡ ended_by now end }
{
    match now {
        Phase::Running => end,
        Phase::Ended | Phase::Stopped(_) => now,
    }
}

/// The phase after a row that was perhaps refused.
pub fn after_call(now: Phase, refusal: Option<Refusal>) -> Phase
    ensures { result ≡ phase_after now refusal }
{
    match refusal {
        Some(refusal) => Phase::Stopped(RunFault::Refused(refusal)),
        None => now,
    }
}

/// The phase after a call that was perhaps refused: the first end stays.
pub fn after_answer<T>(now: Phase, answer: &Result<T, Refusal>) -> Phase
    ensures { result ≡ phase_after_answer now answer.now }
{
    match answer {
        Ok(_) => now,
        Err(refusal) => end_of(now, Phase::Stopped(RunFault::Refused(*refusal))),
    }
}
