//! A core that is started as a trace says.

ghost use Rattle.std.specs.Prelude.{◌≡◌, IfOk, None, map, option_map};
ghost use Rattle.std.specs.Vec.{vec_items};
ghost use Rattle.std.specs.List.{All};
ghost use Rattle.st_types.specs.Values.{IsHeld};
ghost use Rattle.trace.specs.Reads.{BeginsWith};
ghost use Rattle.trace.specs.Heads.{AreKept, kept_lines};
ghost use Rattle.commit_lock.specs.Starts.{IsBegunAt, IsBegunBy, head_of, kept_of};
ghost use Rattle.retain_records.specs.RecordLaws.{IsMoment};

use durable_core::StartMode;
use plan::Plan;
use serial_core::SerialCore;
use st_meaning::PlanVariable;
use st_types::Value;
use st_types::limits::MAX_LOG_ROOM;
use std::alloc::{AllocError, Global};
use std::sync::Arc;
use trace::{after_words, begin, kept_values, put_kept};

/// The lines of the values with which the retained variables of a core started.
fn kept_of(alloc: Global, core: &SerialCore) -> Result<Vec<u8>, AllocError>
    ensures { IfOk result (λ text. text.items ≡ kept_of core.now) }
{
    let mut text = Vec::new(alloc);
    let plan = core.plan();
    if put_kept(
        &mut text,
        true,
        &plan.enumerations,
        &plan.variables,
        core.start_values(),
    ) {
        Ok(text)
    } else {
        Err(AllocError)
    }
}

/// A core that starts cold, if the text begins with the lines of its initial values, and the text after them.
fn cold_without_moment(
    alloc: Global,
    plan: Arc<Plan>,
    text: &[u8],
) -> Result<Option<(SerialCore, &[u8])>, AllocError>
    ensures { IfOk result (λ told. BeginsWith (IsBegunAt plan.value StartMode.Cold None) kept_of text.now
        (option_map (λ p. (p.0, p.1.now)) told)) }
{
    let core = SerialCore::start(alloc, plan, MAX_LOG_ROOM)?;
    let kept = kept_of(alloc, &core)?;
    match after_words(text, &kept) {
        Some(rest) => Ok(Some((core, rest))),
        None => Ok(None),
    }
}

/// A core that starts cold, if the text begins with the lines of its initial values and there is no moment, and the text
/// after them.
fn cold(
    alloc: Global,
    plan: Arc<Plan>,
    moment: Option<u64>,
    text: &[u8],
) -> Result<Option<(SerialCore, &[u8])>, AllocError>
    ensures { IfOk result (λ told. BeginsWith (IsBegunAt plan.value StartMode.Cold moment) kept_of text.now
        (option_map (λ p. (p.0, p.1.now)) told)) }
{
    match moment {
        Some(_) => Ok(None),
        None => cold_without_moment(alloc, plan, text),
    }
}

/// The type of each variable holds the value that it starts with.
fn held_initials(variables: &[PlanVariable])
    ensures { All (λ v. IsHeld v.initial) variables.now }
{
    for variable in variables {
        let _held = variable.initial.number();
    }
}

/// The values with which the retained variables of a plan started, from their lines, and the text after these.
fn start_values_in<'a>(
    alloc: Global,
    plan: &Plan,
    text: &'a [u8],
) -> Result<Option<(Vec<Value>, &'a [u8])>, AllocError>
    ensures { IfOk result (λ told. BeginsWith (AreKept plan.now.variables.items)
        (kept_lines (map vec_items plan.now.enumerations.items) plan.now.variables.items) text.now
        (option_map (λ p. (p.0.items, p.1.now)) told)) }
{
    kept_values(alloc, &plan.enumerations, &plan.variables, text)
}

/// A core that starts warm from the values in these lines, and the text after them.
fn warm(
    alloc: Global,
    plan: Arc<Plan>,
    moment: Option<u64>,
    text: &[u8],
) -> Result<Option<(SerialCore, &[u8])>, AllocError>
    requires early { IsMoment moment }
    ensures { IfOk result (λ told. BeginsWith (IsBegunAt plan.value StartMode.Warm moment) kept_of text.now
        (option_map (λ p. (p.0, p.1.now)) told)) }
{
    let mut core = SerialCore::start(alloc, plan, MAX_LOG_ROOM)?;
    held_initials(&core.plan().variables);
    let (values, rest) = match start_values_in(alloc, core.plan(), text)? {
        Some(told) => told,
        None => return Ok(None),
    };
    core.resume(&values, moment);
    Ok(Some((core, rest)))
}

/// A core that starts in this mode, by these lines, and the text after them.
fn core_from_head(
    alloc: Global,
    plan: Arc<Plan>,
    mode: StartMode,
    moment: Option<u64>,
    text: &[u8],
) -> Result<Option<(SerialCore, &[u8])>, AllocError>
    requires early { IsMoment moment }
    ensures { IfOk result (λ told. BeginsWith (IsBegunAt plan.value mode moment) kept_of text.now
        (option_map (λ p. (p.0, p.1.now)) told)) }
{
    match mode {
        StartMode::Warm => warm(alloc, plan, moment, text),
        StartMode::Cold => cold(alloc, plan, moment, text),
    }
}

/// How the life of a trace was started, a core of this start, and the text after the head of the trace.
pub(crate) fn start(
    alloc: Global,
    plan: Arc<Plan>,
    text: &[u8],
) -> Result<Option<(StartMode, SerialCore, &[u8])>, AllocError>
    ensures { IfOk result (λ told. BeginsWith (IsBegunBy plan.value) head_of text.now
        (option_map (λ p. ((p.0, p.1), p.2.now)) told)) }
{
    match begin(plan.budget, text) {
        Some((mode, moment, lines)) => {
            let life = core_from_head(alloc, plan, mode, moment, lines)?;
            match life {
                Some((core, rest)) => Ok(Some((mode, core, rest))),
                None => Ok(None),
            }
        }
        None => Ok(None),
    }
}
