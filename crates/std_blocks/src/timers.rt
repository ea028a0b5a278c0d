//! Timers.

ghost use Rattle.std.specs.Prelude.{◌≡◌, ◌+◌, ◌∷◌, [], ◌<◌, ◌≤◌, ◌≤ℤ◌, ◌-ℤ◌, ◌^◌, ◌-◌, ℕ, length, neg_ℤ, pos};
ghost use Rattle.std.specs.Int.{int_max, int_min};
ghost use Rattle.st_types.specs.Values.{bool_datum};
ghost use Rattle.st_meaning.specs.StandardBlocks.{TON, TOF, TP, time, running, elapsed, timed_from, timed_until};
ghost use Rattle.st_meaning.specs.StandardBlocks.{stopped, ended, on_delay, off_delay, pulse, timer_of};
ghost use Rattle.std_blocks.specs.Members.{all_stored, block_stepped, Leaves};
ghost use Rattle.std_blocks.specs.Timers.{timer_view};

use crate::members::{held_value, put_all, six_members};
use crate::timer::Timer;
use st_types::{Fault, Kind, Value};

/// A timer that is to run: it starts unless it runs.
fn running(now: u64, t: Timer) -> Timer
    ensures { timer_view result ≡ running now (timer_view t) }
{
    if t.run {
        return t;
    }
    Timer {
        q: t.q,
        elapsed: t.elapsed,
        run: true,
        start: i128::from(now),
    }
}

/// The time since the start; 0 if that is in the future.
fn elapsed(now: u64, t: Timer) -> i128
    ensures { result ≡ elapsed now (timer_view t) }
{
    (i128::from(now) - t.start).max(0)
}

/// A running timer with its time; Q is TRUE from PT on.
fn timed_from(now: u64, pt: i128, t: Timer) -> Timer
    ensures { timer_view result ≡ timed_from now pt (timer_view t) }
{
    let time = elapsed(now, t);
    Timer {
        q: pt <= time,
        elapsed: time.min(pt),
        run: t.run,
        start: t.start,
    }
}

/// A running timer with its time; Q is TRUE before PT.
fn timed_until(now: u64, pt: i128, t: Timer) -> Timer
    ensures { timer_view result ≡ timed_until now pt (timer_view t) }
{
    let time = elapsed(now, t);
    Timer {
        q: time < pt,
        elapsed: time.min(pt),
        run: t.run,
        start: t.start,
    }
}

fn stopped(q: bool, t: Timer) -> Timer
    ensures { timer_view result ≡ stopped q (timer_view t) }
{
    Timer {
        q,
        elapsed: 0,
        run: false,
        start: t.start,
    }
}

/// On delay: Q follows IN once IN was TRUE for PT.
pub fn on_delay(now: u64, input: bool, pt: i128, t: Timer) -> Timer
    ensures { timer_view result ≡ on_delay now input pt (timer_view t) }
{
    if input {
        timed_from(now, pt, running(now, t))
    } else {
        stopped(false, t)
    }
}

/// Off delay: Q is TRUE while IN is, and for PT after it.
pub fn off_delay(now: u64, input: bool, pt: i128, t: Timer) -> Timer
    ensures { timer_view result ≡ off_delay now input pt (timer_view t) }
{
    if input {
        stopped(true, t)
    } else if t.q || t.run {
        timed_until(now, pt, running(now, t))
    } else {
        t
    }
}

/// A pulse that is over ends with IN.
fn ended(now: u64, input: bool, pt: i128, t: Timer) -> Timer
    ensures { timer_view result ≡ ended now input pt (timer_view t) }
{
    if pt <= elapsed(now, t) && !input {
        stopped(t.q, t)
    } else {
        t
    }
}

/// A pulse that is to run, or runs.
fn running_pulse(now: u64, input: bool, pt: i128, t: Timer) -> Timer
    ensures { timer_view result ≡ ended now input pt (timed_until now pt (running now (timer_view t))) }
{
    ended(now, input, pt, timed_until(now, pt, running(now, t)))
}

/// Pulse: Q is TRUE for PT from the rise of IN.
pub fn pulse(now: u64, input: bool, pt: i128, t: Timer) -> Timer
    ensures { timer_view result ≡ pulse now input pt (timer_view t) }
{
    if input {
        running_pulse(now, input, pt, t)
    } else if t.run {
        running_pulse(now, input, pt, t)
    } else {
        t
    }
}

/// Assigns the six members of a timer; F4 if one is of another type, or TIME does not hold a time.
fn put_timer(
    slots: &mut [Value],
    at: usize,
    input: Value,
    preset: Value,
    timer: Timer,
) -> Result<(), Fault>
    requires { at + 6 ≤ length slots.old }
    ensures { Leaves result (all_stored slots.old at (input ∷ preset ∷ bool_datum timer.q ∷ time timer.elapsed
        ∷ bool_datum timer.run ∷ time timer.start ∷ [])) slots.new }
{
    let elapsed = match held_value(Kind::Time, timer.elapsed) {
        Ok(elapsed) => elapsed,
        Err(fault) => return Err(fault),
    };
    let start = match held_value(Kind::Time, timer.start) {
        Ok(start) => start,
        Err(fault) => return Err(fault),
    };
    let values = [
        input,
        preset,
        Value::from_bool(timer.q),
        elapsed,
        Value::from_bool(timer.run),
        start,
    ];
    put_all(slots, at, &values)
}

/// The timer of these members.
fn timer_of(q: Value, elapsed: Value, run: Value, start: Value) -> Timer
    ensures { timer_view result ≡ timer_of q elapsed run start }
{
    Timer {
        q: q.is_true(),
        elapsed: elapsed.number(),
        run: run.is_true(),
        start: start.number(),
    }
}

/// A PT below 0 is read as 0.
fn preset_time(preset: Value) -> i128
    ensures { result ≡ int_max (pos 0) preset.number }
{
    preset.number().max(0)
}

/// TON: on delay.
#[tactic(auto, using(crate::proofs::BlockLemmas::no_members))]
pub fn step_on_delay(slots: &mut [Value], at: usize, now: u64) -> Result<(), Fault>
    ensures { Leaves result (block_stepped TON now at slots.old) slots.new }
{
    let (input, preset, q, elapsed, run, start) = six_members(slots, at)?;
    let before = timer_of(q, elapsed, run, start);
    let after = on_delay(now, input.is_true(), preset_time(preset), before);
    put_timer(slots, at, input, preset, after)
}

/// TOF: off delay.
#[tactic(auto, using(crate::proofs::BlockLemmas::no_members))]
pub fn step_off_delay(slots: &mut [Value], at: usize, now: u64) -> Result<(), Fault>
    ensures { Leaves result (block_stepped TOF now at slots.old) slots.new }
{
    let (input, preset, q, elapsed, run, start) = six_members(slots, at)?;
    let before = timer_of(q, elapsed, run, start);
    let after = off_delay(now, input.is_true(), preset_time(preset), before);
    put_timer(slots, at, input, preset, after)
}

/// TP: pulse.
#[tactic(auto, using(crate::proofs::BlockLemmas::no_members))]
pub fn step_pulse(slots: &mut [Value], at: usize, now: u64) -> Result<(), Fault>
    ensures { Leaves result (block_stepped TP now at slots.old) slots.new }
{
    let (input, preset, q, elapsed, run, start) = six_members(slots, at)?;
    let before = timer_of(q, elapsed, run, start);
    let after = pulse(now, input.is_true(), preset_time(preset), before);
    put_timer(slots, at, input, preset, after)
}
