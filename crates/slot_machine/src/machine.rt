//! The machine.

ghost use Rattle.std.specs.Prelude.{◌≡◌, ◌≤◌, ◌+◌, ◌*◌, [], ℕ, length, Some};
ghost use Rattle.st_meaning.specs.Failures.{in_runs};
ghost use Rattle.machine_code.specs.declared.limits.TheConstants.{MAX_INSTRUCTIONS};
ghost use Rattle.machine_code.specs.Machine.{runs};
ghost use Rattle.machine_code.specs.Tracking.{tracking, tracked};
ghost use Rattle.slot_machine.specs.Steps.{StepsOn, RunEnds};

use crate::blocks::step_block;
use crate::jumps::{
    jump, jump_if_equal, jump_if_false, jump_if_true, jump_if_within, loop_back, tick,
};
use crate::loops::{for_begin, for_step, for_test};
use crate::operations::{binary, compute, pop_many, push_constant, reverse_top, unary};
use crate::slots::{load, load_at, load_raw, store, store_at, store_raw};
use crate::stack::Stack;
use crate::stop::Stop;
use crate::subscripts::subscript;
use machine_code::{Instr, Mark};
use st_types::{Fault, Value};
use std::alloc::Global;

/// One instruction of code of a size at a moment, where `place` is the one after it. It goes on, or ends with a fault
/// or out of memory.
#[inline(always)]
#[tactic(auto, using(crate::proofs::Running::weaker))]
pub fn step(
    size: usize,
    now: u64,
    instr: &Instr,
    place: &mut usize,
    ticks: &mut u32,
    stack: &mut Stack,
    values: &mut [Value],
    marks: &mut [Mark],
) -> Result<(), Stop>
    requires { place.old ≤ size }
    ensures steps { StepsOn result now size (Some instr.now) place.old stack.old (tracked values.old marks.old)
        ticks.old place.new stack.new (tracked values.new marks.new) ticks.new }
    ensures within { place.new ≤ size }
{
    match instr {
        Instr::Tick => tick(ticks),
        Instr::Push(value) => push_constant(*value, stack),
        Instr::Load(k) => load(*k, stack, values, marks),
        Instr::LoadRaw(k) => load_raw(*k, stack, values, marks),
        Instr::Store(k) => store(*k, stack, values, marks),
        Instr::StoreRaw(k) => store_raw(*k, stack, values, marks),
        Instr::Unary(op) => unary(*op, stack),
        Instr::Binary(op) => binary(*op, stack),
        Instr::Compute(function, n) => compute(*function, *n, stack),
        Instr::Step(block, first) => step_block(*block, *first, now, values, marks),
        Instr::Reverse(n) => reverse_top(*n, stack),
        Instr::Jump(to) => jump(*to, place),
        Instr::JumpIfFalse(to) => jump_if_false(*to, place, stack),
        Instr::JumpIfTrue(to) => jump_if_true(*to, place, stack),
        Instr::LoopBack(to) => loop_back(size, *to, place, ticks),
        Instr::Pop(n) => pop_many(*n, stack),
        Instr::Subscript {
            count,
            stride,
            lower,
        } => subscript(*lower, *count, *stride, stack),
        Instr::LoadAt => load_at(stack, values, marks),
        Instr::StoreAt => store_at(stack, values, marks),
        Instr::ForBegin(k) => for_begin(*k, stack, values, marks),
        Instr::ForTest { control, end } => for_test(*control, *end, place, stack, values, marks),
        Instr::ForStep { control, end } => for_step(*control, *end, place, stack, values, marks),
        Instr::JumpIfEqual(to) => jump_if_equal(*to, place, stack),
        Instr::JumpIfWithin(to) => jump_if_within(*to, place, stack),
    }
}

/// Runs the code at a moment on these values with a budget of ticks, and marks what it looks up and assigns. It answers
/// the ticks that are left. After a fault the marks show which slots were looked up before they were assigned; nothing
/// is said about the values then. Whatever the code is, this ends within `(budget + 1) * (length + 1)` instructions,
/// where `length` is that of the code.
pub fn run(
    alloc: Global,
    code: &[Instr],
    now: u64,
    values: &mut [Value],
    marks: &mut [Mark],
    budget: u32,
) -> Result<u32, Stop>
    requires { length code.now ≤ MAX_INSTRUCTIONS }
    ensures { RunEnds result (runs tracking in_runs now code.now (length code.now) []
        (tracked values.old marks.old) budget)
        (tracked values.new marks.new) }
{
    let limit = (budget as u64 + 1) * (code.len() as u64 + 1);
    let mut stack = Stack::new(alloc);
    let mut place = code.len();
    let mut ticks = budget;
    for i in 0..limit {
        if place == 0 {
            return Ok(ticks);
        }
        place -= 1;
        match step(
            code.len(),
            now,
            &code[place],
            &mut place,
            &mut ticks,
            &mut stack,
            values,
            marks,
        ) {
            Ok(()) => {}
            Err(stop) => return Err(stop),
        }
    }
    Err(Stop::Fault(Fault::Budget))
}
