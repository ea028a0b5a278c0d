//! Instructions.

use st_types::{BinaryOperator, UnaryOperator, Value};
use symbols::{Standard, StandardBlock};

/// An instruction of a machine with a stack. A place in the code is the number of instructions from there to the end.
/// So the code ends at 0, and an instruction is followed by the place one below its own.
#[derive(Clone, Copy)]
pub enum Instr {
    /// Takes a tick.
    Tick,
    /// Puts a constant on the stack.
    Push(Value),
    /// Puts a slot's value on the stack, if its type holds it.
    Load(u16),
    /// Puts a slot's value on the stack as it is.
    LoadRaw(u16),
    /// Assigns the top of the stack to a slot of its type.
    Store(u16),
    /// Puts the top of the stack into a slot, whatever its value was.
    StoreRaw(u16),
    /// An operator on the top of the stack.
    Unary(UnaryOperator),
    /// An operator on the two topmost values.
    Binary(BinaryOperator),
    /// A standard function on this number of topmost values.
    Compute(Standard, u16),
    /// A step of a standard block, whose members are the slots from this one on.
    Step(StandardBlock, u16),
    /// Reverses this number of topmost values: the lowest of them comes to the top.
    Reverse(u16),
    /// Goes to a place below.
    Jump(u16),
    /// Takes a truth, and goes to a place below if it is FALSE.
    JumpIfFalse(u16),
    /// Takes a truth, and goes to a place below if it is TRUE.
    JumpIfTrue(u16),
    /// Takes a tick, and goes to any place.
    LoopBack(u16),
    /// Takes this number of values away.
    Pop(u16),
    /// Takes a subscript, and moves the slot's number below it on to the element.
    Subscript {
        count: u16,
        stride: u16,
        lower: Value,
    },
    /// Takes a slot's number, and puts its value, if its type holds it.
    LoadAt,
    /// Takes a slot's number and a value, and assigns it.
    StoreAt,
    /// Takes start, limit and step of a FOR, assigns the start to a slot, and puts back limit and step.
    ForBegin(u16),
    /// Goes to a place below if a slot's value has passed the limit of a FOR.
    ForTest {
        control: u16,
        end: u16,
    },
    /// Adds the step of a FOR to a slot's value, or goes to a place below if the sum isn't in its type.
    ForStep {
        control: u16,
        end: u16,
    },
    /// Takes a number, and goes to a place below if the value under it is this one.
    JumpIfEqual(u16),
    /// Takes a least and a greatest number, and goes to a place below if the value under them is among these.
    JumpIfWithin(u16),
}
