//! Comparison of instructions.

ghost use Rattle.std.specs.Prelude.{◌≡◌, ◌↔◌, IsTrue};

use crate::instr::Instr;
use st_types::{BinaryOperator, Kind, UnaryOperator};
use symbols::{Standard, StandardBlock};

/// Whether the two are the same operator.
fn same_unary(this: UnaryOperator, that: UnaryOperator) -> bool
    ensures { IsTrue result ↔ (this ≡ that) }
{
    this == that
}

/// Whether the two are the same operator.
fn same_binary(this: BinaryOperator, that: BinaryOperator) -> bool
    ensures { IsTrue result ↔ (this ≡ that) }
{
    this == that
}

/// Whether the two are the same type.
fn same_kind(this: Kind, that: Kind) -> bool
    ensures { IsTrue result ↔ (this ≡ that) }
{
    this.is(that)
}

/// Whether the two are the same standard function.
fn same_standard(this: Standard, that: Standard) -> bool
    ensures { IsTrue result ↔ (this ≡ that) }
{
    match this {
        Standard::Abs => matches!(that, Standard::Abs),
        Standard::Min => matches!(that, Standard::Min),
        Standard::Max => matches!(that, Standard::Max),
        Standard::Limit => matches!(that, Standard::Limit),
        Standard::Sel => matches!(that, Standard::Sel),
        Standard::Shl => matches!(that, Standard::Shl),
        Standard::Shr => matches!(that, Standard::Shr),
        Standard::Rol => matches!(that, Standard::Rol),
        Standard::Ror => matches!(that, Standard::Ror),
        Standard::Convert(from, to) => match that {
            Standard::Convert(other_from, other_to) => {
                same_kind(from, other_from) && same_kind(to, other_to)
            }
            _ => false,
        },
    }
}

/// Whether the two are the same standard block.
fn same_block(this: StandardBlock, that: StandardBlock) -> bool
    ensures { IsTrue result ↔ (this ≡ that) }
{
    this == that
}

impl Instr {
    /// Whether the two are the same instruction.
    pub fn is(self, other: Instr) -> bool
        ensures { IsTrue result ↔ (self ≡ other) }
    {
        match self {
            Instr::Tick => matches!(other, Instr::Tick),
            Instr::LoadAt => matches!(other, Instr::LoadAt),
            Instr::StoreAt => matches!(other, Instr::StoreAt),
            Instr::Push(a) => match other {
                Instr::Push(b) => a.is(b),
                _ => false,
            },
            Instr::Load(a) => match other {
                Instr::Load(b) => a == b,
                _ => false,
            },
            Instr::LoadRaw(a) => match other {
                Instr::LoadRaw(b) => a == b,
                _ => false,
            },
            Instr::Store(a) => match other {
                Instr::Store(b) => a == b,
                _ => false,
            },
            Instr::StoreRaw(a) => match other {
                Instr::StoreRaw(b) => a == b,
                _ => false,
            },
            Instr::Reverse(a) => match other {
                Instr::Reverse(b) => a == b,
                _ => false,
            },
            Instr::Jump(a) => match other {
                Instr::Jump(b) => a == b,
                _ => false,
            },
            Instr::JumpIfFalse(a) => match other {
                Instr::JumpIfFalse(b) => a == b,
                _ => false,
            },
            Instr::JumpIfTrue(a) => match other {
                Instr::JumpIfTrue(b) => a == b,
                _ => false,
            },
            Instr::LoopBack(a) => match other {
                Instr::LoopBack(b) => a == b,
                _ => false,
            },
            Instr::Pop(a) => match other {
                Instr::Pop(b) => a == b,
                _ => false,
            },
            Instr::ForBegin(a) => match other {
                Instr::ForBegin(b) => a == b,
                _ => false,
            },
            Instr::JumpIfEqual(a) => match other {
                Instr::JumpIfEqual(b) => a == b,
                _ => false,
            },
            Instr::JumpIfWithin(a) => match other {
                Instr::JumpIfWithin(b) => a == b,
                _ => false,
            },
            Instr::Unary(a) => match other {
                Instr::Unary(b) => same_unary(a, b),
                _ => false,
            },
            Instr::Binary(a) => match other {
                Instr::Binary(b) => same_binary(a, b),
                _ => false,
            },
            Instr::Compute(a, m) => match other {
                Instr::Compute(b, n) => same_standard(a, b) && m == n,
                _ => false,
            },
            Instr::Step(a, m) => match other {
                Instr::Step(b, n) => same_block(a, b) && m == n,
                _ => false,
            },
            Instr::Subscript {
                count,
                stride,
                lower,
            } => match other {
                Instr::Subscript {
                    count: other_count,
                    stride: other_stride,
                    lower: other_lower,
                } => count == other_count && stride == other_stride && lower.is(other_lower),
                _ => false,
            },
            Instr::ForTest { control, end } => match other {
                Instr::ForTest {
                    control: other_control,
                    end: other_end,
                } => control == other_control && end == other_end,
                _ => false,
            },
            Instr::ForStep { control, end } => match other {
                Instr::ForStep {
                    control: other_control,
                    end: other_end,
                } => control == other_control && end == other_end,
                _ => false,
            },
        }
    }
}
