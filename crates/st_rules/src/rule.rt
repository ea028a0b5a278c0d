//! Rules that a text may break.

use crate::reason::Reason;
use thiserror::Error;

/// A rule on declarations, names and types. C12 isn't a rule, but out of memory.
#[derive(Clone, Copy, Debug, PartialEq, Eq)]
pub enum Rule {
    /// C1: a name is unknown.
    UnknownName,
    /// C2: a name is declared twice in its scope, occurs twice in a structure's initial value, or is taken.
    DeclaredTwice,
    /// C3: a type is wrong.
    WrongType,
    /// C4: a literal is outside its type's range.
    OutOfRange,
    /// C5: an input, a constant, the control variable of a FOR that runs or, from outside its instance, an output is
    /// assigned.
    NotAssignable,
    /// C6: a unit or type contains itself, or a type, block or function is over 64 deep.
    TooDeep,
    /// C7: a label's range is reversed, or labels overlap.
    WrongLabel,
    /// C8: an array's bounds are reversed or too wide, or an initial list is too long.
    WrongBounds,
    /// C9: EXIT is outside a loop.
    ExitOutsideLoop,
    /// C10: a call's arguments don't fit in name, number or repetition.
    WrongArguments,
    /// C11: an address is in a block of retained globals.
    RetainedAddress,
    /// C13: an enumerated type has more than 256 names.
    TooManyNames,
}

/// A broken rule: why, and the offset of the first byte of the name or expression at fault. It is shown as `C3 at 38`.
#[derive(Clone, Copy, Debug, PartialEq, Eq, Error)]
#[error("{reason} at {place}")]
pub struct Broken {
    pub reason: Reason,
    pub place: usize,
}
