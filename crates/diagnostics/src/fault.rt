//! Why a source is refused.

use st_lex::LexError;
use st_parse::ParseError;
use st_rules::Broken;

/// Why a source is refused, as the layer that refuses it reports.
#[derive(Clone, Copy)]
pub enum SourceFault {
    /// The text has no tokens: L1 to L6.
    Words(LexError),
    /// The tokens have no tree: P1 to P3.
    Grammar(ParseError),
    /// A rule of the language is broken: C1 to C11, C13.
    Rule(Broken),
    /// The text as a whole is refused.
    Whole(WholeFault),
}

/// Why a text as a whole is refused.
#[derive(Clone, Copy)]
pub enum WholeFault {
    /// The source can't be read (X1).
    Unread,
    /// The budget is out of its range (G7).
    Budget,
    /// There is no CONFIGURATION, or a second one (G2).
    NotOne,
    /// A task, a program or a global is unknown or doesn't fit its use (G3).
    Unknown,
    /// A global may not have its address (G4).
    WrongAddress,
    /// There are too many resources, tasks or programs (G5).
    TooMany,
    /// The record of the RETAIN variables would be too long (G6).
    RecordTooLong,
    /// A program has no task (G8).
    WithoutTask,
    /// There are too many paths, instances of blocks or places of functions (M1).
    TooManyPaths,
    /// A program has too many instructions (M2).
    TooManyInstructions,
    /// Memory ran out while the text was judged (C12).
    JudgingMemory,
    /// Memory ran out while the text was laid out or compiled (M3).
    LayoutMemory,
    /// Memory ran out while the text was read or made a plan (G9).
    PlanMemory,
}

impl SourceFault {
    /// The offset of the byte at fault, if there is one. A text that is too long is at fault as a whole.
    pub fn place(self) -> Option<usize> {
        match self {
            SourceFault::Words(LexError::Fault(_, place)) => Some(place),
            SourceFault::Grammar(ParseError::Unexpected(place)) => Some(place),
            SourceFault::Rule(broken) => Some(broken.place),
            _ => None,
        }
    }
}
