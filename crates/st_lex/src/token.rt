//! Tokens.

use crate::keyword::Keyword;
use crate::mark::Mark;
use st_types::{Address, Kind, Name};

/// A whole-number or bit-string literal, which has no sign.
#[derive(Clone, Copy, Debug, PartialEq, Eq)]
pub struct WholeNumber {
    /// The type that is written before a `#`, as in `INT#5`.
    pub written: Option<Kind>,
    pub magnitude: u64,
    /// It is written as decimal digits alone, with no type and no base.
    pub is_decimal: bool,
}

/// The kind of a token. Spellings of one thing are one kind.
pub enum TokenKind {
    /// A name that isn't a reserved word, in upper case.
    Name(Name),
    /// The name of an elementary type.
    Elementary(Kind),
    /// Any other reserved word but TRUE and FALSE; `&` is AND.
    Keyword(Keyword),
    Mark(Mark),
    Number(WholeNumber),
    /// TRUE or FALSE, also as `BOOL#1` or `BOOL#0`.
    Truth(bool),
    /// A duration in milliseconds, at most 9,223,372,036,854,775,807.
    Duration(u64),
    Address(Address),
    /// A value of an enumerated type, as in `Mode#Fault`: the type's name and its own, neither of them a reserved word,
    /// in upper case.
    Enumerated(Name, Name),
}

impl Drop for TokenKind {
    fn drop(self) {
        match self {
            Self::Name(_)
            | Self::Elementary(_)
            | Self::Keyword(_)
            | Self::Mark(_)
            | Self::Number(_)
            | Self::Truth(_)
            | Self::Duration(_)
            | Self::Address(_)
            | Self::Enumerated(_, _) => {}
        }
    }
}

/// A token, and its place in the text.
pub struct Token {
    pub kind: TokenKind,
    /// The offset of its first byte.
    pub start: usize,
    /// The offset after its last byte.
    pub end: usize,
}

impl Drop for Token {
    fn drop(self) {
        let Self {
            kind: _,
            start: _,
            end: _,
        } = self;
    }
}
