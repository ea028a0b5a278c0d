//! Tokens of a text in Structured Text, from its bytes.
//!
//! Tokens are in order, and each is spelled by its slice. A text has tokens or a first fault, never both.
//!
//! A production is above the code for each kind of word: `a, b` is a and then b, `a | b` one of the two, `[ a ]` a or
//! nothing, `{ a }` any number of a. Quoted text stands for itself, in letters of either case.
#![tactic(auto)]

mod address;
mod character;
mod comment;
mod duration;
mod fault;
mod front;
mod keyword;
mod laws;
mod lexer;
mod literal;
mod mark;
mod number;
mod table;
mod time_unit;
mod token;
mod word;

pub use character::{begins, is_allowed, is_space, is_word_character};
pub use fault::{LexError, LexFault};
pub use keyword::Keyword;
pub use laws::{
    a_text_is_read_in_one_way, tokens_are_their_slices, tokens_stand_in_order,
    words_are_longest_runs,
};
pub use lexer::lex;
pub use mark::Mark;
pub use time_unit::TimeUnit;
pub use token::{Token, TokenKind, WholeNumber};
