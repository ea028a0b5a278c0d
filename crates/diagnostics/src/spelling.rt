//! A text with its tokens and its tree, and how it spells its names.

use crate::part::{part as part_of, shown, word_in_front};
use crate::spot::Spot;
use crate::spots::name_at;
use st_lex::Token;
use st_types::{Identifier, Name, Source};
use std::alloc::Global;

/// A text with its tokens and its tree. Findings on it are written with the allocator.
#[derive(Clone, Copy)]
pub struct Text<'a> {
    pub alloc: Global,
    pub bytes: &'a [u8],
    pub tokens: &'a [Token],
    pub source: &'a Source,
}

impl<'a> Text<'a> {
    /// The name or literal at a place, as the text spells it.
    pub fn word_at(&self, place: usize) -> &'a str {
        shown(word_in_front(part_of(self.bytes, place, self.bytes.len())))
    }

    /// The name at a place.
    pub fn name_at(&self, place: usize) -> Option<&'a Name> {
        name_at(&Spot::new(self.bytes, self.tokens, place))
    }

    /// A name as the text spells it in its place.
    pub fn spelled(&self, name: &Identifier) -> &'a str {
        self.word_at(name.place)
    }

    /// The address after the name of a global, as `out AT %QW0` has one.
    pub fn address_after(&self, name: &Identifier) -> Option<&'a Token> {
        match Spot::new(self.bytes, self.tokens, name.place).behind {
            [_, _, address, ..] => Some(address),
            _ => None,
        }
    }

    /// A token as the text spells it.
    pub fn spelled_token(&self, token: &Token) -> &'a str {
        shown(part_of(self.bytes, token.start, token.end))
    }
}
