//! Names that differ by one letter from a word that stands for nothing.

use crate::part::{part as part_of, shown, word_in_front};
use st_types::{Identifier, Name};
use std::alloc::{AllocError, Global};

/// A name that a word may have been meant for: in upper case, and as it is spelled.
#[derive(Clone, Copy)]
struct Candidate<'a> {
    upper: &'a [u8],
    spelled: &'a [u8],
}

/// A search for the one name that differs by one letter from a word.
#[derive(Clone, Copy)]
pub struct Nearest<'a> {
    text: &'a [u8],
    word: &'a Name,
    found: Option<Candidate<'a>>,
    /// Whether several names differ by one letter.
    are_several: bool,
}

fn are_swapped(this: &[u8], that: &[u8]) -> bool {
    match (this, that) {
        ([a, b, behind @ ..], [c, d, others @ ..]) => a == d && b == c && behind == others,
        _ => false,
    }
}

/// Whether words whose first letters differ become one by a letter more, less, exchanged or swapped with its neighbour.
fn differ_in_front(this: &[u8], that: &[u8]) -> bool {
    match (this, that) {
        ([_, behind @ ..], [_, others @ ..]) => {
            behind == others || behind == that || this == others || are_swapped(this, that)
        }
        _ => false,
    }
}

/// Whether two words differ by one letter: one more, one less, another one, or two neighbours swapped.
fn differ_by_one(this: &[u8], that: &[u8]) -> bool {
    let mut left = this;
    let mut right = that;
    while let [letter, behind @ ..] = left {
        match right {
            [] => return behind.is_empty(),
            [other, others @ ..] => {
                if letter != other {
                    return differ_in_front(left, right);
                }
                right = others;
            }
        }
        left = behind;
    }
    right.len() == 1
}

impl<'a> Nearest<'a> {
    pub fn new(text: &'a [u8], word: &'a Name) -> Nearest<'a> {
        Nearest {
            text,
            word,
            found: None,
            are_several: false,
        }
    }

    fn has_other(&self, upper: &[u8]) -> bool {
        match self.found {
            Some(found) => found.upper != upper,
            None => false,
        }
    }

    fn try_one(&mut self, candidate: Candidate<'a>) {
        if differ_by_one(self.word.as_slice(), candidate.upper) {
            self.are_several = self.are_several || self.has_other(candidate.upper);
            self.found = Some(candidate);
        }
    }

    /// Looks at a name that the text declares.
    pub fn meet(&mut self, declared: &'a Identifier) {
        let behind = part_of(self.text, declared.place, self.text.len());
        self.try_one(Candidate {
            upper: declared.name.as_slice(),
            spelled: word_in_front(behind),
        });
    }

    /// Looks at names that the text declares.
    pub fn meet_all(&mut self, declared: &'a [Identifier]) {
        for one in declared {
            self.meet(one);
        }
    }

    /// Looks at words of the language, which are in upper case.
    pub fn meet_words(&mut self, words: &[&'static [u8]]) {
        for word in words {
            self.try_one(Candidate {
                upper: *word,
                spelled: *word,
            });
        }
    }

    /// A hint: the name that was found.
    pub fn help(&self, alloc: Global) -> Result<Option<String>, AllocError> {
        match self.found {
            Some(candidate) if !self.are_several => {
                let near = shown(candidate.spelled);
                Ok(Some(format!(in alloc; "did you mean `{near}`?")?))
            }
            _ => Ok(None),
        }
    }
}
