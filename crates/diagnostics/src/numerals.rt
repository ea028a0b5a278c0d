//! Numbers as other languages spell them.

use crate::foreign_words::NO_REAL;
use crate::part::{shown, word_in_front};
use std::alloc::{AllocError, Global};

/// A base of digits, by the letter that other languages write after a 0.
struct ForeignBase {
    letter: u8,
    /// What to write before the digits.
    front: &'static str,
}

static BASES: [ForeignBase; 3] = [
    ForeignBase {
        letter: b'x',
        front: "16#",
    },
    ForeignBase {
        letter: b'o',
        front: "8#",
    },
    ForeignBase {
        letter: b'b',
        front: "2#",
    },
];

fn front_of(letter: u8) -> Option<&'static str> {
    for base in &BASES {
        if base.letter.eq_ignore_ascii_case(&letter) {
            return Some(base.front);
        }
    }
    None
}

/// A number in another base, as `0x1F`.
fn based(alloc: Global, word: &[u8]) -> Result<Option<String>, AllocError> {
    let [b'0', letter, digits @ ..] = word else {
        return Ok(None);
    };
    if digits.is_empty() || !digits.iter().all(|b| b.is_ascii_hexdigit()) {
        return Ok(None);
    }
    match front_of(*letter) {
        Some(front) => {
            let digits = shown(digits);
            Ok(Some(format!(in alloc; "write `{front}{digits}`")?))
        }
        None => Ok(None),
    }
}

/// Whether it is a number with units of time, as `500ms`.
fn is_duration(word: &[u8]) -> bool {
    match word {
        [.., unit] => {
            unit.is_ascii_alphabetic()
                && word.iter().all(|b| {
                    b.is_ascii_digit()
                        || matches!(b.to_ascii_lowercase(), b'd' | b'h' | b'm' | b's')
                })
        }
        [] => false,
    }
}

/// Whether it is a number with an exponent, as `1e3`.
fn has_exponent(word: &[u8]) -> bool {
    let letters = word.iter().filter(|b| !b.is_ascii_digit());
    word.iter().any(|b| b.eq_ignore_ascii_case(&b'e')) && letters.count() == 1
}

/// A hint on a word that begins with a digit and isn't a literal.
pub fn numeral(alloc: Global, word: &[u8]) -> Result<Option<String>, AllocError> {
    if let Some(help) = based(alloc, word)? {
        return Ok(Some(help));
    }
    if is_duration(word) {
        let spelled = shown(word);
        return Ok(Some(format!(in alloc; "write `T#{spelled}`")?));
    }
    if has_exponent(word) {
        return Ok(Some(String::from_str(alloc, NO_REAL)?));
    }
    Ok(None)
}

/// A hint on a type with its `#` if a number with a sign comes after it, as in `INT#-1`.
pub fn sign_after(alloc: Global, word: &[u8], behind: &[u8]) -> Result<Option<String>, AllocError> {
    let [b'-', number @ ..] = behind else {
        return Ok(None);
    };
    let (front, number) = (shown(word), shown(word_in_front(number)));
    if number.is_empty() || !word.ends_with(b"#") {
        return Ok(None);
    }
    Ok(Some(format!(in alloc; "write the sign first: `-{front}{number}`")?))
}
