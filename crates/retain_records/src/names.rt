//! Names separated by commas.

ghost use Rattle.std.specs.Prelude.{◌≡◌, ◌&&◌, not};
ghost use Rattle.std.specs.List.{list_all};
ghost use Rattle.st_types.specs.UpperNames.{is_letter, is_letter_or_digit, is_upper_name};
ghost use Rattle.retain_records.specs.Splits.{names_counted, parted};

use crate::splitting::split_at;
use st_types::is_spaced;
use st_types::limits::MAX_NAME_LENGTH;

fn is_letter(byte: u8) -> bool
    ensures { result ≡ is_letter byte }
{
    (65 <= byte && byte <= 90) || byte == b'_'
}

fn is_letter_or_digit(byte: u8) -> bool
    ensures { result ≡ is_letter_or_digit byte }
{
    is_letter(byte) || (48 <= byte && byte <= 57)
}

fn are_letters_or_digits(bytes: &[u8]) -> bool
    ensures { result ≡ list_all is_letter_or_digit bytes.now }
{
    bytes.iter().all(|byte| is_letter_or_digit(*byte))
}

/// Whether the bytes are an identifier in upper case, of at most 64 characters.
fn is_upper_name(word: &[u8]) -> bool
    ensures { result ≡ is_upper_name word.now }
{
    match word {
        [] => false,
        [first, others @ ..] => {
            is_letter(*first)
                && are_letters_or_digits(others)
                && is_spaced(word)
                && word.len() <= MAX_NAME_LENGTH
        }
    }
}

/// How many names these are, separated by commas, if each is an identifier in upper case of at most 64 characters and
/// there are at most 65,535 of them; `None` otherwise.
#[tactic(auto, using(crate::proofs::NameLemmas::no_name_here, crate::proofs::NameLemmas::no_room_here, crate::proofs::NameLemmas::name_here, crate::proofs::NameLemmas::no_name_left, crate::proofs::NameLemmas::no_room_left, crate::proofs::NameLemmas::name_left, crate::proofs::CutLemmas::shorter_behind))]
pub fn names_counted(text: &[u8]) -> Option<u16>
    ensures { result ≡ names_counted (parted 44 text.now) }
{
    let mut rest = text;
    let mut count: u16 = 0;
    while let Some((name, behind)) = split_at(b',', rest) {
        if count == u16::MAX {
            return None;
        }
        if !is_upper_name(name) {
            return None;
        }
        count += 1;
        rest = behind;
    }
    if count == u16::MAX {
        return None;
    }
    if is_upper_name(rest) {
        Some(count + 1)
    } else {
        None
    }
}
