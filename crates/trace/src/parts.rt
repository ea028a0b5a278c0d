//! Reading a text part by part.

ghost use Rattle.std.specs.Prelude.{◌≡◌, ◌<◌, ◌^◌, ◌++◌, ◌∷◌, [], ◌==◌, ℕ, option_map, position};
ghost use Rattle.std.specs.Fmt.{decimal};
ghost use Rattle.retain_records.specs.Splits.{split_at};
ghost use Rattle.trace.specs.Reads.{BeginsWith, IsRestAfter};
ghost use Rattle.trace.specs.Texts.{line};

use itoa::Buffer;
use st_print::number::number;

/// The text after these words, if the text begins with them.
pub fn after_words<'a>(text: &'a [u8], words: &[u8]) -> Option<&'a [u8]>
    ensures { IsRestAfter text.now words.now (option_map (λ rest. rest.now) result) }
{
    text.strip_prefix(words)
}

/// The text after these words, this number and LF, if the text begins with them.
pub fn after_count<'a>(text: &'a [u8], words: &[u8], number: u64) -> Option<&'a [u8]>
    ensures { IsRestAfter text.now (line (words.now ++ decimal number)) (option_map (λ rest. rest.now) result) }
{
    let mut digits = Buffer::new();
    let field = after_words(text, words)?;
    let end = after_words(field, digits.format(number).as_bytes())?;
    after_words(end, b"\n")
}

fn place_of(mark: u8, text: &[u8]) -> Option<usize>
    ensures { result ≡ position (λ byte. byte == mark) text.now }
{
    text.iter().position(|byte| *byte == mark)
}

/// The text before the first such byte, and the text after it.
pub fn first_field(mark: u8, text: &[u8]) -> Option<(&[u8], &[u8])>
    ensures { option_map (λ p. (p.0.now, p.1.now)) result ≡ split_at mark text.now }
{
    let end = place_of(mark, text)?;
    Some((&text[..end], &text[end + 1..]))
}

/// The number before the first such byte, which is below the digits, and the text after that byte.
pub fn first_number(mark: u8, text: &[u8]) -> Option<(u64, &[u8])>
    requires { mark < 48 }
    ensures { BeginsWith (λ (n : ℕ). n < 2 ^ 64) (λ n. decimal n ++ mark ∷ []) text.now
        (option_map (λ p. (p.0, p.1.now)) result) }
{
    let (field, rest) = first_field(mark, text)?;
    let number = number(field)?;
    Some((number, rest))
}
