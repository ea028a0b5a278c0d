//! The bytes of a text.

ghost use Rattle.std.specs.Prelude.{◌≡◌};
ghost use Rattle.st_lex.specs.Characters as characters;

/// Whether it may occur in a text: TAB, LF, CR, or 32 to 126.
pub fn is_allowed(b: u8) -> bool
    ensures { result ≡ characters.is_allowed b }
{
    b == b'\t' || b == b'\n' || b == b'\r' || (32 <= b && b <= 126)
}

pub fn is_space(b: u8) -> bool
    ensures { result ≡ characters.is_space b }
{
    b == b' ' || b == b'\t' || b == b'\n' || b == b'\r'
}

/// Whether it may occur in a word after its `%`.
pub fn is_word_character(b: u8) -> bool
    ensures { result ≡ characters.is_word_character b }
{
    b.is_ascii_alphanumeric() || b == b'_' || b == b'#'
}

/// Whether the text begins with the two bytes.
pub fn begins(first: u8, second: u8, text: &[u8]) -> bool
    ensures { result ≡ characters.begins first second text.now }
{
    match text {
        [b, c, ..] => *b == first && *c == second,
        _ => false,
    }
}
