//! Underscores in words.

ghost use Rattle.std.specs.Prelude.{◌≡◌};
ghost use Rattle.st_types.specs.UpperNames.{is_spaced};

/// There are no two underscores in a row, and none at the end.
pub fn is_spaced(word: &[u8]) -> bool
    ensures { result ≡ is_spaced word.now }
{
    let mut rest = word;
    while let [b, after @ ..] = rest {
        if *b == b'_' && matches!(after, [] | [b'_', ..]) {
            return false;
        }
        rest = after;
    }
    true
}
