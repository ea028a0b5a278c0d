//! Looking up a code.

ghost use Rattle.std.specs.Prelude.{◌≡◌, find, is_some, map, option_map};
ghost use Rattle.source_run.specs.ListedCodes.{code_bytes, codes_like, has_code, is_code};

use crate::codes::explanations;
use crate::entry::Explanation;

/// The first entry of a table that has this code, in upper or lower case.
fn find_in<'a>(table: &'a [Explanation], code: &str) -> Option<&'a Explanation>
    ensures { option_map (λ e. e.now) result ≡ find (has_code code.now) table.now }
{
    table
        .iter()
        .find(|entry| entry.code.eq_ignore_ascii_case(code))
}

/// The entries of the codes with the same first letter.
fn entries_like(code: &str) -> &'static [Explanation]
    ensures { map code_bytes result.now ≡ codes_like code.now }
{
    match code.as_bytes() {
        [] => &[],
        [letter, ..] => explanations(letter.to_ascii_uppercase()),
    }
}

/// The explanation of a code, in upper or lower case; none exactly if there is no such code.
pub fn explanation(code: &str) -> Option<&'static Explanation>
    ensures { option_map (λ e. code_bytes e.now) result ≡ find (is_code code.now) (codes_like code.now) }
{
    find_in(entries_like(code), code)
}

/// The title of a code, in upper or lower case; none exactly if there is no such code.
pub fn title(code: &str) -> Option<&'static str>
    ensures { is_some result ≡ is_some (find (is_code code.now) (codes_like code.now)) }
{
    Some(explanation(code)?.title)
}
