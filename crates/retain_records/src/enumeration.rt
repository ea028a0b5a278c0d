//! Enumerated types as a layout text spells them.

ghost use Rattle.std.specs.Prelude.{◌≡◌, option_map};
ghost use Rattle.retain_records.specs.Enumerations.{before_last, enumeration_in};

use crate::names::names_counted;
use st_types::Kind;

/// The bytes before the last one, if that is this one.
fn before_last(mark: u8, bytes: &[u8]) -> Option<&[u8]>
    ensures { option_map (λ x. x.now) result ≡ before_last mark bytes.now }
{
    let (last, before) = bytes.split_last()?;
    if *last == mark { Some(before) } else { None }
}

/// The enumerated type with this spelling: names between parentheses, separated by commas. Each is an identifier in
/// upper case of at most 64 characters, and there are at most 65,535 of them. A record knows the type by its names
/// alone, so its number is 0.
pub fn enumeration_in(word: &[u8]) -> Option<Kind>
    ensures { result ≡ enumeration_in word.now }
{
    let [b'(', behind @ ..] = word else {
        return None;
    };
    let names = before_last(b')', behind)?;
    let names = names_counted(names)?;
    Some(Kind::Enumerated { names, number: 0 })
}
