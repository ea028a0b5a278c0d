//! Plain numbers.

ghost use Rattle.std.specs.Prelude.{◌<◌, ◌^◌};
ghost use Rattle.std.specs.Option.{SomeIff};
ghost use Rattle.std.specs.Str.Parse.{IsNumeral, digits_value};

/// The number that plain decimal digits spell, if 32 bits hold it; leading zeros are taken, a sign is not.
pub fn plain_number(text: &str) -> Option<u32>
    ensures { SomeIff result (IsNumeral 10 text.now × (digits_value 10 text.now < 2 ^ 32)) (digits_value 10 text.now) }
{
    if text.as_bytes().first() == Some(&b'+') {
        return None;
    }
    text.parse().ok()
}
