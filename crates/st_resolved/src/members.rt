//! Values of enumerated types.

ghost use Rattle.std.specs.Prelude.{◌≡◌, option_map};
ghost use Rattle.st_meaning.specs.Enumerations.{member_named, member_written, number_of_member};
ghost use Rattle.st_meaning.specs.NameTypes.{Declared};
ghost use Rattle.symbols.specs.Enumerated.{member_view, reading_view};
ghost use Rattle.symbols.specs.Tables.{ServesTables};
ghost use Rattle.st_resolved.specs.Members.{member_of_reading};

use st_types::{EnumeratedValue, Name, Number};
use symbols::{Member, Reading, TextTables};

fn member_of_reading(reading: Reading) -> Option<Member>
    ensures { option_map member_view result ≡ member_of_reading (reading_view reading) }
{
    match reading {
        Reading::Value(member) => Some(member),
        Reading::Unknown => None,
        Reading::Ambiguous => None,
    }
}

/// The value for which a name alone stands.
pub fn member_named(tables: &TextTables, name: &Name) -> Option<Member>
    ensures { (text : Declared) → ServesTables tables.now text
        → option_map member_view result ≡ member_named text.types name.now }
{
    member_of_reading(tables.reading_of_name(name))
}

/// The value of this spelling.
pub fn member_written(tables: &TextTables, value: &EnumeratedValue) -> Option<Member>
    ensures { (text : Declared) → ServesTables tables.now text
        → option_map member_view result ≡ member_written text.types value.now }
{
    member_of_reading(tables.reading_written(value))
}

/// The number of a value, with its type, in place of a name that stands for it.
pub fn number_of_member(place: usize, member: Member) -> Number
    ensures { result ≡ number_of_member place (member_view member) }
{
    Number {
        place,
        is_negative: false,
        magnitude: member.place as u64,
        written: Some(member.kind),
        is_decimal: false,
        taken: None,
    }
}
