//! Addresses.

ghost use Rattle.std.specs.Prelude.{◌≡◌};
ghost use Rattle.std.specs.List.{list_all};
ghost use Rattle.std.specs.Char.{is_ascii_digit};
ghost use Rattle.st_lex.specs.Addresses as addresses;

use crate::number::value;
use st_types::{Address, AddressWidth, Direction};

fn direction(b: u8) -> Option<Direction>
    ensures { result ≡ addresses.direction b }
{
    match b.to_ascii_uppercase() {
        b'I' => Some(Direction::Input),
        b'Q' => Some(Direction::Output),
        _ => None,
    }
}

fn width(b: u8) -> Option<AddressWidth>
    ensures { result ≡ addresses.width b }
{
    match b.to_ascii_uppercase() {
        b'X' => Some(AddressWidth::Bit),
        b'W' => Some(AddressWidth::Word),
        _ => None,
    }
}

fn has_digits_alone(word: &[u8]) -> bool
    ensures { result ≡ list_all is_ascii_digit word.now }
{
    word.iter().all(|b| b.is_ascii_digit())
}

#[tactic(auto, unfolding(crate::specs::Addresses::number))]
fn number(digits: &[u8]) -> Option<u64>
    ensures { result ≡ addresses.number digits.now }
{
    if digits.is_empty() || !has_digits_alone(digits) {
        return None;
    }
    value(10, digits)
}

fn joined(
    direction: Option<Direction>,
    width: Option<AddressWidth>,
    number: Option<u64>,
) -> Option<Address>
    ensures { result ≡ addresses.joined direction width number }
{
    Some(Address {
        direction: direction?,
        width: width?,
        number: number?,
    })
}

/// `address = "%", ( "I" | "Q" ), ( "X" | "W" ), digit, { digit } .`
/// The word as an address.
#[tactic(auto, unfolding(crate::specs::Addresses::address))]
pub fn address(word: &[u8]) -> Option<Address>
    ensures { result ≡ addresses.address word.now }
{
    match word {
        [b'%', first, second, digits @ ..] => {
            joined(direction(*first), width(*second), number(digits))
        }
        _ => None,
    }
}
