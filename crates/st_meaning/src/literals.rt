//! The values of literals.

ghost use Rattle.std.specs.Prelude.{◌≡◌};
ghost use Rattle.st_meaning.specs.Failures.{run_result};
ghost use Rattle.st_meaning.specs.Operators.{number_of, kind_of_number, value_of_number};

use st_types::{Fault, Kind, Number, Value};

/// The number that a literal's digits and sign spell.
pub fn number_of(number: &Number) -> i128
    ensures { result ≡ number_of number.now }
{
    let magnitude = i128::from(number.magnitude);
    if number.is_negative {
        -magnitude
    } else {
        magnitude
    }
}

/// The type that is written, or else the one that the literal's place in the text gives.
fn kind_of(number: &Number) -> Option<Kind>
    ensures { result ≡ kind_of_number number.now }
{
    match number.written {
        Some(kind) => Some(kind),
        None => number.taken,
    }
}

/// The value of a literal of a whole number or bit string; F1 if its type does not hold it, and F4 if it has none.
pub fn value_of_number(number: &Number) -> Result<Value, Fault>
    ensures { result ≡ run_result (value_of_number number.now) }
{
    match kind_of(number) {
        Some(kind) => Value::new(kind, number_of(number)),
        None => Err(Fault::Conversion),
    }
}
