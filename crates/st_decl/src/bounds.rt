//! Bounds of arrays.

ghost use Rattle.std.specs.Prelude.{◌≡◌, ◌≤ℤ◌, ◌^◌, neg_ℤ, pos};
ghost use Rattle.st_meaning.specs.Operators.{number_of};
ghost use Rattle.st_rules.specs.TypeRules.{elements_of_array, has_wrong_bounds};

use st_meaning::number_of;
use st_rules::limits::MAX_ELEMENTS;
use st_types::{ArrayType, Number};

/// The number of a bound, of at most 64 bits.
pub fn bound(number: &Number) -> i128
    ensures value { result ≡ number_of number.now }
    ensures least { neg_ℤ (pos (2 ^ 64)) ≤ℤ result }
    ensures greatest { result ≤ℤ pos (2 ^ 64) }
{
    let _magnitude = number.magnitude;
    number_of(number)
}

/// How many elements an array has; none if its bounds are reversed.
pub fn elements_of_array(array: &ArrayType) -> u128
    ensures { result ≡ elements_of_array array.now }
{
    let lower = bound(&array.lower);
    let upper = bound(&array.upper);
    if upper < lower {
        return 0;
    }
    (upper - lower + 1) as u128
}

/// Whether the bounds of an array are reversed or too wide.
pub fn has_wrong_bounds(array: &ArrayType) -> bool
    ensures { result ≡ has_wrong_bounds array.now }
{
    number_of(&array.upper) < number_of(&array.lower)
        || (MAX_ELEMENTS as u128) < elements_of_array(array)
}
