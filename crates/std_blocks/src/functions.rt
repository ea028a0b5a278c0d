//! Standard functions.

ghost use Rattle.std.specs.Prelude.{◌≡◌, ◌∷◌, [], pos, unsigned_abs};
ghost use Rattle.st_types.specs.Values.{in_range};
ghost use Rattle.st_meaning.specs.Failures.{run_result, failing};
ghost use Rattle.st_meaning.specs.Operators.{natural};
ghost use Rattle.st_meaning.specs.StandardFunctions.{lesser, greater, conversion, standard_value};
ghost use Rattle.symbols.specs.Standard.{standard_view};

use crate::numbers::{is_at_most, is_negative};
use crate::shifts::{rotate_left, rotate_right, shift_left, shift_right};
use st_types::{Fault, Kind, Value};
use symbols::Standard;

/// The number without its sign.
fn size(x: Value) -> i128
    ensures { result ≡ pos (unsigned_abs x.number) }
{
    x.number().abs()
}

fn lesser(a: Value, b: Value) -> Value
    ensures { result ≡ lesser a b }
{
    if is_at_most(a, b) { a } else { b }
}

fn greater(a: Value, b: Value) -> Value
    ensures { result ≡ greater a b }
{
    if is_at_most(b, a) { a } else { b }
}

/// The value without its sign; F1 if its type does not hold that.
#[tactic(auto, using(crate::proofs::NumberLemmas::itself))]
fn absolute(x: Value) -> Result<Value, Fault>
    ensures { result ≡ in_range x.kind (pos (unsigned_abs x.number)) }
{
    if !is_negative(x) {
        // so that its type is known to hold it
        let _word = x.word();
        return Ok(x);
    }
    Value::new(x.kind(), size(x))
}

/// The same number as a value of another type; F4 if that does not hold it.
fn conversion(to: Kind, x: Value) -> Result<Value, Fault>
    ensures { result ≡ conversion to x.number }
{
    match Value::new(to, x.number()) {
        Ok(value) => Ok(value),
        Err(_) => Err(Fault::Conversion),
    }
}

/// A function of one argument.
fn of_one(function: Standard, x: Value) -> Result<Value, Fault>
    ensures { result ≡ run_result (standard_value (standard_view function) (x ∷ [])) }
{
    match function {
        Standard::Abs => absolute(x),
        Standard::Convert(from, to) => {
            if !x.kind().is(from) {
                return Err(Fault::Conversion);
            }
            conversion(to, x)
        }
        _ => Err(Fault::Conversion),
    }
}

/// A function of two arguments.
fn of_two(function: Standard, a: Value, b: Value) -> Result<Value, Fault>
    ensures { result ≡ run_result (standard_value (standard_view function) (a ∷ b ∷ [])) }
{
    match function {
        Standard::Min => Ok(lesser(a, b)),
        Standard::Max => Ok(greater(a, b)),
        Standard::Shl => shift_left(a, b),
        Standard::Shr => shift_right(a, b),
        Standard::Rol => rotate_left(a, b),
        Standard::Ror => rotate_right(a, b),
        _ => Err(Fault::Conversion),
    }
}

/// A function of three arguments.
fn of_three(function: Standard, a: Value, b: Value, c: Value) -> Result<Value, Fault>
    ensures { result ≡ run_result (standard_value (standard_view function) (a ∷ b ∷ c ∷ [])) }
{
    match function {
        Standard::Limit => Ok(lesser(greater(b, a), c)),
        Standard::Sel => Ok(if a.is_true() { c } else { b }),
        _ => Err(Fault::Conversion),
    }
}

/// The result of a standard function on its arguments. F1 if it isn't in its type or a shift is negative, F4 if a conversion
/// would change the value, or if the arguments don't fit.
///
/// IEC 61131-3:2003, tables 22 to 27, as far as whole numbers and bit strings have them.
pub fn standard_value(function: Standard, arguments: &[Value]) -> Result<Value, Fault>
    ensures { result ≡ run_result (standard_value (standard_view function) arguments.now) }
{
    match arguments {
        [x] => of_one(function, *x),
        [a, b] => of_two(function, *a, *b),
        [a, b, c] => of_three(function, *a, *b, *c),
        _ => Err(Fault::Conversion),
    }
}
