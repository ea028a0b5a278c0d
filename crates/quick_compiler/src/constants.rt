//! Constants of a program.

use crate::stop::Stop;
use st_types::Value;

/// The greatest number of constants of a program that is drafted.
const MAX_CONSTANTS: usize = 4096;

/// The word of a value, if an instruction can have it.
pub fn small_word(value: Value) -> Option<i32> {
    match i32::try_from(value.word()) {
        Ok(word) => Some(word),
        Err(_) => None,
    }
}

/// The place of a value among the constants, each of which is there once.
pub fn constant_at(constants: &mut Vec<Value>, value: Value) -> Result<usize, Stop> {
    for (place, constant) in constants.as_slice().iter().enumerate() {
        if constant.is(value) {
            return Ok(place);
        }
    }
    let place = constants.len();
    if place >= MAX_CONSTANTS {
        return Err(Stop::NotCovered);
    }
    constants.push(value)?;
    Ok(place)
}
