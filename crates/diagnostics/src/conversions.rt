//! Conversions between types: those that there are, and what to do where there is none.

use crate::foreign_words::NO_REAL;
use crate::part::part;
use st_types::{Kind, Sort};
use std::alloc::{AllocError, Global};

/// What to do with a TIME and a number.
pub const TIME_STAYS: &str =
    "a TIME isn't converted to a number or back: compare TIMEs, as in `t >= T#1s`";

/// What to write for a number in the place of a TIME.
pub const WRITE_TIME: &str = "write a TIME, as in `T#1s`";

/// Whether its values are whole numbers or bit strings.
pub fn is_number(kind: Kind) -> bool {
    matches!(kind.row().sort, Sort::Signed | Sort::Unsigned | Sort::Bits)
}

/// Whether values of the type are converted.
fn is_convertible(kind: Kind) -> bool {
    is_number(kind) || kind.is(Kind::Bool)
}

/// A hint if a value has another type than its place expects.
pub fn conversion(alloc: Global, from: Kind, to: Kind) -> Result<Option<String>, AllocError> {
    if from.is(Kind::Time) && is_number(to) || is_number(from) && to.is(Kind::Time) {
        return Ok(Some(String::from_str(alloc, TIME_STAYS)?));
    }
    if from.is(to) || !is_convertible(from) || !is_convertible(to) {
        return Ok(None);
    }
    let (first, second) = (from.row().keyword, to.row().keyword);
    Ok(Some(format!(in alloc; "convert it with {first}_TO_{second}")?))
}

/// The types that the name of a conversion has, as `INT` and `REAL` in `INT_TO_REAL`.
fn types_of(name: &[u8]) -> Option<(&[u8], &[u8])> {
    for at in 0..name.len() {
        let behind = at.saturating_add(4);
        if part(name, at, behind).starts_with(b"_TO_") {
            return Some((part(name, 0, at), part(name, behind, name.len())));
        }
    }
    None
}

fn is_among(name: &[u8], names: &[&str]) -> bool {
    names.iter().any(|n| n.as_bytes() == name)
}

/// A hint on the name of a conversion that there isn't, in upper case.
pub fn no_conversion(name: &[u8]) -> Option<&'static str> {
    if name.starts_with(b"TO_") {
        return Some("write both types, as in `DINT_TO_INT`");
    }
    let (from, to) = types_of(name)?;
    let (reals, times) = (["REAL", "LREAL"], ["TIME", "LTIME"]);
    if is_among(from, &reals) || is_among(to, &reals) {
        Some(NO_REAL)
    } else if is_among(from, &times) || is_among(to, &times) {
        Some(TIME_STAYS)
    } else if from == to {
        Some("leave it out: the types are one")
    } else {
        None
    }
}
