//! Texts of a plot.

use st_print::{write_path, write_value};
use st_types::{Name, Path, Value};
use std::alloc::{AllocError, Global};

/// A path as reports print it.
pub(crate) fn path_label(alloc: Global, path: &Path) -> Result<String, AllocError> {
    let mut text = Vec::new(alloc);
    match write_path(&mut text, path) {
        Ok(()) => String::from_utf8_lossy(alloc, &text),
        Err(_) => Err(AllocError),
    }
}

/// The greatest number of characters that find room at the left of a strip.
const MOST_CHARACTERS: usize = 22;

/// The text, or its beginning and two dots if it is too long for the left of a strip.
fn shortened(alloc: Global, text: &[u8]) -> Result<String, AllocError> {
    if text.len() <= MOST_CHARACTERS {
        return String::from_utf8_lossy(alloc, text);
    }
    let mut label = String::from_utf8_lossy(alloc, &text[..MOST_CHARACTERS - 2])?;
    label.push_str("..")?;
    Ok(label)
}

/// A value as reports print it, shortened.
pub(crate) fn value_label(
    alloc: Global,
    types: &[Vec<Name>],
    value: Value,
) -> Result<String, AllocError> {
    let mut text = Vec::new(alloc);
    match write_value(&mut text, value, types) {
        Ok(()) => shortened(alloc, &text),
        Err(_) => Err(AllocError),
    }
}

/// A name, shortened.
pub(crate) fn name_label(alloc: Global, name: &Name) -> Result<String, AllocError> {
    shortened(alloc, name.as_slice())
}
