//! Findings from sentences that are written for them.

use crate::finding::Finding;
use std::alloc::AllocError;

/// The finding with this sentence.
pub fn said(sentence: Result<String, AllocError>) -> Result<Option<Finding>, AllocError> {
    match sentence {
        Ok(sentence) => Ok(Some(Finding::new(sentence))),
        Err(error) => Err(error),
    }
}

/// The finding with this sentence on the byte at a place.
pub fn said_at(
    place: usize,
    sentence: Result<String, AllocError>,
) -> Result<Option<Finding>, AllocError> {
    match sentence {
        Ok(sentence) => Ok(Some(Finding::new(sentence).at(place))),
        Err(error) => Err(error),
    }
}
