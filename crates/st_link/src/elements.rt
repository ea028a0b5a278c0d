//! Elements of arrays.

use symbols::PlaceType;

/// The elements of an array: their bounds, how many slots each takes, 4,097 if they are more than 4,096, and the
/// declared type of each.
#[derive(Clone, Copy)]
pub struct Elements<'a> {
    pub lower: i128,
    pub count: u128,
    pub stride: usize,
    pub declared: PlaceType<'a>,
}
