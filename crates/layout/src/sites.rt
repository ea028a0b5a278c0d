//! Declared facts about a variable or a part of one.

use st_types::Initial;
use symbols::PlaceType;

/// A variable or a part of one, as it is declared.
#[derive(Clone, Copy)]
pub struct Site<'a> {
    pub declared: PlaceType<'a>,
    /// The initial value that is written for it.
    pub initial: Option<&'a Initial>,
    /// Whether it is retained, by the innermost declaration so far that mentions retention.
    pub retained: bool,
}

/// A step from a whole to a part of it.
#[derive(Clone, Copy)]
pub enum PartStep<'a> {
    /// A field of a structure or a member of a block's instance, by the bytes of its name.
    Member(&'a [u8]),
    /// An element of an array, by its subscript.
    Element(i128),
}

/// A part by its step from the whole.
#[derive(Clone, Copy)]
pub struct Part<'a> {
    pub step: PartStep<'a>,
    pub site: Site<'a>,
}
