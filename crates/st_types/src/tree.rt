//! The common trait of all trees of a text.

/// A part of a text's tree. The definitions use only its mirror, which says nothing about where a part is in memory.
pub trait Tree {
    /// The type of its mirror.
    ghost Mirror: { Type 0 };

    /// The mirror that it stands for.
    ghost view: { Self → Mirror };
}
