//! Whole texts.

use crate::configuration::Configuration;
use crate::data_type::TypeDeclaration;
use crate::tree::Tree;
use crate::unit::Unit;

/// A part of a text, which the standard calls a library element.
pub enum LibraryElement {
    /// A block from TYPE to END_TYPE.
    Types(Vec<TypeDeclaration>),
    Unit(Unit),
    Configuration(Configuration),
}

impl Drop for LibraryElement {
    fn drop(self) {
        match self {
            Self::Types(_) | Self::Unit(_) | Self::Configuration(_) => {}
        }
    }
}

/// The tree of a text.
pub struct Source {
    pub elements: Vec<LibraryElement>,
}

impl Drop for Source {
    fn drop(self) {
        let Self { elements: _ } = self;
    }
}

impl Tree for LibraryElement {
    ghost use Rattle.st_types.specs.Sources as tree;
    ghost use Rattle.st_types.specs.SourceViews.{element_view};

    ghost Mirror = { tree.LibraryElement };

    ghost view = { element_view };
}

impl Tree for Source {
    ghost use Rattle.st_types.specs.Sources as tree;
    ghost use Rattle.st_types.specs.SourceViews.{source_view};

    ghost Mirror = { tree.Source };

    ghost view = { source_view };
}
