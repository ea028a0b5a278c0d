//! Names in a text.

ghost use Rattle.std.specs.Prelude.{◌≡◌, IfOk};

use crate::name::Name;
use crate::tree::Tree;
use std::alloc::{AllocError, Global};

/// A name at its place in a text.
pub struct Identifier {
    pub name: Name,
    /// The offset of its first byte in the text.
    pub place: usize,
}

impl Drop for Identifier {
    fn drop(self) {
        let Self { name: _, place: _ } = self;
    }
}

impl Identifier {
    /// Another one with the same name and place.
    pub fn copied(&self, alloc: Global) -> Result<Identifier, AllocError>
        ensures { IfOk result (λ x. x ≡ self.now) }
    {
        Ok(Identifier {
            name: self.name.copied(alloc)?,
            place: self.place,
        })
    }

    /// Its name alone.
    pub fn into_name(self) -> Name
        ensures { result ≡ self.name }
    {
        let Self { name, place: _ } = self;
        name
    }
}

impl Tree for Identifier {
    ghost use Rattle.st_types.specs.declared.identifier.Identifier.{Identifier};

    ghost Mirror = { Identifier };

    ghost view = { λ x. x };
}
