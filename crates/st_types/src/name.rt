//! Names.

ghost use Rattle.std.specs.Prelude.{◌≡◌, IfOk, map, ◌↔◌, IsTrue};
ghost use Rattle.std.specs.Char.{to_ascii_uppercase};
ghost use Rattle.std.proofs.Common.{ap};
ghost use Rattle.std.specs.Cmp.{partial_equiv_from_equiv};
ghost use Rattle.std.specs.Cmp.Lexicographic.{bytes_decides, nat_list_eq_equiv};
ghost use Rattle.std.specs.Hash as fed;
ghost use Rattle.std.specs.Str.{bytes_eq};

use std::alloc::{AllocError, Global};
use std::hash::{Hash, Hasher};
use std::marker::Model;

/// A name: contracts see its bytes. The lexer makes them upper case, since the case of letters is not significant.
pub struct Name {
    bytes: Vec<u8>,
}

impl Drop for Name {
    fn drop(self) {
        let Self { bytes: _ } = self;
    }
}

impl Model for Name {
    ghost use Rattle.std.specs.Prelude.{List, ℕ};

    ghost Value = { List ℕ };

    ghost view = { λ n. n.bytes.items };
}

impl Name {
    /// The name of these bytes.
    pub fn from_slice(alloc: Global, word: &[u8]) -> Result<Name, AllocError>
        ensures { IfOk result (λ n. n ≡ word.now) }
    {
        Ok(Name {
            bytes: Vec::from_slice(alloc, word)?,
        })
    }

    /// The name that a word spells, in upper case.
    pub fn upper(alloc: Global, word: &[u8]) -> Result<Name, AllocError>
        ensures { IfOk result (λ n. n ≡ map to_ascii_uppercase word.now) }
    {
        let mut bytes = Vec::from_slice(alloc, word)?;
        bytes.make_ascii_uppercase();
        Ok(Name { bytes })
    }

    /// Another name with the same bytes.
    pub fn copied(&self, alloc: Global) -> Result<Name, AllocError>
        ensures { IfOk result (λ n. n ≡ self.now) }
    {
        Ok(Name {
            bytes: Vec::from_slice(alloc, &self.bytes)?,
        })
    }

    /// Its bytes.
    pub fn as_slice(&self) -> &[u8]
        ensures { result.now ≡ self.now }
    {
        self.bytes.as_slice()
    }

    /// Whether the two are one name.
    pub fn is(&self, other: &Name) -> bool
        ensures { IsTrue result ↔ (self.now ≡ other.now) }
    {
        self == other
    }
}

// Two names are equal if they have the same bytes.
impl PartialEq for Name {
    ghost eq = { bytes_eq };

    ghost laws = { partial_equiv_from_equiv nat_list_eq_equiv };

    fn eq(&self, other: &Name) -> bool {
        self.bytes.as_slice() == other.bytes.as_slice()
    }
}

impl Eq for Name {
    ghost laws = { nat_list_eq_equiv };
}

impl Hash for Name {
    ghost hash_input = { fed.slice fed.u8 };

    ghost respects_eq = { λ x y h. ap (fed.slice fed.u8) ((bytes_decides x y).0 h) };

    fn hash<H: Hasher>(&self, state: &mut H) {
        self.bytes.hash(state);
    }
}
