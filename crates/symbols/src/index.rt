//! A table of names.

ghost use Rattle.std.specs.Prelude.{◌≡◌, List, ℕ, Option, Some, None, if◌then◌else◌, bytes_eq, option_map, OnOk, OnErr};
ghost use Rattle.symbols.specs.Found.{found, or_found};

use st_types::Name;
use std::alloc::{AllocError, Global};
use std::collections::BTreeMap;

/// The meaning of each name; if several entries have one name, the first.
pub struct Index<'a, T> {
    map: BTreeMap<&'a [u8], T>,
}

impl<'a, T: Drop> Drop for Index<'a, T> {
    fn drop(self) {
        let Self { map: _ } = self;
    }
}

impl<'a, T: Drop> Index<'a, T> {
    /// An index without names.
    pub fn new(alloc: Global) -> Index<'a, T>
        ensures { (q : List ℕ) → found result q ≡ None }
    {
        Index {
            map: BTreeMap::new(alloc),
        }
    }

    /// The meaning of the name, if it is kept.
    pub fn get(&self, name: &Name) -> Option<&T>
        ensures { option_map (λ v. v.now) result ≡ found self.now name.now }
    {
        self.map.get(name.as_slice())
    }

    /// Adds an entry after the others.
    pub fn add(&mut self, name: &'a Name, value: T) -> Result<(), AllocError>
        ensures added { OnOk result ((q : List ℕ) → found self.new q
            ≡ or_found (found self.old q) (if bytes_eq q name.now then Some value else None)) }
        ensures err { OnErr result ((q : List ℕ) → found self.new q ≡ found self.old q) }
    {
        if self.get(name).is_none() {
            self.map.insert(name.as_slice(), value)?;
        }
        Ok(())
    }
}

impl<'a, T: Copy> Index<'a, T> {
    /// The meaning of the name.
    pub fn find(&self, name: &Name) -> Option<T>
        ensures { result ≡ found self.now name.now }
    {
        self.map.get(name.as_slice()).copied()
    }
}
