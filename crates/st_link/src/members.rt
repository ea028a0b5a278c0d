//! Members of a structure or of a block's instance by their names.

ghost use Rattle.std.specs.Prelude.{◌≡◌, List, ℕ, Option, Some, None, if◌then◌else◌, bytes_eq, option_map, OnOk, OnErr};
ghost use Rattle.symbols.specs.Found.{or_found};
ghost use Rattle.st_link.specs.Members.{member_found};

use st_types::Name;
use std::alloc::{AllocError, Global};
use std::collections::BTreeMap;
use symbols::PlaceType;

/// A member: how many slots come before it, 4,097 if they are more than 4,096, and its declared type.
#[derive(Clone, Copy)]
pub struct MemberPlace<'a> {
    pub offset: usize,
    pub declared: PlaceType<'a>,
}

/// The members of one whole; if several have the same name, the first.
pub struct Members<'a> {
    map: BTreeMap<&'a [u8], MemberPlace<'a>>,
}

impl Drop for Members<'_> {
    fn drop(self) {
        let Self { map: _ } = self;
    }
}

impl<'a> Members<'a> {
    pub fn new(alloc: Global) -> Members<'a>
        ensures { (x : List ℕ) → member_found result x ≡ None }
    {
        Members {
            map: BTreeMap::new(alloc),
        }
    }

    /// The member of a name.
    pub fn find(&self, name: &Name) -> Option<MemberPlace<'a>>
        ensures { result ≡ member_found self.now name.now }
    {
        self.map.get(name.as_slice()).copied()
    }

    /// Adds a member after the others.
    pub fn add(&mut self, name: &'a [u8], place: MemberPlace<'a>) -> Result<(), AllocError>
        ensures { OnOk result ((x : List ℕ) → member_found self.new x
            ≡ or_found (member_found self.old x) (if bytes_eq x name.now then Some place.entry else None)) }
    {
        if self.map.get(name).is_none() {
            self.map.insert(name, place)?;
        }
        Ok(())
    }
}
