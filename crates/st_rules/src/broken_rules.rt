//! Broken rules, collected one after another.

ghost use Rattle.std.specs.Prelude.{◌≡◌, ◌≤◌, [], slice_get, vec_capacity, IfOk};
ghost use Rattle.std.specs.List.{IsDistinct};
ghost use Rattle.std.proofs.Props.{props};
ghost use Rattle.st_rules.specs.Equality.{same_broken};

use crate::rule::Broken;
use std::alloc::{AllocError, Global};

/// The broken rules that a check found, each once, with room for the number that its caller asks for. If it is full, further
/// ones are left out. Adding takes no memory.
#[derive(Drop)]
pub struct BrokenRules {
    pub(crate) found: Vec<Broken>,
    pub(crate) room: usize,
    ghost is_reserved: { room ≤ vec_capacity found },
    ghost each_once: { IsDistinct same_broken found.items } by { Prim.hlevel props },
}

impl BrokenRules {
    /// None yet, with room for a number of them.
    pub fn with_room(alloc: Global, room: usize) -> Result<BrokenRules, AllocError>
        ensures found { IfOk result (λ it. it.found.items ≡ []) }
        ensures room { IfOk result (λ it. it.room ≡ room) }
    {
        let found = Vec::with_capacity(alloc, room)?;
        Ok(BrokenRules { found, room })
    }

    /// Those that were found, in the order in which they were.
    pub fn found(&self) -> &[Broken]
        ensures { result.now ≡ self.now.found.items }
    {
        &self.found
    }

    /// The one that was found first.
    pub fn first(&self) -> Option<Broken>
        ensures { result ≡ slice_get self.now.found.items 0 }
    {
        self.found.first().copied()
    }
}
