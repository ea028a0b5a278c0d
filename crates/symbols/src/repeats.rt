//! Names that occur twice in a scope.

ghost use Rattle.std.specs.Prelude.{◌≡◌, List, ℕ, map, is_some, IfOk};
ghost use Rattle.std.specs.List.{list_any};
ghost use Rattle.st_meaning.specs.NameTypes.{is_named};
ghost use Rattle.symbols.specs.Found.{found};
ghost use Rattle.st_rules.specs.Places.{repeats};
ghost use Rattle.symbols.specs.Searches.{FindsPlace};

use crate::index::Index;
use st_types::Identifier;
use std::alloc::{AllocError, Global};

/// The first place at which a name of the list occurs again.
pub fn first_repeat(alloc: Global, names: &[&Identifier]) -> Result<Option<usize>, AllocError>
    ensures { IfOk result (λ place. FindsPlace (repeats (map (λ x. x.now) names.now)) place) }
{
    let mut seen = Index::new(alloc);
    for identifier in names {
        if seen.find(&identifier.name).is_some() {
            return Ok(Some(identifier.place));
        }
        seen.add(&identifier.name, ())?;
    }
    Ok(None)
}

/// An index that has these names, and no others.
pub fn index_of<'a>(alloc: Global, names: &[&'a Identifier]) -> Result<Index<'a, ()>, AllocError>
    ensures { IfOk result (λ index. (q : List ℕ)
        → is_some (found index q) ≡ list_any (is_named q) (map (λ x. x.now) names.now)) }
{
    let mut index = Index::new(alloc);
    for identifier in names {
        index.add(&identifier.name, ())?;
    }
    Ok(index)
}
