//! Names that the standard takes.

ghost use Rattle.std.specs.Prelude.{◌≡◌, is_some};
ghost use Rattle.st_meaning.specs.StandardBlocks.{block_of};
ghost use Rattle.st_meaning.specs.StandardFunctions.{standard_of};
ghost use Rattle.st_rules.specs.TwiceDeclared.{is_standard};

use st_types::Name;
use symbols::{standard_block, standard_function};

/// Whether the name is one of a standard block.
#[tactic(auto, using(crate::proofs::StandardLemmas::is_some_seen))]
pub fn is_block(name: &Name) -> bool
    ensures { result ≡ is_some (block_of name.now) }
{
    standard_block(name).is_some()
}

#[tactic(auto, using(crate::proofs::StandardLemmas::is_some_seen))]
fn is_function(name: &Name) -> bool
    ensures { result ≡ is_some (standard_of name.now) }
{
    standard_function(name).is_some()
}

/// Whether the name is one of a standard function or block.
pub fn is_standard(name: &Name) -> bool
    ensures { result ≡ is_standard name.now }
{
    is_block(name) || is_function(name)
}
