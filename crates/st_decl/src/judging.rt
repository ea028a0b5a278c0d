//! The answers when a text is judged.

ghost use Rattle.std.specs.Prelude.{◌≡◌, List, slice_get};
ghost use Rattle.st_rules.specs.declared.rule.Broken.{Broken};
ghost use Rattle.st_decl.specs.Judgements.{HasChecked, Judges, answer_of};

use st_rules::{Broken, BrokenRules};
use std::alloc::AllocError;
use thiserror::Error;

/// Why a text is not accepted.
#[derive(Clone, Copy, Debug, PartialEq, Eq, Error)]
pub enum CheckError {
    /// A rule is broken. It shows as its number with the place, as `C2 at 38`.
    #[error("{0}")]
    Broken(Broken),
    /// Out of memory.
    #[error("C12")]
    OutOfMemory,
}

/// The answer when a check for one broken rule ended so.
pub fn answered(ended: Result<(), AllocError>, broken: &BrokenRules) -> Result<(), CheckError>
    ensures answer { result ≡ answer_of ended (slice_get broken.now.found.items 0) }
    ensures judged { (faults : List Broken) → HasChecked faults ended broken.now → Judges faults result }
{
    match (broken.first(), ended) {
        (Some(first), _) => Err(CheckError::Broken(first)),
        (None, Ok(())) => Ok(()),
        (None, Err(_)) => Err(CheckError::OutOfMemory),
    }
}
