//! The meanings of codes.

ghost use Rattle.std.specs.Prelude.{◌≡◌, IfOk, IfSome, IfNone, None, find};
ghost use Rattle.source_run.specs.ListedCodes.{codes_like, is_code};
ghost use Rattle.source_run.specs.Spelling.{explanation_text};
ghost use Rattle.plant_main.specs.Jobs.{IsExplained};

use source_run::{Explanation, Fault, explanation, write_explanation};
use std::alloc::{AllocError, Global};

/// The explanation of a code as it is printed; the only error is out of memory.
fn text_of(alloc: Global, entry: &Explanation) -> Result<Vec<u8>, AllocError>
    ensures { IfOk result (λ text. text.items ≡ explanation_text entry.now) }
{
    let mut text = Vec::new(alloc);
    match write_explanation(&mut text, entry) {
        Ok(()) => Ok(text),
        Err(_) => Err(AllocError),
    }
}

/// The meaning of a code, in upper or lower case, as it is printed; none if there is no such code.
pub(crate) fn meaning(alloc: Global, code: &str) -> Result<Option<Vec<u8>>, Fault>
    ensures told { IfOk result (λ text. IfSome text (λ text. IsExplained code.now text.items)) }
    ensures none { IfOk result (λ text. IfNone text (find (is_code code.now) (codes_like code.now) ≡ None)) }
{
    match explanation(code) {
        Some(entry) => Ok(Some(text_of(alloc, entry)?)),
        None => Ok(None),
    }
}
