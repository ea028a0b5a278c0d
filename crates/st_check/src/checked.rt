//! Texts that break no rule.

ghost use Rattle.std.specs.Prelude.{◌≡◌, IfOk, IfErr};
ghost use Rattle.st_types.specs.SourceViews.{source_view};
ghost use Rattle.st_meaning.specs.ResolvedUnits.{resolved_source};
ghost use Rattle.st_rules.specs.Rules.{IsWellTyped, broken};
ghost use Rattle.st_decl.specs.Judgements.{Refuses};
ghost use Rattle.st_check.specs.Checked.{IsChecked, IsCheckedFrom};

use crate::checking::judge;
use st_decl::CheckError;
use st_resolved::resolved_source;
use st_types::Source;
use std::alloc::Global;

/// A text that breaks no rule, resolved: each literal has its type, and each name of a value of an enumerated type is a
/// number of its type.
#[derive(Drop)]
pub struct Checked {
    /// The resolved tree of the text.
    pub source: Source,
    ghost checked: { IsChecked (source_view source) },
}

impl Checked {
    /// The resolved tree of the text.
    pub fn source(&self) -> &Source
        ensures same { result.now ≡ self.now.source }
        ensures checked { IsChecked (source_view result.now) }
    {
        &self.source
    }
}

/// Judges a text by all rules, and resolves it if it breaks none. Else it reports a rule that is broken, with its
/// place, or that memory ran out (C12).
pub fn check(alloc: Global, source: Source) -> Result<Checked, CheckError>
    ensures ok { IfOk result (λ c. IsCheckedFrom (source_view source) (source_view c.source)) }
    ensures well_typed { IfOk result (λ c. IsWellTyped (source_view source)) }
    ensures resolved { IfOk result (λ c. source_view c.source ≡ resolved_source (source_view source)) }
    ensures err { IfErr result (λ e. Refuses (broken (source_view source)) e) }
{
    match judge(alloc, &source) {
        Ok(()) => match resolved_source(alloc, &source) {
            Ok(resolved) => Ok(Checked { source: resolved }),
            Err(_) => Err(CheckError::OutOfMemory),
        },
        Err(error) => Err(error),
    }
}
