//! The tree of a text.

ghost use Rattle.std.specs.Prelude.{IfOk, IfErr};
ghost use Rattle.st_types.specs.declared.limits.TheConstants.{MAX_DEPTH};
ghost use Rattle.st_types.specs.Sources as tree;
ghost use Rattle.st_types.specs.SourceViews.{source_view};
ghost use Rattle.st_parse.specs.Sources.{IsSource};
ghost use Rattle.st_parse.specs.Depths.{SourceWithin};
ghost use Rattle.st_parse.specs.Answers.{Refused, Answers};

use crate::fault::ParseError;
use crate::place::parse_error;
use crate::source::elements;
use st_lex::Token;
use st_types::Source;
use std::alloc::Global;

/// The tree of a text from its tokens.
///
/// P1 at the first byte of a token with which the tokens so far no longer begin any text of the grammar, or at the end
/// of the last token if the tokens end too early. P2 if an expression, a statement or an initial value would be deeper
/// than 64. P3 if an allocation fails.
pub fn parse(alloc: Global, tokens: &[Token]) -> Result<Source, ParseError>
    ensures found { IfOk result
        (λ parsed. IsSource tokens.now (source_view parsed) × SourceWithin MAX_DEPTH (source_view parsed)) }
    // A text of the grammar has no other tree.
    ensures only { (source : tree.Source) → IsSource tokens.now source → SourceWithin MAX_DEPTH source
        → Answers source result }
    ensures refused { IfErr result (λ error. Refused tokens.now error) }
{
    match elements(alloc, tokens) {
        Ok((elements, _)) => Ok(Source { elements }),
        Err(error) => Err(parse_error(tokens, error)),
    }
}
