//! Whole texts.

ghost use Rattle.std.specs.Prelude.{◌≡◌, []};
ghost use Rattle.st_types.specs.declared.limits.TheConstants.{MAX_DEPTH};
ghost use Rattle.st_types.specs.SourceViews.{element_view, source_view};
ghost use Rattle.st_parse.specs.Parsers.{Reads, each};
ghost use Rattle.st_parse.specs.SourceReading as reading;

use crate::configuration::configuration;
use crate::data_type::types;
use crate::fault::ReadError;
use crate::list::several;
use crate::tokens::refused;
use crate::unit::{function, function_block, program};
use st_lex::{Keyword, Token, TokenKind};
use st_types::{LibraryElement, Source};
use std::alloc::Global;

/// A part of a text, and the tokens after it.
type Found<'a> = Result<(LibraryElement, &'a [Token]), ReadError>;

/// `types_element = types .`
#[tactic(auto, unfolding(crate::specs::SourceReading::types_element_at))]
fn types_element(alloc: Global, tokens: &[Token]) -> Found<'_>
    ensures { Reads element_view result (reading.types_element_at MAX_DEPTH tokens.now) }
{
    let (found, rest) = types(alloc, tokens)?;
    Ok((LibraryElement::Types(found), rest))
}

/// `function_element = function .`
#[tactic(auto, unfolding(crate::specs::SourceReading::function_element_at))]
fn function_element(alloc: Global, tokens: &[Token]) -> Found<'_>
    ensures { Reads element_view result (reading.function_element_at MAX_DEPTH tokens.now) }
{
    let (found, rest) = function(alloc, tokens)?;
    Ok((LibraryElement::Unit(found), rest))
}

/// `block_element = function_block .`
#[tactic(auto, unfolding(crate::specs::SourceReading::block_element_at))]
fn block_element(alloc: Global, tokens: &[Token]) -> Found<'_>
    ensures { Reads element_view result (reading.block_element_at MAX_DEPTH tokens.now) }
{
    let (found, rest) = function_block(alloc, tokens)?;
    Ok((LibraryElement::Unit(found), rest))
}

/// `program_element = program .`
#[tactic(auto, unfolding(crate::specs::SourceReading::program_element_at))]
fn program_element(alloc: Global, tokens: &[Token]) -> Found<'_>
    ensures { Reads element_view result (reading.program_element_at MAX_DEPTH tokens.now) }
{
    let (found, rest) = program(alloc, tokens)?;
    Ok((LibraryElement::Unit(found), rest))
}

/// `configuration_element = configuration .`
#[tactic(auto, unfolding(crate::specs::SourceReading::configuration_element_at))]
fn configuration_element(alloc: Global, tokens: &[Token]) -> Found<'_>
    ensures { Reads element_view result (reading.configuration_element_at MAX_DEPTH tokens.now) }
{
    let (found, rest) = configuration(alloc, tokens)?;
    Ok((LibraryElement::Configuration(found), rest))
}

/// `element = types_element | function_element | block_element | program_element | configuration_element .`
#[tactic(auto, unfolding(crate::specs::SourceReading::element_at))]
fn element(alloc: Global, tokens: &[Token]) -> Found<'_>
    ensures { Reads element_view result (reading.element_at MAX_DEPTH tokens.now) }
{
    let [t, ..] = tokens else {
        return Err(refused(tokens));
    };
    match &t.kind {
        TokenKind::Keyword(Keyword::Type) => types_element(alloc, tokens),
        TokenKind::Keyword(Keyword::Function) => function_element(alloc, tokens),
        TokenKind::Keyword(Keyword::FunctionBlock) => block_element(alloc, tokens),
        TokenKind::Keyword(Keyword::Program) => program_element(alloc, tokens),
        TokenKind::Keyword(Keyword::Configuration) => configuration_element(alloc, tokens),
        _ => Err(refused(tokens)),
    }
}

/// `source = { element } .`
/// All elements up to the last token.
#[tactic(auto, unfolding(crate::specs::SourceReading::source_at, crate::specs::Reading::many))]
pub fn elements(
    alloc: Global,
    tokens: &[Token],
) -> Result<(Vec<LibraryElement>, &[Token]), ReadError>
    ensures { Reads (each element_view) result (reading.source_at MAX_DEPTH tokens.now) }
{
    several(
        Vec::new(alloc),
        tokens,
        |tokens| !tokens.is_empty(),
        |tokens| element(alloc, tokens),
    )
}
