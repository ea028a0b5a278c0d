//! Global variables.

ghost use Rattle.std.specs.Prelude.{◌≡◌, []};
ghost use Rattle.st_types.specs.declared.limits.TheConstants.{MAX_DEPTH};
ghost use Rattle.st_types.specs.ConfigurationViews.{global_names_view, global_declaration_view, global_block_view};
ghost use Rattle.st_parse.specs.Tokens.{is_name, next};
ghost use Rattle.st_parse.specs.Parsers.{Reads, as_is, each, one};
ghost use Rattle.st_parse.specs.Reading.{many, optional};
ghost use Rattle.st_parse.specs.Configurations as specs;
ghost use Rattle.st_parse.specs.ConfigurationReading as reading;

use crate::data_type::{given_or_not, variable_type};
use crate::fault::ReadError;
use crate::list::several;
use crate::names::more_names;
use crate::tokens::{begins_name, keyword, leads, mark, name, refused};
use st_lex::{Keyword, Mark, Token, TokenKind};
use st_types::{Address, GlobalBlock, GlobalDeclaration, GlobalNames, GlobalQualifier, Identifier};
use std::alloc::Global;

type Names<'a> = Result<(GlobalNames, &'a [Token]), ReadError>;

/// `address = Address .`
/// A direct address.
fn address(tokens: &[Token]) -> Result<(Address, &[Token]), ReadError>
    ensures { Reads as_is result (one specs.address tokens.now) }
{
    let [t, rest @ ..] = tokens else {
        return Err(refused(tokens));
    };
    match &t.kind {
        TokenKind::Address(found) => Ok((*found, rest)),
        _ => Err(refused(tokens)),
    }
}

/// `located_of = "AT", address .`
#[tactic(auto, unfolding(crate::specs::ConfigurationReading::located_of))]
fn located_of<'a>(name: Identifier, tokens: &'a [Token]) -> Names<'a>
    ensures { Reads global_names_view result (reading.located_of name tokens.now) }
{
    let (_, rest) = keyword(Keyword::At, tokens)?;
    let (address, rest) = address(rest)?;
    Ok((GlobalNames::Located(name, address), rest))
}

/// `listed_of = more_names .`
#[tactic(auto, unfolding(crate::specs::ConfigurationReading::listed_of))]
fn listed_of<'a>(alloc: Global, first: Identifier, tokens: &'a [Token]) -> Names<'a>
    ensures { Reads global_names_view result (reading.listed_of first tokens.now) }
{
    let (names, rest) = more_names(alloc, first, tokens)?;
    Ok((GlobalNames::Listed(names), rest))
}

/// `global_names = name, ( located_of | listed_of ) .`
#[tactic(auto, unfolding(crate::specs::ConfigurationReading::global_names_at))]
fn global_names(alloc: Global, tokens: &[Token]) -> Names<'_>
    ensures { Reads global_names_view result (reading.global_names_at tokens.now) }
{
    let (first, rest) = name(alloc, tokens)?;
    if leads(Keyword::At, rest) {
        return located_of(first, rest);
    }
    listed_of(alloc, first, rest)
}

/// `global = global_names, ":", type, given_or_not, ";" .`
#[tactic(auto, unfolding(crate::specs::ConfigurationReading::global_at))]
fn global(alloc: Global, tokens: &[Token]) -> Result<(GlobalDeclaration, &[Token]), ReadError>
    ensures { Reads global_declaration_view result (reading.global_at MAX_DEPTH tokens.now) }
{
    let (names, rest) = global_names(alloc, tokens)?;
    let (_, rest) = mark(Mark::Colon, rest)?;
    let (declared, rest) = variable_type(alloc, rest)?;
    let (initial, rest) = given_or_not(alloc, rest)?;
    let (_, rest) = mark(Mark::Semicolon, rest)?;
    let declaration = GlobalDeclaration {
        names,
        declared,
        initial,
    };
    Ok((declaration, rest))
}

/// `globals = { global } .`
#[tactic(auto, unfolding(crate::specs::Reading::many))]
fn globals(alloc: Global, tokens: &[Token]) -> Result<(Vec<GlobalDeclaration>, &[Token]), ReadError>
    ensures { Reads (each global_declaration_view) result (many is_name (reading.global_at MAX_DEPTH) tokens.now) }
{
    several(
        Vec::new(alloc),
        tokens,
        |tokens| begins_name(tokens),
        |tokens| global(alloc, tokens),
    )
}

/// `qualifier = "CONSTANT" | "RETAIN" .`
fn qualifier(tokens: &[Token]) -> Result<(GlobalQualifier, &[Token]), ReadError>
    ensures { Reads as_is result (one specs.qualifier tokens.now) }
{
    let [t, rest @ ..] = tokens else {
        return Err(refused(tokens));
    };
    match &t.kind {
        TokenKind::Keyword(Keyword::Constant) => Ok((GlobalQualifier::Constant, rest)),
        TokenKind::Keyword(Keyword::Retain) => Ok((GlobalQualifier::Retain, rest)),
        _ => Err(refused(tokens)),
    }
}

fn begins_qualifier(tokens: &[Token]) -> bool
    ensures { result ≡ next reading.is_qualifier tokens.now }
{
    leads(Keyword::Constant, tokens) || leads(Keyword::Retain, tokens)
}

/// `qualifier_or_not = [ qualifier ] .`
#[tactic(auto, unfolding(crate::specs::Reading::optional))]
fn qualifier_or_not(tokens: &[Token]) -> Result<(Option<GlobalQualifier>, &[Token]), ReadError>
    ensures { Reads as_is result (optional reading.is_qualifier (one specs.qualifier) tokens.now) }
{
    if !begins_qualifier(tokens) {
        return Ok((None, tokens));
    }
    let (found, rest) = qualifier(tokens)?;
    Ok((Some(found), rest))
}

/// `global_block = "VAR_GLOBAL", qualifier_or_not, globals, "END_VAR" .`
/// A block of global variables, from VAR_GLOBAL to END_VAR.
#[tactic(auto, unfolding(crate::specs::ConfigurationReading::global_block_at))]
pub fn global_block(alloc: Global, tokens: &[Token]) -> Result<(GlobalBlock, &[Token]), ReadError>
    ensures { Reads global_block_view result (reading.global_block_at MAX_DEPTH tokens.now) }
{
    let (_, rest) = keyword(Keyword::VarGlobal, tokens)?;
    let (qualifier, rest) = qualifier_or_not(rest)?;
    let (declarations, rest) = globals(alloc, rest)?;
    let (_, rest) = keyword(Keyword::EndVar, rest)?;
    let block = GlobalBlock {
        qualifier,
        declarations,
    };
    Ok((block, rest))
}
