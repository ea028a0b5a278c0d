//! The words that a block of variables begins with.

ghost use Rattle.std.specs.Prelude.{◌≡◌};
ghost use Rattle.st_lex.specs.declared.keyword.Keyword.TheVariants as keywords;
ghost use Rattle.st_parse.specs.Tokens.{next};
ghost use Rattle.st_parse.specs.Parsers.{Reads, as_is, one};
ghost use Rattle.st_parse.specs.Units as specs;
ghost use Rattle.st_parse.specs.UnitReading as reading;

use crate::fault::ReadError;
use crate::tokens::{keyword, leads, refused};
use st_lex::{Keyword, Token, TokenKind};
use st_types::{Retention, Section};

/// A section, and the tokens after it.
type Found<'a> = Result<(Section, &'a [Token]), ReadError>;

/// `retention = "RETAIN" | "NON_RETAIN" .`
fn retention(tokens: &[Token]) -> Result<(Retention, &[Token]), ReadError>
    ensures { Reads as_is result (one specs.retention tokens.now) }
{
    let [t, rest @ ..] = tokens else {
        return Err(refused(tokens));
    };
    match &t.kind {
        TokenKind::Keyword(Keyword::Retain) => Ok((Retention::Retain, rest)),
        TokenKind::Keyword(Keyword::NonRetain) => Ok((Retention::NonRetain, rest)),
        _ => Err(refused(tokens)),
    }
}

/// Whether RETAIN or NON_RETAIN comes next.
fn begins_retention(tokens: &[Token]) -> bool
    ensures { result ≡ next reading.is_retention tokens.now }
{
    leads(Keyword::Retain, tokens) || leads(Keyword::NonRetain, tokens)
}

/// `retention_or_not = [ retention ] .`
#[tactic(auto, unfolding(crate::specs::UnitReading::retention_or_not, crate::specs::Reading::optional))]
fn retention_or_not(tokens: &[Token]) -> Result<(Option<Retention>, &[Token]), ReadError>
    ensures { Reads as_is result (reading.retention_or_not tokens.now) }
{
    if !begins_retention(tokens) {
        return Ok((None, tokens));
    }
    let (found, rest) = retention(tokens)?;
    Ok((Some(found), rest))
}

/// `constant_of = "CONSTANT" .`
/// The section, after CONSTANT.
#[tactic(auto, unfolding(crate::specs::UnitReading::constant_of))]
fn constant_of(section: Section, tokens: &[Token]) -> Found<'_>
    ensures { Reads as_is result (reading.constant_of section tokens.now) }
{
    let (_, rest) = keyword(Keyword::Constant, tokens)?;
    Ok((section, rest))
}

/// `function_section = "VAR_INPUT" | "VAR", [ constant_of ] .`
/// In a function.
#[tactic(auto, unfolding(crate::specs::UnitReading::function_section_at, crate::specs::UnitReading::function_input_at, crate::specs::UnitReading::function_own_at))]
pub fn function_section(tokens: &[Token]) -> Found<'_>
    ensures { Reads as_is result (reading.function_section_at tokens.now) }
{
    if leads(Keyword::VarInput, tokens) {
        let (_, rest) = keyword(Keyword::VarInput, tokens)?;
        return Ok((Section::Input(None), rest));
    }
    let (_, rest) = keyword(Keyword::Var, tokens)?;
    if leads(Keyword::Constant, rest) {
        return constant_of(Section::Constant, rest);
    }
    Ok((Section::Local(None), rest))
}

/// `own_section = "VAR", ( constant_of | retention_or_not ) .`
/// A unit's own variables, in a program or a function block.
#[tactic(auto, unfolding(crate::specs::UnitReading::own_section_at, crate::specs::UnitReading::local_at))]
pub fn own_section(tokens: &[Token]) -> Found<'_>
    ensures { Reads as_is result (reading.own_section_at tokens.now) }
{
    let (_, rest) = keyword(Keyword::Var, tokens)?;
    if leads(Keyword::Constant, rest) {
        return constant_of(Section::Constant, rest);
    }
    let (retention, rest) = retention_or_not(rest)?;
    Ok((Section::Local(retention), rest))
}

/// `block_section = ( "VAR_INPUT" | "VAR_OUTPUT" ), retention_or_not | own_section .`
/// In a function block.
#[tactic(auto, unfolding(crate::specs::UnitReading::block_section_at, crate::specs::UnitReading::input_section_at, crate::specs::UnitReading::output_section_at))]
pub fn block_section(tokens: &[Token]) -> Found<'_>
    ensures { Reads as_is result (reading.block_section_at tokens.now) }
{
    if leads(Keyword::VarInput, tokens) {
        let (_, rest) = keyword(Keyword::VarInput, tokens)?;
        let (retention, rest) = retention_or_not(rest)?;
        return Ok((Section::Input(retention), rest));
    }
    if leads(Keyword::VarOutput, tokens) {
        let (_, rest) = keyword(Keyword::VarOutput, tokens)?;
        let (retention, rest) = retention_or_not(rest)?;
        return Ok((Section::Output(retention), rest));
    }
    own_section(tokens)
}

/// `external_section = "VAR_EXTERNAL", [ constant_of ] .`
/// Globals that a unit names.
#[tactic(auto, unfolding(crate::specs::UnitReading::external_section_at))]
pub fn external_section(tokens: &[Token]) -> Found<'_>
    ensures { Reads as_is result (reading.external_section_at tokens.now) }
{
    let (_, rest) = keyword(Keyword::VarExternal, tokens)?;
    if leads(Keyword::Constant, rest) {
        return constant_of(Section::ConstantExternal, rest);
    }
    Ok((Section::External, rest))
}
