//! Blocks of variables, from their first word to END_VAR.

ghost use Rattle.std.specs.Prelude.{◌≡◌, []};
ghost use Rattle.st_types.specs.declared.limits.TheConstants.{MAX_DEPTH};
ghost use Rattle.st_types.specs.DeclarationViews.{variable_block_view};
ghost use Rattle.st_parse.specs.Tokens.{next};
ghost use Rattle.st_parse.specs.Parsers.{Reads, each};
ghost use Rattle.st_parse.specs.Reading.{many};
ghost use Rattle.st_parse.specs.UnitReading as reading;

use crate::declaration::{declarations, externals};
use crate::fault::ReadError;
use crate::list::several;
use crate::section::{block_section, external_section, function_section, own_section};
use crate::tokens::{keyword, leads};
use st_lex::{Keyword, Token};
use st_types::VariableBlock;
use std::alloc::Global;

type Block<'a> = Result<(VariableBlock, &'a [Token]), ReadError>;

type Blocks<'a> = Result<(Vec<VariableBlock>, &'a [Token]), ReadError>;

/// `function_block = function_section, declarations, "END_VAR" .`
#[tactic(auto, unfolding(crate::specs::UnitReading::function_block_at, crate::specs::UnitReading::block_at))]
fn function_block(alloc: Global, tokens: &[Token]) -> Block<'_>
    ensures { Reads variable_block_view result (reading.function_block_at MAX_DEPTH tokens.now) }
{
    let (section, rest) = function_section(tokens)?;
    let (declarations, rest) = declarations(alloc, rest)?;
    let (_, rest) = keyword(Keyword::EndVar, rest)?;
    let block = VariableBlock {
        section,
        declarations,
    };
    Ok((block, rest))
}

/// `external_block = external_section, externals, "END_VAR" .`
#[tactic(auto, unfolding(crate::specs::UnitReading::external_block_at, crate::specs::UnitReading::block_at))]
fn external_block(alloc: Global, tokens: &[Token]) -> Block<'_>
    ensures { Reads variable_block_view result (reading.external_block_at tokens.now) }
{
    let (section, rest) = external_section(tokens)?;
    let (declarations, rest) = externals(alloc, rest)?;
    let (_, rest) = keyword(Keyword::EndVar, rest)?;
    let block = VariableBlock {
        section,
        declarations,
    };
    Ok((block, rest))
}

/// `program_block = external_block | own_section, declarations, "END_VAR" .`
#[tactic(auto, unfolding(crate::specs::UnitReading::program_block_at, crate::specs::UnitReading::block_at))]
fn program_block(alloc: Global, tokens: &[Token]) -> Block<'_>
    ensures { Reads variable_block_view result (reading.program_block_at MAX_DEPTH tokens.now) }
{
    if leads(Keyword::VarExternal, tokens) {
        return external_block(alloc, tokens);
    }
    let (section, rest) = own_section(tokens)?;
    let (declarations, rest) = declarations(alloc, rest)?;
    let (_, rest) = keyword(Keyword::EndVar, rest)?;
    let block = VariableBlock {
        section,
        declarations,
    };
    Ok((block, rest))
}

/// `variable_block = external_block | block_section, declarations, "END_VAR" .`
#[tactic(auto, unfolding(crate::specs::UnitReading::variable_block_at, crate::specs::UnitReading::block_at))]
fn variable_block(alloc: Global, tokens: &[Token]) -> Block<'_>
    ensures { Reads variable_block_view result (reading.variable_block_at MAX_DEPTH tokens.now) }
{
    if leads(Keyword::VarExternal, tokens) {
        return external_block(alloc, tokens);
    }
    let (section, rest) = block_section(tokens)?;
    let (declarations, rest) = declarations(alloc, rest)?;
    let (_, rest) = keyword(Keyword::EndVar, rest)?;
    let block = VariableBlock {
        section,
        declarations,
    };
    Ok((block, rest))
}

fn begins_in_function(tokens: &[Token]) -> bool
    ensures { result ≡ next reading.starts_function_section tokens.now }
{
    leads(Keyword::VarInput, tokens) || leads(Keyword::Var, tokens)
}

fn begins_in_program(tokens: &[Token]) -> bool
    ensures { result ≡ next reading.starts_program_section tokens.now }
{
    leads(Keyword::Var, tokens) || leads(Keyword::VarExternal, tokens)
}

fn begins_in_block(tokens: &[Token]) -> bool
    ensures { result ≡ next reading.starts_block_section tokens.now }
{
    leads(Keyword::VarInput, tokens)
        || leads(Keyword::VarOutput, tokens)
        || begins_in_program(tokens)
}

/// `function_blocks = { function_block } .`
/// The blocks of a function.
#[tactic(auto, unfolding(crate::specs::Reading::many))]
pub fn function_blocks(alloc: Global, tokens: &[Token]) -> Blocks<'_>
    ensures { Reads (each variable_block_view) result
        (many reading.starts_function_section (reading.function_block_at MAX_DEPTH) tokens.now) }
{
    several(
        Vec::new(alloc),
        tokens,
        |tokens| begins_in_function(tokens),
        |tokens| function_block(alloc, tokens),
    )
}

/// `program_blocks = { program_block } .`
/// The blocks of a program.
#[tactic(auto, unfolding(crate::specs::Reading::many))]
pub fn program_blocks(alloc: Global, tokens: &[Token]) -> Blocks<'_>
    ensures { Reads (each variable_block_view) result
        (many reading.starts_program_section (reading.program_block_at MAX_DEPTH) tokens.now) }
{
    several(
        Vec::new(alloc),
        tokens,
        |tokens| begins_in_program(tokens),
        |tokens| program_block(alloc, tokens),
    )
}

/// `variable_blocks = { variable_block } .`
/// The blocks of a function block.
#[tactic(auto, unfolding(crate::specs::Reading::many))]
pub fn variable_blocks(alloc: Global, tokens: &[Token]) -> Blocks<'_>
    ensures { Reads (each variable_block_view) result
        (many reading.starts_block_section (reading.variable_block_at MAX_DEPTH) tokens.now) }
{
    several(
        Vec::new(alloc),
        tokens,
        |tokens| begins_in_block(tokens),
        |tokens| variable_block(alloc, tokens),
    )
}
