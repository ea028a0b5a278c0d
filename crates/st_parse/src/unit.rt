//! Functions, function blocks and programs.

ghost use Rattle.std.specs.Prelude.{◌≡◌};
ghost use Rattle.st_types.specs.declared.limits.TheConstants.{MAX_DEPTH};
ghost use Rattle.st_types.specs.UnitViews.{unit_view};
ghost use Rattle.st_parse.specs.Parsers.{Reads};
ghost use Rattle.st_parse.specs.UnitReading as reading;

use crate::block::{function_blocks, program_blocks, variable_blocks};
use crate::data_type::simple;
use crate::fault::ReadError;
use crate::reader::read_statements;
use crate::tokens::{keyword, mark, name};
use st_lex::{Keyword, Mark, Token};
use st_types::{Unit, UnitSort};
use std::alloc::Global;

/// A unit, and the tokens after it.
type Found<'a> = Result<(Unit, &'a [Token]), ReadError>;

/// `function = "FUNCTION", name, ":", simple, function_blocks, stmts, "END_FUNCTION" .`
/// A function.
#[tactic(auto, unfolding(crate::specs::UnitReading::function_at))]
pub fn function(alloc: Global, tokens: &[Token]) -> Found<'_>
    ensures { Reads unit_view result (reading.function_at MAX_DEPTH tokens.now) }
{
    let (_, rest) = keyword(Keyword::Function, tokens)?;
    let (name, rest) = name(alloc, rest)?;
    let (_, rest) = mark(Mark::Colon, rest)?;
    let (result, rest) = simple(alloc, rest)?;
    let (blocks, rest) = function_blocks(alloc, rest)?;
    let (body, rest) = read_statements(alloc, rest)?;
    let (_, rest) = keyword(Keyword::EndFunction, rest)?;
    let unit = Unit {
        sort: UnitSort::Function(result),
        name,
        blocks,
        body,
    };
    Ok((unit, rest))
}

/// `function_block = "FUNCTION_BLOCK", name, variable_blocks, stmts, "END_FUNCTION_BLOCK" .`
/// A function block.
#[tactic(auto, unfolding(crate::specs::UnitReading::function_block_unit_at))]
pub fn function_block(alloc: Global, tokens: &[Token]) -> Found<'_>
    ensures { Reads unit_view result (reading.function_block_unit_at MAX_DEPTH tokens.now) }
{
    let (_, rest) = keyword(Keyword::FunctionBlock, tokens)?;
    let (name, rest) = name(alloc, rest)?;
    let (blocks, rest) = variable_blocks(alloc, rest)?;
    let (body, rest) = read_statements(alloc, rest)?;
    let (_, rest) = keyword(Keyword::EndFunctionBlock, rest)?;
    let unit = Unit {
        sort: UnitSort::FunctionBlock,
        name,
        blocks,
        body,
    };
    Ok((unit, rest))
}

/// `program = "PROGRAM", name, program_blocks, stmts, "END_PROGRAM" .`
/// A program.
#[tactic(auto, unfolding(crate::specs::UnitReading::program_at))]
pub fn program(alloc: Global, tokens: &[Token]) -> Found<'_>
    ensures { Reads unit_view result (reading.program_at MAX_DEPTH tokens.now) }
{
    let (_, rest) = keyword(Keyword::Program, tokens)?;
    let (name, rest) = name(alloc, rest)?;
    let (blocks, rest) = program_blocks(alloc, rest)?;
    let (body, rest) = read_statements(alloc, rest)?;
    let (_, rest) = keyword(Keyword::EndProgram, rest)?;
    let unit = Unit {
        sort: UnitSort::Program,
        name,
        blocks,
        body,
    };
    Ok((unit, rest))
}
