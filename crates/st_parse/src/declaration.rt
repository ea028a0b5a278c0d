//! Declarations of variables.

ghost use Rattle.std.specs.Prelude.{◌≡◌, []};
ghost use Rattle.st_types.specs.declared.limits.TheConstants.{MAX_DEPTH};
ghost use Rattle.st_types.specs.DeclarationViews.{declaration_view};
ghost use Rattle.st_parse.specs.Tokens.{is_name};
ghost use Rattle.st_parse.specs.Parsers.{Reads, each};
ghost use Rattle.st_parse.specs.Reading.{many};
ghost use Rattle.st_parse.specs.UnitReading as reading;

use crate::data_type::{given_or_not, variable_type};
use crate::fault::ReadError;
use crate::list::several;
use crate::names::names;
use crate::tokens::{begins_name, mark};
use st_lex::{Mark, Token};
use st_types::Declaration;
use std::alloc::Global;

type Declarations<'a> = Result<(Vec<Declaration>, &'a [Token]), ReadError>;

/// `declaration = names, ":", type, given_or_not, ";" .`
/// Names of one type, with an initial value or without.
#[tactic(auto, unfolding(crate::specs::UnitReading::declaration_at))]
fn declaration(alloc: Global, tokens: &[Token]) -> Result<(Declaration, &[Token]), ReadError>
    ensures { Reads declaration_view result (reading.declaration_at MAX_DEPTH tokens.now) }
{
    let (names, rest) = names(alloc, tokens)?;
    let (_, rest) = mark(Mark::Colon, rest)?;
    let (declared, rest) = variable_type(alloc, rest)?;
    let (initial, rest) = given_or_not(alloc, rest)?;
    let (_, rest) = mark(Mark::Semicolon, rest)?;
    let declaration = Declaration {
        names,
        declared,
        initial,
    };
    Ok((declaration, rest))
}

/// `external = names, ":", type, ";" .`
/// Names of one type, without an initial value.
#[tactic(auto, unfolding(crate::specs::UnitReading::external_at))]
fn external(alloc: Global, tokens: &[Token]) -> Result<(Declaration, &[Token]), ReadError>
    ensures { Reads declaration_view result (reading.external_at tokens.now) }
{
    let (names, rest) = names(alloc, tokens)?;
    let (_, rest) = mark(Mark::Colon, rest)?;
    let (declared, rest) = variable_type(alloc, rest)?;
    let (_, rest) = mark(Mark::Semicolon, rest)?;
    let declaration = Declaration {
        names,
        declared,
        initial: None,
    };
    Ok((declaration, rest))
}

/// `declarations = { declaration } .`
/// Any number of declarations.
#[tactic(auto, unfolding(crate::specs::Reading::many))]
pub fn declarations(alloc: Global, tokens: &[Token]) -> Declarations<'_>
    ensures { Reads (each declaration_view) result (many is_name (reading.declaration_at MAX_DEPTH) tokens.now) }
{
    several(
        Vec::new(alloc),
        tokens,
        |tokens| begins_name(tokens),
        |tokens| declaration(alloc, tokens),
    )
}

/// `externals = { external } .`
/// Any number of declarations of externals.
#[tactic(auto, unfolding(crate::specs::Reading::many))]
pub fn externals(alloc: Global, tokens: &[Token]) -> Declarations<'_>
    ensures { Reads (each declaration_view) result (many is_name reading.external_at tokens.now) }
{
    several(
        Vec::new(alloc),
        tokens,
        |tokens| begins_name(tokens),
        |tokens| external(alloc, tokens),
    )
}
