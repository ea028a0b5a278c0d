//! Configurations.

ghost use Rattle.std.specs.Prelude.{◌≡◌, ◌∷◌, []};
ghost use Rattle.st_types.specs.declared.limits.TheConstants.{MAX_DEPTH};
ghost use Rattle.st_lex.specs.declared.keyword.Keyword.TheVariants as keywords;
ghost use Rattle.st_types.specs.ConfigurationViews.{global_block_view, resource_view, configuration_view};
ghost use Rattle.st_parse.specs.Tokens.{is_keyword};
ghost use Rattle.st_parse.specs.Parsers.{Reads, each};
ghost use Rattle.st_parse.specs.Reading.{many, at_least_one};
ghost use Rattle.st_parse.specs.ConfigurationReading as reading;

use crate::fault::ReadError;
use crate::global::global_block;
use crate::list::several;
use crate::resource::resource;
use crate::tokens::{keyword, leads, name};
use st_lex::{Keyword, Token};
use st_types::{Configuration, GlobalBlock, Resource};
use std::alloc::Global;

/// `global_blocks = { global_block } .`
#[tactic(auto, unfolding(crate::specs::Reading::many))]
fn global_blocks(alloc: Global, tokens: &[Token]) -> Result<(Vec<GlobalBlock>, &[Token]), ReadError>
    ensures { Reads (each global_block_view) result
        (many (is_keyword keywords.VarGlobal) (reading.global_block_at MAX_DEPTH) tokens.now) }
{
    several(
        Vec::new(alloc),
        tokens,
        |tokens| leads(Keyword::VarGlobal, tokens),
        |tokens| global_block(alloc, tokens),
    )
}

/// `resources = resource, { resource } .`
#[tactic(auto, unfolding(crate::specs::Reading::at_least_one))]
fn resources(alloc: Global, tokens: &[Token]) -> Result<(Vec<Resource>, &[Token]), ReadError>
    ensures { Reads (each resource_view) result
        (at_least_one (is_keyword keywords.Resource) reading.resource_at tokens.now) }
{
    let (first, rest) = resource(alloc, tokens)?;
    let mut found = Vec::new(alloc);
    found.push(first)?;
    several(
        found,
        rest,
        |tokens| leads(Keyword::Resource, tokens),
        |tokens| resource(alloc, tokens),
    )
}

/// `configuration = "CONFIGURATION", name, global_blocks, resources, "END_CONFIGURATION" .`
/// A configuration, from CONFIGURATION to END_CONFIGURATION.
#[tactic(auto, unfolding(crate::specs::ConfigurationReading::configuration_at))]
pub fn configuration(
    alloc: Global,
    tokens: &[Token],
) -> Result<(Configuration, &[Token]), ReadError>
    ensures { Reads configuration_view result (reading.configuration_at MAX_DEPTH tokens.now) }
{
    let (_, rest) = keyword(Keyword::Configuration, tokens)?;
    let (configuration, rest) = name(alloc, rest)?;
    let (globals, rest) = global_blocks(alloc, rest)?;
    let (resources, rest) = resources(alloc, rest)?;
    let (_, rest) = keyword(Keyword::EndConfiguration, rest)?;
    let configuration = Configuration {
        name: configuration,
        globals,
        resources,
    };
    Ok((configuration, rest))
}
