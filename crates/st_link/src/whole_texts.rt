//! A whole text linked.

ghost use Rattle.std.specs.Prelude.{◌≡◌, ◌≤◌, None, Some, length, map, option_map, IfErr, IfOk};
ghost use Rattle.st_types.specs.declared.limits.TheConstants.{MAX_PATHS};
ghost use Rattle.st_types.specs.Sources as trees;
ghost use Rattle.st_types.specs.ConfigurationViews.{configuration_view};
ghost use Rattle.st_types.specs.SourceViews.{source_view};
ghost use Rattle.st_meaning.specs.ResolvedUnits.{resolved_source};
ghost use Rattle.layout.specs.TextLayouts.{slots_of_text};
ghost use Rattle.layout.specs.Instances.{instance_view};
ghost use Rattle.st_link.specs.Accepted.{IsAccepted, IsLinked};
ghost use Rattle.st_link.specs.CalledFunctions.{is_called};
ghost use Rattle.st_link.specs.Linked.{linked_text_view};
ghost use Rattle.st_link.specs.LinkVariables.{variable_view};
ghost use Rattle.st_link.specs.Orderly.{IsOrderlySource, globals_in, instances_of, kept_of};

use crate::called_functions::CalledFunctions;
use crate::libraries::link_library;
use crate::link_error::LinkError;
use crate::linked_text::LinkedText;
use crate::links::texts_that_break_no_rule_are_linked;
use crate::programs::link_programs;
use crate::text_tables::TextTables;
use crate::variables::{Variable, variables_of_globals};
use layout::{ProgramInstance, instances_in, leaves_of_shapes, only_configuration};
use st_decl::units_in;
use st_types::{Configuration, Source};
use std::alloc::{AllocError, Global};

fn globals_in<'a>(
    alloc: Global,
    configuration: Option<&'a Configuration>,
) -> Result<Vec<Variable<'a>>, AllocError>
    ensures { IfOk result (λ variables. map variable_view variables.items
        ≡ globals_in (option_map (λ c. configuration_view c.now) configuration.entry)) }
{
    match configuration {
        Some(configuration) => variables_of_globals(alloc, &configuration.globals),
        None => Ok(Vec::new(alloc)),
    }
}

fn instances_of<'a>(
    alloc: Global,
    configuration: Option<&'a Configuration>,
) -> Result<Vec<ProgramInstance<'a>>, AllocError>
    ensures { IfOk result (λ instances. map instance_view instances.items
        ≡ instances_of (option_map (λ c. configuration_view c.now) configuration.entry)) }
{
    match configuration {
        Some(configuration) => instances_in(alloc, &configuration.resources),
        None => Ok(Vec::new(alloc)),
    }
}

/// A text linked, from its tree in which each literal has its type.
fn link_source(
    alloc: Global,
    source: &Source,
    called: &CalledFunctions<'_>,
) -> Result<LinkedText, LinkError>
    ensures linked { IfOk result (λ linked. IsOrderlySource (source_view source.now)
        → kept_of (is_called called.now) (source_view source.now) ≡ Some (linked_text_view linked)) }
    ensures none { IfErr result (λ e. e ≡ LinkError.NotThere → IsOrderlySource (source_view source.now)
        → kept_of (is_called called.now) (source_view source.now) ≡ None) }
{
    let configuration = only_configuration(source);
    let globals = globals_in(alloc, configuration)?;
    let instances = instances_of(alloc, configuration)?;
    let tables = TextTables::new(alloc, source, &globals)?;
    let units = units_in(alloc, source)?;
    let library = link_library(alloc, &tables, called, &units)?;
    let programs = link_programs(alloc, &tables, &instances)?;
    Ok(LinkedText { library, programs })
}

/// An accepted text whose layout has room meets the conditions for its tables.
pub fn accepted_texts_are_orderly()
    ensures { (text : trees.Source) → IsAccepted text → length (slots_of_text text) ≤ MAX_PATHS
        → IsOrderlySource (resolved_source text) }
{
    leaves_of_shapes();
    texts_that_break_no_rule_are_linked();
}

/// An accepted text linked, from its tree in which each literal has its type.
///
/// The result has the functions and the blocks of the text in its order, and the programs of the configuration's
/// instances in its order. A function is left out, and None stands for it, exactly when it isn't called or its own
/// variables are more than any layout has room for; a block exactly when its own variables are. If the text's layout
/// has room, the only error is a failed allocation.
pub fn link(
    alloc: Global,
    source: &Source,
    called: &CalledFunctions<'_>,
) -> Result<LinkedText, LinkError>
    ensures ok { IfOk result (λ linked. (text : trees.Source) → source_view source.now ≡ resolved_source text
        → IsAccepted text → length (slots_of_text text) ≤ MAX_PATHS → IsLinked text (is_called called.now) (linked_text_view linked)) }
    ensures memory { IfErr result (λ e. (text : trees.Source) → source_view source.now ≡ resolved_source text
        → IsAccepted text → length (slots_of_text text) ≤ MAX_PATHS → e ≡ LinkError.OutOfMemory) }
{
    leaves_of_shapes();
    texts_that_break_no_rule_are_linked();
    link_source(alloc, source, called)
}
