//! Configurations with their globals.

ghost use Rattle.std.specs.Prelude.{◌≡◌, IfOk, map};
ghost use Rattle.st_types.specs.ConfigurationViews.{global_declaration_view, global_block_view, configuration_view};
ghost use Rattle.st_meaning.specs.NameTypes.{Declared};
ghost use Rattle.st_meaning.specs.ResolvedUnits.{resolved_global, resolved_globals, resolved_element_of_text};
ghost use Rattle.st_types.specs.Sources.{configuration};
ghost use Rattle.symbols.specs.Fields.{ServesFields};
ghost use Rattle.symbols.specs.Tables.{ServesTables};

use crate::copies::{copied_global_names, copied_resources};
use crate::declarations::{resolved_start, resolved_type};
use st_types::{Configuration, GlobalBlock, GlobalDeclaration};
use std::alloc::{AllocError, Global};
use symbols::{FieldNames, TextTables};

fn resolved_global<'a>(
    alloc: Global,
    tables: &TextTables<'a>,
    fields: &FieldNames<'a>,
    declaration: &'a GlobalDeclaration,
) -> Result<GlobalDeclaration, AllocError>
    ensures { IfOk result (λ d. (text : Declared) → ServesTables tables.now text → ServesFields fields.now text
        → global_declaration_view d ≡ resolved_global text (global_declaration_view declaration.now)) }
{
    let declared = &declaration.declared;
    Ok(GlobalDeclaration {
        names: copied_global_names(alloc, &declaration.names)?,
        declared: resolved_type(alloc, declared)?,
        initial: resolved_start(alloc, tables, fields, declared, &declaration.initial)?,
    })
}

fn resolved_block<'a>(
    alloc: Global,
    tables: &TextTables<'a>,
    fields: &FieldNames<'a>,
    declarations: &'a [GlobalDeclaration],
) -> Result<Vec<GlobalDeclaration>, AllocError>
    ensures { IfOk result (λ list. (text : Declared) → ServesTables tables.now text → ServesFields fields.now text
        → map global_declaration_view list.items
        ≡ map (resolved_global text) (map global_declaration_view declarations.now)) }
{
    let mut resolved = Vec::new(alloc);
    for declaration in declarations {
        resolved.push(resolved_global(alloc, tables, fields, declaration)?)?;
    }
    Ok(resolved)
}

fn resolved_globals<'a>(
    alloc: Global,
    tables: &TextTables<'a>,
    fields: &FieldNames<'a>,
    blocks: &'a [GlobalBlock],
) -> Result<Vec<GlobalBlock>, AllocError>
    ensures { IfOk result (λ list. (text : Declared) → ServesTables tables.now text → ServesFields fields.now text
        → map global_block_view list.items ≡ map (resolved_globals text) (map global_block_view blocks.now)) }
{
    let mut resolved = Vec::new(alloc);
    for block in blocks {
        resolved.push(GlobalBlock {
            qualifier: block.qualifier,
            declarations: resolved_block(alloc, tables, fields, &block.declarations)?,
        })?;
    }
    Ok(resolved)
}

/// A configuration of a text.
pub fn resolved_configuration<'a>(
    alloc: Global,
    tables: &TextTables<'a>,
    fields: &FieldNames<'a>,
    declared: &'a Configuration,
) -> Result<Configuration, AllocError>
    ensures { IfOk result (λ c. (text : Declared) → ServesTables tables.now text → ServesFields fields.now text
        → configuration (configuration_view c)
        ≡ resolved_element_of_text text (configuration (configuration_view declared.now))) }
{
    Ok(Configuration {
        name: declared.name.copied(alloc)?,
        globals: resolved_globals(alloc, tables, fields, &declared.globals)?,
        resources: copied_resources(alloc, &declared.resources)?,
    })
}
