//! Findings on texts that are too large (G6, M1, M2).

use crate::finding::Finding;
use crate::sentences::{said, said_at};
use crate::spelling::Text;
use machine_code::MAX_INSTRUCTIONS;
use st_meaning::lookup::kind_of_type;
use st_types::limits::{MAX_PATHS, MAX_RECORD_BODY};
use st_types::{
    Configuration, GlobalBlock, GlobalDeclaration, GlobalNames, GlobalQualifier, Identifier, Kind,
    LibraryElement, Retention, Section, Source, Unit, UnitSort,
};
use std::alloc::AllocError;

/// How many bytes the value of a type takes in the record.
fn width(kind: Kind) -> usize {
    usize::from(kind.row().bits).saturating_add(7) / 8
}

/// How many bytes a variable of the name and type takes in the record.
fn length(name: &Identifier, kind: Kind) -> usize {
    name.name
        .as_slice()
        .len()
        .saturating_add(kind.row().keyword.len())
        .saturating_add(2)
        .saturating_add(width(kind))
}

/// How many bytes the globals of a declaration take in the record, if they are of an elementary type.
fn length_of_declaration(declaration: &GlobalDeclaration) -> Option<usize> {
    let kind = kind_of_type(&declaration.declared)?;
    let mut total: usize = 0;
    match &declaration.names {
        GlobalNames::Located(name, _) => total = length(name, kind),
        GlobalNames::Listed(names) => {
            for name in names {
                total = total.saturating_add(length(name, kind));
            }
        }
    }
    Some(total)
}

fn length_of_block(block: &GlobalBlock) -> Option<usize> {
    let mut total: usize = 0;
    for declaration in &block.declarations {
        total = total.saturating_add(length_of_declaration(declaration)?);
    }
    Some(total)
}

/// How many bytes the RETAIN globals take in the record, if all are of elementary types.
fn length_of_globals(configuration: &Configuration) -> Option<usize> {
    let mut total: usize = 0;
    for block in &configuration.globals {
        if block.qualifier == Some(GlobalQualifier::Retain) {
            total = total.saturating_add(length_of_block(block)?);
        }
    }
    Some(total)
}

/// Whether a unit has variables under RETAIN.
fn retains(unit: &Unit) -> bool {
    unit.blocks.iter().any(|b| {
        matches!(
            b.section,
            Section::Input(Some(Retention::Retain))
                | Section::Output(Some(Retention::Retain))
                | Section::Local(Some(Retention::Retain))
        )
    })
}

fn has_retaining_unit(source: &Source) -> bool {
    source.elements.iter().any(|e| match e {
        LibraryElement::Unit(unit) => retains(unit),
        _ => false,
    })
}

/// The finding on a record that is too long, if only globals of elementary types are in it: how long it is.
pub fn record_size_reason(
    text: &Text,
    configuration: &Configuration,
) -> Result<Option<Finding>, AllocError> {
    match length_of_globals(configuration) {
        Some(globals) if !has_retaining_unit(text.source) => {
            let bytes = globals.saturating_add(12);
            said(format!(in text.alloc;
                "the record of the RETAIN variables has {bytes} bytes; at most {MAX_RECORD_BODY} are allowed"
            ))
        }
        _ => Ok(None),
    }
}

fn number_of_globals(configuration: &Configuration) -> usize {
    let mut count: usize = 0;
    for block in &configuration.globals {
        for declaration in &block.declarations {
            let more = match &declaration.names {
                GlobalNames::Located(_, _) => 1,
                GlobalNames::Listed(names) => names.len(),
            };
            count = count.saturating_add(more);
        }
    }
    count
}

/// The finding on too many paths, if there are too many globals, each of which has one at least.
pub fn too_many_paths_reason(
    text: &Text,
    configuration: &Configuration,
) -> Result<Option<Finding>, AllocError> {
    let count = number_of_globals(configuration);
    if count <= MAX_PATHS {
        return Ok(None);
    }
    said(format!(in text.alloc; "there are {count} globals; at most {MAX_PATHS} paths are allowed"))
}

/// The program of a text that has no other.
fn only_program(source: &Source) -> Option<&Unit> {
    let mut found = None;
    for element in &source.elements {
        if let LibraryElement::Unit(unit) = element {
            if let UnitSort::Program = unit.sort {
                if found.is_some() {
                    return None;
                }
                found = Some(unit);
            }
        }
    }
    found
}

/// The finding on a program with too many instructions, if the text has no other.
pub fn too_many_instructions_reason(text: &Text) -> Result<Option<Finding>, AllocError> {
    let Some(program) = only_program(text.source) else {
        return Ok(None);
    };
    let name = text.spelled(&program.name);
    said_at(
        program.name.place,
        format!(in text.alloc;
            "the program `{name}` has more than {MAX_INSTRUCTIONS} instructions"
        ),
    )
}
