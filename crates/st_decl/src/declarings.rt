//! The declared types of fields, variables and globals.

ghost use Rattle.std.specs.Prelude.{◌≡◌, map, IfOk};
ghost use Rattle.std.specs.List.{filter_map};
ghost use Rattle.st_decl.specs.Entries.{entry_view, declaring_of};
ghost use Rattle.st_decl.specs.DeclaringViews.{declaring_view};

use crate::entries::Entry;
use st_types::{Initial, Section, UnitSort, VariableType};
use std::alloc::{AllocError, Global};

/// Where a declaration is.
#[derive(Clone, Copy)]
pub enum Role<'a> {
    /// In a structure.
    Field,
    /// In a block of variables of a unit.
    Variable(&'a UnitSort, Section),
    /// In a block of global variables.
    Global,
}

/// A declared type with its initial value, if it has one.
#[derive(Clone, Copy)]
pub struct Declaring<'a> {
    pub role: Role<'a>,
    pub declared: &'a VariableType,
    pub initial: &'a Option<Initial>,
}

/// The declared types among declarations.
pub fn declarings_of<'a>(
    alloc: Global,
    entries: &[Entry<'a>],
) -> Result<Vec<Declaring<'a>>, AllocError>
    ensures { IfOk result (λ declarings. map declaring_view declarings.items
        ≡ filter_map declaring_of (map entry_view entries.now)) }
{
    let mut declarings = Vec::new(alloc);
    for entry in entries {
        if let Some(declaring) = entry.declaring() {
            declarings.push(declaring)?;
        }
    }
    Ok(declarings)
}
