//! Findings on names that aren't what their places need (C3).

use crate::externals::sort_name;
use crate::finding::Finding;
use crate::site::Site;
use crate::spots::name_at;
use crate::type_names::{word_name, word_of};
use st_meaning::lookup::{is_listed, type_in_blocks};
use st_rules::TypeWord;
use st_types::{Name, TypeDefinition, VariableType};
use std::alloc::AllocError;

/// The name of the first enumerated type that has a value of a name.
fn type_with_value<'a>(site: &Site<'a>, value: &Name) -> Option<&'a str> {
    for declaration in &site.types {
        match &declaration.definition {
            TypeDefinition::Enumeration(values) if is_listed(value, values) => {
                return Some(site.text.spelled(&declaration.name));
            }
            _ => {}
        }
    }
    None
}

/// The finding on the name of a value that several enumerated types have.
pub fn ambiguous(site: &Site) -> Result<Finding, AllocError> {
    let (alloc, value) = (site.text.alloc, site.spot.spelled());
    let owner = match name_at(&site.spot) {
        Some(name) => type_with_value(site, name),
        None => None,
    };
    let sentence = format!(in alloc; "several enumerated types have a value `{value}`")?;
    match owner {
        Some(owner) => {
            let help = format!(in alloc; "write its type, as in `{owner}#{value}`")?;
            Ok(Finding::new(sentence).helped(help))
        }
        None => Ok(Finding::new(sentence)),
    }
}

/// The finding on the name of a unit or of a standard function in the place of a type.
pub fn not_type(site: &Site) -> Result<Finding, AllocError> {
    let unit = match name_at(&site.spot) {
        Some(name) => site.unit_named(name),
        None => None,
    };
    let sort = match unit {
        Some(unit) => sort_name(&unit.sort),
        None => "standard function",
    };
    let name = site.spot.spelled();
    Ok(Finding::new(format!(in site.text.alloc; "`{name}` is a {sort}, not a type")?))
}

/// The finding on an input, an output or a result that has parts.
pub fn has_parts(site: &Site) -> Result<Finding, AllocError> {
    let name = site.spot.spelled();
    Ok(Finding::new(format!(in site.text.alloc;
        "an input, an output or a result has an elementary or enumerated type; `{name}` has parts"
    )?))
}

/// The type of a variable of the unit at the place; a function's result isn't among its variables.
fn variable_at<'a>(site: &Site<'a>) -> Option<&'a VariableType> {
    match (site.unit(), name_at(&site.spot)) {
        (Some(unit), Some(name)) => type_in_blocks(&unit.blocks, name),
        _ => None,
    }
}

/// The finding on a subscript of the variable at the place, or of a part of it: this has another type.
pub fn not_array(site: &Site, given: TypeWord) -> Result<Finding, AllocError> {
    let (name, is) = (site.spot.spelled(), word_name(&site.text, given));
    let part = match variable_at(site) {
        Some(declared) if word_of(declared) != given => "a part of ",
        _ => "",
    };
    Ok(Finding::new(format!(in site.text.alloc;
        "{part}`{name}` is {is}: only an array has elements"
    )?))
}

/// The finding on a variable of another type that is called.
pub fn not_instance(site: &Site, given: TypeWord) -> Result<Finding, AllocError> {
    let (name, is) = (site.spot.spelled(), word_name(&site.text, given));
    Ok(Finding::new(format!(in site.text.alloc;
        "`{name}` is {is}, not an instance of a function block"
    )?))
}

/// The finding on a variable by which no FOR counts.
pub fn not_control(site: &Site) -> Result<Finding, AllocError> {
    let name = site.spot.spelled();
    Ok(Finding::new(format!(in site.text.alloc;
        "the control variable of a FOR is a VAR of the unit, of an integer type; `{name}` isn't"
    )?))
}
