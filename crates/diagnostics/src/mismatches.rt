//! Findings on expressions and variables that don't meet the demands of their places (C3).

use crate::arguments::{Wrong, standard_argument};
use crate::comparisons::with_zero;
use crate::conversions::{WRITE_TIME, conversion};
use crate::finding::Finding;
use crate::plain_calls::with_call;
use crate::site::Site;
use crate::spots::spelled_from;
use crate::type_names::{typing_name, variable_name};
use st_rules::{Demand, Purpose, Sorts, Typing};
use st_types::Kind;
use std::alloc::{AllocError, Global};

/// What to write as the initial value of a variable of this type.
fn initial(alloc: Global, kind: Kind) -> Result<Option<String>, AllocError> {
    match kind {
        Kind::Time => Ok(Some(String::from_str(alloc, WRITE_TIME)?)),
        Kind::Enumerated { .. } => Ok(None),
        _ => {
            let name = kind.row().keyword;
            Ok(Some(format!(in alloc; "write a literal of {name}")?))
        }
    }
}

/// A hint on an expression of a wrong type.
fn help_of_value(
    site: &Site,
    purpose: Purpose,
    wrong: Wrong,
) -> Result<Option<String>, AllocError> {
    let alloc = site.text.alloc;
    let Some(to) = wrong.expected else {
        return Ok(None);
    };
    match (purpose, to, wrong.given) {
        (_, Kind::Bool, Typing::Untyped) => {
            Ok(Some(String::from_str(alloc, "write TRUE or FALSE")?))
        }
        (Purpose::Initial, _, _) => initial(alloc, to),
        (_, Kind::Bool, Typing::Elementary(from)) => with_zero(site, from),
        (_, Kind::Time, Typing::Untyped) => Ok(Some(String::from_str(alloc, WRITE_TIME)?)),
        (_, _, Typing::Elementary(from)) => conversion(alloc, from, to),
        _ => Ok(None),
    }
}

/// What a place demands for a purpose, as a clause.
fn demand_clause(site: &Site, purpose: Purpose, wanted: &str) -> Result<String, AllocError> {
    let (alloc, text) = (site.text.alloc, &site.text);
    let (sort, name) = match purpose {
        Purpose::Initial => return format!(in alloc; "the variable is {wanted}"),
        Purpose::Condition => return format!(in alloc; "a condition is {wanted}"),
        Purpose::Selector => {
            return String::from_str(alloc, "a CASE selects by an integer or an enumerated type");
        }
        Purpose::Subscript => return String::from_str(alloc, "a subscript is an integer"),
        Purpose::Assigned(place) => ("", spelled_from(&site.spot, place)),
        Purpose::Count(place) => ("", text.word_at(place)),
        Purpose::Argument(place) => ("this input of ", text.word_at(place)),
        Purpose::Input(place) => ("the input ", text.word_at(place)),
        Purpose::Output(place) => ("the output ", text.word_at(place)),
    };
    format!(in alloc; "{sort}`{name}` is {wanted}")
}

/// The finding on an expression, or on the variable to which an output is copied.
fn wrong_value(site: &Site, purpose: Purpose, wrong: Wrong) -> Result<Finding, AllocError> {
    let (alloc, given) = (site.text.alloc, typing_name(site, wrong.given));
    let demand = demand_clause(site, purpose, variable_name(site, wrong.expected))?;
    if let Purpose::Output(_) = purpose {
        return Ok(Finding::new(format!(in alloc; "{demand}; the variable is {given}")?));
    }
    Ok(Finding {
        sentence: format!(in alloc; "{demand}; the expression is {given}")?,
        help: help_of_value(site, purpose, wrong)?,
        place: None,
    })
}

/// The finding on an argument of the function whose name is at a place.
fn wrong_argument(site: &Site, function: usize, wrong: Wrong) -> Result<Finding, AllocError> {
    match standard_argument(site, function, wrong)? {
        Some(finding) => Ok(finding),
        None => wrong_value(site, Purpose::Argument(function), wrong),
    }
}

/// Whether a value with parts is given to a variable with parts, perhaps of the same type.
fn is_whole(wrong: Wrong) -> bool {
    match (wrong.sorts, wrong.given) {
        (Sorts::NoSort, Typing::Composite) => true,
        _ => false,
    }
}

fn assigned_as_whole(site: &Site) -> Result<Finding, AllocError> {
    let alloc = site.text.alloc;
    Finding::plain(
        alloc,
        "a structure, an array or an instance isn't assigned as a whole",
    )?
    .with_help(
        alloc,
        "assign the members of a structure or the elements of an array one by one",
    )
}

/// The finding on a type that doesn't meet the demand of its place.
pub fn mismatch(site: &Site, demand: Demand, given: Typing) -> Result<Finding, AllocError> {
    let Demand::Asked(expected, sorts, purpose) = demand else {
        return site.says("begins a part with the wrong type");
    };
    let wrong = Wrong {
        expected,
        sorts,
        given,
    };
    if is_whole(wrong) {
        return assigned_as_whole(site);
    }
    let finding = match purpose {
        Purpose::Argument(function) => wrong_argument(site, function, wrong)?,
        _ => wrong_value(site, purpose, wrong)?,
    };
    match expected {
        Some(kind) => with_call(site, finding, given, kind),
        None => Ok(finding),
    }
}
