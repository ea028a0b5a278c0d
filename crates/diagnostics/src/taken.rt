//! Findings on names that are declared or given before, or that are taken (C2).

use crate::externals::sort_name;
use crate::finding::Finding;
use crate::site::Site;
use crate::spot::{Spot, is_mark};
use crate::spots::name_at;
use st_lex::Mark;
use std::alloc::AllocError;
use symbols::standard_function;

/// Whether the name at the place is given a value among others in parentheses.
fn is_given(spot: &Spot) -> bool {
    let begins = is_mark(spot.last(), Mark::Open) || is_mark(spot.last(), Mark::Comma);
    begins && is_mark(spot.next(), Mark::Assign)
}

/// The finding on a name that its scope or its structure has before, first at this place.
pub fn declared_before(site: &Site, first: usize) -> Result<Finding, AllocError> {
    if is_given(&site.spot) {
        return site.says("is given twice");
    }
    let (name, line) = (site.spot.spelled(), site.line_of(first));
    Ok(Finding::new(format!(in site.text.alloc; "`{name}` is already declared on line {line}")?))
}

/// The finding on a name that a standard function or block has.
pub fn standard_name(site: &Site) -> Result<Finding, AllocError> {
    let is_function = match name_at(&site.spot) {
        Some(name) => standard_function(name).is_some(),
        None => false,
    };
    if is_function {
        site.says("is the name of a standard function")
    } else {
        site.says("is the name of a standard function block")
    }
}

/// The sort of the type or unit that is declared at a place.
fn sort_at(site: &Site, place: usize) -> &'static str {
    for unit in &site.units {
        if unit.name.place == place {
            return sort_name(&unit.sort);
        }
    }
    "type"
}

/// The finding on a name that a type or unit has, which is declared at this place.
pub fn name_of_unit(site: &Site, place: usize) -> Result<Finding, AllocError> {
    let (name, sort, line) = (
        site.spot.spelled(),
        sort_at(site, place),
        site.line_of(place),
    );
    Ok(Finding::new(format!(in site.text.alloc;
        "`{name}` is the name of the {sort} on line {line}"
    )?))
}
