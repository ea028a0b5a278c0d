//! Findings on numbers, depths and lengths that are too great (C4, C6, C8).

use crate::finding::Finding;
use crate::site::Site;
use crate::type_names::kind_name;
use st_rules::Bounds;
use st_rules::limits::{MAX_ELEMENTS, MAX_TYPE_DEPTH};
use st_types::Kind;
use st_types::limits::MAX_PRIORITY;
use std::alloc::AllocError;

/// The finding on a number that is outside its type.
pub fn out_of_range(site: &Site, kind: Kind) -> Result<Finding, AllocError> {
    let (number, name) = (site.spot.spelled(), kind_name(site, kind));
    let (least, greatest) = (kind.least(), kind.greatest());
    Ok(Finding::new(format!(in site.text.alloc;
        "{number} doesn't fit in {name} ({least} to {greatest})"
    )?))
}

/// The finding on a PRIORITY over the greatest one.
pub fn priority_too_great(site: &Site) -> Result<Finding, AllocError> {
    let number = site.spot.spelled();
    Ok(Finding::new(format!(in site.text.alloc;
        "{number} is over {MAX_PRIORITY}, the largest PRIORITY"
    )?))
}

/// The finding on a type or unit that contains itself, or is too deep.
pub fn too_deep(site: &Site) -> Result<Finding, AllocError> {
    let name = site.spot.spelled();
    Ok(Finding::new(format!(in site.text.alloc;
        "`{name}` contains itself, or is over {MAX_TYPE_DEPTH} deep"
    )?))
}

/// The finding on bounds of an array that are reversed or too wide.
pub fn wrong_bounds(site: &Site, bounds: Bounds) -> Result<Finding, AllocError> {
    let (alloc, Bounds { lower, upper }) = (site.text.alloc, bounds);
    if upper < lower {
        return Ok(Finding::new(format!(in alloc; "the bounds {lower}..{upper} are reversed")?));
    }
    let count = upper.saturating_sub(lower).saturating_add(1);
    Ok(Finding::new(format!(in alloc;
        "an array [{lower}..{upper}] has {count} elements; at most {MAX_ELEMENTS} are allowed"
    )?))
}

/// The finding on a list of so many elements that is longer than its array.
pub fn long_list(site: &Site, given: u128, room: u128) -> Result<Finding, AllocError> {
    Ok(Finding::new(format!(in site.text.alloc;
        "the list has {given} elements; its array has {room}"
    )?))
}
