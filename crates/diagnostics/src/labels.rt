//! Findings on the labels of a CASE (C3, C7).

use crate::finding::Finding;
use crate::site::Site;
use crate::spots::is_number_alone;
use crate::type_names::{kind_name, typing_name};
use st_rules::{Bounds, Typing};
use st_types::Kind;
use std::alloc::AllocError;

/// The finding on a label whose type isn't the selector's.
pub fn label_type(site: &Site, selector: Option<Kind>, label: Kind) -> Result<Finding, AllocError> {
    let wanted = match selector {
        Some(kind) => kind_name(site, kind),
        None => "unknown",
    };
    let given = if is_number_alone(&site.spot) {
        typing_name(site, Typing::Untyped)
    } else {
        kind_name(site, label)
    };
    Ok(Finding::new(format!(in site.text.alloc; "the selector is {wanted}; the label is {given}")?))
}

/// The finding on a label whose range is reversed.
pub fn reversed_label(site: &Site, label: Bounds) -> Result<Finding, AllocError> {
    let Bounds { lower, upper } = label;
    Ok(Finding::new(format!(in site.text.alloc; "the range {lower}..{upper} is reversed")?))
}

fn is_range(label: Bounds) -> bool {
    label.lower != label.upper
}

/// The finding on a label that overlaps another one, whose place is given; this may be before it or after it.
pub fn overlap(
    site: &Site,
    label: Bounds,
    other: Bounds,
    place: usize,
) -> Result<Finding, AllocError> {
    let (alloc, line) = (site.text.alloc, site.line_of(place));
    if is_range(label) {
        let Bounds { lower, upper } = label;
        return Ok(Finding::new(format!(in alloc;
            "the range {lower}..{upper} overlaps a label on line {line}"
        )?));
    }
    let (spelled, is_later) = (site.spot.spelled(), place > site.spot.place);
    let sentence = match (is_range(other), is_later) {
        (true, false) => {
            let Bounds { lower, upper } = other;
            format!(in alloc;
                "`{spelled}` is already in the range {lower}..{upper} on line {line}"
            )?
        }
        (true, true) => {
            let Bounds { lower, upper } = other;
            format!(in alloc; "`{spelled}` is in the range {lower}..{upper} on line {line} too")?
        }
        (false, false) => format!(in alloc; "`{spelled}` is already a label on line {line}")?,
        (false, true) => format!(in alloc; "`{spelled}` is a label again on line {line}")?,
    };
    Ok(Finding::new(sentence))
}
