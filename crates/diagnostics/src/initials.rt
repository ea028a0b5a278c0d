//! Findings on initial values of another form than their types have (C3).

use crate::finding::Finding;
use crate::site::Site;
use crate::type_names::word_name;
use st_rules::TypeWord;
use std::alloc::AllocError;

/// The finding on the initial value of an instance.
pub fn instance_with_value(site: &Site) -> Result<Finding, AllocError> {
    Finding::plain(site.text.alloc, "an instance can't have an initial value")
}

/// The finding on a list for what isn't an array.
pub fn list_for_other(site: &Site, given: TypeWord) -> Result<Finding, AllocError> {
    let is = word_name(&site.text, given);
    Ok(Finding::new(format!(in site.text.alloc;
        "a list initialises an array; the variable is {is}"
    )?))
}

/// The finding on fields for what isn't a structure.
pub fn fields_for_other(site: &Site, given: TypeWord) -> Result<Finding, AllocError> {
    let is = word_name(&site.text, given);
    Ok(Finding::new(format!(in site.text.alloc;
        "fields initialise a structure; the variable is {is}"
    )?))
}
