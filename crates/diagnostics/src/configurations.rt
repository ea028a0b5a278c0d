//! Findings on a text that is refused as a whole, as far as its tree allows.

use crate::addresses::addresses_reason;
use crate::counts::{counts_reason, second_configuration_reason, tasks_reason};
use crate::explaining::whole_text_reason;
use crate::externals::externals_reason;
use crate::fault::WholeFault;
use crate::finding::Finding;
use crate::globals::{Names, index_of};
use crate::resources::resources_reason;
use crate::sentences::said;
use crate::sizes::{record_size_reason, too_many_instructions_reason, too_many_paths_reason};
use crate::spelling::Text;
use st_types::{Configuration, LibraryElement, Source};
use std::alloc::AllocError;
use symbols::TextNames;

/// The first two configurations of a text.
fn first_two(source: &Source) -> (Option<&Configuration>, Option<&Configuration>) {
    let mut first = None;
    for element in &source.elements {
        if let LibraryElement::Configuration(configuration) = element {
            if first.is_some() {
                return (first, Some(configuration));
            }
            first = Some(configuration);
        }
    }
    (first, None)
}

/// The finding on a global, a task or a program that is unknown or doesn't fit its use.
fn unknown_reason<'a>(
    text: &Text<'a>,
    configuration: &'a Configuration,
) -> Result<Option<Finding>, AllocError> {
    let declared = TextNames::new(text.alloc, text.source)?;
    let globals = index_of(text.alloc, &configuration.globals)?;
    let names = Names {
        declared: &declared,
        globals: &globals,
    };
    match externals_reason(text, names) {
        Ok(None) => resources_reason(text, names, configuration),
        told => told,
    }
}

fn one_configuration_reason<'a>(
    text: &Text<'a>,
    configuration: &'a Configuration,
    fault: WholeFault,
) -> Result<Option<Finding>, AllocError> {
    match fault {
        WholeFault::Unknown => unknown_reason(text, configuration),
        WholeFault::WrongAddress => addresses_reason(text, configuration),
        WholeFault::TooMany => counts_reason(text, configuration),
        WholeFault::WithoutTask => tasks_reason(text, configuration),
        WholeFault::RecordTooLong => record_size_reason(text, configuration),
        WholeFault::TooManyPaths => too_many_paths_reason(text, configuration),
        WholeFault::TooManyInstructions => too_many_instructions_reason(text),
        _ => Ok(None),
    }
}

fn unknown_configuration_names_reason(
    text: &Text,
    fault: WholeFault,
) -> Result<Option<Finding>, AllocError> {
    match (first_two(text.source), fault) {
        ((None, _), WholeFault::NotOne) => {
            said(String::from_str(text.alloc, "the source has no CONFIGURATION"))
        }
        ((_, Some(second)), WholeFault::NotOne) => second_configuration_reason(text, second),
        ((Some(configuration), None), _) => one_configuration_reason(text, configuration, fault),
        _ => Ok(None),
    }
}

/// The finding on a text that is refused as a whole.
pub fn configuration_reason(text: &Text, fault: WholeFault) -> Result<Finding, AllocError> {
    match unknown_configuration_names_reason(text, fault)? {
        Some(finding) => Ok(finding),
        None => whole_text_reason(text.alloc, fault),
    }
}
