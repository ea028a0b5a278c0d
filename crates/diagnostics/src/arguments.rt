//! Findings on the arguments of functions (C3, C10).

use crate::finding::Finding;
use crate::operators::beside;
use crate::site::Site;
use crate::spot::Spot;
use crate::type_names::{kind_name, typing_name};
use st_rules::{Sorts, Typing};
use st_types::Kind;
use std::alloc::AllocError;
use symbols::{Standard, standard_function};

/// A value that doesn't meet the demand of its place.
#[derive(Clone, Copy)]
pub struct Wrong {
    /// The type that its place expects, if it expects one.
    pub expected: Option<Kind>,
    /// The sorts that its place allows.
    pub sorts: Sorts,
    /// Its type, before it takes one.
    pub given: Typing,
}

/// The type that another argument has and this one doesn't; none if no argument has it.
fn other_kind(wrong: Wrong) -> Option<Kind> {
    let kind = wrong.expected?;
    match beside(wrong.expected, wrong.given) {
        Typing::Composite => None,
        Typing::Elementary(given) if given.is(kind) => None,
        _ => Some(kind),
    }
}

/// Whether the place is that of the first argument of the function whose name is at another place.
fn is_first(spot: &Spot, function: usize) -> bool {
    match spot.before {
        [.., name, _] => name.start == function,
        _ => false,
    }
}

/// The arguments of a standard function that have one type.
fn alike(called: Standard) -> &'static str {
    match called {
        Standard::Sel => "the last two arguments",
        _ => "the arguments",
    }
}

/// What a standard function does with arguments of these sorts.
fn predicate(called: Standard, sorts: Sorts) -> &'static str {
    match (called, sorts) {
        (Standard::Shl | Standard::Shr, Sorts::BitString) => "shifts a bit string",
        (Standard::Shl | Standard::Shr, _) => "shifts by an integer",
        (Standard::Rol | Standard::Ror, Sorts::BitString) => "rotates a bit string",
        (Standard::Rol | Standard::Ror, _) => "rotates by an integer",
        (Standard::Abs, _) => "takes an integer",
        (Standard::Min | Standard::Max | Standard::Limit, _) => "takes integers or TIMEs",
        (Standard::Sel | Standard::Convert(_, _), _) => "takes single values",
    }
}

/// The sentence on an argument of a standard function whose name is at a place.
fn argument_sentence(
    site: &Site,
    function: usize,
    called: Standard,
    wrong: Wrong,
) -> Result<String, AllocError> {
    let (alloc, name) = (site.text.alloc, site.text.word_at(function));
    let given = typing_name(site, beside(wrong.expected, wrong.given));
    match (called, other_kind(wrong)) {
        (Standard::Convert(_, _), _) => format!(in alloc; "`{name}` doesn't take {given}"),
        (Standard::Sel, _) if is_first(&site.spot, function) => {
            format!(in alloc; "`{name}` selects by a BOOL; the argument is {given}")
        }
        (_, Some(kind)) => {
            let (alike, other) = (alike(called), kind_name(site, kind));
            format!(in alloc;
                "{alike} of `{name}` must have the same type: this one is {given}, another {other}"
            )
        }
        (_, None) => {
            let predicate = predicate(called, wrong.sorts);
            format!(in alloc; "`{name}` {predicate}; the argument is {given}")
        }
    }
}

/// The finding on an argument of the function whose name is at a place; none if that isn't a standard function.
pub fn standard_argument(
    site: &Site,
    function: usize,
    wrong: Wrong,
) -> Result<Option<Finding>, AllocError> {
    let called = match site.text.name_at(function) {
        Some(name) => standard_function(name),
        None => None,
    };
    match called {
        Some(called) => {
            let sentence = argument_sentence(site, function, called, wrong)?;
            Ok(Some(Finding::new(sentence)))
        }
        None => Ok(None),
    }
}

/// The finding on a call with too many or too few arguments.
pub fn argument_count(site: &Site, given: usize, taken: usize) -> Result<Finding, AllocError> {
    let function = site.spot.spelled();
    Ok(Finding::new(format!(in site.text.alloc;
        "the number of arguments is {given}; `{function}` takes {taken}"
    )?))
}
