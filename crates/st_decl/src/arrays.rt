//! The arrays of a text, with a name or without, and their bounds (C8).

ghost use Rattle.std.specs.Prelude.{◌≡◌, map, IfOk};
ghost use Rattle.std.specs.List.{flat_map};
ghost use Rattle.st_rules.specs.Collecting.{Collects};
ghost use Rattle.st_rules.specs.TypeRules.{bounds_of, wrong_bounds};
ghost use Rattle.st_rules.specs.DeclaredTypes.{array_of_type};
ghost use Rattle.st_decl.specs.DeclaringViews.{declaring_view};
ghost use Rattle.st_decl.specs.Entries.{of_each, entry_view, array_of};

use crate::bounds::{bound, has_wrong_bounds};
use crate::declarings::Declaring;
use crate::entries::Entry;
use st_rules::{Bounds, BrokenRules, Reason};
use st_types::{ArrayType, VariableType};
use std::alloc::{AllocError, Global};

fn bounds_of(array: &ArrayType) -> Bounds
    ensures { result ≡ bounds_of array.now }
{
    Bounds {
        lower: bound(&array.lower),
        upper: bound(&array.upper),
    }
}

/// Adds an array whose bounds are reversed or too wide.
fn wrong_array(array: &ArrayType, broken: &mut BrokenRules)
    ensures { Collects (wrong_bounds array.now) broken.old broken.new }
{
    broken.add_in_case(
        has_wrong_bounds(array),
        Reason::WrongBounds(bounds_of(array)),
        array.lower.place,
    );
}

/// Adds the arrays whose bounds are reversed or too wide (C8).
pub fn wrong_arrays(entries: &[Entry], broken: &mut BrokenRules)
    ensures { Collects (flat_map (λ e. of_each wrong_bounds (array_of e)) (map entry_view entries.now)) broken.old
        broken.new }
{
    for entry in entries {
        if let Some(array) = entry.array() {
            wrong_array(array, broken);
        }
    }
}

/// The arrays without a name.
pub fn unnamed_arrays<'a>(
    alloc: Global,
    declarings: &[Declaring<'a>],
) -> Result<Vec<&'a ArrayType>, AllocError>
    ensures { IfOk result (λ arrays. map (λ a. a.now) arrays.items
        ≡ flat_map (λ d. array_of_type d.declared) (map declaring_view declarings.now)) }
{
    let mut arrays = Vec::new(alloc);
    for declaring in declarings {
        match declaring.declared {
            VariableType::Simple(_) => {}
            VariableType::Array(array) => arrays.push(array)?,
        }
    }
    Ok(arrays)
}
