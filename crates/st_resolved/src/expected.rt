//! The types that calls expect and give.

ghost use Rattle.std.specs.Prelude.{◌≡◌, ℕ, List, Option, drop, replicate, map, option_map};
ghost use Rattle.st_types.specs.declared.kind.Kind.{Kind};
ghost use Rattle.st_meaning.specs.Resolution.{common_kind, expected_kinds, standard_kind, first_kind};
ghost use Rattle.st_rules.specs.Typings.{common_of};
ghost use Rattle.symbols.specs.Standard.{standard_view};
ghost use Rattle.symbols.specs.Tables.{callee_view};
ghost use Rattle.st_resolved.specs.Calls.{kind_of_call, expected_of_call};
ghost use Rattle.st_resolved.specs.Resolutions.{resolved_kind};

use crate::resolutions::{Resolution, resolved_kind};
use st_types::Kind;
use st_typing::or_kind;
use symbols::{Callee, Signature, Standard};

fn first_resolved_kind(parts: &[Resolution]) -> Option<Kind>
    ensures { result ≡ first_kind (map resolved_kind parts.now) }
{
    match parts {
        [first, ..] => resolved_kind(first),
        [] => None,
    }
}

/// The common type of a standard function's operands.
fn common_kind(called: Standard, parts: &[Resolution]) -> Option<Kind>
    ensures { result ≡ common_kind (standard_view called) (map resolved_kind parts.now) }
{
    match (called, parts) {
        (Standard::Min, [a, b]) => or_kind(resolved_kind(a), resolved_kind(b)),
        (Standard::Max, [a, b]) => or_kind(resolved_kind(a), resolved_kind(b)),
        (Standard::Limit, [a, b, c]) => {
            or_kind(
                resolved_kind(a),
                or_kind(resolved_kind(b), resolved_kind(c)),
            )
        }
        (Standard::Sel, [_, a, b]) => or_kind(resolved_kind(a), resolved_kind(b)),
        _ => first_resolved_kind(parts),
    }
}

/// The common type of a call's arguments.
pub fn common_of(callee: Option<Callee>, parts: &[Resolution]) -> Option<Kind>
    ensures { result ≡ common_of (option_map callee_view callee.entry) (map resolved_kind parts.now) }
{
    match callee {
        Some(Callee::Standard(called)) => common_kind(called, parts),
        _ => None,
    }
}

fn standard_kind(called: Standard, common: Option<Kind>) -> Option<Kind>
    ensures { (ks : List (Option Kind)) → common ≡ common_kind (standard_view called) ks
        → result ≡ standard_kind (standard_view called) ks }
{
    match called {
        Standard::Convert(_, to) => Some(to),
        _ => or_kind(common, Some(Kind::Lint)),
    }
}

/// The type that a call gives.
pub fn kind_of_call(callee: Option<Callee>, common: Option<Kind>) -> Option<Kind>
    ensures { (ks : List (Option Kind)) → common ≡ common_of (option_map callee_view callee.entry) ks
        → result ≡ kind_of_call (option_map callee_view callee.entry) ks }
{
    match callee {
        Some(Callee::Standard(called)) => standard_kind(called, common),
        Some(Callee::Own(signature)) => signature.result,
        None => None,
    }
}

/// The type of each of `count` arguments.
fn among(count: usize, kind: Option<Kind>, index: usize) -> Option<Kind>
    ensures { result ≡ first_kind (drop index (replicate count kind)) }
{
    if index < count { kind } else { None }
}

/// The type that a standard function expects of the argument at a place.
fn expected_by_standard(called: Standard, common: Option<Kind>, index: usize) -> Option<Kind>
    ensures { (ks : List (Option Kind)) → common ≡ common_kind (standard_view called) ks
        → result ≡ first_kind (drop index (expected_kinds (standard_view called) ks)) }
{
    match called {
        Standard::Min => among(2, common, index),
        Standard::Max => among(2, common, index),
        Standard::Limit => among(3, common, index),
        Standard::Sel => {
            if index == 0 {
                Some(Kind::Bool)
            } else {
                among(3, common, index)
            }
        }
        Standard::Convert(from, _) => among(1, Some(from), index),
        _ => None,
    }
}

/// The type of a function's input at a place.
fn input_at(signature: &Signature, index: usize) -> Option<Kind>
    ensures { result ≡ first_kind (drop index signature.now.inputs.items) }
{
    match signature.inputs.get(index) {
        Some(kind) => *kind,
        None => None,
    }
}

/// The type that a call expects of the argument at a place.
pub fn expected_at(callee: Option<Callee>, common: Option<Kind>, index: usize) -> Option<Kind>
    ensures { (ks : List (Option Kind)) → common ≡ common_of (option_map callee_view callee.entry) ks
        → result ≡ first_kind (drop index (expected_of_call (option_map callee_view callee.entry) ks)) }
{
    match callee {
        Some(Callee::Standard(called)) => expected_by_standard(called, common, index),
        Some(Callee::Own(signature)) => input_at(signature, index),
        None => None,
    }
}
