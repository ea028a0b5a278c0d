//! Names that are declared twice, or that are taken (C2).

ghost use Rattle.std.specs.Prelude.{◌≡◌, ℕ, List, map, option_map, IfOk};
ghost use Rattle.std.specs.List.{flat_map};
ghost use Rattle.st_types.specs.SourceViews.{source_view};
ghost use Rattle.st_types.specs.declared.identifier.Identifier.{Identifier};
ghost use Rattle.st_rules.specs.declared.reason.Reason.TheVariants.{StandardName};
ghost use Rattle.st_rules.specs.Collecting.{Adds, Covers, Collects};
ghost use Rattle.st_rules.specs.Faults.{breaking, in_case};
ghost use Rattle.st_rules.specs.Places.{first_named};
ghost use Rattle.st_rules.specs.NameScopes.{names_of_text, variables_of_text};
ghost use Rattle.st_rules.specs.TwiceDeclared.{is_standard, repeated, wrong_variable_name, twice_declared};
ghost use Rattle.symbols.specs.Found.{found};

use crate::names_of::{names_of_text, variables_of_text};
use crate::scopes::scopes_of;
use crate::standard::is_standard;
use st_rules::{Broken, BrokenRules, Reason};
use st_types::{Identifier, Source};
use std::alloc::{AllocError, Global};
use symbols::Index;

/// Adds each later declaration of a name in a scope, with the place of the first.
fn repeated(
    alloc: Global,
    names: &[&Identifier],
    broken: &mut BrokenRules,
) -> Result<(), AllocError>
    ensures adds { Adds (repeated (map (λ x. x.now) names.now)) broken.old broken.new }
    ensures covers { IfOk result (λ done. Covers (repeated (map (λ x. x.now) names.now)) broken.new) }
{
    let mut places = Index::new(alloc);
    for name in names {
        if let Some(first) = places.find(&name.name) {
            broken.add(Broken {
                reason: Reason::DeclaredBefore(first),
                place: name.place,
            });
        }
        places.add(&name.name, name.place)?;
    }
    Ok(())
}

/// Adds the names that occur again in one of these scopes.
fn repeated_in_scopes(
    alloc: Global,
    scopes: &[Vec<&Identifier>],
    broken: &mut BrokenRules,
) -> Result<(), AllocError>
    ensures adds { Adds (flat_map repeated (map (λ s. map (λ x. x.now) s.items) scopes.now)) broken.old broken.new }
    ensures covers { IfOk result
        (λ done. Covers (flat_map repeated (map (λ s. map (λ x. x.now) s.items) scopes.now)) broken.new) }
{
    for scope in scopes {
        repeated(alloc, scope, broken)?;
    }
    Ok(())
}

/// Adds the names that a standard function or block has.
fn standard_names(names: &[&Identifier], broken: &mut BrokenRules)
    ensures { Collects (flat_map (λ x. breaking StandardName (in_case (is_standard x.name) x.place))
        (map (λ x. x.now) names.now)) broken.old broken.new }
{
    for name in names {
        broken.add_in_case(is_standard(&name.name), Reason::StandardName, name.place);
    }
}

/// Adds a variable if its name is that of a standard function or block, or one that the index has, by its place.
fn taken_name(index: &Index<usize>, variable: &Identifier, broken: &mut BrokenRules)
    ensures { (names : List Identifier)
        → ((q : List ℕ) → found index.now q ≡ option_map (λ x. x.place) (first_named names q))
        → Collects (wrong_variable_name names variable.now) broken.old broken.new }
{
    if is_standard(&variable.name) {
        broken.add(Broken {
            reason: Reason::StandardName,
            place: variable.place,
        });
    } else if let Some(place) = index.find(&variable.name) {
        broken.add(Broken {
            reason: Reason::NameOfUnit(place),
            place: variable.place,
        });
    }
}

fn taken_names(index: &Index<usize>, variables: &[&Identifier], broken: &mut BrokenRules)
    ensures { (names : List Identifier)
        → ((q : List ℕ) → found index.now q ≡ option_map (λ x. x.place) (first_named names q))
        → Collects (flat_map (wrong_variable_name names) (map (λ x. x.now) variables.now)) broken.old broken.new }
{
    for variable in variables {
        taken_name(index, variable, broken);
    }
}

/// The places of names; of a name that occurs again, the first.
fn places_of<'a>(alloc: Global, names: &[&'a Identifier]) -> Result<Index<'a, usize>, AllocError>
    ensures { IfOk result (λ index. (q : List ℕ) → found index q
        ≡ option_map (λ x. x.place) (first_named (map (λ x. x.now) names.now) q)) }
{
    let mut index = Index::new(alloc);
    for name in names {
        index.add(&name.name, name.place)?;
    }
    Ok(index)
}

/// Adds the places at which a name is declared twice, or is taken (C2).
pub fn twice_declared(
    alloc: Global,
    source: &Source,
    broken: &mut BrokenRules,
) -> Result<(), AllocError>
    ensures adds { Adds (twice_declared (source_view source.now)) broken.old broken.new }
    ensures covers { IfOk result (λ done. Covers (twice_declared (source_view source.now)) broken.new) }
{
    let scopes = scopes_of(alloc, source)?;
    repeated_in_scopes(alloc, &scopes, broken)?;
    let names = names_of_text(alloc, &source.elements)?;
    standard_names(&names, broken);
    let index = places_of(alloc, &names)?;
    let variables = variables_of_text(alloc, &source.elements)?;
    taken_names(&index, &variables, broken);
    Ok(())
}
