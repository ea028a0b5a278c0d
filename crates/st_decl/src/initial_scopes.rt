//! The scopes inside initial values: each structure is one, of the fields that it names.

ghost use Rattle.std.specs.Prelude.{◌≡◌, ◌∷◌, ◌++◌, map, option_map, IfOk};
ghost use Rattle.st_types.specs.Initials.{elements_of, members_of};
ghost use Rattle.st_types.specs.InitialViews.{initial_view, element_view, member_view};
ghost use Rattle.st_rules.specs.InitialScopes.{names_of_members, scopes_in_initial, scopes_in_list};
ghost use Rattle.st_rules.specs.InitialScopes.{scopes_in_list_element, scopes_in_members, scopes_in_optional};

use st_types::{Identifier, Initial, InitialElement, InitialMember};
use std::alloc::{AllocError, Global};

/// The fields that a structure names.
fn names_of_members<'a>(
    alloc: Global,
    members: &'a [InitialMember],
) -> Result<Vec<&'a Identifier>, AllocError>
    ensures { IfOk result
        (λ scope. map (λ x. x.now) scope.items ≡ names_of_members (members_of (map member_view members.now))) }
{
    let mut scope = Vec::new(alloc);
    for member in members {
        scope.push(&member.name)?;
    }
    Ok(scope)
}

/// Appends the scopes inside an initial value.
#[cycle(push_initial)]
fn push_initial<'a>(
    alloc: Global,
    scopes: &mut Vec<Vec<&'a Identifier>>,
    initial: &'a Initial,
) -> Result<(), AllocError>
    ensures { IfOk result (λ done. map (λ s. map (λ x. x.now) s.items) scopes.new.items
        ≡ map (λ s. map (λ x. x.now) s.items) scopes.old.items ++ scopes_in_initial (initial_view initial.now)) }
{
    match initial {
        Initial::Constant(_) => Ok(()),
        Initial::List(_, elements) => push_list(alloc, scopes, elements),
        Initial::Structure(_, members) => push_structure(alloc, scopes, members),
    }
}

#[cycle(push_initial)]
fn push_element<'a>(
    alloc: Global,
    scopes: &mut Vec<Vec<&'a Identifier>>,
    element: &'a InitialElement,
) -> Result<(), AllocError>
    ensures { IfOk result (λ done. map (λ s. map (λ x. x.now) s.items) scopes.new.items
        ≡ map (λ s. map (λ x. x.now) s.items) scopes.old.items
        ++ scopes_in_list_element (element_view element.now)) }
{
    match element {
        InitialElement::Single(value) => push_initial(alloc, scopes, value),
        InitialElement::Repeated(_, value) => push_initial(alloc, scopes, value),
        InitialElement::Defaults(_) => Ok(()),
    }
}

#[cycle(push_initial)]
fn push_list<'a>(
    alloc: Global,
    scopes: &mut Vec<Vec<&'a Identifier>>,
    elements: &'a [InitialElement],
) -> Result<(), AllocError>
    ensures { IfOk result (λ done. map (λ s. map (λ x. x.now) s.items) scopes.new.items
        ≡ map (λ s. map (λ x. x.now) s.items) scopes.old.items
        ++ scopes_in_list (elements_of (map element_view elements.now))) }
{
    for element in elements {
        push_element(alloc, scopes, element)?;
    }
    Ok(())
}

/// The structure of these members, and those in their values.
#[cycle(push_initial)]
fn push_structure<'a>(
    alloc: Global,
    scopes: &mut Vec<Vec<&'a Identifier>>,
    members: &'a [InitialMember],
) -> Result<(), AllocError>
    ensures { IfOk result (λ done. map (λ s. map (λ x. x.now) s.items) scopes.new.items
        ≡ map (λ s. map (λ x. x.now) s.items) scopes.old.items
        ++ names_of_members (members_of (map member_view members.now))
        ∷ scopes_in_members (members_of (map member_view members.now))) }
{
    scopes.push(names_of_members(alloc, members)?)?;
    push_members(alloc, scopes, members)
}

#[cycle(push_initial)]
fn push_members<'a>(
    alloc: Global,
    scopes: &mut Vec<Vec<&'a Identifier>>,
    members: &'a [InitialMember],
) -> Result<(), AllocError>
    ensures { IfOk result (λ done. map (λ s. map (λ x. x.now) s.items) scopes.new.items
        ≡ map (λ s. map (λ x. x.now) s.items) scopes.old.items
        ++ scopes_in_members (members_of (map member_view members.now))) }
{
    for member in members {
        push_initial(alloc, scopes, &member.value)?;
    }
    Ok(())
}

/// Appends the scopes inside an initial value, if there is one.
pub fn push_optional<'a>(
    alloc: Global,
    scopes: &mut Vec<Vec<&'a Identifier>>,
    initial: &'a Option<Initial>,
) -> Result<(), AllocError>
    ensures { IfOk result (λ done. map (λ s. map (λ x. x.now) s.items) scopes.new.items
        ≡ map (λ s. map (λ x. x.now) s.items) scopes.old.items
        ++ scopes_in_optional (option_map initial_view initial.now)) }
{
    match initial {
        Some(initial) => push_initial(alloc, scopes, initial),
        None => Ok(()),
    }
}
