//! Initial values.

ghost use Rattle.std.specs.Prelude.{◌≡◌, map};
ghost use Rattle.st_types.specs.Initials as tree;
ghost use Rattle.st_types.specs.Initials.{elements_of, members_of};
ghost use Rattle.st_types.specs.InitialViews.{initial_view, element_view, member_view};

use crate::identifier::Identifier;
use crate::literal::{Literal, Number};
use crate::tree::Tree;

/// An initial value: a constant, the elements of an array, or the members of a structure.
#[cycle(initial)]
pub enum Initial {
    Constant(Literal),
    /// The elements of an array, with the place of the `[`.
    List(usize, Vec<InitialElement>),
    /// The fields of a structure, with the place of the `(`.
    Structure(usize, Vec<InitialMember>),
}

impl Drop for Initial {
    #[cycle(dropped_initial)]
    fn drop(self) {
        match self {
            Self::Constant(_) | Self::List(_, _) | Self::Structure(_, _) => {}
        }
    }
}

/// Elements of an array's initial value.
#[cycle(initial)]
pub enum InitialElement {
    Single(Initial),
    /// A number of elements with the same value, as in `3(0)`.
    Repeated(Number, Initial),
    /// A number of elements with their default value, as in `3()`.
    Defaults(Number),
}

impl Drop for InitialElement {
    #[cycle(dropped_initial)]
    fn drop(self) {
        match self {
            Self::Single(_) | Self::Repeated(_, _) | Self::Defaults(_) => {}
        }
    }
}

/// A field of a structure with its initial value.
#[cycle(initial)]
pub struct InitialMember {
    pub name: Identifier,
    pub value: Initial,
}

impl Drop for InitialMember {
    #[cycle(dropped_initial)]
    fn drop(self) {
        let Self { name: _, value: _ } = self;
    }
}

impl Initial {
    pub fn constant(literal: Literal) -> Initial
        ensures { initial_view result ≡ tree.constant literal }
    {
        Initial::Constant(literal)
    }

    pub fn list(place: usize, elements: Vec<InitialElement>) -> Initial
        ensures { initial_view result ≡ tree.list place (elements_of (map element_view elements.items)) }
    {
        Initial::List(place, elements)
    }

    #[tactic(auto, using(crate::proofs::Bridge::structure_view))]
    pub fn structure(place: usize, members: Vec<InitialMember>) -> Initial
        ensures { initial_view result ≡ tree.structure place (members_of (map member_view members.items)) }
    {
        Initial::Structure(place, members)
    }
}

impl InitialElement {
    pub fn single(value: Initial) -> InitialElement
        ensures { element_view result ≡ tree.single (initial_view value) }
    {
        InitialElement::Single(value)
    }

    pub fn repeated(count: Number, value: Initial) -> InitialElement
        ensures { element_view result ≡ tree.repeated count (initial_view value) }
    {
        InitialElement::Repeated(count, value)
    }

    pub fn defaults(count: Number) -> InitialElement
        ensures { element_view result ≡ tree.defaults count }
    {
        InitialElement::Defaults(count)
    }
}

impl Tree for Initial {
    ghost use Rattle.st_types.specs.Initials as tree;
    ghost use Rattle.st_types.specs.InitialViews.{initial_view};

    ghost Mirror = { tree.Initial };

    ghost view = { initial_view };
}
