//! Slots, and the paths that lead to them.

ghost use Rattle.std.specs.Prelude.{◌≡◌, ◌++◌, ◌∷◌, [], map, IfOk, OnOk};
ghost use Rattle.layout.specs.KeptSites.{step_view};
ghost use Rattle.layout.specs.Slots.{owner_view, path_at};

use crate::sites::PartStep;
use st_types::{Name, Owner, Path, Step, Value};
use std::alloc::{AllocError, Global};

/// An elementary part of a variable, as the layout has it.
pub struct LayoutSlot {
    pub path: Path,
    /// The value that it starts with, which has its type: 0, FALSE, T#0s or the first name for an input.
    pub initial: Value,
    /// Whether it is kept over a power failure (RETAIN). An input never is.
    pub retained: bool,
    /// Whether its value comes from the plant.
    pub is_input: bool,
}

impl Drop for LayoutSlot {
    fn drop(self) {
        let Self {
            path: _,
            initial: _,
            retained: _,
            is_input: _,
        } = self;
    }
}

/// The facts of a slot of a layout, besides its path.
#[derive(Clone, Copy)]
pub struct SlotFacts {
    /// The value that it starts with, which has its type: 0, FALSE, T#0s or the first name for an input.
    pub initial: Value,
    /// Whether it is kept over a power failure (RETAIN). An input never is.
    pub retained: bool,
    /// Whether its value comes from the plant.
    pub is_input: bool,
}

/// An instance of a program, by the names of its resource and of itself.
#[derive(Clone, Copy)]
pub struct OwnerNames<'a> {
    pub resource: &'a Name,
    pub instance: &'a Name,
}

/// A variable of a layout: its owner, its name, and whether its value comes from the plant.
#[derive(Clone, Copy)]
pub struct Root<'a> {
    /// The instance of a program, or nobody for a global.
    pub owner: Option<OwnerNames<'a>>,
    /// The bytes of its name.
    pub name: &'a [u8],
    pub is_input: bool,
}

fn copied_step(alloc: Global, step: PartStep) -> Result<Step, AllocError>
    ensures { IfOk result (λ copied. copied ≡ step_view step.entry) }
{
    match step {
        PartStep::Member(name) => Ok(Step::Member(Name::from_slice(alloc, name)?)),
        PartStep::Element(subscript) => Ok(Step::Element(subscript)),
    }
}

fn owner_of(alloc: Global, names: OwnerNames) -> Result<Owner, AllocError>
    ensures { IfOk result (λ owner. owner ≡ owner_view names.entry) }
{
    Ok(Owner {
        resource: names.resource.copied(alloc)?,
        instance: names.instance.copied(alloc)?,
    })
}

fn variable_path(alloc: Global, root: Root) -> Result<Path, AllocError>
    ensures { IfOk result (λ path. path ≡ path_at root.entry []) }
{
    let name = Name::from_slice(alloc, root.name)?;
    match root.owner {
        Some(names) => Ok(Path::owned(alloc, owner_of(alloc, names)?, name)),
        None => Ok(Path::global(alloc, name)),
    }
}

/// The path of the part of a variable to which these steps lead.
pub fn path_to(alloc: Global, root: Root, steps: &[PartStep]) -> Result<Path, AllocError>
    ensures { IfOk result (λ path. path ≡ path_at root.entry steps.now) }
{
    let mut path = variable_path(alloc, root)?;
    for step in steps {
        path.push(copied_step(alloc, *step)?)?;
    }
    Ok(path)
}
