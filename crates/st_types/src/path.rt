//! Paths of variables.

ghost use Rattle.std.specs.Prelude.{◌≡◌, ◌↔◌, ◌++◌, ◌∷◌, [], IsTrue, IfOk, OnOk, OnErr, Some, None};
ghost use Rattle.std.specs.Cmp.{partial_equiv_from_equiv};
ghost use Rattle.std.specs.Hash.{same_Alike};
ghost use Rattle.st_types.specs.Paths as paths;

use crate::name::Name;
use std::alloc::{AllocError, Global};
use std::hash::{Hash, Hasher};
use std::marker::Model;

/// The instance of a program that a variable belongs to.
pub struct Owner {
    pub resource: Name,
    pub instance: Name,
}

impl Drop for Owner {
    fn drop(self) {
        let Self {
            resource: _,
            instance: _,
        } = self;
    }
}

/// A step from a variable to a part of it.
pub enum Step {
    /// A field of a structure, or a member of a block's instance.
    Member(Name),
    /// An element of an array, by its subscript.
    Element(i128),
}

impl Drop for Step {
    fn drop(self) {
        match self {
            Self::Member(_) | Self::Element(_) => {}
        }
    }
}

/// The path of a variable: its owner, its name, and the steps to the part that is meant. Contracts see these three.
///
/// A global has no owner, nor has a variable of a function.
pub struct Path {
    owner: Option<Owner>,
    name: Name,
    steps: Vec<Step>,
}

impl Drop for Path {
    fn drop(self) {
        let Self {
            owner: _,
            name: _,
            steps: _,
        } = self;
    }
}

impl Model for Path {
    ghost use Rattle.st_types.specs.Paths as paths;

    ghost Value = { paths.Path };

    ghost view = { λ p. record { owner = p.owner; name = p.name; steps = p.steps.items } };
}

impl Owner {
    /// Another one with the same names.
    pub fn copied(&self, alloc: Global) -> Result<Owner, AllocError>
        ensures { IfOk result (λ x. x ≡ self.now) }
    {
        Ok(Owner {
            resource: self.resource.copied(alloc)?,
            instance: self.instance.copied(alloc)?,
        })
    }
}

impl Step {
    /// Another step to the same part.
    pub fn copied(&self, alloc: Global) -> Result<Step, AllocError>
        ensures { IfOk result (λ x. x ≡ self.now) }
    {
        match self {
            Step::Member(name) => Ok(Step::Member(name.copied(alloc)?)),
            Step::Element(subscript) => Ok(Step::Element(*subscript)),
        }
    }
}

fn copied_owner(alloc: Global, owner: &Option<Owner>) -> Result<Option<Owner>, AllocError>
    ensures { IfOk result (λ x. x ≡ owner.now) }
{
    match owner {
        Some(owner) => Ok(Some(owner.copied(alloc)?)),
        None => Ok(None),
    }
}

fn copied_steps(alloc: Global, steps: &[Step]) -> Result<Vec<Step>, AllocError>
    ensures { IfOk result (λ x. x.items ≡ steps.now) }
{
    let mut copied = Vec::new(alloc);
    for step in steps {
        copied.push(step.copied(alloc)?)?;
    }
    Ok(copied)
}

impl Path {
    /// The path of a global, or of a variable of a function.
    pub fn global(alloc: Global, name: Name) -> Path
        ensures { result ≡ record { owner = None; name = name; steps = [] } }
    {
        Path {
            owner: None,
            name,
            steps: Vec::new(alloc),
        }
    }

    /// The path of a variable of a program's instance.
    pub fn owned(alloc: Global, owner: Owner, name: Name) -> Path
        ensures { result ≡ record { owner = Some owner; name = name; steps = [] } }
    {
        Path {
            owner: Some(owner),
            name,
            steps: Vec::new(alloc),
        }
    }

    /// Appends a step.
    pub fn push(&mut self, step: Step) -> Result<(), AllocError>
        ensures ok { OnOk result (self.new ≡ record self.old { steps = self.old.steps ++ step ∷ [] }) }
        ensures err { OnErr result (self.new ≡ self.old) }
    {
        self.steps.push(step)?;
        Ok(())
    }

    /// Another path to the same part.
    pub fn copied(&self, alloc: Global) -> Result<Path, AllocError>
        ensures { IfOk result (λ p. p ≡ self.now) }
    {
        Ok(Path {
            owner: copied_owner(alloc, &self.owner)?,
            name: self.name.copied(alloc)?,
            steps: copied_steps(alloc, &self.steps)?,
        })
    }

    pub fn owner(&self) -> &Option<Owner>
        ensures { result.now ≡ self.now.owner }
    {
        &self.owner
    }

    pub fn name(&self) -> &Name
        ensures { result.now ≡ self.now.name }
    {
        &self.name
    }

    pub fn steps(&self) -> &[Step]
        ensures { result.now ≡ self.now.steps }
    {
        self.steps.as_slice()
    }

    /// Whether the two lead to one part.
    pub fn is(&self, other: &Path) -> bool
        ensures { IsTrue result ↔ (self.now ≡ other.now) }
    {
        self == other
    }
}

// Two paths are equal if they lead to the same part, and likewise for the parts of paths: `==` is equality of what
// contracts see (`Comparisons`), so a map by paths has one entry per path.

impl PartialEq for Owner {
    ghost use Rattle.st_types.specs.Paths.{same_names};
    ghost use Rattle.st_types.specs.Comparisons.{equality_equiv, owners_are_compared};

    ghost eq = { same_names };

    ghost laws = { partial_equiv_from_equiv (equality_equiv owners_are_compared) };

    fn eq(&self, other: &Owner) -> bool {
        self.resource == other.resource && self.instance == other.instance
    }
}

impl Eq for Owner {
    ghost use Rattle.st_types.specs.Comparisons.{equality_equiv, owners_are_compared};

    ghost laws = { equality_equiv owners_are_compared };
}

impl Hash for Owner {
    ghost use Rattle.st_types.specs.Comparisons.{owner_writes, owners_are_compared};

    ghost hash_input = { owner_writes };

    ghost respects_eq = { (same_Alike owner_writes owners_are_compared).fed };

    fn hash<H: Hasher>(&self, state: &mut H) {
        self.resource.hash(state);
        self.instance.hash(state);
    }
}

impl PartialEq for Step {
    ghost use Rattle.st_types.specs.Paths.{same_step};
    ghost use Rattle.st_types.specs.Comparisons.{equality_equiv, steps_are_compared};

    ghost eq = { same_step };

    ghost laws = { partial_equiv_from_equiv (equality_equiv steps_are_compared) };

    fn eq(&self, other: &Step) -> bool {
        match (self, other) {
            (Step::Member(a), Step::Member(b)) => a == b,
            (Step::Element(a), Step::Element(b)) => a == b,
            _ => false,
        }
    }
}

impl Eq for Step {
    ghost use Rattle.st_types.specs.Comparisons.{equality_equiv, steps_are_compared};

    ghost laws = { equality_equiv steps_are_compared };
}

impl Hash for Step {
    ghost use Rattle.st_types.specs.Comparisons.{step_writes, steps_are_compared};

    ghost hash_input = { step_writes };

    ghost respects_eq = { (same_Alike step_writes steps_are_compared).fed };

    fn hash<H: Hasher>(&self, state: &mut H) {
        match self {
            Step::Member(name) => {
                state.write_u8(0);
                name.hash(state);
            }
            Step::Element(subscript) => {
                state.write_u8(1);
                subscript.hash(state);
            }
        }
    }
}

impl PartialEq for Path {
    ghost use Rattle.st_types.specs.Paths.{same_path};
    ghost use Rattle.st_types.specs.Comparisons.{equality_equiv, paths_are_compared};

    ghost eq = { same_path };

    ghost laws = { partial_equiv_from_equiv (equality_equiv paths_are_compared) };

    fn eq(&self, other: &Path) -> bool {
        self.owner == other.owner && self.name == other.name && self.steps == other.steps
    }
}

impl Eq for Path {
    ghost use Rattle.st_types.specs.Comparisons.{equality_equiv, paths_are_compared};

    ghost laws = { equality_equiv paths_are_compared };
}

impl Hash for Path {
    ghost use Rattle.st_types.specs.Comparisons.{path_writes, paths_are_compared};

    ghost hash_input = { path_writes };

    ghost respects_eq = { (same_Alike path_writes paths_are_compared).fed };

    fn hash<H: Hasher>(&self, state: &mut H) {
        self.owner.hash(state);
        self.name.hash(state);
        self.steps.hash(state);
    }
}
