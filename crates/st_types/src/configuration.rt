//! Configurations.

use crate::data_type::VariableType;
use crate::identifier::Identifier;
use crate::initial::Initial;
use crate::tree::Tree;

/// Where a global variable is in the plant: inputs come from it, outputs go to it.
#[derive(Clone, Copy, Debug, PartialEq, Eq)]
pub enum Direction {
    Input,
    Output,
}

/// How wide an address is.
#[derive(Clone, Copy, Debug, PartialEq, Eq)]
pub enum AddressWidth {
    /// `X`: one bit.
    Bit,
    /// `W`: 16 bits.
    Word,
}

/// A direct address, such as `%IX5`.
#[derive(Clone, Copy, Debug, PartialEq, Eq)]
pub struct Address {
    pub direction: Direction,
    pub width: AddressWidth,
    pub number: u64,
}

/// The names of a global declaration.
pub enum GlobalNames {
    /// One name at an address.
    Located(Identifier, Address),
    Listed(Vec<Identifier>),
}

impl Drop for GlobalNames {
    fn drop(self) {
        match self {
            Self::Located(_, _) | Self::Listed(_) => {}
        }
    }
}

/// Global names of one type and one initial value.
pub struct GlobalDeclaration {
    pub names: GlobalNames,
    pub declared: VariableType,
    pub initial: Option<Initial>,
}

impl Drop for GlobalDeclaration {
    fn drop(self) {
        let Self {
            names: _,
            declared: _,
            initial: _,
        } = self;
    }
}

/// The word after VAR_GLOBAL.
#[derive(Clone, Copy, Debug, PartialEq, Eq)]
pub enum GlobalQualifier {
    Constant,
    Retain,
}

/// A block of global variables.
pub struct GlobalBlock {
    pub qualifier: Option<GlobalQualifier>,
    pub declarations: Vec<GlobalDeclaration>,
}

impl Drop for GlobalBlock {
    fn drop(self) {
        let Self {
            qualifier: _,
            declarations: _,
        } = self;
    }
}

/// A task's priority as it is written: decimal digits at a place. The least number runs first.
#[derive(Clone, Copy, Debug, PartialEq, Eq)]
pub struct Priority {
    pub place: usize,
    pub number: u64,
}

/// A task of a resource, by which program instances become due.
pub struct Task {
    pub name: Identifier,
    /// The global whose rise makes the task due.
    pub single: Option<Identifier>,
    /// The interval in milliseconds.
    pub interval: Option<u64>,
    pub priority: Priority,
}

impl Drop for Task {
    fn drop(self) {
        let Self {
            name: _,
            single: _,
            interval: _,
            priority: _,
        } = self;
    }
}

/// An instance of a program.
pub struct Instance {
    pub name: Identifier,
    /// The task that runs it.
    pub task: Option<Identifier>,
    pub program: Identifier,
}

impl Drop for Instance {
    fn drop(self) {
        let Self {
            name: _,
            task: _,
            program: _,
        } = self;
    }
}

/// A resource, which runs one program at a time.
pub struct Resource {
    pub name: Identifier,
    /// The name after ON.
    pub processor: Identifier,
    pub tasks: Vec<Task>,
    pub instances: Vec<Instance>,
}

impl Drop for Resource {
    fn drop(self) {
        let Self {
            name: _,
            processor: _,
            tasks: _,
            instances: _,
        } = self;
    }
}

/// A configuration: its globals, and its resources with their tasks and program instances.
pub struct Configuration {
    pub name: Identifier,
    pub globals: Vec<GlobalBlock>,
    pub resources: Vec<Resource>,
}

impl Drop for Configuration {
    fn drop(self) {
        let Self {
            name: _,
            globals: _,
            resources: _,
        } = self;
    }
}

impl Tree for Address {
    ghost use Rattle.st_types.specs.declared.configuration.Address.{Address};

    ghost Mirror = { Address };

    ghost view = { λ x. x };
}

impl Tree for GlobalNames {
    ghost use Rattle.st_types.specs.Configurations as tree;
    ghost use Rattle.st_types.specs.ConfigurationViews.{global_names_view};

    ghost Mirror = { tree.GlobalNames };

    ghost view = { global_names_view };
}

impl Tree for GlobalDeclaration {
    ghost use Rattle.st_types.specs.Configurations as tree;
    ghost use Rattle.st_types.specs.ConfigurationViews.{global_declaration_view};

    ghost Mirror = { tree.GlobalDeclaration };

    ghost view = { global_declaration_view };
}

impl Tree for GlobalBlock {
    ghost use Rattle.st_types.specs.Configurations as tree;
    ghost use Rattle.st_types.specs.ConfigurationViews.{global_block_view};

    ghost Mirror = { tree.GlobalBlock };

    ghost view = { global_block_view };
}

impl Tree for Task {
    ghost use Rattle.st_types.specs.declared.configuration.Task.{Task};

    ghost Mirror = { Task };

    ghost view = { λ x. x };
}

impl Tree for Instance {
    ghost use Rattle.st_types.specs.declared.configuration.Instance.{Instance};

    ghost Mirror = { Instance };

    ghost view = { λ x. x };
}

impl Tree for Resource {
    ghost use Rattle.st_types.specs.Configurations as tree;
    ghost use Rattle.st_types.specs.ConfigurationViews.{resource_view};

    ghost Mirror = { tree.Resource };

    ghost view = { resource_view };
}

impl Tree for Configuration {
    ghost use Rattle.st_types.specs.Configurations as tree;
    ghost use Rattle.st_types.specs.ConfigurationViews.{configuration_view};

    ghost Mirror = { tree.Configuration };

    ghost view = { configuration_view };
}
