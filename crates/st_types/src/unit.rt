//! Functions, function blocks and programs.

use crate::data_type::SimpleType;
use crate::declaration::VariableBlock;
use crate::identifier::Identifier;
use crate::statement::Stmt;
use crate::tree::Tree;

/// The sort of a unit.
pub enum UnitSort {
    /// A function, with the type of its result.
    Function(SimpleType),
    FunctionBlock,
    Program,
}

impl Drop for UnitSort {
    fn drop(self) {
        match self {
            Self::Function(_) | Self::FunctionBlock | Self::Program => {}
        }
    }
}

/// A program organisation unit: a function, a function block or a program.
pub struct Unit {
    pub sort: UnitSort,
    pub name: Identifier,
    pub blocks: Vec<VariableBlock>,
    pub body: Vec<Stmt>,
}

impl Drop for Unit {
    fn drop(self) {
        let Self {
            sort: _,
            name: _,
            blocks: _,
            body: _,
        } = self;
    }
}

impl Tree for UnitSort {
    ghost use Rattle.st_types.specs.declared.unit.UnitSort.{UnitSort};

    ghost Mirror = { UnitSort };

    ghost view = { λ x. x };
}

impl Tree for Unit {
    ghost use Rattle.st_types.specs.Units as tree;
    ghost use Rattle.st_types.specs.UnitViews.{unit_view};

    ghost Mirror = { tree.OrganisationUnit };

    ghost view = { unit_view };
}
