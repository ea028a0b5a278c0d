//! Declarations of variables.

use crate::data_type::VariableType;
use crate::identifier::Identifier;
use crate::initial::Initial;
use crate::tree::Tree;

/// The word of a block of variables on their retention.
#[derive(Clone, Copy, Debug, PartialEq, Eq)]
pub enum Retention {
    Retain,
    NonRetain,
}

/// The words that a block of variables begins with.
#[derive(Clone, Copy, Debug, PartialEq, Eq)]
pub enum Section {
    /// VAR_INPUT
    Input(Option<Retention>),
    /// VAR_OUTPUT
    Output(Option<Retention>),
    /// VAR
    Local(Option<Retention>),
    /// VAR CONSTANT
    Constant,
    /// VAR_EXTERNAL
    External,
    /// VAR_EXTERNAL CONSTANT
    ConstantExternal,
}

/// Names of one type and one initial value. Externals have none.
pub struct Declaration {
    pub names: Vec<Identifier>,
    pub declared: VariableType,
    pub initial: Option<Initial>,
}

impl Drop for Declaration {
    fn drop(self) {
        let Self {
            names: _,
            declared: _,
            initial: _,
        } = self;
    }
}

/// A block of variables, from its first word to END_VAR.
pub struct VariableBlock {
    pub section: Section,
    pub declarations: Vec<Declaration>,
}

impl Drop for VariableBlock {
    fn drop(self) {
        let Self {
            section: _,
            declarations: _,
        } = self;
    }
}

impl Tree for Section {
    ghost use Rattle.st_types.specs.declared.declaration.Section.{Section};

    ghost Mirror = { Section };

    ghost view = { λ x. x };
}

impl Tree for Declaration {
    ghost use Rattle.st_types.specs.Declarations as tree;
    ghost use Rattle.st_types.specs.DeclarationViews.{declaration_view};

    ghost Mirror = { tree.Declaration };

    ghost view = { declaration_view };
}

impl Tree for VariableBlock {
    ghost use Rattle.st_types.specs.Declarations as tree;
    ghost use Rattle.st_types.specs.DeclarationViews.{variable_block_view};

    ghost Mirror = { tree.VariableBlock };

    ghost view = { variable_block_view };
}
