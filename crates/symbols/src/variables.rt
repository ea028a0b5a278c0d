//! The variables of a unit by their names.

ghost use Rattle.std.specs.Prelude.{◌≡◌, List, ℕ, Some, None, IfOk, OnOk, map, option_map, if◌then◌else◌};
ghost use Rattle.std.specs.List.{list_any};
ghost use Rattle.st_types.specs.DeclarationViews.{declaration_view, variable_block_view};
ghost use Rattle.st_types.specs.Declarations as tree;
ghost use Rattle.st_meaning.specs.NameTypes.{is_named, type_in, type_in_blocks};
ghost use Rattle.st_rules.specs.Environments.{section_in};
ghost use Rattle.symbols.specs.Found.{or_found};
ghost use Rattle.symbols.specs.Variables.{type_found, section_found, ServesVariables};

use crate::index::Index;
use st_types::{Declaration, Identifier, Name, Section, VariableBlock, VariableType};
use std::alloc::{AllocError, Global};

/// A variable: its type, and the words with which its block begins.
#[derive(Clone, Copy)]
pub struct Variable<'a> {
    pub declared: &'a VariableType,
    pub section: Section,
}

/// The variables of a unit; if several have one name, the first.
pub struct VariableNames<'a> {
    variables: Index<'a, Variable<'a>>,
}

impl Drop for VariableNames<'_> {
    fn drop(self) {
        let Self { variables: _ } = self;
    }
}

/// Adds one variable under each name.
fn add_names<'a>(
    variables: &mut Index<'a, Variable<'a>>,
    variable: Variable<'a>,
    names: &'a [Identifier],
) -> Result<(), AllocError>
    ensures types { OnOk result ((q : List ℕ) → type_found variables.new q ≡ or_found (type_found variables.old q)
        (if list_any (is_named q) names.now then Some variable.entry.declared.now else None)) }
    ensures sections { OnOk result ((q : List ℕ) → section_found variables.new q
        ≡ or_found (section_found variables.old q)
        (if list_any (is_named q) names.now then Some variable.entry.section else None)) }
{
    for name in names {
        variables.add(&name.name, variable)?;
    }
    Ok(())
}

/// Adds the variables of a block.
pub fn add_block<'a>(
    variables: &mut Index<'a, Variable<'a>>,
    section: Section,
    declarations: &'a [Declaration],
) -> Result<(), AllocError>
    ensures types { OnOk result ((q : List ℕ) → type_found variables.new q
        ≡ or_found (type_found variables.old q) (type_in (map declaration_view declarations.now) q)) }
    ensures sections { OnOk result ((q : List ℕ) → section_found variables.new q
        ≡ or_found (section_found variables.old q)
        (if list_any (λ d. list_any (is_named q) d.names) (map declaration_view declarations.now)
        then Some section else None)) }
{
    for declaration in declarations {
        let variable = Variable {
            declared: &declaration.declared,
            section,
        };
        add_names(variables, variable, &declaration.names)?;
    }
    Ok(())
}

impl<'a> VariableNames<'a> {
    /// The variables of these blocks.
    pub fn new(alloc: Global, blocks: &'a [VariableBlock]) -> Result<VariableNames<'a>, AllocError>
        ensures { IfOk result (λ names. ServesVariables names (map variable_block_view blocks.now)) }
    {
        let mut variables = Index::new(alloc);
        for block in blocks {
            add_block(&mut variables, block.section, &block.declarations)?;
        }
        Ok(VariableNames { variables })
    }

    /// The type of a variable.
    pub fn type_named(&self, name: &Name) -> Option<&'a VariableType>
        ensures { (bs : List tree.VariableBlock) → ServesVariables self.now bs
            → option_map (λ t. t.now) result ≡ type_in_blocks bs name.now }
    {
        match self.variables.find(name) {
            Some(variable) => Some(variable.declared),
            None => None,
        }
    }

    /// The words with which a variable's block begins.
    pub fn section_named(&self, name: &Name) -> Option<Section>
        ensures { (bs : List tree.VariableBlock) → ServesVariables self.now bs → result ≡ section_in bs name.now }
    {
        match self.variables.find(name) {
            Some(variable) => Some(variable.section),
            None => None,
        }
    }
}
