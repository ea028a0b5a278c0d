//! The interfaces of the units of a text, by their names.

ghost use Rattle.std.specs.Prelude.{◌≡◌, ◌++◌, [], List, ℕ, Some, None, IfOk, OnOk, map, option_map, option_and_then};
ghost use Rattle.std.specs.Prelude.{if◌then◌else◌};
ghost use Rattle.st_types.specs.Declarations as trees;
ghost use Rattle.st_types.specs.DeclarationViews.{declaration_view, variable_block_view};
ghost use Rattle.st_types.specs.UnitViews.{unit_view};
ghost use Rattle.st_meaning.specs.NameTypes.{Declared, is_input, type_in_sections, kind_among};
ghost use Rattle.st_meaning.specs.NameTypes.{type_in, variable_of_block, kinds_of_declaration, kinds_of_declarations};
ghost use Rattle.st_meaning.specs.NameTypes.{input_kinds, unit_named};
ghost use Rattle.st_meaning.specs.Enumerations.{enumerations_of};
ghost use Rattle.st_rules.specs.Environments.{callee_of_sort, is_own_block};
ghost use Rattle.symbols.specs.Found.{or_found};
ghost use Rattle.symbols.specs.Enumerated.{HasEnumerations};
ghost use Rattle.symbols.specs.Variables.{type_found};
ghost use Rattle.symbols.specs.Interfaces.{is_of, signature_view, IsInterface, HasUnits};

use crate::enumerations::EnumeratedNames;
use crate::index::Index;
use crate::variables::{Variable, add_block};
use st_types::{
    Declaration, Identifier, Kind, Name, Section, Unit, UnitSort, VariableBlock, VariableType,
};
use std::alloc::{AllocError, Global};

/// The inputs and the result of a function. A type that is neither elementary nor enumerated is missing here.
pub struct Signature {
    /// The types of the inputs, in order.
    pub inputs: Vec<Option<Kind>>,
    pub result: Option<Kind>,
}

impl Drop for Signature {
    fn drop(self) {
        let Self {
            inputs: _,
            result: _,
        } = self;
    }
}

/// The side of a block: its inputs or its outputs.
#[derive(Clone, Copy)]
pub enum Side {
    Input,
    Output,
}

/// The inputs and the outputs of a function block.
#[derive(Drop)]
struct BlockSides<'a> {
    inputs: Index<'a, Variable<'a>>,
    outputs: Index<'a, Variable<'a>>,
}

/// The interface of a unit.
#[derive(Drop)]
enum Interface<'a> {
    Function(Signature),
    FunctionBlock(BlockSides<'a>),
    Program,
}

/// The units of a text; if several have one name, the first.
pub struct UnitInterfaces<'a> {
    units: Index<'a, Interface<'a>>,
}

impl Drop for UnitInterfaces<'_> {
    fn drop(self) {
        let Self { units: _ } = self;
    }
}

fn is_of(side: Side, section: Section) -> bool
    ensures { result ≡ is_of side section }
{
    match side {
        Side::Input => matches!(section, Section::Input(_)),
        Side::Output => matches!(section, Section::Output(_)),
    }
}

/// Adds the variables of a block of variables, if they are meant.
fn add_side<'a>(
    variables: &mut Index<'a, Variable<'a>>,
    side: Side,
    block: &'a VariableBlock,
) -> Result<(), AllocError>
    ensures { OnOk result ((q : List ℕ) → type_found variables.new q ≡ or_found (type_found variables.old q)
        (if is_of side block.now.section then type_in (map declaration_view block.now.declarations.items) q
        else None)) }
{
    if is_of(side, block.section) {
        add_block(variables, block.section, &block.declarations)
    } else {
        Ok(())
    }
}

/// The variables that are meant of a function block.
fn side_of<'a>(
    alloc: Global,
    side: Side,
    blocks: &'a [VariableBlock],
) -> Result<Index<'a, Variable<'a>>, AllocError>
    ensures { IfOk result (λ variables. (q : List ℕ)
        → type_found variables q ≡ type_in_sections (is_of side) (map variable_block_view blocks.now) q) }
{
    let mut variables = Index::new(alloc);
    for block in blocks {
        add_side(&mut variables, side, block)?;
    }
    Ok(variables)
}

/// Appends one type for each name.
fn push_kinds(
    kinds: &mut Vec<Option<Kind>>,
    kind: Option<Kind>,
    names: &[Identifier],
) -> Result<(), AllocError>
    ensures { OnOk result ((text : Declared) (d : trees.Declaration) → kind ≡ kind_among text.types d.declared
        → kinds.new.items ≡ kinds.old.items ++ kinds_of_declaration text d names.now) }
{
    for _name in names {
        kinds.push(kind)?;
    }
    Ok(())
}

fn push_declarations(
    kinds: &mut Vec<Option<Kind>>,
    enumerated: &EnumeratedNames,
    declarations: &[Declaration],
) -> Result<(), AllocError>
    ensures { OnOk result ((text : Declared) → HasEnumerations enumerated.now (enumerations_of text.types)
        → kinds.new.items ≡ kinds.old.items
        ++ kinds_of_declarations text (map declaration_view declarations.now)) }
{
    for declaration in declarations {
        let kind = enumerated.kind_of_type(&declaration.declared);
        push_kinds(kinds, kind, &declaration.names)?;
    }
    Ok(())
}

fn push_block(
    kinds: &mut Vec<Option<Kind>>,
    enumerated: &EnumeratedNames,
    block: &VariableBlock,
) -> Result<(), AllocError>
    ensures { OnOk result ((text : Declared) → HasEnumerations enumerated.now (enumerations_of text.types)
        → kinds.new.items ≡ kinds.old.items ++ (if is_input block.now.section
        then kinds_of_declarations text (map declaration_view block.now.declarations.items) else [])) }
{
    if is_of(Side::Input, block.section) {
        push_declarations(kinds, enumerated, &block.declarations)
    } else {
        Ok(())
    }
}

/// The types of a function's inputs.
fn input_kinds(
    alloc: Global,
    enumerated: &EnumeratedNames,
    blocks: &[VariableBlock],
) -> Result<Vec<Option<Kind>>, AllocError>
    ensures { IfOk result (λ kinds. (text : Declared)
        → HasEnumerations enumerated.now (enumerations_of text.types)
        → kinds.items ≡ input_kinds text (map variable_block_view blocks.now)) }
{
    let mut kinds = Vec::new(alloc);
    for block in blocks {
        push_block(&mut kinds, enumerated, block)?;
    }
    Ok(kinds)
}

fn interface_of<'a>(
    alloc: Global,
    enumerated: &EnumeratedNames,
    unit: &'a Unit,
) -> Result<Interface<'a>, AllocError>
    ensures { IfOk result (λ interface. (text : Declared)
        → HasEnumerations enumerated.now (enumerations_of text.types)
        → IsInterface text interface (unit_view unit.now)) }
{
    match &unit.sort {
        UnitSort::Function(declared) => {
            let inputs = input_kinds(alloc, enumerated, &unit.blocks)?;
            let result = enumerated.kind_of_simple(declared);
            Ok(Interface::Function(Signature { inputs, result }))
        }
        UnitSort::FunctionBlock => {
            let inputs = side_of(alloc, Side::Input, &unit.blocks)?;
            let outputs = side_of(alloc, Side::Output, &unit.blocks)?;
            Ok(Interface::FunctionBlock(BlockSides { inputs, outputs }))
        }
        UnitSort::Program => Ok(Interface::Program),
    }
}

impl<'a> UnitInterfaces<'a> {
    /// The interfaces of these units.
    pub fn new(
        alloc: Global,
        enumerated: &EnumeratedNames,
        units: &[&'a Unit],
    ) -> Result<UnitInterfaces<'a>, AllocError>
        ensures { IfOk result (λ interfaces. (text : Declared)
            → HasEnumerations enumerated.now (enumerations_of text.types)
            → map (λ u. unit_view u.now) units.now ≡ text.units → HasUnits text interfaces text.units) }
    {
        let mut interfaces = Index::new(alloc);
        for unit in units {
            let interface = interface_of(alloc, enumerated, unit)?;
            interfaces.add(&unit.name.name, interface)?;
        }
        Ok(UnitInterfaces { units: interfaces })
    }

    /// The inputs and the result of the function of this name.
    pub fn function(&self, name: &Name) -> Option<&Signature>
        ensures { (text : Declared) → HasUnits text self.now text.units
            → option_map (λ s. signature_view s.now) result
            ≡ option_and_then (λ u. callee_of_sort text u.sort u.blocks) (unit_named text.units name.now) }
    {
        match self.units.get(name) {
            Some(Interface::Function(signature)) => Some(signature),
            _ => None,
        }
    }

    /// Whether the name is one of a function block.
    pub fn is_block(&self, name: &Name) -> bool
        ensures { (text : Declared) → HasUnits text self.now text.units
            → result ≡ is_own_block (unit_named text.units name.now) }
    {
        matches!(self.units.get(name), Some(Interface::FunctionBlock(_)))
    }

    /// The type of an input or an output of a function block.
    pub fn variable(&self, side: Side, block: &Name, name: &Name) -> Option<&'a VariableType>
        ensures { (text : Declared) → HasUnits text self.now text.units
            → option_map (λ t. t.now) result ≡ variable_of_block text (is_of side) block.now name.now }
    {
        let Some(Interface::FunctionBlock(sides)) = self.units.get(block) else {
            return None;
        };
        let variables = match side {
            Side::Input => &sides.inputs,
            Side::Output => &sides.outputs,
        };
        match variables.find(name) {
            Some(variable) => Some(variable.declared),
            None => None,
        }
    }
}
