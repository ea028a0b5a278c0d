//! The variables of units and globals by their names.

ghost use Rattle.std.specs.Prelude.{◌≡◌, ◌++◌, ◌∷◌, [], map, IfOk};
ghost use Rattle.st_types.specs.ConfigurationViews.{global_block_view, global_declaration_view, global_names_view};
ghost use Rattle.st_types.specs.DeclarationViews.{declaration_view, variable_block_view};
ghost use Rattle.st_meaning.specs.Bodies.{is_external};
ghost use Rattle.symbols.specs.PlaceTypes.{place_type_view};
ghost use Rattle.layout.specs.LayoutVariables.{is_input_address};
ghost use Rattle.st_link.specs.LinkVariables.{named_so, result_of, variable_view, variables_declared};
ghost use Rattle.st_link.specs.LinkVariables.{link_variables, variables_of_blocks, variables_of_globals};
ghost use Rattle.st_link.specs.LinkVariables.{variables_of_names};

use st_types::{
    Declaration, Direction, GlobalBlock, GlobalDeclaration, GlobalNames, Identifier, Name, Section,
    SimpleType, VariableBlock,
};
use std::alloc::{AllocError, Global};
use symbols::{PlaceType, place_type};

/// A variable: its name, its type, and whether its value comes from the plant.
#[derive(Clone, Copy)]
pub struct Variable<'a> {
    pub name: &'a Name,
    pub declared: PlaceType<'a>,
    pub is_input: bool,
}

/// Whether a block of variables declares externals.
pub fn is_external(section: Section) -> bool
    ensures { result ≡ is_external section }
{
    matches!(section, Section::External | Section::ConstantExternal)
}

/// Appends the variables of one declaration.
fn push_names<'a>(
    variables: &mut Vec<Variable<'a>>,
    declared: PlaceType<'a>,
    names: &'a [Identifier],
) -> Result<(), AllocError>
    ensures { IfOk result (λ done. map variable_view variables.new.items ≡ map variable_view variables.old.items
        ++ map (named_so (place_type_view declared.entry)) names.now) }
{
    for name in names {
        variables.push(Variable {
            name: &name.name,
            declared,
            is_input: false,
        })?;
    }
    Ok(())
}

fn push_declarations<'a>(
    variables: &mut Vec<Variable<'a>>,
    declarations: &'a [Declaration],
) -> Result<(), AllocError>
    ensures { IfOk result (λ done. map variable_view variables.new.items ≡ map variable_view variables.old.items
        ++ link_variables (map declaration_view declarations.now)) }
{
    for declaration in declarations {
        push_names(
            variables,
            place_type(&declaration.declared),
            &declaration.names,
        )?;
    }
    Ok(())
}

/// Appends the variables of a block, except externals.
fn push_block<'a>(
    variables: &mut Vec<Variable<'a>>,
    block: &'a VariableBlock,
) -> Result<(), AllocError>
    ensures { IfOk result (λ done. map variable_view variables.new.items ≡ map variable_view variables.old.items
        ++ variables_of_blocks (variable_block_view block.now ∷ [])) }
{
    if is_external(block.section) {
        Ok(())
    } else {
        push_declarations(variables, &block.declarations)
    }
}

/// Appends the variables of blocks.
fn push_blocks<'a>(
    variables: &mut Vec<Variable<'a>>,
    blocks: &'a [VariableBlock],
) -> Result<(), AllocError>
    ensures { IfOk result (λ done. map variable_view variables.new.items ≡ map variable_view variables.old.items
        ++ variables_of_blocks (map variable_block_view blocks.now)) }
{
    for block in blocks {
        push_block(variables, block)?;
    }
    Ok(())
}

/// The variables of a unit in order.
pub fn variables_of_blocks<'a>(
    alloc: Global,
    blocks: &'a [VariableBlock],
) -> Result<Vec<Variable<'a>>, AllocError>
    ensures { IfOk result
        (λ variables. map variable_view variables.items ≡ variables_of_blocks (map variable_block_view blocks.now)) }
{
    let mut variables = Vec::new(alloc);
    push_blocks(&mut variables, blocks)?;
    Ok(variables)
}

/// The variables of a function: its result, and then all others in order.
pub fn variables_of_function<'a>(
    alloc: Global,
    name: &'a Name,
    returned: &'a SimpleType,
    blocks: &'a [VariableBlock],
) -> Result<Vec<Variable<'a>>, AllocError>
    ensures { IfOk result (λ variables. map variable_view variables.items
        ≡ result_of name.now returned.now ∷ variables_of_blocks (map variable_block_view blocks.now)) }
{
    let mut variables = Vec::new(alloc);
    variables.push(Variable {
        name,
        declared: PlaceType::Simple(returned),
        is_input: false,
    })?;
    push_blocks(&mut variables, blocks)?;
    Ok(variables)
}

fn is_input_address(direction: Direction) -> bool
    ensures { result ≡ is_input_address direction }
{
    match direction {
        Direction::Input => true,
        Direction::Output => false,
    }
}

fn push_global_names<'a>(
    variables: &mut Vec<Variable<'a>>,
    declared: PlaceType<'a>,
    names: &'a GlobalNames,
) -> Result<(), AllocError>
    ensures { IfOk result (λ done. map variable_view variables.new.items ≡ map variable_view variables.old.items
        ++ variables_of_names (place_type_view declared.entry) (global_names_view names.now)) }
{
    match names {
        GlobalNames::Located(name, address) => {
            variables.push(Variable {
                name: &name.name,
                declared,
                is_input: is_input_address(address.direction),
            })?;
            Ok(())
        }
        GlobalNames::Listed(names) => push_names(variables, declared, names),
    }
}

fn push_global_declarations<'a>(
    variables: &mut Vec<Variable<'a>>,
    declarations: &'a [GlobalDeclaration],
) -> Result<(), AllocError>
    ensures { IfOk result (λ done. map variable_view variables.new.items ≡ map variable_view variables.old.items
        ++ variables_declared (map global_declaration_view declarations.now)) }
{
    for declaration in declarations {
        push_global_names(
            variables,
            place_type(&declaration.declared),
            &declaration.names,
        )?;
    }
    Ok(())
}

/// The globals of a configuration in order, inputs among them.
pub fn variables_of_globals<'a>(
    alloc: Global,
    blocks: &'a [GlobalBlock],
) -> Result<Vec<Variable<'a>>, AllocError>
    ensures { IfOk result
        (λ variables. map variable_view variables.items ≡ variables_of_globals (map global_block_view blocks.now)) }
{
    let mut variables = Vec::new(alloc);
    for block in blocks {
        push_global_declarations(&mut variables, &block.declarations)?;
    }
    Ok(variables)
}
