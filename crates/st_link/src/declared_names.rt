//! Names that a unit's blocks declare, by their sections.

ghost use Rattle.std.specs.Prelude.{◌≡◌, ◌++◌, ◌∷◌, [], map, IfOk};
ghost use Rattle.st_types.specs.DeclarationViews.{declaration_view, variable_block_view};
ghost use Rattle.st_meaning.specs.Bodies.{declared_names, externals_in, names_of};
ghost use Rattle.st_meaning.specs.NameTypes.{is_input};
ghost use Rattle.layout.specs.Libraries.{input_names};

use crate::variables::is_external;
use st_types::{Declaration, Identifier, Section, VariableBlock};
use std::alloc::{AllocError, Global};

/// Whether a block of variables declares inputs.
fn is_input(section: Section) -> bool
    ensures { result ≡ is_input section }
{
    matches!(section, Section::Input(_))
}

fn push_names<'a>(
    names: &mut Vec<&'a Identifier>,
    declared: &'a [Identifier],
) -> Result<(), AllocError>
    ensures { IfOk result (λ done. map (λ x. x.now.name) names.new.items
        ≡ map (λ x. x.now.name) names.old.items ++ names_of declared.now) }
{
    for name in declared {
        names.push(name)?;
    }
    Ok(())
}

fn push_declared<'a>(
    names: &mut Vec<&'a Identifier>,
    declarations: &'a [Declaration],
) -> Result<(), AllocError>
    ensures { IfOk result (λ done. map (λ x. x.now.name) names.new.items
        ≡ map (λ x. x.now.name) names.old.items ++ declared_names (map declaration_view declarations.now)) }
{
    for declaration in declarations {
        push_names(names, &declaration.names)?;
    }
    Ok(())
}

/// The names of a unit's externals, in order.
pub fn externals_of<'a>(
    alloc: Global,
    blocks: &'a [VariableBlock],
) -> Result<Vec<&'a Identifier>, AllocError>
    ensures { IfOk result
        (λ names. map (λ x. x.now.name) names.items ≡ externals_in (map variable_block_view blocks.now)) }
{
    let mut names = Vec::new(alloc);
    for block in blocks {
        if is_external(block.section) {
            push_declared(&mut names, &block.declarations)?;
        }
    }
    Ok(names)
}

/// The names of a function's inputs, in order.
pub fn inputs_of<'a>(
    alloc: Global,
    blocks: &'a [VariableBlock],
) -> Result<Vec<&'a Identifier>, AllocError>
    ensures { IfOk result
        (λ names. map (λ x. x.now.name) names.items ≡ input_names (map variable_block_view blocks.now)) }
{
    let mut names = Vec::new(alloc);
    for block in blocks {
        if is_input(block.section) {
            push_declared(&mut names, &block.declarations)?;
        }
    }
    Ok(names)
}
