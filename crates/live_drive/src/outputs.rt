//! The outputs of a plant: its globals AT %Q, in declaration order.

ghost use Rattle.std.specs.Prelude.{◌≡◌, ◌++◌, IfOk, map};
ghost use Rattle.std.specs.List.{flat_map};
ghost use Rattle.st_types.specs.ConfigurationViews.{global_block_view, global_declaration_view};
ghost use Rattle.st_types.specs.SourceViews.{element_view};
ghost use Rattle.live_drive.specs.Outputs.{output_name, output_names, output_places, outputs_in, place_named};

use plan::{Plan, SlotPlace};
use st_types::{
    Direction, GlobalBlock, GlobalDeclaration, GlobalNames, LibraryElement, Name, Path, Source,
};
use std::alloc::{AllocError, Global};

/// Appends the place among the variables of the global of this name, if it is a variable.
fn push_place(
    places: &mut Vec<usize>,
    alloc: Global,
    plan: &Plan,
    name: &Name,
) -> Result<(), AllocError>
    ensures { IfOk result (λ done. places.new.items ≡ places.old.items ++ place_named plan.now name.now) }
{
    let path = Path::global(alloc, Name::from_slice(alloc, name.as_slice())?);
    if let Some(SlotPlace::Variable(place)) = plan.place(&path) {
        places.push(place)?;
    }
    Ok(())
}

/// Appends the places of those that are declared at the addresses of outputs.
fn push_declared(
    places: &mut Vec<usize>,
    alloc: Global,
    plan: &Plan,
    declarations: &[GlobalDeclaration],
) -> Result<(), AllocError>
    ensures { IfOk result (λ done. places.new.items ≡ places.old.items ++ flat_map (place_named plan.now)
        (flat_map (λ d. output_name d.names) (map global_declaration_view declarations.now))) }
{
    for declaration in declarations {
        if let GlobalNames::Located(name, address) = &declaration.names {
            match address.direction {
                Direction::Input => {}
                Direction::Output => push_place(places, alloc, plan, &name.name)?,
            }
        }
    }
    Ok(())
}

fn push_blocks(
    places: &mut Vec<usize>,
    alloc: Global,
    plan: &Plan,
    blocks: &[GlobalBlock],
) -> Result<(), AllocError>
    ensures { IfOk result (λ done. places.new.items ≡ places.old.items ++ flat_map (place_named plan.now)
        (output_names (map global_block_view blocks.now))) }
{
    for block in blocks {
        push_declared(places, alloc, plan, &block.declarations)?;
    }
    Ok(())
}

fn push_elements(
    places: &mut Vec<usize>,
    alloc: Global,
    plan: &Plan,
    elements: &[LibraryElement],
) -> Result<(), AllocError>
    ensures { IfOk result (λ done. places.new.items ≡ places.old.items ++ flat_map (place_named plan.now)
        (flat_map outputs_in (map element_view elements.now))) }
{
    for element in elements {
        if let LibraryElement::Configuration(configuration) = element {
            push_blocks(places, alloc, plan, &configuration.globals)?;
        }
    }
    Ok(())
}

/// The places of the outputs among the variables, in declaration order. The error is out of memory.
pub fn outputs_of(alloc: Global, plan: &Plan) -> Result<Vec<usize>, AllocError>
    ensures { IfOk result (λ places. places.items ≡ output_places plan.now) }
{
    let mut places = Vec::new(alloc);
    let text: &Source = &plan.text;
    push_elements(&mut places, alloc, plan, &text.elements)?;
    Ok(places)
}
