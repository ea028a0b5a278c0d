//! Slots by their paths.

ghost use Rattle.std.specs.Prelude.{◌≡◌, ◌≤◌, ◌++◌, ◌∷◌, [], IfOk, OnOk, length, map};
ghost use Rattle.indexmap.specs.IndexMap.{insert_all, index_map_len};
ghost use Rattle.st_types.specs.Paths.{same_path};
ghost use Rattle.layout.specs.Indexed.{entry_of, facts_of, slot_of_entry};
ghost use Rattle.layout.specs.KeptLayouts.{inputs_among, variables_among};

use crate::slots::{LayoutSlot, SlotFacts};
use indexmap::IndexMap;
use st_meaning::{PlanInput, PlanVariable};
use st_types::Path;
use std::alloc::{AllocError, Global};

/// The facts of a slot.
fn facts_of(slot: &LayoutSlot) -> SlotFacts
    ensures { result ≡ facts_of slot.now }
{
    SlotFacts {
        initial: slot.initial,
        retained: slot.retained,
        is_input: slot.is_input,
    }
}

/// Slots by their paths, in their order. No path occurs twice in a text that breaks no rule; otherwise the last of its
/// slots takes the place of the first.
pub fn indexed(alloc: Global, slots: &[LayoutSlot]) -> Result<IndexMap<Path, SlotFacts>, AllocError>
    ensures all { IfOk result (λ index. index.entries ≡ insert_all same_path [] (map entry_of slots.now)) }
    ensures few { IfOk result (λ index. index_map_len index ≤ length slots.now) }
{
    let mut index = IndexMap::with_capacity(alloc, slots.len())?;
    for slot in slots {
        index.insert(slot.path.copied(alloc)?, facts_of(slot))?;
    }
    Ok(index)
}

/// Appends the variable of a slot; an input isn't one.
fn push_variable(
    alloc: Global,
    variables: &mut Vec<PlanVariable>,
    path: &Path,
    facts: SlotFacts,
) -> Result<(), AllocError>
    ensures { OnOk result (variables.new.items
        ≡ variables.old.items ++ variables_among (slot_of_entry (path.now, facts) ∷ [])) }
{
    if !facts.is_input {
        variables.push(PlanVariable {
            path: path.copied(alloc)?,
            initial: facts.initial,
            retained: facts.retained,
        })?;
    }
    Ok(())
}

/// The variables among slots, in their order.
pub fn plan_variables(
    alloc: Global,
    slots: &IndexMap<Path, SlotFacts>,
) -> Result<Vec<PlanVariable>, AllocError>
    ensures { IfOk result (λ variables. variables.items ≡ variables_among (map slot_of_entry slots.now.entries)) }
{
    let mut variables = Vec::new(alloc);
    for number in 0..slots.len() {
        let Some((path, facts)) = slots.get_index(number) else {
            unreachable!()
        };
        push_variable(alloc, &mut variables, path, *facts)?;
    }
    Ok(variables)
}

/// Appends the input of a slot; a variable isn't one.
fn push_input(
    alloc: Global,
    inputs: &mut Vec<PlanInput>,
    path: &Path,
    facts: SlotFacts,
) -> Result<(), AllocError>
    ensures { OnOk result (inputs.new.items
        ≡ inputs.old.items ++ inputs_among (slot_of_entry (path.now, facts) ∷ [])) }
{
    if facts.is_input {
        inputs.push(PlanInput {
            path: path.copied(alloc)?,
            kind: facts.initial.kind(),
        })?;
    }
    Ok(())
}

/// The inputs among slots, in their order.
pub fn plan_inputs(
    alloc: Global,
    slots: &IndexMap<Path, SlotFacts>,
) -> Result<Vec<PlanInput>, AllocError>
    ensures { IfOk result (λ inputs. inputs.items ≡ inputs_among (map slot_of_entry slots.now.entries)) }
{
    let mut inputs = Vec::new(alloc);
    for number in 0..slots.len() {
        let Some((path, facts)) = slots.get_index(number) else {
            unreachable!()
        };
        push_input(alloc, &mut inputs, path, *facts)?;
    }
    Ok(inputs)
}
