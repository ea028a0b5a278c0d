//! The values with which a call of a function begins.

ghost use Rattle.std.specs.Prelude.{◌≡◌, ◌≤◌, ◌+◌, ◌∷◌, [], length, map, IfErr, IfOk, OnOk, None, true, false};
ghost use Rattle.st_types.specs.declared.limits.TheConstants.{MAX_PATHS};
ghost use Rattle.st_types.specs.DeclarationViews.{variable_block_view};
ghost use Rattle.st_meaning.specs.NameTypes.{Declared};
ghost use Rattle.layout.specs.LayoutVariables.{owned_variable};
ghost use Rattle.layout.specs.Libraries.{fresh_values, result_site};
ghost use Rattle.layout.specs.TextLayouts.{instances_of};
ghost use Rattle.layout.specs.Types.{sites_of_blocks};
ghost use Rattle.layout.specs.Compositions.{ServesTypes};
ghost use Rattle.layout.specs.Growth.{Exceeds, is_too_large};
ghost use Rattle.layout.specs.Layouts.{GrowsBy, are_expandable, layout_size};
ghost use Rattle.layout.specs.KeptLayouts.{variables_among};
ghost use Rattle.layout.specs.declared.limits.TheConstants.{MAX_INSTANCES};

use crate::compositions::Types;
use crate::definition_laws::leaves_of_shapes;
use crate::growing::{Growing, push_site};
use crate::layout_error::LayoutError;
use crate::layout_slots::push_variables;
use crate::named_sites::sites_of_blocks;
use crate::sites::Site;
use crate::slots::{LayoutSlot, Root};
use crate::variables::own_variables;
use st_rules::limits::MAX_TYPE_DEPTH;
use st_types::{Name, SimpleType, Value, VariableBlock};
use std::alloc::{AllocError, Global};
use symbols::PlaceType;

/// Appends the slots of a function's result.
fn push_result<'a>(
    alloc: Global,
    grown: &mut Growing<'a>,
    types: &Types<'a>,
    name: &'a Name,
    returned: &'a SimpleType,
) -> Result<(), LayoutError>
    ensures ok { OnOk result ((text : Declared) → ServesTypes types.now text → grown.old.trail.items ≡ []
        → are_expandable text (owned_variable None (result_site returned.now name.now) ∷ []) ≡ true
        → GrowsBy text (owned_variable None (result_site returned.now name.now) ∷ []) grown.old grown.new) }
    ensures trail { OnOk result (grown.new.trail.items ≡ grown.old.trail.items) }
    ensures room { OnOk result (length grown.old.slots.items ≤ MAX_PATHS → length grown.new.slots.items ≤ MAX_PATHS) }
    ensures few { OnOk result (grown.old.instances ≤ MAX_INSTANCES → grown.new.instances ≤ MAX_INSTANCES) }
    ensures err { IfErr result (λ e. (text : Declared) → ServesTypes types.now text
        → are_expandable text (owned_variable None (result_site returned.now name.now) ∷ []) ≡ true
        → Exceeds (length grown.old.slots.items
        + layout_size text (owned_variable None (result_site returned.now name.now) ∷ []))
        (grown.old.instances + instances_of text (owned_variable None (result_site returned.now name.now) ∷ [])) e) }
{
    let root = Root {
        owner: None,
        name: name.as_slice(),
        is_input: false,
    };
    let site = Site {
        declared: PlaceType::Simple(returned),
        initial: None,
        retained: false,
    };
    push_site(MAX_TYPE_DEPTH, alloc, grown, types, root, site)?;
    Ok(())
}

/// The initial values of variables.
fn started_values(alloc: Global, slots: &[LayoutSlot]) -> Result<Vec<Value>, AllocError>
    ensures { IfOk result (λ values. values.items ≡ map (λ v. v.initial) (variables_among slots.now)) }
{
    let mut values = Vec::new(alloc);
    for slot in slots {
        if !slot.is_input {
            values.push(slot.initial)?;
        }
    }
    Ok(values)
}

/// The values of a function's result and then of all its variables at the beginning of a call. There are none if these
/// are more than a layout has room for.
pub fn fresh_values<'a>(
    alloc: Global,
    types: &Types<'a>,
    name: &'a Name,
    returned: &'a SimpleType,
    blocks: &'a [VariableBlock],
) -> Result<Vec<Value>, LayoutError>
    ensures ok { IfOk result (λ values. (text : Declared) → ServesTypes types.now text
        → are_expandable text (map (owned_variable None)
        (result_site returned.now name.now ∷ sites_of_blocks (map variable_block_view blocks.now))) ≡ true
        → values.items ≡ map (λ e. e.1)
        (fresh_values text
        (result_site returned.now name.now ∷ sites_of_blocks (map variable_block_view blocks.now)))) }
    ensures room { OnOk result ((text : Declared) → ServesTypes types.now text
        → are_expandable text (map (owned_variable None)
        (result_site returned.now name.now ∷ sites_of_blocks (map variable_block_view blocks.now))) ≡ true
        → is_too_large text (map (owned_variable None)
        (result_site returned.now name.now ∷ sites_of_blocks (map variable_block_view blocks.now))) ≡ false) }
    ensures err { IfErr result (λ e. (text : Declared) → ServesTypes types.now text
        → are_expandable text (map (owned_variable None)
        (result_site returned.now name.now ∷ sites_of_blocks (map variable_block_view blocks.now))) ≡ true
        → Exceeds (layout_size text (map (owned_variable None)
        (result_site returned.now name.now ∷ sites_of_blocks (map variable_block_view blocks.now))))
        (instances_of text (map (owned_variable None)
        (result_site returned.now name.now ∷ sites_of_blocks (map variable_block_view blocks.now)))) e) }
{
    leaves_of_shapes();
    let mut grown = Growing {
        slots: Vec::new(alloc),
        instances: 0,
        trail: Vec::new(alloc),
    };
    push_result(alloc, &mut grown, types, name, returned)?;
    let variables = own_variables(alloc, &sites_of_blocks(alloc, blocks)?)?;
    push_variables(alloc, &mut grown, types, None, &variables)?;
    Ok(started_values(alloc, &grown.slots)?)
}
