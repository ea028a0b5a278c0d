//! The slots of a whole text.

ghost use Rattle.std.specs.Prelude.{◌≡◌, ◌≤◌, ◌+◌, ◌∷◌, [], length, map, Some, IfErr, IfOk, OnOk, true};
ghost use Rattle.st_types.specs.ConfigurationViews.{configuration_view};
ghost use Rattle.st_types.specs.SourceViews.{source_view};
ghost use Rattle.st_types.specs.declared.limits.TheConstants.{MAX_PATHS};
ghost use Rattle.st_meaning.specs.NameTypes.{Declared, declared_in};
ghost use Rattle.layout.specs.LayoutVariables.{variables_of_configuration};
ghost use Rattle.layout.specs.TextLayouts.{instances_of};
ghost use Rattle.layout.specs.Compositions.{ServesTypes};
ghost use Rattle.layout.specs.Growth.{Exceeds};
ghost use Rattle.layout.specs.Instances.{instance_view, variables_of_programs};
ghost use Rattle.layout.specs.Layouts.{GrowsBy, are_expandable, layout_size, layout_slots, owned_variables};
ghost use Rattle.layout.specs.Variables.{variable_view};
ghost use Rattle.layout.specs.declared.limits.TheConstants.{MAX_INSTANCES};

use crate::compositions::Types;
use crate::configurations::{ProgramInstance, instances_in, only_configuration};
use crate::definition_laws::leaves_of_shapes;
use crate::growing::{Growing, push_site};
use crate::layout_error::LayoutError;
use crate::members::is_retained_within;
use crate::sites::Site;
use crate::slots::{LayoutSlot, OwnerNames, Root};
use crate::variables::{Variable, globals_of, program_variables};
use st_rules::limits::MAX_TYPE_DEPTH;
use st_types::{Configuration, Source};
use std::alloc::Global;

/// Appends the slots of a variable.
fn push_variable<'a>(
    alloc: Global,
    grown: &mut Growing<'a>,
    types: &Types<'a>,
    owner: Option<OwnerNames<'a>>,
    variable: Variable<'a>,
) -> Result<(), LayoutError>
    ensures ok { OnOk result ((text : Declared) → ServesTypes types.now text → grown.old.trail.items ≡ []
        → are_expandable text (variable_view owner.entry variable.entry ∷ []) ≡ true
        → GrowsBy text (variable_view owner.entry variable.entry ∷ []) grown.old grown.new) }
    ensures trail { OnOk result (grown.new.trail.items ≡ grown.old.trail.items) }
    ensures room { OnOk result (length grown.old.slots.items ≤ MAX_PATHS → length grown.new.slots.items ≤ MAX_PATHS) }
    ensures few { OnOk result (grown.old.instances ≤ MAX_INSTANCES → grown.new.instances ≤ MAX_INSTANCES) }
    ensures err { IfErr result (λ e. (text : Declared) → ServesTypes types.now text
        → are_expandable text (variable_view owner.entry variable.entry ∷ []) ≡ true
        → Exceeds (length grown.old.slots.items + layout_size text (variable_view owner.entry variable.entry ∷ []))
        (grown.old.instances + instances_of text (variable_view owner.entry variable.entry ∷ [])) e) }
{
    let root = Root {
        owner,
        name: variable.site.name,
        is_input: variable.is_input,
    };
    let site = Site {
        declared: variable.site.declared,
        initial: variable.site.initial,
        retained: is_retained_within(false, variable.site.said),
    };
    push_site(MAX_TYPE_DEPTH, alloc, grown, types, root, site)?;
    Ok(())
}

/// Appends the slots of variables of one owner.
pub fn push_variables<'a>(
    alloc: Global,
    grown: &mut Growing<'a>,
    types: &Types<'a>,
    owner: Option<OwnerNames<'a>>,
    variables: &[Variable<'a>],
) -> Result<(), LayoutError>
    ensures ok { OnOk result ((text : Declared) → ServesTypes types.now text → grown.old.trail.items ≡ []
        → are_expandable text (map (variable_view owner.entry) variables.now) ≡ true
        → GrowsBy text (map (variable_view owner.entry) variables.now) grown.old grown.new) }
    ensures trail { OnOk result (grown.new.trail.items ≡ grown.old.trail.items) }
    ensures room { OnOk result (length grown.old.slots.items ≤ MAX_PATHS → length grown.new.slots.items ≤ MAX_PATHS) }
    ensures few { OnOk result (grown.old.instances ≤ MAX_INSTANCES → grown.new.instances ≤ MAX_INSTANCES) }
    ensures err { IfErr result (λ e. (text : Declared) → ServesTypes types.now text → grown.old.trail.items ≡ []
        → are_expandable text (map (variable_view owner.entry) variables.now) ≡ true
        → Exceeds (length grown.old.slots.items + layout_size text (map (variable_view owner.entry) variables.now))
        (grown.old.instances + instances_of text (map (variable_view owner.entry) variables.now)) e) }
{
    leaves_of_shapes();
    for variable in variables {
        push_variable(alloc, grown, types, owner, *variable)?;
    }
    Ok(())
}

/// Appends the slots of programs' instances.
fn push_programs<'a>(
    alloc: Global,
    grown: &mut Growing<'a>,
    types: &Types<'a>,
    instances: &[ProgramInstance<'a>],
) -> Result<(), LayoutError>
    ensures ok { OnOk result ((text : Declared) → ServesTypes types.now text → grown.old.trail.items ≡ []
        → are_expandable text (variables_of_programs text (map instance_view instances.now)) ≡ true
        → GrowsBy text (variables_of_programs text (map instance_view instances.now)) grown.old grown.new) }
    ensures trail { OnOk result (grown.new.trail.items ≡ grown.old.trail.items) }
    ensures room { OnOk result (length grown.old.slots.items ≤ MAX_PATHS → length grown.new.slots.items ≤ MAX_PATHS) }
    ensures few { OnOk result (grown.old.instances ≤ MAX_INSTANCES → grown.new.instances ≤ MAX_INSTANCES) }
    ensures err { IfErr result (λ e. (text : Declared) → ServesTypes types.now text → grown.old.trail.items ≡ []
        → are_expandable text (variables_of_programs text (map instance_view instances.now)) ≡ true
        → Exceeds (length grown.old.slots.items
        + layout_size text (variables_of_programs text (map instance_view instances.now)))
        (grown.old.instances + instances_of text (variables_of_programs text (map instance_view instances.now))) e) }
{
    leaves_of_shapes();
    for instance in instances {
        let variables = program_variables(alloc, types.unit_named(instance.program))?;
        push_variables(alloc, grown, types, Some(instance.owner), &variables)?;
    }
    Ok(())
}

/// Appends the slots of a configuration: of its globals in their order, and then of its programs' instances.
fn push_configuration<'a>(
    alloc: Global,
    grown: &mut Growing<'a>,
    types: &Types<'a>,
    configuration: &'a Configuration,
) -> Result<(), LayoutError>
    ensures ok { OnOk result ((text : Declared) → ServesTypes types.now text → grown.old.trail.items ≡ []
        → are_expandable text (variables_of_configuration text (Some (configuration_view configuration.now))) ≡ true
        → GrowsBy text (variables_of_configuration text (Some (configuration_view configuration.now)))
        grown.old grown.new) }
    ensures room { OnOk result (length grown.old.slots.items ≤ MAX_PATHS → length grown.new.slots.items ≤ MAX_PATHS) }
    ensures few { OnOk result (grown.old.instances ≤ MAX_INSTANCES → grown.new.instances ≤ MAX_INSTANCES) }
    ensures err { IfErr result (λ e. (text : Declared) → ServesTypes types.now text → grown.old.trail.items ≡ []
        → are_expandable text (variables_of_configuration text (Some (configuration_view configuration.now))) ≡ true
        → Exceeds (length grown.old.slots.items
        + layout_size text (variables_of_configuration text (Some (configuration_view configuration.now))))
        (grown.old.instances
        + instances_of text (variables_of_configuration text (Some (configuration_view configuration.now)))) e) }
{
    leaves_of_shapes();
    let globals = globals_of(alloc, &configuration.globals)?;
    let instances = instances_in(alloc, &configuration.resources)?;
    push_variables(alloc, grown, types, None, &globals)?;
    push_programs(alloc, grown, types, &instances)?;
    Ok(())
}

/// The slots of a text in which each literal has its type, in the order of its layout. A text that doesn't have exactly
/// one configuration has none.
pub fn slots_in(alloc: Global, source: &Source) -> Result<Vec<LayoutSlot>, LayoutError>
    ensures ok { IfOk result (λ slots. are_expandable (declared_in (source_view source.now))
        (owned_variables (source_view source.now)) ≡ true → slots.items
        ≡ layout_slots (declared_in (source_view source.now)) (owned_variables (source_view source.now))) }
    ensures room { IfOk result (λ slots. length slots.items ≤ MAX_PATHS) }
    ensures few { OnOk result (are_expandable (declared_in (source_view source.now))
        (owned_variables (source_view source.now)) ≡ true → instances_of (declared_in (source_view source.now))
        (owned_variables (source_view source.now)) ≤ MAX_INSTANCES) }
    ensures err { IfErr result (λ e. are_expandable (declared_in (source_view source.now))
        (owned_variables (source_view source.now)) ≡ true → Exceeds
        (layout_size (declared_in (source_view source.now)) (owned_variables (source_view source.now)))
        (instances_of (declared_in (source_view source.now)) (owned_variables (source_view source.now))) e) }
{
    let Some(configuration) = only_configuration(source) else {
        return Ok(Vec::new(alloc));
    };
    let types = Types::new(alloc, source)?;
    let mut grown = Growing {
        slots: Vec::new(alloc),
        instances: 0,
        trail: Vec::new(alloc),
    };
    push_configuration(alloc, &mut grown, &types, configuration)?;
    Ok(grown.slots)
}
