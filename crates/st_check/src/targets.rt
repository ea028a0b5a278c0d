//! The variables that may be assigned, and the names by which FORs may count.

ghost use Rattle.std.specs.Prelude.{◌≡◌, map};
ghost use Rattle.std.specs.List.{flat_map};
ghost use Rattle.st_types.specs.Expressions.{variable, selectors_of};
ghost use Rattle.st_types.specs.ExpressionViews.{variable_view, selector_view};
ghost use Rattle.st_rules.specs.Environments.{Environment, type_of_name};
ghost use Rattle.st_rules.specs.Collecting.{Collects};
ghost use Rattle.st_rules.specs.TargetRules.{is_fixed, is_own, is_control, reason_of_section};
ghost use Rattle.symbols.specs.PlaceTypes.{place_type_view};
ghost use Rattle.symbols.specs.Serving.{Serves};
ghost use Rattle.st_check.specs.Assignments.{assigned_view};
ghost use Rattle.st_check.specs.Targets.{is_free, wrong_assignment, wrong_target, wrong_control_of, wrong_assigned};

use crate::assignments::Assigned;
use crate::selections::{passes_instance, type_of_place, wrong_variable};
use st_rules::{Broken, BrokenRules, Reason, Sorts};
use st_types::{Identifier, Section, Selector, Variable};
use st_typing::fits;
use symbols::{PlaceType, UnitNames};

/// An input of the unit, or a constant.
fn is_fixed(section: Option<Section>) -> bool
    ensures { result ≡ is_fixed section }
{
    matches!(
        section,
        Some(Section::Input(_) | Section::Constant | Section::ConstantExternal)
    )
}

/// A VAR of the unit.
fn is_own(section: Option<Section>) -> bool
    ensures { result ≡ is_own section }
{
    matches!(section, Some(Section::Local(_) | Section::Constant))
}

/// Whether a variable may be assigned: it isn't an input, a constant, the control variable of a FOR that runs, or a
/// part of an instance.
fn is_free(names: &UnitNames, runs: bool, name: &Identifier, selectors: &[Selector]) -> bool
    ensures { (env : Environment) → Serves names.now env
        → result ≡ is_free env runs (variable name.now (selectors_of (map selector_view selectors.now))) }
{
    let declared = names.type_of_name(&name.name);
    !is_fixed(names.section_of(&name.name))
        && !runs
        && !passes_instance(names.tables, declared, selectors)
}

/// Why a variable of this section is not assigned, if it is not.
fn reason_of_section(section: Option<Section>, runs: bool) -> Reason
    ensures { result ≡ reason_of_section section runs }
{
    match section {
        Some(Section::Input(_)) => Reason::InputAssigned,
        Some(Section::Constant) => Reason::ConstantAssigned,
        Some(Section::ConstantExternal) => Reason::ExternalConstantAssigned,
        _ => {
            if runs {
                Reason::ControlAssigned
            } else {
                Reason::PartOfInstanceAssigned
            }
        }
    }
}

/// Adds a variable that may not be assigned (C5).
fn wrong_assignment(
    names: &UnitNames,
    runs: bool,
    name: &Identifier,
    selectors: &[Selector],
    broken: &mut BrokenRules,
)
    ensures { (env : Environment) → Serves names.now env
        → Collects (wrong_assignment env runs (variable name.now (selectors_of (map selector_view selectors.now))))
        broken.old broken.new }
{
    broken.add_unless(
        is_free(names, runs, name, selectors),
        reason_of_section(names.section_of(&name.name), runs),
        name.place,
    );
}

/// Adds the faults in a variable that is assigned by its name (C1, C3, C5).
fn wrong_target(names: &UnitNames, runs: bool, variable: &Variable, broken: &mut BrokenRules)
    ensures { (env : Environment) → Serves names.now env
        → Collects (wrong_target env runs (variable_view variable.now)) broken.old broken.new }
{
    wrong_variable(names, variable, broken);
    if type_of_place(names, variable).is_some() {
        wrong_assignment(names, runs, &variable.name, &variable.selectors, broken);
    }
}

/// Whether a FOR may count by a name of this type: a VAR of the unit, of a whole-number type.
fn is_control(names: &UnitNames, control: &Identifier, declared: PlaceType) -> bool
    ensures { (env : Environment) → Serves names.now env
        → result ≡ is_control env control.now (place_type_view declared.entry) }
{
    is_own(names.section_of(&control.name))
        && fits(None, Sorts::Whole, names.tables.typing_of_type(declared))
}

/// Adds the faults in a name by which a FOR counts (C1, C3, C5).
fn wrong_control(names: &UnitNames, runs: bool, control: &Identifier, broken: &mut BrokenRules)
    ensures { (env : Environment) → Serves names.now env
        → Collects (wrong_control_of env runs control.now (type_of_name env control.now.name)) broken.old broken.new }
{
    let place = control.place;
    match names.type_of_name(&control.name) {
        Some(declared) => {
            let counts = is_control(names, control, declared);
            broken.add_unless(counts, Reason::NotControl, place);
            wrong_assignment(names, runs, control, &[], broken);
        }
        None => broken.add(Broken {
            reason: Reason::Undeclared,
            place,
        }),
    }
}

fn wrong_assigned(names: &UnitNames, assigned: Assigned, broken: &mut BrokenRules)
    ensures { (env : Environment) → Serves names.now env
        → Collects (wrong_assigned env (assigned_view assigned.entry)) broken.old broken.new }
{
    match assigned {
        Assigned::Target(runs, variable) => wrong_target(names, runs, variable, broken),
        Assigned::Control(runs, control) => wrong_control(names, runs, control, broken),
    }
}

/// Adds the faults in the assignments of a body.
pub fn wrong_assignments(names: &UnitNames, assigned: &[Assigned], broken: &mut BrokenRules)
    ensures { (env : Environment) → Serves names.now env
        → Collects (flat_map (wrong_assigned env) (map assigned_view assigned.now)) broken.old broken.new }
{
    for one in assigned {
        wrong_assigned(names, *one, broken);
    }
}
