//! The configuration of a text.

ghost use Rattle.std.specs.Prelude.{◌≡◌, ◌∷◌, [], map, IfErr, IfOk, OnOk};
ghost use Rattle.st_types.specs.ConfigurationViews.{configuration_view};
ghost use Rattle.st_types.specs.SourceViews.{source_view};
ghost use Rattle.st_types.specs.UnitViews.{unit_view};
ghost use Rattle.st_meaning.specs.NameTypes.{declared_in, units_in};
ghost use Rattle.st_rules.specs.ConfigurationRules.{are_known, configurations_in};
ghost use Rattle.st_rules.specs.Rules.{IsWellTyped};
ghost use Rattle.config.specs.Configured.{BreaksRule, IsConfigured, IsMisconfigured, KeepsRules};

use crate::addresses::has_sound_addresses;
use crate::configuration_error::ConfigurationError;
use crate::counts::has_too_many;
use crate::externals::{Names, have_known_externals};
use crate::globals::index_of;
use crate::instances::{are_known_resources, have_tasks};
use st_types::{Configuration, LibraryElement, Source, Unit};
use std::alloc::{AllocError, Global};
use symbols::TextNames;

/// The units and the configurations of a text, in order.
#[derive(Drop)]
struct Parts<'a> {
    units: Vec<&'a Unit>,
    configurations: Vec<&'a Configuration>,
}

fn parts_of<'a>(alloc: Global, source: &'a Source) -> Result<Parts<'a>, AllocError>
    ensures units { IfOk result
        (λ parts. map (λ u. unit_view u.now) parts.units.items ≡ units_in (source_view source.now)) }
    ensures configurations { IfOk result (λ parts. map (λ c. configuration_view c.now) parts.configurations.items
        ≡ configurations_in (source_view source.now)) }
{
    let mut units = Vec::new(alloc);
    let mut configurations = Vec::new(alloc);
    for element in &source.elements {
        match element {
            LibraryElement::Types(_) => {}
            LibraryElement::Unit(unit) => units.push(unit)?,
            LibraryElement::Configuration(configuration) => configurations.push(configuration)?,
        }
    }
    Ok(Parts {
        units,
        configurations,
    })
}

/// Whether tasks, programs, globals and SINGLEs are known, and externals are of their globals' types.
fn are_known<'a>(
    alloc: Global,
    source: &'a Source,
    units: &[&'a Unit],
    configuration: &'a Configuration,
) -> Result<bool, AllocError>
    requires { map (λ u. unit_view u.now) units.now ≡ units_in (source_view source.now) }
    ensures { IfOk result (λ known. IsWellTyped (source_view source.now)
        → configurations_in (source_view source.now) ≡ configuration_view configuration.now ∷ []
        → known ≡ are_known (declared_in (source_view source.now)) (configuration_view configuration.now)) }
{
    let text = TextNames::new(alloc, source)?;
    let globals = index_of(alloc, &configuration.globals)?;
    let names = Names {
        text: &text,
        globals: &globals,
    };
    Ok(have_known_externals(names, units) && are_known_resources(names, &configuration.resources))
}

/// Judges a configuration: first the numbers of its parts, so that nothing else is looked for among too many.
fn judge<'a>(
    alloc: Global,
    source: &'a Source,
    units: &[&'a Unit],
    configuration: &'a Configuration,
) -> Result<(), ConfigurationError>
    requires { map (λ u. unit_view u.now) units.now ≡ units_in (source_view source.now) }
    ensures kept { OnOk result (IsWellTyped (source_view source.now)
        → configurations_in (source_view source.now) ≡ configuration_view configuration.now ∷ []
        → KeepsRules (source_view source.now) (configuration_view configuration.now)) }
    ensures broken { IfErr result (λ e. IsWellTyped (source_view source.now)
        → configurations_in (source_view source.now) ≡ configuration_view configuration.now ∷ []
        → BreaksRule (source_view source.now) (configuration_view configuration.now) e) }
    ensures one { IfErr result (λ e. e ≡ ConfigurationError.NotOne → ⊥) }
{
    if has_too_many(configuration) {
        return Err(ConfigurationError::TooMany);
    }
    if !have_tasks(&configuration.resources) {
        return Err(ConfigurationError::WithoutTask);
    }
    if !has_sound_addresses(alloc, configuration)? {
        return Err(ConfigurationError::WrongAddress);
    }
    if !are_known(alloc, source, units, configuration)? {
        return Err(ConfigurationError::Unknown);
    }
    Ok(())
}

/// Judges the configuration of a text that breaks no rule of the language, as it is parsed: there is one (G2), its names are
/// known and of the right type (G3), addresses are sound (G4), it has not too many parts (G5), and each program has a task
/// (G8). If several numbers apply any may come, G2 before all others. Nothing is said of other texts.
pub fn configure(alloc: Global, source: &Source) -> Result<(), ConfigurationError>
    ensures configured { OnOk result
        (IsWellTyped (source_view source.now) → IsConfigured (source_view source.now)) }
    ensures refused { IfErr result
        (λ e. IsWellTyped (source_view source.now) → IsMisconfigured (source_view source.now) e) }
{
    let parts = parts_of(alloc, source)?;
    if parts.configurations.len() != 1 {
        return Err(ConfigurationError::NotOne);
    }
    judge(alloc, source, &parts.units, parts.configurations[0])
}
