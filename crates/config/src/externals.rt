//! The externals of units, which stand for globals.

ghost use Rattle.std.specs.Prelude.{◌≡◌, List, map, option_map};
ghost use Rattle.std.specs.List.{list_all};
ghost use Rattle.st_types.specs.Configurations as tree;
ghost use Rattle.st_types.specs.DeclarationViews.{declaration_view, variable_block_view};
ghost use Rattle.st_types.specs.UnitViews.{unit_view};
ghost use Rattle.st_meaning.specs.NameTypes.{Declared};
ghost use Rattle.symbols.specs.PlaceTypes.{place_type_view};
ghost use Rattle.symbols.specs.Texts.{ServesText};
ghost use Rattle.st_rules.specs.ConfigurationRules.{are_known_externals, has_known_externals, is_known_external};
ghost use Rattle.st_rules.specs.ConfigurationRules.{is_known_section};
ghost use Rattle.config.specs.Globals.{ServesGlobals};

use crate::globals::Global;
use crate::same_types::same_type;
use st_types::{Declaration, Name, Section, Unit, VariableBlock};
use symbols::{Index, PlaceType, TextNames, place_type};

/// The meanings of the names of a text: its types, and the globals of its configuration.
#[derive(Clone, Copy)]
pub struct Names<'t, 'a> {
    pub text: &'t TextNames<'a>,
    pub globals: &'t Index<'a, Global<'a>>,
}

/// Whether an external of this name and type stands for a global.
#[tactic(auto, using(crate::proofs::GlobalLemmas::external_known))]
fn is_known_external<'a>(
    names: Names<'_, 'a>,
    constant: bool,
    declared: PlaceType<'a>,
    name: &Name,
) -> bool
    ensures { (text : Declared) (blocks : List tree.GlobalBlock) → ServesText names.entry.text.now text
        → ServesGlobals names.entry.globals.now blocks
        → result ≡ is_known_external text blocks constant (place_type_view declared.entry) name.now }
{
    match names.globals.find(name) {
        Some(global) => {
            global.is_fixed == constant && same_type(names.text, declared, global.declared)
        }
        None => false,
    }
}

/// Whether all externals of a declaration stand for globals.
fn are_known_externals<'a>(
    names: Names<'_, 'a>,
    constant: bool,
    declaration: &'a Declaration,
) -> bool
    ensures { (text : Declared) (blocks : List tree.GlobalBlock) → ServesText names.entry.text.now text
        → ServesGlobals names.entry.globals.now blocks
        → result ≡ are_known_externals text blocks constant (declaration_view declaration.now) }
{
    for name in &declaration.names {
        if !is_known_external(
            names,
            constant,
            place_type(&declaration.declared),
            &name.name,
        ) {
            return false;
        }
    }
    true
}

/// Whether all externals of some declarations stand for globals.
fn are_all_known<'a>(names: Names<'_, 'a>, constant: bool, declarations: &'a [Declaration]) -> bool
    ensures { (text : Declared) (blocks : List tree.GlobalBlock) → ServesText names.entry.text.now text
        → ServesGlobals names.entry.globals.now blocks → result
        ≡ list_all (are_known_externals text blocks constant) (map declaration_view declarations.now) }
{
    for declaration in declarations {
        if !are_known_externals(names, constant, declaration) {
            return false;
        }
    }
    true
}

/// Whether all externals of a block of variables stand for globals.
fn is_known_block<'a>(names: Names<'_, 'a>, block: &'a VariableBlock) -> bool
    ensures { (text : Declared) (blocks : List tree.GlobalBlock) → ServesText names.entry.text.now text
        → ServesGlobals names.entry.globals.now blocks → result ≡ is_known_section text blocks
        (variable_block_view block.now).section (variable_block_view block.now).declarations }
{
    match block.section {
        Section::External => are_all_known(names, false, &block.declarations),
        Section::ConstantExternal => are_all_known(names, true, &block.declarations),
        _ => true,
    }
}

/// Whether all externals of a unit stand for globals.
fn has_known_externals<'a>(names: Names<'_, 'a>, unit: &'a Unit) -> bool
    ensures { (text : Declared) (blocks : List tree.GlobalBlock) → ServesText names.entry.text.now text
        → ServesGlobals names.entry.globals.now blocks
        → result ≡ has_known_externals text blocks (unit_view unit.now) }
{
    for block in &unit.blocks {
        if !is_known_block(names, block) {
            return false;
        }
    }
    true
}

/// Whether all externals of the units stand for globals.
pub fn have_known_externals<'a>(names: Names<'_, 'a>, units: &[&'a Unit]) -> bool
    ensures { (text : Declared) (blocks : List tree.GlobalBlock) → ServesText names.entry.text.now text
        → ServesGlobals names.entry.globals.now blocks → result
        ≡ list_all (has_known_externals text blocks) (map (λ u. unit_view u.now) units.now) }
{
    for unit in units {
        if !has_known_externals(names, unit) {
            return false;
        }
    }
    true
}
