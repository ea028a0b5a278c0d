//! The meanings that a text gives names.

use crate::externals::sort_name;
use crate::site::Site;
use crate::spots::is_in_unit;
use st_decl::Entry;
use st_meaning::lookup::is_named;
use st_types::{
    GlobalDeclaration, GlobalNames, Identifier, Name, TypeDeclaration, TypeDefinition, Unit,
    UnitSort,
};
use symbols::{standard_block, standard_function};

/// The meaning of a name: what it stands for somewhere in its text.
#[derive(Clone, Copy)]
pub enum Known<'a> {
    /// A variable of the unit at the place.
    Variable(&'a Identifier),
    Unit(&'a Unit),
    Type(&'a TypeDeclaration),
    StandardFunction,
    StandardBlock,
    /// A value of an enumerated type.
    Value(&'a Identifier),
    /// A global of a configuration.
    Global(&'a Identifier),
}

impl<'a> Known<'a> {
    /// Its sort in words.
    pub fn words(self) -> &'static str {
        match self {
            Known::Variable(_) => "variable",
            Known::Unit(unit) => sort_name(&unit.sort),
            Known::Type(_) => "type",
            Known::StandardFunction => "standard function",
            Known::StandardBlock => "standard function block",
            Known::Value(_) => "value of an enumerated type",
            Known::Global(_) => "global",
        }
    }

    /// The place of its declaration; the language itself declares some names.
    pub fn place(self) -> Option<usize> {
        match self {
            Known::Variable(name) | Known::Value(name) | Known::Global(name) => Some(name.place),
            Known::Unit(unit) => Some(unit.name.place),
            Known::Type(declaration) => Some(declaration.name.place),
            Known::StandardFunction | Known::StandardBlock => None,
        }
    }

    pub fn is_function(self) -> bool {
        match self {
            Known::StandardFunction => true,
            Known::Unit(unit) => matches!(unit.sort, UnitSort::Function(_)),
            _ => false,
        }
    }

    pub fn is_block(self) -> bool {
        match self {
            Known::StandardBlock => true,
            Known::Unit(unit) => matches!(unit.sort, UnitSort::FunctionBlock),
            _ => false,
        }
    }
}

fn find<'a>(names: &'a [Identifier], word: &Name) -> Option<&'a Identifier> {
    for name in names {
        if is_named(word, name) {
            return Some(name);
        }
    }
    None
}

fn variable_of<'a>(unit: &'a Unit, word: &Name) -> Option<&'a Identifier> {
    for block in &unit.blocks {
        for declaration in &block.declarations {
            let found = find(&declaration.names, word);
            if found.is_some() {
                return found;
            }
        }
    }
    None
}

/// The variable of the unit at the place.
fn variable_named<'a>(site: &Site<'a>, word: &Name) -> Option<&'a Identifier> {
    if !is_in_unit(&site.spot) {
        return None;
    }
    variable_of(site.unit()?, word)
}

/// The first value of this name that an enumerated type has.
fn value_named<'a>(site: &Site<'a>, word: &Name) -> Option<&'a Identifier> {
    for declaration in &site.types {
        if let TypeDefinition::Enumeration(values) = &declaration.definition {
            let found = find(values, word);
            if found.is_some() {
                return found;
            }
        }
    }
    None
}

fn global_of<'a>(declaration: &'a GlobalDeclaration, word: &Name) -> Option<&'a Identifier> {
    match &declaration.names {
        GlobalNames::Located(name, _) if is_named(word, name) => Some(name),
        GlobalNames::Located(_, _) => None,
        GlobalNames::Listed(names) => find(names, word),
    }
}

/// The global of this name that a configuration of the text has.
fn global_named<'a>(entries: &[Entry<'a>], word: &Name) -> Option<&'a Identifier> {
    for entry in entries {
        if let Entry::Global(_, declaration) = *entry {
            let found = global_of(declaration, word);
            if found.is_some() {
                return found;
            }
        }
    }
    None
}

/// The meaning of a name that the language itself declares.
fn standard_named<'a>(word: &Name) -> Option<Known<'a>> {
    if standard_function(word).is_some() {
        Some(Known::StandardFunction)
    } else if standard_block(word).is_some() {
        Some(Known::StandardBlock)
    } else {
        None
    }
}

/// The meaning that a text of these declarations gives a name, if it gives it one: the variables of the unit at the place
/// come first, then units, types, names of the language, values of enumerated types, and globals.
pub fn meaning_of<'a>(site: &Site<'a>, entries: &[Entry<'a>], word: &Name) -> Option<Known<'a>> {
    if let Some(name) = variable_named(site, word) {
        return Some(Known::Variable(name));
    }
    if let Some(unit) = site.unit_named(word) {
        return Some(Known::Unit(unit));
    }
    if let Some(declaration) = site.type_named(word) {
        return Some(Known::Type(declaration));
    }
    if let Some(standard) = standard_named(word) {
        return Some(standard);
    }
    match (value_named(site, word), global_named(entries, word)) {
        (Some(name), _) => Some(Known::Value(name)),
        (None, Some(name)) => Some(Known::Global(name)),
        (None, None) => None,
    }
}
