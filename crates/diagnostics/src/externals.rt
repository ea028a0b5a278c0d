//! Findings on the externals of units, which stand for globals (G3).

use crate::declared_types::{Difference, how_differ};
use crate::finding::Finding;
use crate::globals::{Names, Origin};
use crate::sentences::said_at;
use crate::spelling::Text;
use crate::type_names::declared_name;
use st_types::{
    Declaration, Identifier, LibraryElement, Section, Source, Unit, UnitSort, VariableType,
};
use std::alloc::AllocError;

/// A variable of a unit that stands for a global.
#[derive(Clone, Copy)]
struct External<'a> {
    unit: &'a Unit,
    name: &'a Identifier,
    declared: &'a VariableType,
}

/// A fault of an external.
#[derive(Clone, Copy)]
enum Wrong<'a> {
    NoGlobal,
    /// It is not CONSTANT, and its global is.
    NotConstant,
    /// It is not CONSTANT, and its global is an input.
    NotConstantInput,
    /// It is CONSTANT, and programs may assign its global.
    Constant,
    /// The global has another type, this one.
    Type(Difference, &'a VariableType),
}

fn what_is_wrong<'a>(
    names: Names<'_, 'a>,
    constant: bool,
    name: &Identifier,
    declared: &'a VariableType,
) -> Option<Wrong<'a>> {
    let Some(global) = names.globals.find(&name.name) else {
        return Some(Wrong::NoGlobal);
    };
    match (constant, global.origin) {
        (false, Origin::Constant) => Some(Wrong::NotConstant),
        (false, Origin::Plant) => Some(Wrong::NotConstantInput),
        (true, Origin::Programs) => Some(Wrong::Constant),
        _ => match how_differ(names.declared, declared, global.declared) {
            Some(difference) => Some(Wrong::Type(difference, global.declared)),
            None => None,
        },
    }
}

/// The first wrong external of a declaration.
fn first_in_declaration<'a>(
    names: Names<'_, 'a>,
    constant: bool,
    unit: &'a Unit,
    declaration: &'a Declaration,
) -> Option<(External<'a>, Wrong<'a>)> {
    for name in &declaration.names {
        if let Some(found) = what_is_wrong(names, constant, name, &declaration.declared) {
            let external = External {
                unit,
                name,
                declared: &declaration.declared,
            };
            return Some((external, found));
        }
    }
    None
}

fn first_among<'a>(
    names: Names<'_, 'a>,
    constant: bool,
    unit: &'a Unit,
    declarations: &'a [Declaration],
) -> Option<(External<'a>, Wrong<'a>)> {
    for declaration in declarations {
        let found = first_in_declaration(names, constant, unit, declaration);
        if found.is_some() {
            return found;
        }
    }
    None
}

fn first_in_unit<'a>(names: Names<'_, 'a>, unit: &'a Unit) -> Option<(External<'a>, Wrong<'a>)> {
    for block in &unit.blocks {
        let found = match block.section {
            Section::External => first_among(names, false, unit, &block.declarations),
            Section::ConstantExternal => first_among(names, true, unit, &block.declarations),
            _ => None,
        };
        if found.is_some() {
            return found;
        }
    }
    None
}

fn first_in_source<'a>(
    names: Names<'_, 'a>,
    source: &'a Source,
) -> Option<(External<'a>, Wrong<'a>)> {
    for element in &source.elements {
        if let LibraryElement::Unit(unit) = element {
            let found = first_in_unit(names, unit);
            if found.is_some() {
                return found;
            }
        }
    }
    None
}

/// The name of a sort of units.
pub fn sort_name(sort: &UnitSort) -> &'static str {
    match sort {
        UnitSort::Function(_) => "function",
        UnitSort::FunctionBlock => "function block",
        UnitSort::Program => "program",
    }
}

fn other_type_reason(
    text: &Text,
    external: External,
    difference: Difference,
    other: &VariableType,
) -> Result<String, AllocError> {
    let alloc = text.alloc;
    let (name, unit) = (
        text.spelled(external.name),
        text.spelled(&external.unit.name),
    );
    let sort = sort_name(&external.unit.sort);
    if difference == Difference::Array {
        return format!(in alloc;
            "the VAR_EXTERNAL `{name}` of {sort} `{unit}` differs from the global in bounds or element type"
        );
    }
    let (here, there) = (
        declared_name(text, external.declared),
        declared_name(text, other),
    );
    format!(in alloc;
        "the VAR_EXTERNAL `{name}` of {sort} `{unit}` is {here}; the global is {there}"
    )
}

fn sentence_of(text: &Text, external: External, wrong: Wrong) -> Result<String, AllocError> {
    let (alloc, name) = (text.alloc, text.spelled(external.name));
    match wrong {
        Wrong::NoGlobal => {
            let (sort, unit) = (
                sort_name(&external.unit.sort),
                text.spelled(&external.unit.name),
            );
            format!(in alloc; "the {sort} `{unit}` uses the unknown global `{name}`")
        }
        Wrong::NotConstant => format!(in alloc;
            "the global `{name}` is CONSTANT: its VAR_EXTERNAL has to be CONSTANT"
        ),
        Wrong::NotConstantInput => format!(in alloc;
            "the global `{name}` is an input: its VAR_EXTERNAL has to be CONSTANT"
        ),
        Wrong::Constant => format!(in alloc;
            "the global `{name}` is neither CONSTANT nor an input: its VAR_EXTERNAL can't be CONSTANT"
        ),
        Wrong::Type(difference, other) => other_type_reason(text, external, difference, other),
    }
}

/// The finding on the first external whose global is unknown or doesn't fit its use.
pub fn externals_reason<'a>(
    text: &Text<'a>,
    names: Names<'_, 'a>,
) -> Result<Option<Finding>, AllocError> {
    match first_in_source(names, text.source) {
        Some((external, wrong)) => {
            said_at(external.name.place, sentence_of(text, external, wrong))
        }
        None => Ok(None),
    }
}
