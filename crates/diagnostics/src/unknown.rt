//! Findings on names that aren't declared, or not as what their places take (C1).

use crate::conversions::no_conversion;
use crate::finding::Finding;
use crate::foreign_words::{foreign_function, foreign_type};
use crate::known::{Known, meaning_of};
use crate::near::Nearest;
use crate::operator_calls::operator_call;
use crate::site::Site;
use crate::sought::{Sought, sought_at};
use crate::spot::is_mark;
use crate::spots::name_at;
use st_decl::entries_in;
use st_lex::Mark;
use st_types::{Name, TypeDefinition, Unit, UnitSort};
use std::alloc::AllocError;

/// What is said of a name that stands for nothing.
const UNDECLARED: &str = "isn't declared in this scope";

/// The elementary types and the standard function blocks.
const TYPES: [&[u8]; 24] = [
    b"SINT", b"INT", b"DINT", b"LINT", b"USINT", b"UINT", b"UDINT", b"ULINT", b"BYTE", b"WORD",
    b"DWORD", b"LWORD", b"TIME", b"BOOL", b"SR", b"RS", b"R_TRIG", b"F_TRIG", b"CTU", b"CTD",
    b"CTUD", b"TON", b"TOF", b"TP",
];

/// The standard functions without the conversions.
const FUNCTIONS: [&[u8]; 9] = [
    b"ABS", b"MIN", b"MAX", b"LIMIT", b"SEL", b"SHL", b"SHR", b"ROL", b"ROR",
];

fn meet_variables<'a>(nearest: &mut Nearest<'a>, unit: &'a Unit) {
    for block in &unit.blocks {
        for declaration in &block.declarations {
            nearest.meet_all(&declaration.names);
        }
    }
}

/// Looks at the types and function blocks.
fn meet_types<'a>(nearest: &mut Nearest<'a>, site: &Site<'a>) {
    for declaration in &site.types {
        nearest.meet(&declaration.name);
    }
    for unit in &site.units {
        if let UnitSort::FunctionBlock = unit.sort {
            nearest.meet(&unit.name);
        }
    }
    nearest.meet_words(&TYPES);
}

fn meet_functions<'a>(nearest: &mut Nearest<'a>, site: &Site<'a>) {
    for unit in &site.units {
        if let UnitSort::Function(_) = unit.sort {
            nearest.meet(&unit.name);
        }
    }
    nearest.meet_words(&FUNCTIONS);
}

/// Looks at the values of enumerated types.
fn meet_values<'a>(nearest: &mut Nearest<'a>, site: &Site<'a>) {
    for declaration in &site.types {
        if let TypeDefinition::Enumeration(values) = &declaration.definition {
            nearest.meet_all(values);
        }
    }
}

/// Looks at the names that may have been meant.
fn meet_names<'a>(nearest: &mut Nearest<'a>, site: &Site<'a>, sought: Sought) {
    match sought {
        Sought::Type => meet_types(nearest, site),
        Sought::Function => meet_functions(nearest, site),
        Sought::Variable | Sought::Literal => meet_values(nearest, site),
        Sought::Instance => {}
    }
    match (sought, site.unit()) {
        (Sought::Variable | Sought::Instance, Some(unit)) => meet_variables(nearest, unit),
        _ => {}
    }
}

/// What to write for a type or function that the profile doesn't have.
fn foreign(site: &Site, word: &Name, sought: Sought) -> Result<Option<String>, AllocError> {
    let name = word.as_slice();
    let help = match sought {
        Sought::Type => foreign_type(name),
        Sought::Function => match no_conversion(name) {
            None => foreign_function(name),
            found => found,
        },
        _ => None,
    };
    match (help, sought) {
        (Some(help), _) => Ok(Some(String::from_str(site.text.alloc, help)?)),
        (None, Sought::Function) => operator_call(site.text.alloc, &site.spot),
        (None, _) => Ok(None),
    }
}

/// The finding on a name that stands for nothing at the place.
fn unknown<'a>(site: &Site<'a>, word: &'a Name, sought: Sought) -> Result<Finding, AllocError> {
    let finding = site.says(UNDECLARED)?;
    if let Some(help) = foreign(site, word, sought)? {
        return Ok(finding.helped(help));
    }
    let mut nearest = Nearest::new(site.text.bytes, word);
    meet_names(&mut nearest, site, sought);
    match nearest.help(site.text.alloc)? {
        Some(help) => Ok(finding.helped(help)),
        None => Ok(finding),
    }
}

/// The finding on a global that its unit doesn't declare.
fn without_external(site: &Site) -> Result<Finding, AllocError> {
    let (alloc, name) = (site.text.alloc, site.spot.spelled());
    let help = format!(in alloc;
        "a program or block declares the global `{name}` in VAR_EXTERNAL"
    )?;
    Ok(site.says(UNDECLARED)?.helped(help))
}

/// A hint on a function or block that a call, or the selection of an output, takes for something else.
fn use_of(site: &Site, sought: Sought, known: Known) -> Option<&'static str> {
    match sought {
        Sought::Instance if known.is_function() => Some("use its result in an expression"),
        Sought::Function | Sought::Instance if known.is_block() => {
            Some("declare an instance of it and call that")
        }
        Sought::Variable if known.is_block() && is_mark(site.spot.next(), Mark::Dot) => {
            Some("declare an instance of it and read that")
        }
        _ => None,
    }
}

/// The finding on a name that stands for something else than its place takes.
fn other_sort(site: &Site, sought: Sought, known: Known) -> Result<Finding, AllocError> {
    let (alloc, name) = (site.text.alloc, site.spot.spelled());
    let (is, wanted) = (known.words(), sought.words());
    let finding = Finding::new(format!(in alloc; "`{name}` is a {is}, not {wanted}")?);
    match (use_of(site, sought, known), known.place()) {
        (Some(help), _) => finding.with_help(alloc, help),
        (None, Some(place)) => {
            let line = site.line_of(place);
            Ok(finding.helped(format!(in alloc; "it is declared on line {line}")?))
        }
        (None, None) => Ok(finding),
    }
}

/// The finding on a name that stands for nothing that its place takes.
fn not_found<'a>(site: &Site<'a>, word: &'a Name) -> Result<Finding, AllocError> {
    let entries = entries_in(site.text.alloc, site.text.source)?;
    let sought = sought_at(&site.spot, &entries);
    match (sought, meaning_of(site, &entries, word)) {
        (Sought::Variable, Some(Known::Global(_))) => without_external(site),
        (_, Some(known)) => other_sort(site, sought, known),
        (_, None) => unknown(site, word, sought),
    }
}

/// The finding on a name that isn't declared as something that its place takes.
pub fn undeclared(site: &Site) -> Result<Finding, AllocError> {
    match name_at(&site.spot) {
        Some(word) => not_found(site, word),
        None => site.says(UNDECLARED),
    }
}
