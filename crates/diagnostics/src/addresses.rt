//! Findings on addresses (G4).

use crate::finding::Finding;
use crate::position::position_of;
use crate::sentences::said_at;
use crate::spelling::Text;
use st_lex::Token;
use st_meaning::lookup::kind_of_type;
use st_types::limits::{BIT_ADDRESSES, WORD_ADDRESSES};
use st_types::{
    Address, AddressWidth, Configuration, Direction, GlobalDeclaration, GlobalNames,
    GlobalQualifier, Identifier, Kind,
};
use std::alloc::{AllocError, Global};

/// A global at an address.
#[derive(Clone, Copy)]
struct Located<'a> {
    name: &'a Identifier,
    address: Address,
    qualifier: Option<GlobalQualifier>,
    declaration: &'a GlobalDeclaration,
}

/// Why a global may not have its address, whatever the others are.
#[derive(Clone, Copy)]
enum Misplaced {
    /// Its number is over this one, the greatest.
    OutOfRange(u64),
    /// Its variable has a type of another width.
    OtherWidth(AddressWidth),
    Constant,
    /// It is an input and has an initial value.
    Initial,
}

fn located_in<'a>(
    alloc: Global,
    configuration: &'a Configuration,
) -> Result<Vec<Located<'a>>, AllocError> {
    let mut located = Vec::new(alloc);
    for block in &configuration.globals {
        for declaration in &block.declarations {
            if let GlobalNames::Located(name, address) = &declaration.names {
                located.push(Located {
                    name,
                    address: *address,
                    qualifier: block.qualifier,
                    declaration,
                })?;
            }
        }
    }
    Ok(located)
}

fn greatest(width: AddressWidth) -> u64 {
    match width {
        AddressWidth::Bit => BIT_ADDRESSES - 1,
        AddressWidth::Word => WORD_ADDRESSES - 1,
    }
}

fn has_width(width: AddressWidth, kind: Option<Kind>) -> bool {
    match (width, kind) {
        (AddressWidth::Bit, Some(Kind::Bool)) => true,
        (AddressWidth::Word, Some(Kind::Int | Kind::Uint | Kind::Word)) => true,
        _ => false,
    }
}

fn why_misplaced(located: Located) -> Option<Misplaced> {
    let Address {
        direction,
        width,
        number,
    } = located.address;
    if number > greatest(width) {
        return Some(Misplaced::OutOfRange(greatest(width)));
    }
    if !has_width(width, kind_of_type(&located.declaration.declared)) {
        return Some(Misplaced::OtherWidth(width));
    }
    if located.qualifier == Some(GlobalQualifier::Constant) {
        return Some(Misplaced::Constant);
    }
    if direction == Direction::Input && located.declaration.initial.is_some() {
        return Some(Misplaced::Initial);
    }
    None
}

fn misplaced_address_reason(
    alloc: Global,
    name: &str,
    address: &str,
    why: Misplaced,
) -> Result<String, AllocError> {
    match why {
        Misplaced::OutOfRange(last) => {
            format!(in alloc; "`{address}` is out of range: 0 to {last}")
        }
        Misplaced::OtherWidth(AddressWidth::Bit) => {
            format!(in alloc; "`{address}` is one bit: `{name}` has to be BOOL")
        }
        Misplaced::OtherWidth(AddressWidth::Word) => {
            format!(in alloc; "`{address}` has 16 bits: `{name}` has to be INT, UINT or WORD")
        }
        Misplaced::Constant => {
            format!(in alloc; "`{name}` has the address `{address}` and is declared CONSTANT")
        }
        Misplaced::Initial => {
            format!(in alloc; "`{address}` is an input: `{name}` can't have an initial value")
        }
    }
}

/// The first of some globals that may not have its address.
fn first_misplaced<'a>(located: &[Located<'a>]) -> Option<(Located<'a>, Misplaced)> {
    for one in located {
        if let Some(why) = why_misplaced(*one) {
            return Some((*one, why));
        }
    }
    None
}

/// The first of some globals that has an address.
fn first_at<'a>(located: &[Located<'a>], address: Address) -> Option<Located<'a>> {
    for one in located {
        if one.address == address {
            return Some(*one);
        }
    }
    None
}

/// The first of some globals whose address an earlier one has, and that one. All are in their ranges, in which there are
/// only 2,560 addresses: no more are looked at.
fn first_doubled<'a>(located: &[Located<'a>]) -> Option<(Located<'a>, Located<'a>)> {
    for one in located {
        match first_at(located, one.address) {
            Some(first) if first.name.place != one.name.place => return Some((*one, first)),
            _ => {}
        }
    }
    None
}

fn doubled_address_reason(
    text: &Text,
    address: &Token,
    first: &Identifier,
) -> Result<String, AllocError> {
    let (spelled, name) = (text.spelled_token(address), text.spelled(first));
    let line = position_of(text.bytes, first.place).line;
    format!(in text.alloc; "`{spelled}` is used twice: `{name}` on line {line} already has it")
}

fn first_misplaced_address_reason(
    text: &Text,
    name: &Identifier,
    why: Misplaced,
) -> Result<Option<Finding>, AllocError> {
    let Some(address) = text.address_after(name) else {
        return Ok(None);
    };
    let (name, spelled) = (text.spelled(name), text.spelled_token(address));
    said_at(
        address.start,
        misplaced_address_reason(text.alloc, name, spelled, why),
    )
}

fn first_doubled_address_reason(
    text: &Text,
    located: &[Located],
) -> Result<Option<Finding>, AllocError> {
    let Some((second, first)) = first_doubled(located) else {
        return Ok(None);
    };
    match text.address_after(second.name) {
        Some(address) => said_at(
            address.start,
            doubled_address_reason(text, address, first.name),
        ),
        None => Ok(None),
    }
}

/// The finding on an address that its global may not have, or that occurs twice.
pub fn addresses_reason(
    text: &Text,
    configuration: &Configuration,
) -> Result<Option<Finding>, AllocError> {
    let located = located_in(text.alloc, configuration)?;
    match first_misplaced(&located) {
        Some((one, why)) => first_misplaced_address_reason(text, one.name, why),
        None => first_doubled_address_reason(text, &located),
    }
}
