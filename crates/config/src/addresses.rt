//! Direct addresses of globals.

ghost use Rattle.std.specs.Prelude.{◌≡◌, ◌++◌, ◌<◌, map, length, true, IfOk};
ghost use Rattle.std.specs.List.{flat_map, list_all};
ghost use Rattle.st_types.specs.ConfigurationViews.{configuration_view, global_block_view, global_declaration_view};
ghost use Rattle.st_types.specs.ConfigurationViews.{global_names_view};
ghost use Rattle.st_meaning.specs.NameTypes.{Declared, kind_among};
ghost use Rattle.st_rules.specs.ConfigurationRules.{address_in, addresses_in, are_single, has_sound_addresses};
ghost use Rattle.st_rules.specs.ConfigurationRules.{has_width, holds_kind, is_in_range, is_sound_address};
ghost use Rattle.config.specs.Addresses.{number_of_address};

use crate::globals::{comes_from_plant, is_constant};
use st_meaning::lookup::kind_of_type;
use st_types::limits::{BIT_ADDRESSES, WORD_ADDRESSES};
use st_types::{
    Address, AddressWidth, Configuration, Direction, GlobalBlock, GlobalDeclaration, GlobalNames,
    GlobalQualifier, Kind,
};
use std::alloc::{AllocError, Global};

/// Whether the type has the width.
fn has_width(width: AddressWidth, kind: Kind) -> bool
    ensures { result ≡ has_width width kind }
{
    match width {
        AddressWidth::Bit => kind.is(Kind::Bool),
        AddressWidth::Word => kind.is(Kind::Int) || kind.is(Kind::Uint) || kind.is(Kind::Word),
    }
}

/// Whether a variable of the type may have an address of the width; only elementary types may.
#[tactic(auto, using(crate::proofs::AddressLemmas::width_of_declared))]
fn holds_type(width: AddressWidth, declaration: &GlobalDeclaration) -> bool
    ensures { (text : Declared) → result
        ≡ holds_kind width (kind_among text.types (global_declaration_view declaration.now).declared) }
{
    match kind_of_type(&declaration.declared) {
        Some(kind) => has_width(width, kind),
        None => false,
    }
}

fn is_in_range(address: Address) -> bool
    ensures { result ≡ is_in_range address.width address.number }
{
    match address.width {
        AddressWidth::Bit => address.number < BIT_ADDRESSES,
        AddressWidth::Word => address.number < WORD_ADDRESSES,
    }
}

/// Whether the address of a declaration, if it has one, is sound.
fn is_sound(qualifier: Option<GlobalQualifier>, declaration: &GlobalDeclaration) -> bool
    ensures { (text : Declared) → result ≡ is_sound_address text qualifier (global_declaration_view declaration.now)
        (global_names_view declaration.now.names) }
{
    let GlobalNames::Located(_, address) = &declaration.names else {
        return true;
    };
    if !is_in_range(*address) || !holds_type(address.width, declaration) {
        return false;
    }
    if is_constant(qualifier) {
        return false;
    }
    !comes_from_plant(address.direction) || declaration.initial.is_none()
}

fn are_sound(qualifier: Option<GlobalQualifier>, declarations: &[GlobalDeclaration]) -> bool
    ensures { (text : Declared) → result ≡ list_all (λ d. is_sound_address text qualifier d d.names)
        (map global_declaration_view declarations.now) }
{
    for declaration in declarations {
        if !is_sound(qualifier, declaration) {
            return false;
        }
    }
    true
}

fn are_sound_blocks(blocks: &[GlobalBlock]) -> bool
    ensures { (text : Declared) → result
        ≡ list_all (λ b. list_all (λ d. is_sound_address text b.qualifier d d.names) b.declarations)
        (map global_block_view blocks.now) }
{
    for block in blocks {
        if !are_sound(block.qualifier, &block.declarations) {
            return false;
        }
    }
    true
}

fn push_addresses(
    addresses: &mut Vec<Address>,
    declarations: &[GlobalDeclaration],
) -> Result<(), AllocError>
    ensures { IfOk result (λ done. addresses.new.items ≡ addresses.old.items
        ++ flat_map (λ d. address_in d.names) (map global_declaration_view declarations.now)) }
{
    for declaration in declarations {
        if let GlobalNames::Located(_, address) = &declaration.names {
            addresses.push(*address)?;
        }
    }
    Ok(())
}

/// All addresses, in order.
fn addresses_in(alloc: Global, blocks: &[GlobalBlock]) -> Result<Vec<Address>, AllocError>
    ensures { IfOk result (λ addresses. addresses.items ≡ addresses_in (map global_block_view blocks.now)) }
{
    let mut addresses = Vec::new(alloc);
    for block in blocks {
        push_addresses(&mut addresses, &block.declarations)?;
    }
    Ok(addresses)
}

/// The number of an address that is in its range, below 4,096.
fn number_of_address(address: Address) -> usize
    requires { is_in_range address.width address.number ≡ true }
    ensures number { result ≡ number_of_address address }
    ensures below { result < 4096 }
{
    let first = match address.direction {
        Direction::Input => 0,
        Direction::Output => 2048,
    };
    let behind = match address.width {
        AddressWidth::Bit => 0,
        AddressWidth::Word => 1024,
    };
    first + (behind + address.number as usize)
}

/// Whether no address occurs twice.
fn are_single(alloc: Global, addresses: &[Address]) -> Result<bool, AllocError>
    requires { list_all (λ a. is_in_range a.width a.number) addresses.now ≡ true }
    ensures { IfOk result (λ single. single ≡ are_single addresses.now) }
{
    let mut marked = vec![in alloc; false; 4096]?;
    let mut left = addresses.len();
    while left > 0 {
        left -= 1;
        let number = number_of_address(addresses[left]);
        if marked[number] {
            return Ok(false);
        }
        marked[number] = true;
    }
    Ok(true)
}

/// Whether each address is sound in its place, and none occurs twice.
pub fn has_sound_addresses(alloc: Global, configuration: &Configuration) -> Result<bool, AllocError>
    ensures { IfOk result (λ sound. (text : Declared)
        → sound ≡ has_sound_addresses text (configuration_view configuration.now)) }
{
    if !are_sound_blocks(&configuration.globals) {
        return Ok(false);
    }
    let addresses = addresses_in(alloc, &configuration.globals)?;
    are_single(alloc, &addresses)
}
