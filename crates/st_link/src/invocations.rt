//! Calls of block instances, from names to slots.

ghost use Rattle.std.specs.Prelude.{◌≡◌, None, Some, map, option_and_then, IfErr, IfOk};
ghost use Rattle.st_types.specs.StatementViews.{argument_view};
ghost use Rattle.st_meaning.specs.NameTypes.{Declared};
ghost use Rattle.symbols.specs.PlaceTypes.{place_type_view};
ghost use Rattle.layout.specs.Shapes.{Parts};
ghost use Rattle.slot_trees.specs.StatementViews.{slot_argument_view, slot_stmt_view};
ghost use Rattle.slot_trees.specs.LinkedStatements.{linked_argument, linked_arguments, linked_invocation, offset_of};
ghost use Rattle.slot_trees.specs.Tables.{Table, part_at};
ghost use Rattle.st_link.specs.BodyTables.{ServesBody};
ghost use Rattle.st_link.specs.Instances.{HasMembers};

use crate::body_table::BodyTable;
use crate::expressions::{link, link_target};
use crate::link_error::LinkError;
use slot_trees::{SlotArgument, SlotStmt};
use st_types::limits::MAX_PATHS;
use st_types::{Argument, Identifier};
use std::alloc::Global;
use symbols::PlaceType;

/// The offset of an elementary member of an instance from its first slot.
fn member_offset<'a>(
    table: &BodyTable<'_, 'a>,
    instance: PlaceType<'a>,
    name: &Identifier,
) -> Result<usize, LinkError>
    ensures linked { IfOk result (λ offset. (text : Declared) (t : Table) (ps : Parts) → ServesBody table.now text t
        → HasMembers text (place_type_view instance.entry) ps
        → option_and_then offset_of (part_at ps name.now.name) ≡ Some offset) }
    ensures none { IfErr result (λ e. e ≡ LinkError.NotThere → (text : Declared) (t : Table) (ps : Parts)
        → ServesBody table.now text t → HasMembers text (place_type_view instance.entry) ps
        → option_and_then offset_of (part_at ps name.now.name) ≡ None) }
{
    let Some(member) = table.shapes.member(instance, &name.name) else {
        return Err(LinkError::NotThere);
    };
    if !table.shapes.is_elementary(member.declared) {
        return Err(LinkError::NotThere);
    }
    if member.offset > MAX_PATHS {
        return Err(LinkError::NotThere);
    }
    Ok(member.offset)
}

/// An argument of a call of an instance of this declared type.
fn link_argument<'a>(
    alloc: Global,
    table: &BodyTable<'_, 'a>,
    instance: PlaceType<'a>,
    argument: &Argument,
) -> Result<SlotArgument, LinkError>
    ensures linked { IfOk result (λ x. (text : Declared) (t : Table) (ps : Parts) → ServesBody table.now text t
        → HasMembers text (place_type_view instance.entry) ps
        → linked_argument t ps (argument_view argument.now) ≡ Some (slot_argument_view x)) }
    ensures none { IfErr result (λ e. e ≡ LinkError.NotThere → (text : Declared) (t : Table) (ps : Parts)
        → ServesBody table.now text t → HasMembers text (place_type_view instance.entry) ps
        → linked_argument t ps (argument_view argument.now) ≡ None) }
{
    match argument {
        Argument::Input(name, value) => {
            let offset = member_offset(table, instance, name)?;
            let value = link(alloc, table, value)?;
            Ok(SlotArgument::given(offset, value))
        }
        Argument::Output(name, target) => {
            let offset = member_offset(table, instance, name)?;
            let target = link_target(alloc, table, target)?;
            Ok(SlotArgument::copied(offset, target))
        }
    }
}

fn link_arguments<'a>(
    alloc: Global,
    table: &BodyTable<'_, 'a>,
    instance: PlaceType<'a>,
    arguments: &[Argument],
) -> Result<Vec<SlotArgument>, LinkError>
    ensures linked { IfOk result (λ xs. (text : Declared) (t : Table) (ps : Parts) → ServesBody table.now text t
        → HasMembers text (place_type_view instance.entry) ps
        → linked_arguments t ps (map argument_view arguments.now) ≡ Some (map slot_argument_view xs.items)) }
    ensures none { IfErr result (λ e. e ≡ LinkError.NotThere → (text : Declared) (t : Table) (ps : Parts)
        → ServesBody table.now text t → HasMembers text (place_type_view instance.entry) ps
        → linked_arguments t ps (map argument_view arguments.now) ≡ None) }
{
    let mut linked = Vec::new(alloc);
    for argument in arguments {
        linked.push(link_argument(alloc, table, instance, argument)?)?;
    }
    Ok(linked)
}

/// A call of a block's instance.
pub fn link_invocation(
    alloc: Global,
    table: &BodyTable,
    name: &Identifier,
    arguments: &[Argument],
) -> Result<SlotStmt, LinkError>
    ensures linked { IfOk result (λ x. (text : Declared) (t : Table) → ServesBody table.now text t
        → linked_invocation t name.now.name (map argument_view arguments.now) ≡ Some (slot_stmt_view x)) }
    ensures none { IfErr result (λ e. e ≡ LinkError.NotThere → (text : Declared) (t : Table)
        → ServesBody table.now text t
        → linked_invocation t name.now.name (map argument_view arguments.now) ≡ None) }
{
    let Some(symbol) = table.symbol(&name.name) else {
        return Err(LinkError::NotThere);
    };
    if symbol.is_input {
        return Err(LinkError::NotThere);
    }
    if !table.shapes.has_members(symbol.declared) {
        return Err(LinkError::NotThere);
    }
    let Some(code) = table.code(&name.name) else {
        return Err(LinkError::NotThere);
    };
    let arguments = link_arguments(alloc, table, symbol.declared, arguments)?;
    Ok(SlotStmt::invoke(symbol.anchor, code, arguments))
}
