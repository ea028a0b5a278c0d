//! The members of standard blocks.
//!
//! IEC 61131-3:2003, tables 34 to 37; after inputs and outputs come the members that texts can't reach.

ghost use Rattle.std.specs.Prelude.{◌≡◌, ◌++◌, map, OnOk};
ghost use Rattle.st_types.specs.declared.kind.Kind.TheVariants.{Bool, Int, Time};
ghost use Rattle.st_meaning.specs.StandardBlocks.{hidden_of, inputs_of, members_of, outputs_of};
ghost use Rattle.symbols.specs.Standard.{block_view};
ghost use Rattle.layout.specs.Types as made;
ghost use Rattle.layout.specs.Types.{site_of_member};
ghost use Rattle.layout.specs.KeptSites.{kept, kept_part, member_part, part_view, site_view};
ghost use Rattle.layout.specs.StandardMembers.{standard_member_view};

use crate::members::member_of;
use crate::sites::{Part, Site};
use st_types::Kind;
use std::alloc::AllocError;
use symbols::{PlaceType, StandardBlock};

/// A member of a standard block, by the bytes of its name.
#[derive(Clone, Copy)]
struct StandardMember {
    name: &'static [u8],
    kind: Kind,
}

fn bool_member(name: &'static [u8]) -> StandardMember
    ensures { standard_member_view result ≡ (name.now, Bool) }
{
    StandardMember {
        name,
        kind: Kind::Bool,
    }
}

fn number(name: &'static [u8]) -> StandardMember
    ensures { standard_member_view result ≡ (name.now, Int) }
{
    StandardMember {
        name,
        kind: Kind::Int,
    }
}

fn duration(name: &'static [u8]) -> StandardMember
    ensures { standard_member_view result ≡ (name.now, Time) }
{
    StandardMember {
        name,
        kind: Kind::Time,
    }
}

/// A member with its retention in its block's instance.
fn member_part<'a>(whole: Site<'a>, member: StandardMember) -> Part<'a>
    ensures { (s : made.Site) → site_view whole.entry ≡ kept s
        → part_view result ≡ kept_part (member_part s (site_of_member (standard_member_view member))) }
{
    member_of(
        whole,
        member.name,
        PlaceType::Standard(member.kind),
        None,
        None,
    )
}

fn push_members<'a>(
    parts: &mut Vec<Part<'a>>,
    whole: Site<'a>,
    members: &[StandardMember],
) -> Result<(), AllocError>
    ensures { OnOk result ((s : made.Site) → site_view whole.entry ≡ kept s
        → map part_view parts.new.items ≡ map part_view parts.old.items
        ++ map kept_part (map (member_part s) (map site_of_member (map standard_member_view members.now)))) }
{
    for member in members {
        parts.push(member_part(whole, *member))?;
    }
    Ok(())
}

fn push_inputs<'a>(
    parts: &mut Vec<Part<'a>>,
    whole: Site<'a>,
    block: StandardBlock,
) -> Result<(), AllocError>
    ensures { OnOk result ((s : made.Site) → site_view whole.entry ≡ kept s
        → map part_view parts.new.items ≡ map part_view parts.old.items
        ++ map kept_part (map (member_part s) (map site_of_member (inputs_of (block_view block))))) }
{
    match block {
        StandardBlock::Sr => push_members(parts, whole, &[bool_member(b"S1"), bool_member(b"R")]),
        StandardBlock::Rs => push_members(parts, whole, &[bool_member(b"S"), bool_member(b"R1")]),
        StandardBlock::RTrig | StandardBlock::FTrig => push_members(
            parts,
            whole,
            &[bool_member(b"CLK")],
        ),
        StandardBlock::Ctu => {
            push_members(
                parts,
                whole,
                &[bool_member(b"CU"), bool_member(b"R"), number(b"PV")],
            )
        }
        StandardBlock::Ctd => {
            push_members(
                parts,
                whole,
                &[bool_member(b"CD"), bool_member(b"LD"), number(b"PV")],
            )
        }
        StandardBlock::Ctud => push_members(
            parts,
            whole,
            &[
                bool_member(b"CU"),
                bool_member(b"CD"),
                bool_member(b"R"),
                bool_member(b"LD"),
                number(b"PV"),
            ],
        ),
        StandardBlock::Ton | StandardBlock::Tof | StandardBlock::Tp => {
            push_members(parts, whole, &[bool_member(b"IN"), duration(b"PT")])
        }
    }
}

fn push_outputs<'a>(
    parts: &mut Vec<Part<'a>>,
    whole: Site<'a>,
    block: StandardBlock,
) -> Result<(), AllocError>
    ensures { OnOk result ((s : made.Site) → site_view whole.entry ≡ kept s
        → map part_view parts.new.items ≡ map part_view parts.old.items
        ++ map kept_part (map (member_part s) (map site_of_member (outputs_of (block_view block))))) }
{
    match block {
        StandardBlock::Sr | StandardBlock::Rs => push_members(parts, whole, &[bool_member(b"Q1")]),
        StandardBlock::RTrig | StandardBlock::FTrig => push_members(
            parts,
            whole,
            &[bool_member(b"Q")],
        ),
        StandardBlock::Ctu | StandardBlock::Ctd => {
            push_members(parts, whole, &[bool_member(b"Q"), number(b"CV")])
        }
        StandardBlock::Ctud => {
            push_members(
                parts,
                whole,
                &[bool_member(b"QU"), bool_member(b"QD"), number(b"CV")],
            )
        }
        StandardBlock::Ton | StandardBlock::Tof | StandardBlock::Tp => {
            push_members(parts, whole, &[bool_member(b"Q"), duration(b"ET")])
        }
    }
}

fn push_hidden<'a>(
    parts: &mut Vec<Part<'a>>,
    whole: Site<'a>,
    block: StandardBlock,
) -> Result<(), AllocError>
    ensures { OnOk result ((s : made.Site) → site_view whole.entry ≡ kept s
        → map part_view parts.new.items ≡ map part_view parts.old.items
        ++ map kept_part (map (member_part s) (map site_of_member (hidden_of (block_view block))))) }
{
    match block {
        StandardBlock::Sr | StandardBlock::Rs => Ok(()),
        StandardBlock::RTrig | StandardBlock::FTrig | StandardBlock::Ctu | StandardBlock::Ctd => {
            push_members(parts, whole, &[bool_member(b"M")])
        }
        StandardBlock::Ctud => push_members(
            parts,
            whole,
            &[bool_member(b"MU"), bool_member(b"MD")],
        ),
        StandardBlock::Ton | StandardBlock::Tof | StandardBlock::Tp => {
            push_members(parts, whole, &[bool_member(b"RUN"), duration(b"START")])
        }
    }
}

/// Appends the members of a standard block: its inputs, its outputs, and those that texts can't reach.
pub fn push_standard<'a>(
    parts: &mut Vec<Part<'a>>,
    whole: Site<'a>,
    block: StandardBlock,
) -> Result<(), AllocError>
    ensures { OnOk result ((s : made.Site) → site_view whole.entry ≡ kept s
        → map part_view parts.new.items ≡ map part_view parts.old.items
        ++ map kept_part (map (member_part s) (map site_of_member (members_of (block_view block))))) }
{
    push_inputs(parts, whole, block)?;
    push_outputs(parts, whole, block)?;
    push_hidden(parts, whole, block)
}
