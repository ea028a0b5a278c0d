//! The members of a function block's instance.

ghost use Rattle.std.specs.Prelude.{◌≡◌, ◌++◌, map, OnOk};
ghost use Rattle.st_types.specs.DeclarationViews.{variable_block_view};
ghost use Rattle.layout.specs.Types as made;
ghost use Rattle.layout.specs.Types.{sites_of_blocks};
ghost use Rattle.layout.specs.NamedSites.{named_site_view};
ghost use Rattle.layout.specs.KeptSites.{kept, kept_part, member_part, part_view, site_view};

use crate::members::member_of;
use crate::named_sites::{NamedSite, sites_of_blocks};
use crate::sites::{Part, Site};
use st_types::VariableBlock;
use std::alloc::{AllocError, Global};

/// A member, with its retention in its block's instance.
fn variable_part<'a>(whole: Site<'a>, variable: NamedSite<'a>) -> Part<'a>
    ensures { (s : made.Site) → site_view whole.entry ≡ kept s
        → part_view result ≡ kept_part (member_part s (named_site_view variable.entry)) }
{
    member_of(
        whole,
        variable.name,
        variable.declared,
        variable.initial,
        variable.said,
    )
}

fn push_members<'a>(
    parts: &mut Vec<Part<'a>>,
    whole: Site<'a>,
    variables: &[NamedSite<'a>],
) -> Result<(), AllocError>
    ensures { OnOk result ((s : made.Site) → site_view whole.entry ≡ kept s
        → map part_view parts.new.items ≡ map part_view parts.old.items
        ++ map kept_part (map (member_part s) (map named_site_view variables.now))) }
{
    for variable in variables {
        parts.push(variable_part(whole, *variable))?;
    }
    Ok(())
}

/// Appends the variables of a function block.
pub fn push_variables<'a>(
    alloc: Global,
    parts: &mut Vec<Part<'a>>,
    whole: Site<'a>,
    blocks: &'a [VariableBlock],
) -> Result<(), AllocError>
    ensures { OnOk result ((s : made.Site) → site_view whole.entry ≡ kept s
        → map part_view parts.new.items ≡ map part_view parts.old.items
        ++ map kept_part (map (member_part s) (sites_of_blocks (map variable_block_view blocks.now)))) }
{
    push_members(parts, whole, &sites_of_blocks(alloc, blocks)?)
}
