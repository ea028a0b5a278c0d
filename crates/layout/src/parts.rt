//! The parts of a declared type, one level down.

ghost use Rattle.std.specs.Prelude.{◌≡◌, map, IfOk};
ghost use Rattle.layout.specs.Types as made;
ghost use Rattle.layout.specs.Compositions.{composition_view};
ghost use Rattle.layout.specs.KeptSites.{kept, kept_part, part_view, parts_below, site_view};

use crate::block_members::push_variables;
use crate::compositions::Composition;
use crate::elements::elements_of;
use crate::members::push_fields;
use crate::sites::{Part, Site};
use crate::standard_members::push_standard;
use std::alloc::{AllocError, Global};

/// The parts of a composition, in the order of the layout.
pub fn parts_of<'a>(
    alloc: Global,
    whole: Site<'a>,
    composed: Composition<'a>,
) -> Result<Vec<Part<'a>>, AllocError>
    ensures { IfOk result (λ parts. (s : made.Site) → site_view whole.entry ≡ kept s
        → map part_view parts.items ≡ map kept_part (parts_below s (composition_view composed.entry))) }
{
    let mut parts = Vec::new(alloc);
    match composed {
        Composition::Kind(_) => {}
        Composition::Elements(array) => return elements_of(alloc, whole, array),
        Composition::Fields(fields) => push_fields(&mut parts, whole, fields)?,
        Composition::Block(blocks) => push_variables(alloc, &mut parts, whole, blocks)?,
        Composition::Standard(block) => push_standard(&mut parts, whole, block)?,
        Composition::Nothing => {}
    }
    Ok(parts)
}
