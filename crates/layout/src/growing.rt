//! The expansion of a variable into its elementary parts, which stops when a layout has no room for more.

ghost use Rattle.std.specs.Prelude.{◌≡◌, ◌≤◌, ◌+◌, ◌++◌, length, IfErr, OnOk, true};
ghost use Rattle.st_meaning.specs.NameTypes.{Declared};
ghost use Rattle.layout.specs.Shapes.{instance_count, is_sound, size};
ghost use Rattle.layout.specs.Types as made;
ghost use Rattle.layout.specs.Types.{shape_within};
ghost use Rattle.st_types.specs.declared.limits.TheConstants.{MAX_PATHS};
ghost use Rattle.layout.specs.Compositions.{ServesTypes, composition_view};
ghost use Rattle.layout.specs.Growth.{Exceeds, Grows};
ghost use Rattle.layout.specs.KeptSites.{kept, site_view};
ghost use Rattle.layout.specs.Slots.{own_instances, own_size, own_slots, path_at};
ghost use Rattle.layout.specs.declared.limits.TheConstants.{MAX_INSTANCES};

use crate::compositions::{Composition, Types};
use crate::definition_laws::leaves_of_shapes;
use crate::initials::started;
use crate::layout_error::LayoutError;
use crate::limits::MAX_INSTANCES;
use crate::parts::parts_of;
use crate::sites::{PartStep, Site};
use crate::slots::{LayoutSlot, Root, path_to};
use st_types::Kind;
use st_types::limits::MAX_PATHS;
use std::alloc::Global;
use symbols::StandardBlock;

/// The slots so far, to which the next ones are appended.
#[derive(Drop)]
pub struct Growing<'a> {
    pub slots: Vec<LayoutSlot>,
    /// How many instances of blocks there are so far, at every depth.
    pub instances: usize,
    /// The steps from the variable at hand to its part at hand.
    pub trail: Vec<PartStep<'a>>,
}

fn push_slot(
    alloc: Global,
    grown: &mut Growing,
    root: Root,
    site: Site,
    kind: Kind,
) -> Result<(), LayoutError>
    ensures slots { OnOk result (grown.new.slots.items ≡ grown.old.slots.items
        ++ own_slots (made.of_kind kind) (site_view site.entry) root.entry.is_input
        (path_at root.entry grown.old.trail.items)) }
    ensures instances { grown.new.instances ≡ grown.old.instances }
    ensures trail { grown.new.trail ≡ grown.old.trail }
    ensures bounded { OnOk result (length grown.new.slots.items ≤ MAX_PATHS) }
    ensures err { IfErr result (Exceeds (length grown.old.slots.items + 1) grown.old.instances) }
{
    if MAX_PATHS <= grown.slots.len() {
        return Err(LayoutError::TooLarge);
    }
    grown.slots.push(LayoutSlot {
        path: path_to(alloc, root, &grown.trail)?,
        initial: started(kind, site.initial, root.is_input),
        retained: !root.is_input && site.retained,
        is_input: root.is_input,
    })?;
    Ok(())
}

fn count_instance(grown: &mut Growing) -> Result<(), LayoutError>
    ensures slots { grown.new.slots ≡ grown.old.slots }
    ensures instances { OnOk result (grown.new.instances ≡ grown.old.instances + 1) }
    ensures trail { grown.new.trail ≡ grown.old.trail }
    ensures bounded { OnOk result (grown.new.instances ≤ MAX_INSTANCES) }
    ensures err { IfErr result (Exceeds (length grown.old.slots.items) (grown.old.instances + 1)) }
{
    if MAX_INSTANCES <= grown.instances {
        return Err(LayoutError::TooLarge);
    }
    grown.instances += 1;
    Ok(())
}

/// Adds the part itself, without its own parts: a slot, an instance of a block, or nothing.
fn push_own<'a>(
    alloc: Global,
    grown: &mut Growing,
    root: Root,
    site: Site<'a>,
    composed: Composition<'a>,
) -> Result<(), LayoutError>
    ensures slots { OnOk result (grown.new.slots.items ≡ grown.old.slots.items
        ++ own_slots (composition_view composed.entry) (site_view site.entry) root.entry.is_input
        (path_at root.entry grown.old.trail.items)) }
    ensures instances { OnOk result
        (grown.new.instances ≡ grown.old.instances + own_instances (composition_view composed.entry)) }
    ensures trail { grown.new.trail ≡ grown.old.trail }
    ensures room { OnOk result (length grown.old.slots.items ≤ MAX_PATHS → length grown.new.slots.items ≤ MAX_PATHS) }
    ensures few { OnOk result (grown.old.instances ≤ MAX_INSTANCES → grown.new.instances ≤ MAX_INSTANCES) }
    ensures err { IfErr result (Exceeds (length grown.old.slots.items + own_size (composition_view composed.entry))
        (grown.old.instances + own_instances (composition_view composed.entry))) }
{
    match composed {
        Composition::Kind(kind) => push_slot(alloc, grown, root, site, kind),
        Composition::Elements(_) => Ok(()),
        Composition::Fields(_) => Ok(()),
        Composition::Block(_) => count_instance(grown),
        Composition::Standard(_) => count_instance(grown),
        Composition::Nothing => Ok(()),
    }
}

/// Appends the slots of a declared whole, whose type is expanded at most to this depth.
pub fn push_site<'a>(
    depth: usize,
    alloc: Global,
    grown: &mut Growing<'a>,
    types: &Types<'a>,
    root: Root<'a>,
    site: Site<'a>,
) -> Result<(), LayoutError>
    ensures ok { OnOk result ((text : Declared) (s : made.Site) → ServesTypes types.now text
        → site_view site.entry ≡ kept s → is_sound (shape_within depth text s.declared) ≡ true
        → Grows depth text s root.entry grown.old grown.new) }
    ensures trail { OnOk result (grown.new.trail.items ≡ grown.old.trail.items) }
    ensures room { OnOk result (length grown.old.slots.items ≤ MAX_PATHS → length grown.new.slots.items ≤ MAX_PATHS) }
    ensures few { OnOk result (grown.old.instances ≤ MAX_INSTANCES → grown.new.instances ≤ MAX_INSTANCES) }
    ensures err { IfErr result (λ e. (text : Declared) (s : made.Site) → ServesTypes types.now text
        → site_view site.entry ≡ kept s → is_sound (shape_within depth text s.declared) ≡ true
        → Exceeds (length grown.old.slots.items + size (shape_within depth text s.declared))
        (grown.old.instances + instance_count (shape_within depth text s.declared)) e) }
{
    if depth == 0 {
        return Ok(());
    }
    leaves_of_shapes();
    let composed = types.composition_of(site.declared);
    push_own(alloc, grown, root, site, composed)?;
    let parts = parts_of(alloc, site, composed)?;
    for part in &parts {
        grown.trail.push(part.step)?;
        push_site(depth - 1, alloc, grown, types, root, part.site)?;
        grown.trail.pop();
    }
    Ok(())
}
