//! Where selectors lead: from a declared type to a type within it.

ghost use Rattle.std.specs.Prelude.{◌≡◌, ◌≤◌, ◌+◌, ◌^◌, None, Some, Option, option_and_then, IfErr, IfOk};
ghost use Rattle.std.specs.Prelude.{IfNone, IfSome};
ghost use Rattle.st_types.specs.declared.limits.TheConstants.{MAX_PATHS};
ghost use Rattle.st_types.specs.Expressions.{Expr, Selectors, member, subscript, no_selectors, selector_then};
ghost use Rattle.st_meaning.specs.NameTypes.{Declared};
ghost use Rattle.symbols.specs.PlaceTypes.{place_type_view};
ghost use Rattle.layout.specs.Shapes.{size};
ghost use Rattle.layout.specs.Types.{shape_of_type};
ghost use Rattle.slot_trees.specs.ExpressionViews.{anchor_view, place_view, slot_expr_view};
ghost use Rattle.slot_trees.specs.Linking.{Selected, linked, linked_selectors, place_if_plain};
ghost use Rattle.slot_trees.specs.Tables.{Table, moved};
ghost use Rattle.st_link.specs.Shapes.{IsExpanded, ServesShapes};
ghost use Rattle.st_link.specs.Places.{HasElements, LeadsOn};
ghost use Rattle.st_link.specs.Rooms.{first_slot};

use crate::elements::Elements;
use crate::link_error::LinkError;
use crate::shape_tables::ShapeTables;
use layout::sum;
use slot_trees::{Anchor, Place, SlotExpr, Subscript};
use st_types::Identifier;
use st_types::limits::MAX_PATHS;
use symbols::PlaceType;

/// The target of selectors: a number of slots further, 4,097 if they are more than 4,096, by these subscripts, a part
/// of this declared type.
#[derive(Drop)]
pub struct Reached<'a> {
    pub offset: usize,
    pub subscripts: Vec<Subscript>,
    pub declared: PlaceType<'a>,
}

/// A member of the part that was reached.
pub fn at_member<'a>(
    shapes: &ShapeTables<'a>,
    reached: Reached<'a>,
    name: &Identifier,
) -> Result<Reached<'a>, LinkError>
    ensures leads { IfOk result (λ next. (text : Declared) (t : Table) (whole : Option Selected) (rest : Selectors)
        → ServesShapes shapes.now text → LeadsOn text t whole reached.entry (selector_then (member name.now) rest)
        → LeadsOn text t whole next rest) }
    ensures none { IfErr result (λ e. e ≡ LinkError.NotThere → (text : Declared) (t : Table)
        (whole : Option Selected) (rest : Selectors) → ServesShapes shapes.now text
        → LeadsOn text t whole reached.entry (selector_then (member name.now) rest) → whole ≡ None) }
{
    let Some(place) = shapes.member(reached.declared, &name.name) else {
        return Err(LinkError::NotThere);
    };
    Ok(Reached {
        offset: sum(reached.offset, place.offset),
        subscripts: reached.subscripts,
        declared: place.declared,
    })
}

/// The elements of the part that was reached, which take room.
pub fn elements_at<'a>(
    shapes: &ShapeTables<'a>,
    declared: PlaceType<'a>,
) -> Result<Elements<'a>, LinkError>
    ensures elements { IfOk result (λ elements. (text : Declared) → ServesShapes shapes.now text
        → IsExpanded text (place_type_view declared.entry)
        → HasElements text (shape_of_type text (place_type_view declared.entry)) elements) }
    ensures small { IfOk result (λ elements. elements.count ≤ MAX_PATHS) }
    ensures none { IfErr result (λ e. e ≡ LinkError.NotThere → (text : Declared) (t : Table) (index : Expr)
        (rest : Selectors) → ServesShapes shapes.now text → IsExpanded text (place_type_view declared.entry)
        → size (shape_of_type text (place_type_view declared.entry)) ≤ MAX_PATHS
        → linked_selectors t (shape_of_type text (place_type_view declared.entry))
        (selector_then (subscript index) rest) ≡ None) }
{
    let Some(elements) = shapes.elements(declared) else {
        return Err(LinkError::NotThere);
    };
    if elements.stride == 0 {
        return Err(LinkError::NotThere);
    }
    if elements.count == 0 {
        return Err(LinkError::NotThere);
    }
    if elements.stride > MAX_PATHS {
        return Err(LinkError::NotThere);
    }
    if elements.count > MAX_PATHS as u128 {
        return Err(LinkError::NotThere);
    }
    Ok(elements)
}

/// An element of the part that was reached.
pub fn at_element<'a>(
    reached: Reached<'a>,
    elements: Elements<'a>,
    index: SlotExpr,
) -> Result<Reached<'a>, LinkError>
    requires { elements.count ≤ MAX_PATHS }
    ensures leads { IfOk result (λ next. (text : Declared) (t : Table) (whole : Option Selected) (e : Expr)
        (rest : Selectors)
        → HasElements text (shape_of_type text (place_type_view reached.entry.declared)) elements.entry
        → linked t e ≡ Some (slot_expr_view index)
        → LeadsOn text t whole reached.entry (selector_then (subscript e) rest) → LeadsOn text t whole next rest) }
    ensures memory { IfErr result (λ e. e ≡ LinkError.OutOfMemory) }
{
    let Reached {
        offset,
        mut subscripts,
        declared: _,
    } = reached;
    subscripts.push(Subscript {
        index,
        lower: elements.lower,
        count: elements.count as usize,
        stride: elements.stride,
    })?;
    Ok(Reached {
        offset,
        subscripts,
        declared: elements.declared,
    })
}

/// An anchor moved on by a number of slots.
fn moved(anchor: Anchor, offset: usize) -> Option<Anchor>
    ensures there { IfSome result (λ a. anchor_view a ≡ moved (anchor_view anchor) offset) }
    ensures none { IfNone result (2 ^ 64 ≤ first_slot (anchor_view anchor) + offset) }
{
    match anchor {
        Anchor::Own(first) => Some(Anchor::Own(first.checked_add(offset)?)),
        Anchor::Absolute(first) => Some(Anchor::Absolute(first.checked_add(offset)?)),
    }
}

/// The place of an elementary variable.
pub fn placed<'a>(
    shapes: &ShapeTables<'a>,
    anchor: Anchor,
    reached: Reached<'a>,
) -> Result<Place, LinkError>
    ensures place { IfOk result (λ p. (text : Declared) (t : Table) (whole : Option Selected)
        → ServesShapes shapes.now text → LeadsOn text t whole reached.entry no_selectors
        → option_and_then (place_if_plain (anchor_view anchor)) whole ≡ Some (place_view p)) }
    ensures none { IfErr result (λ e. e ≡ LinkError.NotThere → (text : Declared) (t : Table)
        (whole : Option Selected) → ServesShapes shapes.now text → first_slot (anchor_view anchor) ≤ MAX_PATHS
        → LeadsOn text t whole reached.entry no_selectors
        → option_and_then (place_if_plain (anchor_view anchor)) whole ≡ None) }
{
    if !shapes.is_elementary(reached.declared) {
        return Err(LinkError::NotThere);
    }
    if reached.offset > MAX_PATHS {
        return Err(LinkError::NotThere);
    }
    match moved(anchor, reached.offset) {
        Some(anchor) => Ok(Place::new(anchor, reached.subscripts)),
        None => Err(LinkError::NotThere),
    }
}
