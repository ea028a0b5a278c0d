//! The members of a structure or of a block's instance in the order of the layout.

ghost use Rattle.std.specs.Prelude.{◌≡◌, ◌++◌, ◌∷◌, [], map, IfOk};
ghost use Rattle.layout.specs.Compositions.{composition_view};
ghost use Rattle.st_link.specs.NamedMembers.{members_in, named_member_view, named_parts};

use layout::{Composition, Part, PartStep, Site, parts_of};
use st_types::Kind;
use std::alloc::{AllocError, Global};
use symbols::PlaceType;

/// A member by the bytes of its name.
#[derive(Clone, Copy)]
pub struct NamedMember<'a> {
    pub name: &'a [u8],
    pub declared: PlaceType<'a>,
}

/// Appends a part, if it has a name.
fn push_part<'a>(members: &mut Vec<NamedMember<'a>>, part: Part<'a>) -> Result<(), AllocError>
    ensures { IfOk result (λ done. map named_member_view members.new.items
        ≡ map named_member_view members.old.items ++ named_parts (part.entry ∷ [])) }
{
    match part.step {
        PartStep::Member(name) => {
            let declared = part.site.declared;
            members.push(NamedMember { name, declared })?;
            Ok(())
        }
        PartStep::Element(_) => Ok(()),
    }
}

fn named_parts<'a>(alloc: Global, parts: &[Part<'a>]) -> Result<Vec<NamedMember<'a>>, AllocError>
    ensures { IfOk result (λ members. map named_member_view members.items ≡ named_parts parts.now) }
{
    let mut members = Vec::new(alloc);
    for part in parts {
        push_part(&mut members, *part)?;
    }
    Ok(members)
}

/// The members of a composition, with their types; an array has none.
pub fn members_of<'a>(
    alloc: Global,
    composed: Composition<'a>,
) -> Result<Vec<NamedMember<'a>>, AllocError>
    ensures { IfOk result (λ members. map named_member_view members.items
        ≡ members_in (composition_view composed.entry)) }
{
    if let Composition::Elements(_) = composed {
        return Ok(Vec::new(alloc));
    }
    // Their names and types don't depend on the facts about the whole.
    let whole = Site {
        declared: PlaceType::Standard(Kind::Bool),
        initial: None,
        retained: false,
    };
    let parts = parts_of(alloc, whole, composed)?;
    named_parts(alloc, &parts)
}
