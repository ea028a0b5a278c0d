//! The parts of a whole, one level down, with their declared facts.

ghost use Rattle.std.specs.Prelude.{◌≡◌, ◌++◌, ◌∷◌, [], map, OnOk};
ghost use Rattle.st_types.specs.DeclarationViews.{field_view};
ghost use Rattle.st_types.specs.Initials.{members_of};
ghost use Rattle.st_types.specs.InitialViews.{member_view};
ghost use Rattle.st_meaning.specs.Plans.{retained_so_far};
ghost use Rattle.layout.specs.Types as made;
ghost use Rattle.layout.specs.Types.{NamedSite};
ghost use Rattle.layout.specs.Types.{site_of_field};
ghost use Rattle.layout.specs.Sites.{field_initial, member_initial};
ghost use Rattle.symbols.specs.PlaceTypes.{place_type_view};
ghost use Rattle.layout.specs.KeptSites.{IsSaid, given_view, kept, kept_part, member_part, part_view, site_view};

use crate::sites::{Part, PartStep, Site};
use st_types::{Field, Initial, InitialMember, Retention};
use std::alloc::AllocError;
use symbols::{PlaceType, place_type};

/// The initial value that a list of a structure's fields gives a field.
fn field_initial<'a>(members: &'a [InitialMember], name: &[u8]) -> Option<&'a Initial>
    ensures { given_view result
        ≡ field_initial (members_of (map member_view members.now)) name.now }
{
    for member in members {
        if name == member.name.name.as_slice() {
            return Some(&member.value);
        }
    }
    None
}

/// The initial value that a whole gives one of its fields or members.
fn member_initial<'a>(initial: Option<&'a Initial>, name: &[u8]) -> Option<&'a Initial>
    ensures { given_view result
        ≡ member_initial (given_view initial.entry) name.now }
{
    match initial {
        Some(Initial::Structure(_, members)) => field_initial(members, name),
        _ => None,
    }
}

/// Whether a part with this declaration is retained, in a whole that is retained or not.
pub fn is_retained_within(retained: bool, said: Option<Retention>) -> bool
    ensures { result ≡ retained_so_far retained (said ∷ []) }
{
    match said {
        Some(Retention::Retain) => true,
        Some(Retention::NonRetain) => false,
        None => retained,
    }
}

/// A field or a member by its name, with the value that the whole gives it, or else that of its own declaration.
#[tactic(auto, using(crate::proofs::KeptSiteLemmas::retained_appended))]
pub fn member_of<'a>(
    whole: Site<'a>,
    name: &'a [u8],
    declared: PlaceType<'a>,
    initial: Option<&'a Initial>,
    said: Option<Retention>,
) -> Part<'a>
    ensures { (s : made.Site) (d : NamedSite) → site_view whole.entry ≡ kept s → d.name ≡ name.now
        → d.site.declared ≡ place_type_view declared.entry
        → d.site.initial ≡ given_view initial.entry
        → IsSaid d.site.retentions said → part_view result ≡ kept_part (member_part s d) }
{
    let initial = match member_initial(whole.initial, name) {
        Some(given) => Some(given),
        None => initial,
    };
    Part {
        step: PartStep::Member(name),
        site: Site {
            declared,
            initial,
            retained: is_retained_within(whole.retained, said),
        },
    }
}

/// A field of a structure.
fn field_part<'a>(whole: Site<'a>, field: &'a Field) -> Part<'a>
    ensures { (s : made.Site) → site_view whole.entry ≡ kept s
        → part_view result ≡ kept_part (member_part s (site_of_field (field_view field.now))) }
{
    let name = field.name.name.as_slice();
    let declared = place_type(&field.declared);
    member_of(whole, name, declared, field.initial.as_ref(), None)
}

/// Appends the fields of a structure.
pub fn push_fields<'a>(
    parts: &mut Vec<Part<'a>>,
    whole: Site<'a>,
    fields: &'a [Field],
) -> Result<(), AllocError>
    ensures { OnOk result ((s : made.Site) → site_view whole.entry ≡ kept s
        → map part_view parts.new.items ≡ map part_view parts.old.items
        ++ map kept_part (map (member_part s) (map site_of_field (map field_view fields.now)))) }
{
    for field in fields {
        parts.push(field_part(whole, field))?;
    }
    Ok(())
}
