//! The entry of each named type and block: its size and its members.

ghost use Rattle.std.specs.Prelude.{◌≡◌, ◌∷◌, List, ℕ, None, map, bytes_eq, false, IfOk, OnOk};
ghost use Rattle.st_types.specs.DeclarationViews.{type_declaration_view};
ghost use Rattle.st_types.specs.UnitViews.{unit_view};
ghost use Rattle.st_types.specs.declared.data_type.VariableType.{VariableType};
ghost use Rattle.st_meaning.specs.NameTypes.{Declared, type_named, unit_named};
ghost use Rattle.st_meaning.specs.StandardBlocks.{members_of};
ghost use Rattle.symbols.specs.Found.{found};
ghost use Rattle.symbols.specs.PlaceTypes.{place_type_view};
ghost use Rattle.symbols.specs.Standard.{block_view};
ghost use Rattle.layout.specs.Shapes.{size};
ghost use Rattle.layout.specs.Types.{composition_of, of_elements, shape_of_type, site_of_member};
ghost use Rattle.layout.specs.Compositions.{named_type};
ghost use Rattle.layout.specs.Sizes.{ServesSizes, capped_size};
ghost use Rattle.st_link.specs.NamedMembers.{NamedType, name_and_type, named_member_view};
ghost use Rattle.st_link.specs.Shapes.{AreExpanded, HasAllButLast, HasParts, IsExpanded, IsAggregate, KnowsAggregates};

use crate::members::{MemberPlace, Members};
use crate::named_members::{NamedMember, members_of};
use layout::{Composition, Sizes, product, sum};
use st_decl::elements_of_array;
use st_types::limits::MAX_PATHS;
use st_types::{ArrayType, Name, TypeDeclaration, Unit};
use std::alloc::{AllocError, Global};
use symbols::{Index, PlaceType, StandardBlock};

/// A named type or a block: how many slots a variable of it takes, 4,097 if they are more than 4,096, and the places of
/// its members.
pub struct Aggregate<'a> {
    pub size: usize,
    pub members: Members<'a>,
}

impl Drop for Aggregate<'_> {
    fn drop(self) {
        let Self {
            size: _,
            members: _,
        } = self;
    }
}

/// The size of a type; for one that is too deep nothing is promised.
fn size_of<'a>(
    alloc: Global,
    sizes: &mut Sizes<'a>,
    declared: PlaceType<'a>,
) -> Result<usize, AllocError>
    ensures serves { OnOk result ((text : Declared) → ServesSizes sizes.old text → ServesSizes sizes.new text) }
    ensures size { IfOk result (λ n. (text : Declared) → ServesSizes sizes.old text
        → IsExpanded text (place_type_view declared.entry)
        → n ≡ capped_size (size (shape_of_type text (place_type_view declared.entry)))) }
{
    match sizes.size_of(alloc, declared)? {
        Some(size) => Ok(size),
        None => Ok(MAX_PATHS + 1),
    }
}

impl<'a> Aggregate<'a> {
    /// A whole without members.
    fn new(alloc: Global) -> Aggregate<'a>
        ensures { (text : Declared) (es : List NamedType) → AreExpanded text es → HasAllButLast text es es result }
    {
        Aggregate {
            size: 0,
            members: Members::new(alloc),
        }
    }

    /// Adds a member of a size after the others.
    fn add(&mut self, member: NamedMember<'a>, slots: usize) -> Result<(), AllocError>
        ensures { OnOk result ((text : Declared) (all rest : List NamedType)
            → slots ≡ capped_size (size (shape_of_type text (named_member_view member.entry).1))
            → HasAllButLast text all (named_member_view member.entry ∷ rest) self.old
            → HasAllButLast text all rest self.new) }
    {
        let place = MemberPlace {
            offset: self.size,
            declared: member.declared,
        };
        self.members.add(member.name, place)?;
        self.size = sum(self.size, slots);
        Ok(())
    }
}

/// The entry of these members.
fn aggregate_of<'a>(
    alloc: Global,
    sizes: &mut Sizes<'a>,
    members: &[NamedMember<'a>],
) -> Result<Aggregate<'a>, AllocError>
    ensures serves { OnOk result ((text : Declared) → ServesSizes sizes.old text → ServesSizes sizes.new text) }
    ensures parts { IfOk result (λ whole. (text : Declared) → ServesSizes sizes.old text
        → AreExpanded text (map named_member_view members.now)
        → HasParts text (map named_member_view members.now) whole) }
{
    let mut whole = Aggregate::new(alloc);
    for member in members {
        let slots = size_of(alloc, sizes, member.declared)?;
        whole.add(*member, slots)?;
    }
    Ok(whole)
}

/// A standard block, each of whose members takes one slot.
pub fn standard_aggregate<'a>(
    alloc: Global,
    block: StandardBlock,
) -> Result<Aggregate<'a>, AllocError>
    ensures { IfOk result (λ whole. (text : Declared) → HasParts text
        (map name_and_type (map site_of_member (members_of (block_view block)))) whole) }
{
    let members = members_of(alloc, Composition::Standard(block))?;
    let mut whole = Aggregate::new(alloc);
    for member in &members {
        whole.add(*member, 1)?;
    }
    Ok(whole)
}

/// An array, which has no members.
fn array_aggregate<'a>(
    alloc: Global,
    sizes: &mut Sizes<'a>,
    array: &'a ArrayType,
) -> Result<Aggregate<'a>, AllocError>
    ensures serves { OnOk result ((text : Declared) → ServesSizes sizes.old text → ServesSizes sizes.new text) }
    ensures whole { IfOk result (λ whole. (text : Declared) (t : VariableType) → ServesSizes sizes.old text
        → composition_of text t ≡ of_elements array.now → IsExpanded text t → IsAggregate text t whole) }
{
    let slots = size_of(alloc, sizes, PlaceType::Simple(&array.element))?;
    Ok(Aggregate {
        size: product(elements_of_array(array), slots),
        members: Members::new(alloc),
    })
}

/// The entry of a type or a block by its name.
fn named_aggregate<'a>(
    alloc: Global,
    sizes: &mut Sizes<'a>,
    name: &Name,
) -> Result<Aggregate<'a>, AllocError>
    ensures serves { OnOk result ((text : Declared) → ServesSizes sizes.old text → ServesSizes sizes.new text) }
    ensures whole { IfOk result (λ whole. (text : Declared) (at : ℕ) → ServesSizes sizes.old text
        → IsExpanded text (named_type name.now at) → IsAggregate text (named_type name.now at) whole) }
{
    let composed = sizes.types().composition_named(name);
    match composed {
        Composition::Kind(_) => Ok(Aggregate {
            size: 1,
            members: Members::new(alloc),
        }),
        Composition::Elements(array) => array_aggregate(alloc, sizes, array),
        _ => {
            let members = members_of(alloc, composed)?;
            aggregate_of(alloc, sizes, &members)
        }
    }
}

/// Adds the entry of a type or a block.
fn add_aggregate<'a>(
    alloc: Global,
    sizes: &mut Sizes<'a>,
    wholes: &mut Index<'a, Aggregate<'a>>,
    name: &'a Name,
) -> Result<(), AllocError>
    ensures serves { OnOk result ((text : Declared) → ServesSizes sizes.old text → ServesSizes sizes.new text) }
    ensures known { OnOk result ((text : Declared) → ServesSizes sizes.old text → KnowsAggregates text wholes.old
        → KnowsAggregates text wholes.new) }
    ensures kept { OnOk result ((x : List ℕ) → found wholes.new x ≡ None
        → (found wholes.old x ≡ None) × (bytes_eq x name.now ≡ false)) }
{
    let whole = named_aggregate(alloc, sizes, name)?;
    wholes.add(name, whole)?;
    Ok(())
}

/// Adds the entries of the types of a text.
pub fn add_types<'a>(
    alloc: Global,
    sizes: &mut Sizes<'a>,
    wholes: &mut Index<'a, Aggregate<'a>>,
    types: &[&'a TypeDeclaration],
) -> Result<(), AllocError>
    ensures serves { OnOk result ((text : Declared) → ServesSizes sizes.old text → ServesSizes sizes.new text) }
    ensures known { OnOk result ((text : Declared) → ServesSizes sizes.old text → KnowsAggregates text wholes.old
        → KnowsAggregates text wholes.new) }
    ensures kept { OnOk result ((x : List ℕ) → found wholes.new x ≡ None → (found wholes.old x ≡ None)
        × (type_named (map (λ t. type_declaration_view t.now) types.now) x ≡ None)) }
{
    for declaration in types {
        add_aggregate(alloc, sizes, wholes, &declaration.name.name)?;
    }
    Ok(())
}

/// Adds the entries of the units of a text.
pub fn add_units<'a>(
    alloc: Global,
    sizes: &mut Sizes<'a>,
    wholes: &mut Index<'a, Aggregate<'a>>,
    units: &[&'a Unit],
) -> Result<(), AllocError>
    ensures serves { OnOk result ((text : Declared) → ServesSizes sizes.old text → ServesSizes sizes.new text) }
    ensures known { OnOk result ((text : Declared) → ServesSizes sizes.old text → KnowsAggregates text wholes.old
        → KnowsAggregates text wholes.new) }
    ensures kept { OnOk result ((x : List ℕ) → found wholes.new x ≡ None → (found wholes.old x ≡ None)
        × (unit_named (map (λ u. unit_view u.now) units.now) x ≡ None)) }
{
    for unit in units {
        add_aggregate(alloc, sizes, wholes, &unit.name.name)?;
    }
    Ok(())
}
