//! The types of a text, each taken apart once.

ghost use Rattle.std.specs.Prelude.{◌≡◌, ℕ, IfOk, false, MatchOption};
ghost use Rattle.st_types.specs.SourceViews.{source_view};
ghost use Rattle.st_types.specs.declared.data_type.VariableType.TheVariants as types;
ghost use Rattle.st_meaning.specs.NameTypes.{Declared, declared_in};
ghost use Rattle.symbols.specs.Agreeing.{Agree};
ghost use Rattle.symbols.specs.PlaceTypes.{place_type_view};
ghost use Rattle.layout.specs.Shapes.{no_parts, of_structure, parts, size};
ghost use Rattle.layout.specs.Types.{shape_of_type};
ghost use Rattle.layout.specs.Compositions.{named_type};
ghost use Rattle.layout.specs.Sizes.{capped_size};
ghost use Rattle.st_link.specs.Shapes.{AreElements, IsExpanded, IsMemberPlace, IsAggregate, has_parts};
ghost use Rattle.st_link.specs.Shapes.{ServesShapes, is_array, is_plain, member_of};

use crate::aggregates::{Aggregate, add_types, add_units};
use crate::elements::Elements;
use crate::members::MemberPlace;
use crate::standards::Standards;
use layout::{Composition, Sizes, Types, product};
use st_decl::{elements_of_array, types_in, units_in};
use st_meaning::number_of;
use st_types::{Name, SimpleType, Source};
use std::alloc::{AllocError, Global};
use symbols::{Index, PlaceType, standard_block};

/// The types and blocks of a text, with their sizes and members.
pub struct ShapeTables<'a> {
    types: Types<'a>,
    wholes: Index<'a, Aggregate<'a>>,
    standards: Standards<'a>,
}

impl Drop for ShapeTables<'_> {
    fn drop(self) {
        let Self {
            types: _,
            wholes: _,
            standards: _,
        } = self;
    }
}

impl<'a> ShapeTables<'a> {
    /// The types and blocks of a text.
    pub fn new(alloc: Global, source: &'a Source) -> Result<ShapeTables<'a>, AllocError>
        ensures { IfOk result (λ tables. ServesShapes tables (declared_in (source_view source.now))) }
    {
        let mut sizes = Sizes::new(alloc, Types::new(alloc, source)?);
        let mut wholes = Index::new(alloc);
        add_types(alloc, &mut sizes, &mut wholes, &types_in(alloc, source)?)?;
        add_units(alloc, &mut sizes, &mut wholes, &units_in(alloc, source)?)?;
        Ok(ShapeTables {
            types: Types::new(alloc, source)?,
            wholes,
            standards: Standards::new(alloc)?,
        })
    }

    /// The entry of the type or the block of this name; nothing if there is none.
    fn kept(&self, name: &Name) -> Option<&Aggregate<'a>>
        ensures { (text : Declared) (at : ℕ) → ServesShapes self.now text → IsExpanded text (named_type name.now at)
            → MatchOption result (shape_of_type text (named_type name.now at) ≡ parts of_structure no_parts)
            (λ whole. IsAggregate text (named_type name.now at) whole.now) }
    {
        if let Some(whole) = self.wholes.get(name) {
            return Some(whole);
        }
        match standard_block(name) {
            Some(block) => Some(self.standards.aggregate(block)),
            None => None,
        }
    }

    /// How many slots a variable of a type or a block of this name takes, capped.
    fn size_named(&self, name: &Name) -> usize
        ensures { (text : Declared) (at : ℕ) → ServesShapes self.now text → IsExpanded text (named_type name.now at)
            → result ≡ capped_size (size (shape_of_type text (named_type name.now at))) }
    {
        match self.kept(name) {
            Some(whole) => whole.size,
            None => 0,
        }
    }

    /// How many slots a variable of a type takes, capped.
    fn size_of_simple(&self, declared: &SimpleType) -> usize
        ensures { (text : Declared) → ServesShapes self.now text → IsExpanded text (types.Simple declared.now)
            → result ≡ capped_size (size (shape_of_type text (types.Simple declared.now))) }
    {
        match declared {
            SimpleType::Elementary(_, _) => 1,
            SimpleType::Named(name) => self.size_named(&name.name),
        }
    }

    /// How many slots a variable of a type takes; 4,097 if they are more than 4,096.
    pub fn size(&self, declared: PlaceType<'a>) -> usize
        ensures { (text : Declared) → ServesShapes self.now text → IsExpanded text (place_type_view declared.entry)
            → result ≡ capped_size (size (shape_of_type text (place_type_view declared.entry))) }
    {
        match declared {
            PlaceType::Simple(simple) => self.size_of_simple(simple),
            PlaceType::Array(array) => {
                let stride = self.size_of_simple(&array.element);
                product(elements_of_array(array), stride)
            }
            PlaceType::Standard(_) => 1,
        }
    }

    /// A member of a variable with the type or the block of this name.
    fn member_named(&self, whole: &Name, name: &Name) -> Option<MemberPlace<'a>>
        ensures { (text : Declared) (at : ℕ) → ServesShapes self.now text → IsExpanded text (named_type whole.now at)
            → Agree (IsMemberPlace text 0) result
            (member_of (shape_of_type text (named_type whole.now at)) name.now) }
    {
        match self.kept(whole) {
            Some(whole) => whole.members.find(name),
            None => None,
        }
    }

    /// A member of a variable whose type is one word.
    fn member_of_simple(&self, declared: &SimpleType, name: &Name) -> Option<MemberPlace<'a>>
        ensures { (text : Declared) → ServesShapes self.now text → IsExpanded text (types.Simple declared.now)
            → Agree (IsMemberPlace text 0) result
            (member_of (shape_of_type text (types.Simple declared.now)) name.now) }
    {
        match declared {
            SimpleType::Elementary(_, _) => None,
            SimpleType::Named(whole) => self.member_named(&whole.name, name),
        }
    }

    /// A member of a structure or of a block's instance; none if the type has no members.
    pub fn member(&self, declared: PlaceType<'a>, name: &Name) -> Option<MemberPlace<'a>>
        ensures { (text : Declared) → ServesShapes self.now text → IsExpanded text (place_type_view declared.entry)
            → Agree (IsMemberPlace text 0) result
            (member_of (shape_of_type text (place_type_view declared.entry)) name.now) }
    {
        match declared {
            PlaceType::Simple(simple) => self.member_of_simple(simple, name),
            PlaceType::Array(_) => None,
            PlaceType::Standard(_) => None,
        }
    }

    /// The elements of an array; none if the type isn't an array.
    pub fn elements(&self, declared: PlaceType<'a>) -> Option<Elements<'a>>
        ensures { (text : Declared) → ServesShapes self.now text → IsExpanded text (place_type_view declared.entry)
            → MatchOption result (is_array (shape_of_type text (place_type_view declared.entry)) ≡ false)
            (AreElements text (shape_of_type text (place_type_view declared.entry))) }
    {
        let Composition::Elements(array) = self.types.composition_of(declared) else {
            return None;
        };
        Some(Elements {
            lower: number_of(&array.lower),
            count: elements_of_array(array),
            stride: self.size_of_simple(&array.element),
            declared: PlaceType::Simple(&array.element),
        })
    }

    /// Whether a variable of the type is elementary.
    pub fn is_elementary(&self, declared: PlaceType<'a>) -> bool
        ensures { (text : Declared) → ServesShapes self.now text → IsExpanded text (place_type_view declared.entry)
            → result ≡ is_plain (shape_of_type text (place_type_view declared.entry)) }
    {
        matches!(self.types.composition_of(declared), Composition::Kind(_))
    }

    /// Whether a variable of the type has members: it is a structure or a block's instance.
    pub fn has_members(&self, declared: PlaceType<'a>) -> bool
        ensures { (text : Declared) → ServesShapes self.now text → IsExpanded text (place_type_view declared.entry)
            → result ≡ has_parts (shape_of_type text (place_type_view declared.entry)) }
    {
        match self.types.composition_of(declared) {
            Composition::Kind(_) => false,
            Composition::Elements(_) => false,
            _ => true,
        }
    }
}
