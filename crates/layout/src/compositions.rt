//! Compositions of declared types.

ghost use Rattle.std.specs.Prelude.{◌≡◌, ℕ, Some, IfOk, option_map};
ghost use Rattle.st_types.specs.DeclarationViews.{type_definition_view};
ghost use Rattle.st_types.specs.SourceViews.{source_view};
ghost use Rattle.st_types.specs.UnitViews.{unit_view};
ghost use Rattle.st_types.specs.declared.data_type.VariableType.{VariableType};
ghost use Rattle.st_types.specs.declared.data_type.VariableType.TheVariants.{Simple};
ghost use Rattle.st_meaning.specs.NameTypes.{Declared, declared_in, unit_named};
ghost use Rattle.layout.specs.Types.{composition_of, defined_composition, instance_parts, own_block_type};
ghost use Rattle.layout.specs.Types.{block_type_named};
ghost use Rattle.symbols.specs.PlaceTypes.{place_type_view};
ghost use Rattle.layout.specs.Compositions.{ServesTypes, composition_view, named_type};

use st_decl::types_in;
use st_types::{
    ArrayType, Field, Kind, Name, SimpleType, Source, TypeDefinition, Unit, UnitSort, VariableBlock,
};
use std::alloc::{AllocError, Global};
use symbols::{EnumeratedNames, PlaceType, StandardBlock, TextNames, standard_block};

/// The types and the units of a text by their names.
pub struct Types<'a> {
    names: TextNames<'a>,
    enumerated: EnumeratedNames<'a>,
}

impl Drop for Types<'_> {
    fn drop(self) {
        let Self {
            names: _,
            enumerated: _,
        } = self;
    }
}

/// The composition of a type.
#[derive(Clone, Copy)]
pub enum Composition<'a> {
    /// An elementary or an enumerated type.
    Kind(Kind),
    /// An array.
    Elements(&'a ArrayType),
    /// A structure.
    Fields(&'a [Field]),
    /// A function block of the text.
    Block(&'a [VariableBlock]),
    /// A standard function block.
    Standard(StandardBlock),
    /// It isn't a type.
    Nothing,
}

/// The composition of a declared type that isn't enumerated.
fn of_definition<'a>(definition: &'a TypeDefinition) -> Composition<'a>
    ensures { (text : Declared) (x : VariableType) → composition_view result
        ≡ defined_composition text x (Some (type_definition_view definition.now)) }
{
    match definition {
        TypeDefinition::Array(array) => Composition::Elements(array),
        TypeDefinition::Structure(fields) => Composition::Fields(fields),
        TypeDefinition::Enumeration(_) => Composition::Nothing,
    }
}

/// The composition of an instance of a unit; only function blocks have instances.
fn of_unit<'a>(unit: &'a Unit) -> Composition<'a>
    ensures { composition_view result ≡ instance_parts (own_block_type (Some (unit_view unit.now))) }
{
    match unit.sort {
        UnitSort::Function(_) => Composition::Nothing,
        UnitSort::FunctionBlock => Composition::Block(&unit.blocks),
        UnitSort::Program => Composition::Nothing,
    }
}

impl<'a> Types<'a> {
    /// The types and the units of a text.
    pub fn new(alloc: Global, source: &'a Source) -> Result<Types<'a>, AllocError>
        ensures { IfOk result (λ types. ServesTypes types (declared_in (source_view source.now))) }
    {
        let types = types_in(alloc, source)?;
        Ok(Types {
            names: TextNames::new(alloc, source)?,
            enumerated: EnumeratedNames::new(alloc, &types)?,
        })
    }

    /// The unit of this name.
    pub fn unit_named(&self, name: &Name) -> Option<&'a Unit>
        ensures { (text : Declared) → ServesTypes self.now text
            → option_map (λ u. unit_view u.now) result ≡ unit_named text.units name.now }
    {
        self.names.unit_named(name)
    }

    /// The composition of an instance, by the name of its block.
    fn instance_named(&self, name: &Name) -> Composition<'a>
        ensures { (text : Declared) → ServesTypes self.now text
            → composition_view result ≡ instance_parts (block_type_named text name.now) }
    {
        if let Some(block) = standard_block(name) {
            return Composition::Standard(block);
        }
        match self.names.unit_named(name) {
            Some(unit) => of_unit(unit),
            None => Composition::Nothing,
        }
    }

    /// The composition of a type, by its name.
    pub fn composition_named(&self, name: &Name) -> Composition<'a>
        ensures { (text : Declared) (at : ℕ) → ServesTypes self.now text
            → composition_view result ≡ composition_of text (named_type name.now at) }
    {
        if let Some(kind) = self.enumerated.kind_named(name) {
            return Composition::Kind(kind);
        }
        match self.names.type_named(name) {
            Some(definition) => of_definition(definition),
            None => self.instance_named(name),
        }
    }

    fn composition_of_simple(&self, declared: &'a SimpleType) -> Composition<'a>
        ensures { (text : Declared) → ServesTypes self.now text
            → composition_view result ≡ composition_of text (Simple declared.now) }
    {
        match declared {
            SimpleType::Elementary(kind, _) => Composition::Kind(*kind),
            SimpleType::Named(name) => self.composition_named(&name.name),
        }
    }

    /// The composition of a type.
    pub fn composition_of(&self, declared: PlaceType<'a>) -> Composition<'a>
        ensures { (text : Declared) → ServesTypes self.now text
            → composition_view result ≡ composition_of text (place_type_view declared.entry) }
    {
        match declared {
            PlaceType::Simple(simple) => self.composition_of_simple(simple),
            PlaceType::Array(array) => Composition::Elements(array),
            PlaceType::Standard(kind) => Composition::Kind(kind),
        }
    }
}
