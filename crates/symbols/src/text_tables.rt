//! The meanings of the names of a text, whatever unit has them.

ghost use Rattle.std.specs.Prelude.{◌≡◌, Some, None, IfOk, map, option_map};
ghost use Rattle.st_types.specs.declared.data_type.SimpleType.TheVariants.{Named};
ghost use Rattle.st_types.specs.declared.data_type.VariableType.TheVariants as types;
ghost use Rattle.st_types.specs.DeclarationViews.{type_declaration_view, type_definition_view};
ghost use Rattle.st_types.specs.UnitViews.{unit_view};
ghost use Rattle.st_meaning.specs.NameTypes.{Declared, definition_of, element_type, member_type, block_variable};
ghost use Rattle.st_meaning.specs.NameTypes.{member_kind, type_named};
ghost use Rattle.st_meaning.specs.Enumerations.{enumerations_of, enumeration_named};
ghost use Rattle.st_rules.specs.Environments.{Environment, callee_of, is_block};
ghost use Rattle.st_rules.specs.Typings.{typing_of_type, typing_of_named};
ghost use Rattle.st_rules.specs.Readings.{reading_of_name, reading_written};
ghost use Rattle.symbols.specs.Enumerated.{reading_view};
ghost use Rattle.symbols.specs.Interfaces.{is_of};
ghost use Rattle.symbols.specs.PlaceTypes.{place_type_view};
ghost use Rattle.symbols.specs.Standard.{block_view};
ghost use Rattle.symbols.specs.Tables.{ServesTables, callee_view, members_on};
ghost use Rattle.symbols.specs.Texts.{ServesText};

use crate::enumerations::{EnumeratedNames, Reading};
use crate::fields::FieldNames;
use crate::interfaces::{Side, Signature, UnitInterfaces};
use crate::place_types::{PlaceType, place_type};
use crate::standard_blocks::{StandardBlock, input_kind, output_kind, standard_block};
use crate::standard_functions::{Standard, standard_function};
use crate::texts::TextNames;
use st_rules::Typing;
use st_types::{
    EnumeratedValue, Identifier, Kind, Name, SimpleType, TypeDeclaration, TypeDefinition, Unit,
};
use std::alloc::{AllocError, Global};

/// A function that may be called.
#[derive(Clone, Copy)]
pub enum Callee<'t> {
    Standard(Standard),
    /// A function of the text.
    Own(&'t Signature),
}

/// The types and units of a text by their names, with their parts.
pub struct TextTables<'a> {
    names: TextNames<'a>,
    enumerated: EnumeratedNames<'a>,
    fields: FieldNames<'a>,
    units: UnitInterfaces<'a>,
}

impl Drop for TextTables<'_> {
    fn drop(self) {
        let Self {
            names: _,
            enumerated: _,
            fields: _,
            units: _,
        } = self;
    }
}

/// The type of the elements of an array; none for another definition.
fn array_of<'a>(definition: &'a TypeDefinition) -> Option<PlaceType<'a>>
    ensures { option_map place_type_view result ≡ element_type (Some (type_definition_view definition.now)) }
{
    match definition {
        TypeDefinition::Array(array) => Some(PlaceType::Simple(&array.element)),
        TypeDefinition::Structure(_) => None,
        TypeDefinition::Enumeration(_) => None,
    }
}

fn standard_member(side: Side, block: StandardBlock, name: &Name) -> Option<Kind>
    ensures { result ≡ member_kind (members_on side (block_view block)) name.now }
{
    match side {
        Side::Input => input_kind(block, name),
        Side::Output => output_kind(block, name),
    }
}

impl<'a> TextTables<'a> {
    /// The tables of a text, from its names, types and units.
    pub fn new(
        alloc: Global,
        names: TextNames<'a>,
        types: &[&'a TypeDeclaration],
        units: &[&'a Unit],
    ) -> Result<TextTables<'a>, AllocError>
        ensures { IfOk result (λ tables. (text : Declared) → ServesText names.entry text
            → map (λ t. type_declaration_view t.now) types.now ≡ text.types
            → map (λ u. unit_view u.now) units.now ≡ text.units → ServesTables tables text) }
    {
        let enumerated = EnumeratedNames::new(alloc, types)?;
        let fields = FieldNames::new(alloc, types)?;
        let units = UnitInterfaces::new(alloc, &enumerated, units)?;
        Ok(TextTables {
            names,
            enumerated,
            fields,
            units,
        })
    }

    /// Whether the name is one of a function block, a standard one or one of the text.
    pub fn is_block(&self, name: &Name) -> bool
        ensures { (text : Declared) → ServesTables self.now text → result ≡ is_block text name.now }
    {
        standard_block(name).is_some() || self.units.is_block(name)
    }

    /// The typing of a type that is named and not enumerated.
    fn typing_of_other(&self, name: &Name) -> Typing
        ensures { (text : Declared) → ServesTables self.now text → result ≡ typing_of_named text name.now None }
    {
        if self.names.type_named(name).is_some() || self.is_block(name) {
            Typing::Composite
        } else {
            Typing::Nothing
        }
    }

    fn typing_of_named(&self, name: &Name) -> Typing
        ensures { (text : Declared) → ServesTables self.now text → result
            ≡ typing_of_named text name.now (enumeration_named (enumerations_of text.types) name.now) }
    {
        match self.enumerated.kind_named(name) {
            Some(kind) => Typing::Elementary(kind),
            None => self.typing_of_other(name),
        }
    }

    /// The typing of a value of a type.
    pub fn typing_of_type(&self, declared: PlaceType) -> Typing
        ensures { (text : Declared) → ServesTables self.now text
            → result ≡ typing_of_type text (Some (place_type_view declared.entry)) }
    {
        match declared {
            PlaceType::Simple(SimpleType::Elementary(kind, _)) => Typing::Elementary(*kind),
            PlaceType::Simple(SimpleType::Named(name)) => self.typing_of_named(&name.name),
            PlaceType::Array(_) => Typing::Composite,
            PlaceType::Standard(kind) => Typing::Elementary(kind),
        }
    }

    /// The meaning of a name alone, as a value.
    pub fn reading_of_name(&self, name: &Name) -> Reading
        ensures { (text : Declared) → ServesTables self.now text
            → reading_view result ≡ reading_of_name text name.now }
    {
        self.enumerated.reading_of_name(name)
    }

    /// The meaning of a value of an enumerated type as it is written.
    pub fn reading_written(&self, value: &EnumeratedValue) -> Reading
        ensures { (text : Declared) → ServesTables self.now text
            → reading_view result ≡ reading_written text value.now }
    {
        self.enumerated.reading_written(value)
    }

    /// The type of the elements of a type; none if it isn't an array.
    pub fn element_type(&self, declared: PlaceType<'a>) -> Option<PlaceType<'a>>
        ensures { (text : Declared) → ServesTables self.now text → option_map place_type_view result
            ≡ element_type (definition_of text (place_type_view declared.entry)) }
    {
        match declared {
            PlaceType::Simple(SimpleType::Elementary(_, _)) => None,
            PlaceType::Simple(SimpleType::Named(name)) => match self.names.type_named(&name.name) {
                Some(definition) => array_of(definition),
                None => None,
            },
            PlaceType::Array(array) => Some(PlaceType::Simple(&array.element)),
            PlaceType::Standard(_) => None,
        }
    }

    /// The type of an input or an output of the block of this name.
    fn variable_of(&self, side: Side, block: &Identifier, name: &Name) -> Option<PlaceType<'a>>
        ensures { (text : Declared) → ServesTables self.now text → option_map place_type_view result
            ≡ block_variable text (members_on side) (is_of side) (types.Simple (Named block.now)) name.now }
    {
        match standard_block(&block.name) {
            Some(standard) => match standard_member(side, standard, name) {
                Some(kind) => Some(PlaceType::Standard(kind)),
                None => None,
            },
            None => match self.units.variable(side, &block.name, name) {
                Some(declared) => Some(place_type(declared)),
                None => None,
            },
        }
    }

    /// The type of an input or an output of an instance.
    pub fn block_variable(
        &self,
        side: Side,
        declared: PlaceType<'a>,
        name: &Name,
    ) -> Option<PlaceType<'a>>
        ensures { (text : Declared) → ServesTables self.now text → option_map place_type_view result
            ≡ block_variable text (members_on side) (is_of side) (place_type_view declared.entry) name.now }
    {
        match declared {
            PlaceType::Simple(SimpleType::Named(block)) => self.variable_of(side, block, name),
            _ => None,
        }
    }

    /// The type of a member of a variable with a named type: a field of a structure, or an output of an instance.
    fn member_of(&self, declared: &Identifier, member: &Name) -> Option<PlaceType<'a>>
        ensures { (text : Declared) → ServesTables self.now text → option_map place_type_view result
            ≡ member_type text (types.Simple (Named declared.now)) member.now
            (type_named text.types declared.now.name) }
    {
        match self.names.type_named(&declared.name) {
            Some(_) => match self.fields.field(&declared.name, member) {
                Some(field) => Some(place_type(field)),
                None => None,
            },
            None => self.variable_of(Side::Output, declared, member),
        }
    }

    /// The type of a member: a field of a structure, or an output of an instance.
    pub fn member_type(&self, declared: PlaceType<'a>, member: &Name) -> Option<PlaceType<'a>>
        ensures { (text : Declared) → ServesTables self.now text → option_map place_type_view result
            ≡ member_type text (place_type_view declared.entry) member.now
            (definition_of text (place_type_view declared.entry)) }
    {
        match declared {
            PlaceType::Simple(SimpleType::Named(name)) => self.member_of(name, member),
            _ => None,
        }
    }

    /// The function of a name, a standard one or one of the text.
    pub fn callee_of(&self, name: &Name) -> Option<Callee<'_>>
        ensures { (env : Environment) → ServesTables self.now env.text
            → option_map callee_view result ≡ callee_of env name.now }
    {
        match standard_function(name) {
            Some(standard) => Some(Callee::Standard(standard)),
            None => match self.units.function(name) {
                Some(signature) => Some(Callee::Own(signature)),
                None => None,
            },
        }
    }
}
