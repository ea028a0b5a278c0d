//! Types.

ghost use Rattle.std.specs.Prelude.{◌≡◌, ◌∷◌, [], option_map};
ghost use Rattle.st_types.specs.declared.limits.TheConstants.{MAX_DEPTH};
ghost use Rattle.st_types.specs.InitialViews.{initial_view};
ghost use Rattle.st_types.specs.DeclarationViews.{field_view, type_definition_view, type_declaration_view};
ghost use Rattle.st_parse.specs.Tokens.{is_name};
ghost use Rattle.st_parse.specs.Parsers.{Reads, as_is, each, one};
ghost use Rattle.st_parse.specs.Types as specs;
ghost use Rattle.st_parse.specs.TypeReading as reading;

use crate::fault::ReadError;
use crate::list::several;
use crate::names::names;
use crate::reader::{read_initial, read_number};
use crate::tokens::{begins, begins_name, keyword, leads, mark, name, refused};
use st_lex::{Keyword, Mark, Token, TokenKind};
use st_types::{
    ArrayType, Field, Identifier, Initial, SimpleType, TypeDeclaration, TypeDefinition,
    VariableType,
};
use std::alloc::Global;

/// `simple = Elementary | Name .`
/// A type that is named by one word.
pub fn simple(alloc: Global, tokens: &[Token]) -> Result<(SimpleType, &[Token]), ReadError>
    ensures { Reads as_is result (one specs.simple tokens.now) }
{
    let [t, rest @ ..] = tokens else {
        return Err(refused(tokens));
    };
    match &t.kind {
        TokenKind::Elementary(kind) => Ok((SimpleType::Elementary(*kind, t.start), rest)),
        TokenKind::Name(found) => {
            let name = Identifier {
                name: found.copied(alloc)?,
                place: t.start,
            };
            Ok((SimpleType::Named(name), rest))
        }
        _ => Err(refused(tokens)),
    }
}

/// `array = "ARRAY", "[", number, "..", number, "]", "OF", simple .`
#[tactic(auto, unfolding(crate::specs::TypeReading::array_at))]
fn array(alloc: Global, tokens: &[Token]) -> Result<(ArrayType, &[Token]), ReadError>
    ensures { Reads as_is result (reading.array_at tokens.now) }
{
    let (place, rest) = keyword(Keyword::Array, tokens)?;
    let (_, rest) = mark(Mark::OpenBracket, rest)?;
    let (lower, rest) = read_number(rest)?;
    let (_, rest) = mark(Mark::Range, rest)?;
    let (upper, rest) = read_number(rest)?;
    let (_, rest) = mark(Mark::CloseBracket, rest)?;
    let (_, rest) = keyword(Keyword::Of, rest)?;
    let (element, rest) = simple(alloc, rest)?;
    let array = ArrayType {
        place,
        lower,
        upper,
        element,
    };
    Ok((array, rest))
}

/// `type = array | simple .`
/// The type of a variable or a field, and the tokens after it.
#[tactic(auto, unfolding(crate::specs::TypeReading::type_at, crate::specs::TypeReading::array_type_at, crate::specs::TypeReading::simple_type_at))]
pub fn variable_type(alloc: Global, tokens: &[Token]) -> Result<(VariableType, &[Token]), ReadError>
    ensures { Reads as_is result (reading.type_at tokens.now) }
{
    if leads(Keyword::Array, tokens) {
        let (found, rest) = array(alloc, tokens)?;
        return Ok((VariableType::Array(found), rest));
    }
    let (found, rest) = simple(alloc, tokens)?;
    Ok((VariableType::Simple(found), rest))
}

/// `given = ":=", initial .`
#[tactic(auto, unfolding(crate::specs::TypeReading::given_at))]
fn given(alloc: Global, tokens: &[Token]) -> Result<(Initial, &[Token]), ReadError>
    ensures { Reads initial_view result (reading.given_at MAX_DEPTH tokens.now) }
{
    let (_, rest) = mark(Mark::Assign, tokens)?;
    read_initial(alloc, rest)
}

/// `given_or_not = [ given ] .`
/// An initial value after `:=`, if there is one, and the tokens after it.
#[tactic(auto, unfolding(crate::specs::TypeReading::given_or_not, crate::specs::Reading::optional))]
pub fn given_or_not(
    alloc: Global,
    tokens: &[Token],
) -> Result<(Option<Initial>, &[Token]), ReadError>
    ensures { Reads (option_map initial_view) result (reading.given_or_not MAX_DEPTH tokens.now) }
{
    if !begins(Mark::Assign, tokens) {
        return Ok((None, tokens));
    }
    let (value, rest) = given(alloc, tokens)?;
    Ok((Some(value), rest))
}

/// `field = name, ":", type, given_or_not, ";" .`
#[tactic(auto, unfolding(crate::specs::TypeReading::field_at))]
fn field(alloc: Global, tokens: &[Token]) -> Result<(Field, &[Token]), ReadError>
    ensures { Reads field_view result (reading.field_at MAX_DEPTH tokens.now) }
{
    let (name, rest) = name(alloc, tokens)?;
    let (_, rest) = mark(Mark::Colon, rest)?;
    let (declared, rest) = variable_type(alloc, rest)?;
    let (initial, rest) = given_or_not(alloc, rest)?;
    let (_, rest) = mark(Mark::Semicolon, rest)?;
    let field = Field {
        name,
        declared,
        initial,
    };
    Ok((field, rest))
}

/// `fields = field, { field } .`
#[tactic(auto, unfolding(crate::specs::TypeReading::fields_at, crate::specs::Reading::at_least_one))]
fn fields(alloc: Global, tokens: &[Token]) -> Result<(Vec<Field>, &[Token]), ReadError>
    ensures { Reads (each field_view) result (reading.fields_at MAX_DEPTH tokens.now) }
{
    let (first, rest) = field(alloc, tokens)?;
    let mut found = Vec::new(alloc);
    found.push(first)?;
    several(
        found,
        rest,
        |tokens| begins_name(tokens),
        |tokens| { field(alloc, tokens) },
    )
}

/// `enumeration = "(", names, ")" .`
#[tactic(auto, unfolding(crate::specs::TypeReading::enumeration_at, crate::specs::UnitReading::names_at))]
fn enumeration(alloc: Global, tokens: &[Token]) -> Result<(TypeDefinition, &[Token]), ReadError>
    ensures { Reads type_definition_view result (reading.enumeration_at tokens.now) }
{
    let (_, rest) = mark(Mark::Open, tokens)?;
    let (names, rest) = names(alloc, rest)?;
    let (_, rest) = mark(Mark::Close, rest)?;
    Ok((TypeDefinition::Enumeration(names), rest))
}

/// `definition = array | enumeration | "STRUCT", fields, "END_STRUCT" .`
#[tactic(auto, unfolding(crate::specs::TypeReading::definition_at, crate::specs::TypeReading::array_definition_at, crate::specs::TypeReading::structure_at))]
fn definition(alloc: Global, tokens: &[Token]) -> Result<(TypeDefinition, &[Token]), ReadError>
    ensures { Reads type_definition_view result (reading.definition_at MAX_DEPTH tokens.now) }
{
    if leads(Keyword::Array, tokens) {
        let (found, rest) = array(alloc, tokens)?;
        return Ok((TypeDefinition::Array(found), rest));
    }
    if begins(Mark::Open, tokens) {
        return enumeration(alloc, tokens);
    }
    let (_, rest) = keyword(Keyword::Struct, tokens)?;
    let (fields, rest) = fields(alloc, rest)?;
    let (_, rest) = keyword(Keyword::EndStruct, rest)?;
    Ok((TypeDefinition::Structure(fields), rest))
}

/// `type_declaration = name, ":", definition, ";" .`
#[tactic(auto, unfolding(crate::specs::TypeReading::type_declaration_at))]
fn type_declaration(
    alloc: Global,
    tokens: &[Token],
) -> Result<(TypeDeclaration, &[Token]), ReadError>
    ensures { Reads type_declaration_view result (reading.type_declaration_at MAX_DEPTH tokens.now) }
{
    let (name, rest) = name(alloc, tokens)?;
    let (_, rest) = mark(Mark::Colon, rest)?;
    let (definition, rest) = definition(alloc, rest)?;
    let (_, rest) = mark(Mark::Semicolon, rest)?;
    Ok((TypeDeclaration { name, definition }, rest))
}

/// `type_declarations = type_declaration, { type_declaration } .`
#[tactic(auto, unfolding(crate::specs::TypeReading::type_declarations_at, crate::specs::Reading::at_least_one))]
fn type_declarations(
    alloc: Global,
    tokens: &[Token],
) -> Result<(Vec<TypeDeclaration>, &[Token]), ReadError>
    ensures { Reads (each type_declaration_view) result (reading.type_declarations_at MAX_DEPTH tokens.now) }
{
    let (first, rest) = type_declaration(alloc, tokens)?;
    let mut found = Vec::new(alloc);
    found.push(first)?;
    several(
        found,
        rest,
        |tokens| begins_name(tokens),
        |tokens| { type_declaration(alloc, tokens) },
    )
}

/// `types = "TYPE", type_declarations, "END_TYPE" .`
/// A block from TYPE to END_TYPE, and the tokens after it.
#[tactic(auto, unfolding(crate::specs::TypeReading::types_at))]
pub fn types(alloc: Global, tokens: &[Token]) -> Result<(Vec<TypeDeclaration>, &[Token]), ReadError>
    ensures { Reads (each type_declaration_view) result (reading.types_at MAX_DEPTH tokens.now) }
{
    let (_, rest) = keyword(Keyword::Type, tokens)?;
    let (found, rest) = type_declarations(alloc, rest)?;
    let (_, rest) = keyword(Keyword::EndType, rest)?;
    Ok((found, rest))
}
