//! Types as a text names and declares them.

use crate::identifier::Identifier;
use crate::initial::Initial;
use crate::kind::Kind;
use crate::literal::Number;
use crate::tree::Tree;

/// A type that is named by one word, at its place.
pub enum SimpleType {
    Elementary(Kind, usize),
    /// A declared type, or a block.
    Named(Identifier),
}

impl Drop for SimpleType {
    fn drop(self) {
        match self {
            Self::Elementary(_, _) | Self::Named(_) => {}
        }
    }
}

/// The type of an array.
pub struct ArrayType {
    /// The offset of the word ARRAY.
    pub place: usize,
    pub lower: Number,
    pub upper: Number,
    pub element: SimpleType,
}

impl Drop for ArrayType {
    fn drop(self) {
        let Self {
            place: _,
            lower: _,
            upper: _,
            element: _,
        } = self;
    }
}

/// A type where a variable or a field is declared.
pub enum VariableType {
    Simple(SimpleType),
    Array(ArrayType),
}

impl Drop for VariableType {
    fn drop(self) {
        match self {
            Self::Simple(_) | Self::Array(_) => {}
        }
    }
}

/// A field of a structure.
pub struct Field {
    pub name: Identifier,
    pub declared: VariableType,
    pub initial: Option<Initial>,
}

impl Drop for Field {
    fn drop(self) {
        let Self {
            name: _,
            declared: _,
            initial: _,
        } = self;
    }
}

/// The definition of a type.
pub enum TypeDefinition {
    Array(ArrayType),
    Structure(Vec<Field>),
    /// The names of an enumerated type, in order.
    Enumeration(Vec<Identifier>),
}

impl Drop for TypeDefinition {
    fn drop(self) {
        match self {
            Self::Array(_) | Self::Structure(_) | Self::Enumeration(_) => {}
        }
    }
}

/// A declaration of a type.
pub struct TypeDeclaration {
    pub name: Identifier,
    pub definition: TypeDefinition,
}

impl Drop for TypeDeclaration {
    fn drop(self) {
        let Self {
            name: _,
            definition: _,
        } = self;
    }
}

impl Tree for SimpleType {
    ghost use Rattle.st_types.specs.declared.data_type.SimpleType.{SimpleType};

    ghost Mirror = { SimpleType };

    ghost view = { λ x. x };
}

impl Tree for ArrayType {
    ghost use Rattle.st_types.specs.declared.data_type.ArrayType.{ArrayType};

    ghost Mirror = { ArrayType };

    ghost view = { λ x. x };
}

impl Tree for VariableType {
    ghost use Rattle.st_types.specs.declared.data_type.VariableType.{VariableType};

    ghost Mirror = { VariableType };

    ghost view = { λ x. x };
}

impl Tree for Field {
    ghost use Rattle.st_types.specs.Declarations as tree;
    ghost use Rattle.st_types.specs.DeclarationViews.{field_view};

    ghost Mirror = { tree.Field };

    ghost view = { field_view };
}

impl Tree for TypeDeclaration {
    ghost use Rattle.st_types.specs.Declarations as tree;
    ghost use Rattle.st_types.specs.DeclarationViews.{type_declaration_view};

    ghost Mirror = { tree.TypeDeclaration };

    ghost view = { type_declaration_view };
}

impl Tree for TypeDefinition {
    ghost use Rattle.st_types.specs.Declarations as tree;
    ghost use Rattle.st_types.specs.DeclarationViews.{type_definition_view};

    ghost Mirror = { tree.TypeDefinition };

    ghost view = { type_definition_view };
}
