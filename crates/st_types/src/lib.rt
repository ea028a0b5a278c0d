//! The language's own types: elementary types and values, names, paths, literals, operators and faults; the trees of a
//! text; rows and activations.
//!
//! A `Value` is always one that its type holds. Nothing here judges a tree, or compares two. The limits that several
//! crates share are in `limits`.
#![tactic(auto)]

mod configuration;
mod data_type;
mod declaration;
mod depth;
mod entry;
mod expression;
mod fault;
mod identifier;
mod initial;
mod kind;
pub mod limits;
mod literal;
mod name;
mod operator;
mod path;
mod source;
mod spacing;
mod statement;
mod tree;
mod unit;
mod value;

pub use configuration::{
    Address, AddressWidth, Configuration, Direction, GlobalBlock, GlobalDeclaration, GlobalNames,
    GlobalQualifier, Instance, Priority, Resource, Task,
};
pub use data_type::{ArrayType, Field, SimpleType, TypeDeclaration, TypeDefinition, VariableType};
pub use declaration::{Declaration, Retention, Section, VariableBlock};
pub use entry::{Activation, Entry, Row};
pub use expression::{Expr, Selector, Variable};
pub use fault::Fault;
pub use identifier::Identifier;
pub use initial::{Initial, InitialElement, InitialMember};
pub use kind::{Kind, KindRow, Sort};
pub use literal::{EnumeratedValue, Literal, Number};
pub use name::Name;
pub use operator::{BinaryOperator, UnaryOperator};
pub use path::{Owner, Path, Step};
pub use source::{LibraryElement, Source};
pub use spacing::is_spaced;
pub use statement::{Argument, Arm, CaseArm, Label, Stmt};
pub use tree::Tree;
pub use unit::{Unit, UnitSort};
pub use value::{Value, is_wide};
