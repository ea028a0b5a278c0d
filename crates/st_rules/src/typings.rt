//! The type of an expression.

use st_types::Kind;

/// The type of an expression.
#[derive(Clone, Copy, Debug, PartialEq, Eq)]
pub enum Typing {
    /// Only of literals without a type: it takes the type that its place expects.
    Untyped,
    /// An elementary or enumerated type.
    Elementary(Kind),
    /// An array, a structure or an instance, none of which has a value as a whole.
    Composite,
    /// An expression with an unknown name has no type, and meets every demand.
    Nothing,
}
