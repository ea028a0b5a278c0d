//! The demands of places on the types of expressions.

use st_types::Kind;

/// A set of elementary types.
#[derive(Clone, Copy, Debug, PartialEq, Eq)]
pub enum Sorts {
    Any,
    /// Whole numbers.
    Whole,
    /// Whole numbers and enumerated types: the types of a CASE's selector.
    Selecting,
    WholeOrTime,
    /// Whole numbers with a sign.
    WithSign,
    BitString,
    TruthOrBits,
    /// All except BOOL and enumerated types.
    Ordered,
    /// None: a variable that has parts takes no value.
    NoSort,
}

/// The use of an expression or a variable, for which its place has a demand. Names are given by their places in the text.
#[derive(Clone, Copy, Debug, PartialEq, Eq)]
pub enum Purpose {
    /// The variable that begins at this place is assigned it.
    Assigned(usize),
    /// A variable or a part of one has it as its initial value.
    Initial,
    /// It decides an IF, a WHILE or a REPEAT.
    Condition,
    /// A CASE selects by it.
    Selector,
    /// A FOR, whose control variable is at this place, counts from it, to it or by it.
    Count(usize),
    /// It selects an element of an array.
    Subscript,
    /// It is an argument of the function whose name is at this place.
    Argument(usize),
    /// The input whose name is at this place is given it.
    Input(usize),
    /// The output whose name is at this place is copied to it.
    Output(usize),
}

/// The demand of a place.
#[derive(Clone, Copy, Debug, PartialEq, Eq)]
pub enum Demand {
    /// An operand, which its operator judges; an untyped one is offered the type.
    Operand(Option<Kind>),
    /// This type, if one is expected, of these sorts, for this use.
    Asked(Option<Kind>, Sorts, Purpose),
}
