//! Why a rule is broken: the types, numbers and places that a person needs, without words.

ghost use Rattle.std.specs.Prelude.{◌≡◌};
ghost use Rattle.st_rules.specs.Reasons.{rule_of};

use crate::demand::Demand;
use crate::rule::Rule;
use crate::typings::Typing;
use st_types::{BinaryOperator, Kind, UnaryOperator};
use thiserror::Error;

/// The type of a variable or of a part of one, as a declaration writes it.
#[derive(Clone, Copy, Debug, PartialEq, Eq)]
pub enum TypeWord {
    Elementary(Kind),
    /// An array without a name.
    Array,
    /// A type or block with a name; the place at which the declaration writes the name.
    Named(usize),
}

/// A side of a block.
#[derive(Clone, Copy, Debug, PartialEq, Eq)]
pub enum BlockSide {
    Input,
    Output,
}

/// The two numbers of a range, as the text writes them: those of an array's bounds or of a label. A label of one number has
/// it twice.
#[derive(Clone, Copy, Debug, PartialEq, Eq)]
pub struct Bounds {
    pub lower: i128,
    pub upper: i128,
}

/// Why a rule is broken at a place. It is shown as the number of its rule. Other places of the text are offsets of first
/// bytes.
#[derive(Clone, Copy, Debug, PartialEq, Eq, Error)]
pub enum Reason {
    /// The scope of the name at the place has nothing of the name that the place takes: no variable, nor a value of an
    /// enumerated type where it is read; no function or instance where it is called; no type or block where a type is named.
    /// The name may be declared as something else.
    #[error("C1")]
    Undeclared,
    /// What is before the name at the place has no member of this name.
    #[error("C1")]
    NoMember(TypeWord),
    /// The name occurs before in its scope, or in the same structure of an initial value; the place of the first.
    #[error("C2")]
    DeclaredBefore(usize),
    /// A standard function or block has the name.
    #[error("C2")]
    StandardName,
    /// A type or unit of the text has the name; the place of its declaration.
    #[error("C2")]
    NameOfUnit(usize),
    /// An expression doesn't meet the demand of its place: the demand, and its type before it takes one.
    #[error("C3")]
    Mismatch(Demand, Typing),
    /// The type of an operator's operand.
    #[error("C3")]
    WrongOperand(UnaryOperator, Typing),
    /// The types of an operator's operands, before they take one.
    #[error("C3")]
    WrongOperands(BinaryOperator, Typing, Typing),
    /// A variable that isn't an array has no elements.
    #[error("C3")]
    NotArray(TypeWord),
    /// Several enumerated types have a value of the name at the place.
    #[error("C3")]
    Ambiguous,
    /// The name of a unit or function stands for no type.
    #[error("C3")]
    NotType,
    /// The name is a function block's, and no instance is allowed there.
    #[error("C3")]
    NoInstanceAllowed,
    /// An input, an output or a result has parts.
    #[error("C3")]
    HasParts,
    /// An instance has an initial value.
    #[error("C3")]
    InstanceWithValue,
    /// A list is given to what isn't an array.
    #[error("C3")]
    ListForOther(TypeWord),
    /// The fields of a structure are given to what isn't one.
    #[error("C3")]
    FieldsForOther(TypeWord),
    /// The callee isn't an instance.
    #[error("C3")]
    NotInstance(TypeWord),
    /// A FOR doesn't count by this: it isn't a VAR of the unit of a whole-number type.
    #[error("C3")]
    NotControl,
    /// The type of the selector, which a label doesn't have, and that of the label.
    #[error("C3")]
    LabelType(Option<Kind>, Kind),
    /// The type that the number at the place doesn't fit in.
    #[error("C4")]
    OutOfRange(Kind),
    /// A PRIORITY over the greatest one.
    #[error("C4")]
    PriorityTooGreat,
    /// The variable is an input of its unit.
    #[error("C5")]
    InputAssigned,
    /// The variable is a constant of its unit.
    #[error("C5")]
    ConstantAssigned,
    /// The variable is an external constant.
    #[error("C5")]
    ExternalConstantAssigned,
    /// A FOR that runs counts by the variable.
    #[error("C5")]
    ControlAssigned,
    /// The variable is a part of an instance.
    #[error("C5")]
    PartOfInstanceAssigned,
    /// The type or unit of the name at the place contains itself.
    #[error("C6")]
    ContainsItself,
    /// The type, block or function of the name, or the array, at the place is over 64 deep.
    #[error("C6")]
    TooDeep,
    /// A label's range is reversed.
    #[error("C7")]
    ReversedLabel(Bounds),
    /// A label overlaps another one: its numbers, the other's numbers and the other's place.
    #[error("C7")]
    Overlap(Bounds, Bounds, usize),
    /// The bounds of an array are reversed or too wide.
    #[error("C8")]
    WrongBounds(Bounds),
    /// How many elements a list has, and its array.
    #[error("C8")]
    LongList(u128, u128),
    /// EXIT is outside a loop.
    #[error("C9")]
    ExitOutsideLoop,
    /// How many arguments a call has, and how many the function takes.
    #[error("C10")]
    ArgumentCount(usize, usize),
    /// An argument of this name was given before.
    #[error("C10")]
    ArgumentGivenBefore,
    /// A block, given by the place at which the text names it, has no input or output of this name.
    #[error("C10")]
    NoSuchArgument(TypeWord, BlockSide),
    /// The name is one of the block's other side.
    #[error("C10")]
    OtherSide(TypeWord, BlockSide),
    /// A global is retained and has an address.
    #[error("C11")]
    RetainedAddress,
    /// It is the name after the last one that an enumerated type may have.
    #[error("C13")]
    SurplusName,
}

impl Reason {
    /// The rule that is broken.
    pub fn rule(self) -> Rule
        ensures { result ≡ rule_of self }
    {
        match self {
            Reason::Undeclared | Reason::NoMember(_) => Rule::UnknownName,
            Reason::DeclaredBefore(_) | Reason::StandardName | Reason::NameOfUnit(_) =>
                Rule::DeclaredTwice,
            Reason::Mismatch(_, _)
            | Reason::WrongOperand(_, _)
            | Reason::WrongOperands(_, _, _)
            | Reason::NotArray(_)
            | Reason::Ambiguous
            | Reason::NotType
            | Reason::NoInstanceAllowed
            | Reason::HasParts
            | Reason::InstanceWithValue
            | Reason::ListForOther(_)
            | Reason::FieldsForOther(_)
            | Reason::NotInstance(_)
            | Reason::NotControl
            | Reason::LabelType(_, _) => Rule::WrongType,
            Reason::OutOfRange(_) | Reason::PriorityTooGreat => Rule::OutOfRange,
            Reason::InputAssigned
            | Reason::ConstantAssigned
            | Reason::ExternalConstantAssigned
            | Reason::ControlAssigned
            | Reason::PartOfInstanceAssigned => Rule::NotAssignable,
            Reason::ContainsItself | Reason::TooDeep => Rule::TooDeep,
            Reason::ReversedLabel(_) | Reason::Overlap(_, _, _) => Rule::WrongLabel,
            Reason::WrongBounds(_) | Reason::LongList(_, _) => Rule::WrongBounds,
            Reason::ExitOutsideLoop => Rule::ExitOutsideLoop,
            Reason::ArgumentCount(_, _)
            | Reason::ArgumentGivenBefore
            | Reason::NoSuchArgument(_, _)
            | Reason::OtherSide(_, _) => Rule::WrongArguments,
            Reason::RetainedAddress => Rule::RetainedAddress,
            Reason::SurplusName => Rule::TooManyNames,
        }
    }
}
