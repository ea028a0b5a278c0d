//! Expressions over slots.

ghost use Rattle.std.specs.Prelude.{◌≡◌, IfOk, map};
ghost use Rattle.slot_trees.specs.SlotTrees as tree;
ghost use Rattle.slot_trees.specs.Chains.{exprs_of, subscripts_of};
ghost use Rattle.slot_trees.specs.ExpressionViews.{anchor_view, slot_expr_view, place_view, subscript_view};
ghost use Rattle.symbols.specs.Standard.{standard_view};

use st_types::{BinaryOperator, Literal, UnaryOperator};
use std::alloc::{AllocError, Global};
use symbols::Standard;

/// A slot: an offset from the first one of the unit's own variables, or a slot of the whole layout.
#[derive(Clone, Copy, Debug, PartialEq, Eq)]
pub enum Anchor {
    Own(usize),
    Absolute(usize),
}

/// An expression.
#[cycle(slot_expression)]
pub enum SlotExpr {
    Constant(Box<Literal>),
    Load(Place),
    /// A standard function with its arguments.
    Compute(Standard, Vec<SlotExpr>),
    /// A function of the text by its number, with its arguments.
    Call(usize, Vec<SlotExpr>),
    Unary(UnaryOperator, Box<SlotExpr>),
    Binary(BinaryOperator, Box<Operands>),
}

impl Drop for SlotExpr {
    #[cycle(dropped_slot_expression)]
    fn drop(self) {
        match self {
            Self::Constant(_)
            | Self::Load(_)
            | Self::Compute(_, _)
            | Self::Call(_, _)
            | Self::Unary(_, _)
            | Self::Binary(_, _) => {}
        }
    }
}

/// Both operands of an operator.
#[cycle(slot_expression)]
pub struct Operands {
    pub left: SlotExpr,
    pub right: SlotExpr,
}

impl Drop for Operands {
    #[cycle(dropped_slot_expression)]
    fn drop(self) {
        let Self { left: _, right: _ } = self;
    }
}

/// An elementary variable: the slot where its array begins, and the subscripts that lead on from there.
#[cycle(slot_expression)]
pub struct Place {
    pub anchor: Anchor,
    pub subscripts: Vec<Subscript>,
}

impl Drop for Place {
    #[cycle(dropped_slot_expression)]
    fn drop(self) {
        let Self {
            anchor: _,
            subscripts: _,
        } = self;
    }
}

/// A subscript with its lower bound, the number of elements, and how many slots an element takes.
#[cycle(slot_expression)]
pub struct Subscript {
    pub index: SlotExpr,
    pub lower: i128,
    pub count: usize,
    pub stride: usize,
}

impl Drop for Subscript {
    #[cycle(dropped_slot_expression)]
    fn drop(self) {
        let Self {
            index: _,
            lower: _,
            count: _,
            stride: _,
        } = self;
    }
}

impl SlotExpr {
    pub fn constant(alloc: Global, literal: Literal) -> Result<SlotExpr, AllocError>
        ensures { IfOk result (λ e. slot_expr_view e ≡ tree.constant literal) }
    {
        Ok(SlotExpr::Constant(Box::new(alloc, literal)?))
    }

    pub fn load(place: Place) -> SlotExpr
        ensures { slot_expr_view result ≡ tree.load (place_view place) }
    {
        SlotExpr::Load(place)
    }

    pub fn compute(function: Standard, arguments: Vec<SlotExpr>) -> SlotExpr
        ensures { slot_expr_view result
            ≡ tree.compute (standard_view function) (exprs_of (map slot_expr_view arguments.items)) }
    {
        SlotExpr::Compute(function, arguments)
    }

    pub fn call(function: usize, arguments: Vec<SlotExpr>) -> SlotExpr
        ensures { slot_expr_view result ≡ tree.call function (exprs_of (map slot_expr_view arguments.items)) }
    {
        SlotExpr::Call(function, arguments)
    }

    pub fn unary(
        alloc: Global,
        operator: UnaryOperator,
        operand: SlotExpr,
    ) -> Result<SlotExpr, AllocError>
        ensures { IfOk result (λ e. slot_expr_view e ≡ tree.unary operator (slot_expr_view operand)) }
    {
        Ok(SlotExpr::Unary(operator, Box::new(alloc, operand)?))
    }

    pub fn binary(
        alloc: Global,
        operator: BinaryOperator,
        left: SlotExpr,
        right: SlotExpr,
    ) -> Result<SlotExpr, AllocError>
        ensures { IfOk result
            (λ e. slot_expr_view e ≡ tree.binary operator (slot_expr_view left) (slot_expr_view right)) }
    {
        Ok(SlotExpr::Binary(operator, Box::new(alloc, Operands { left, right })?))
    }
}

impl Place {
    pub fn new(anchor: Anchor, subscripts: Vec<Subscript>) -> Place
        ensures { place_view result
            ≡ tree.place (anchor_view anchor) (subscripts_of (map subscript_view subscripts.items)) }
    {
        Place { anchor, subscripts }
    }
}
