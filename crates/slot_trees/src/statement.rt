//! Statements over slots.

ghost use Rattle.std.specs.Prelude.{◌≡◌, map, option_map};
ghost use Rattle.slot_trees.specs.SlotTrees as tree;
ghost use Rattle.slot_trees.specs.Chains.{stmts_of, arms_of, case_arms_of};
ghost use Rattle.slot_trees.specs.ExpressionViews.{anchor_view, slot_expr_view, place_view};
ghost use Rattle.slot_trees.specs.StatementViews.{block_code_view, slot_argument_view, slot_arm_view};
ghost use Rattle.slot_trees.specs.StatementViews.{slot_case_arm_view, slot_stmt_view};

use crate::expression::{Anchor, Place, SlotExpr};
use st_types::Label;
use symbols::StandardBlock;

/// A block of the text by its number, or a standard one.
#[derive(Clone, Copy, Debug, PartialEq, Eq)]
pub enum BlockCode {
    Own(usize),
    Standard(StandardBlock),
}

/// An argument of a block call; its member has an offset from the first slot of the instance.
pub enum SlotArgument {
    /// An input with its value.
    Given(usize, SlotExpr),
    /// An output with the place that it is copied to.
    Copied(usize, Place),
}

impl Drop for SlotArgument {
    fn drop(self) {
        match self {
            Self::Given(_, _) | Self::Copied(_, _) => {}
        }
    }
}

/// A statement.
#[cycle(slot_statement)]
pub enum SlotStmt {
    Empty,
    Assign(Place, SlotExpr),
    /// A call of a block: the first slot of the instance, the block, the arguments.
    Invoke(Anchor, BlockCode, Vec<SlotArgument>),
    /// IF with its ELSIFs, and the statements after ELSE.
    If(Vec<SlotArm>, Vec<SlotStmt>),
    /// CASE over a selector, and the statements after ELSE.
    Case(SlotExpr, Vec<SlotCaseArm>, Vec<SlotStmt>),
    For {
        /// The slot of the control variable.
        control: Anchor,
        start: SlotExpr,
        limit: SlotExpr,
        /// The expression after BY.
        step: Option<SlotExpr>,
        body: Vec<SlotStmt>,
    },
    While(SlotExpr, Vec<SlotStmt>),
    Repeat(Vec<SlotStmt>, SlotExpr),
    Exit,
    Return,
}

impl Drop for SlotStmt {
    #[cycle(dropped_slot_statement)]
    fn drop(self) {
        match self {
            Self::Empty
            | Self::Assign(_, _)
            | Self::Invoke(_, _, _)
            | Self::If(_, _)
            | Self::Case(_, _, _)
            | Self::For {
                control: _,
                start: _,
                limit: _,
                step: _,
                body: _,
            }
            | Self::While(_, _)
            | Self::Repeat(_, _)
            | Self::Exit
            | Self::Return => {}
        }
    }
}

/// A condition with the statements that it guards.
#[cycle(slot_statement)]
pub struct SlotArm {
    pub condition: SlotExpr,
    pub body: Vec<SlotStmt>,
}

impl Drop for SlotArm {
    #[cycle(dropped_slot_statement)]
    fn drop(self) {
        let Self {
            condition: _,
            body: _,
        } = self;
    }
}

/// The labels of a CASE with their statements.
#[cycle(slot_statement)]
pub struct SlotCaseArm {
    pub labels: Vec<Label>,
    pub body: Vec<SlotStmt>,
}

impl Drop for SlotCaseArm {
    #[cycle(dropped_slot_statement)]
    fn drop(self) {
        let Self { labels: _, body: _ } = self;
    }
}

impl SlotArgument {
    pub fn given(member: usize, value: SlotExpr) -> SlotArgument
        ensures { slot_argument_view result ≡ tree.given member (slot_expr_view value) }
    {
        SlotArgument::Given(member, value)
    }

    pub fn copied(member: usize, target: Place) -> SlotArgument
        ensures { slot_argument_view result ≡ tree.copied member (place_view target) }
    {
        SlotArgument::Copied(member, target)
    }
}

impl SlotArm {
    pub fn new(condition: SlotExpr, body: Vec<SlotStmt>) -> SlotArm
        ensures { slot_arm_view result
            ≡ record { 0 = slot_expr_view condition; 1 = stmts_of (map slot_stmt_view body.items) } }
    {
        SlotArm { condition, body }
    }
}

impl SlotCaseArm {
    pub fn new(labels: Vec<Label>, body: Vec<SlotStmt>) -> SlotCaseArm
        ensures { slot_case_arm_view result
            ≡ record { 0 = labels.items; 1 = stmts_of (map slot_stmt_view body.items) } }
    {
        SlotCaseArm { labels, body }
    }
}

impl SlotStmt {
    pub fn empty() -> SlotStmt
        ensures { slot_stmt_view result ≡ tree.empty }
    {
        SlotStmt::Empty
    }

    pub fn assign(target: Place, value: SlotExpr) -> SlotStmt
        ensures { slot_stmt_view result ≡ tree.assign (place_view target) (slot_expr_view value) }
    {
        SlotStmt::Assign(target, value)
    }

    pub fn invoke(instance: Anchor, block: BlockCode, arguments: Vec<SlotArgument>) -> SlotStmt
        ensures { slot_stmt_view result ≡ tree.invoke (anchor_view instance) (block_code_view block)
            (map slot_argument_view arguments.items) }
    {
        SlotStmt::Invoke(instance, block, arguments)
    }

    #[tactic(auto, using(crate::proofs::Bridge::choose_view))]
    pub fn choose(arms: Vec<SlotArm>, otherwise: Vec<SlotStmt>) -> SlotStmt
        ensures { slot_stmt_view result
            ≡ tree.IF (arms_of (map slot_arm_view arms.items)) (stmts_of (map slot_stmt_view otherwise.items)) }
    {
        SlotStmt::If(arms, otherwise)
    }

    #[tactic(auto, using(crate::proofs::Bridge::select_view))]
    pub fn select(selector: SlotExpr, arms: Vec<SlotCaseArm>, otherwise: Vec<SlotStmt>) -> SlotStmt
        ensures { slot_stmt_view result
            ≡ tree.CASE (slot_expr_view selector) (case_arms_of (map slot_case_arm_view arms.items))
            (stmts_of (map slot_stmt_view otherwise.items)) }
    {
        SlotStmt::Case(selector, arms, otherwise)
    }

    pub fn count(
        control: Anchor,
        start: SlotExpr,
        limit: SlotExpr,
        step: Option<SlotExpr>,
        body: Vec<SlotStmt>,
    ) -> SlotStmt
        ensures { slot_stmt_view result ≡ tree.FOR (anchor_view control) (slot_expr_view start) (slot_expr_view limit)
            (option_map slot_expr_view step) (stmts_of (map slot_stmt_view body.items)) }
    {
        SlotStmt::For {
            control,
            start,
            limit,
            step,
            body,
        }
    }

    pub fn repeat_while(condition: SlotExpr, body: Vec<SlotStmt>) -> SlotStmt
        ensures { slot_stmt_view result
            ≡ tree.WHILE (slot_expr_view condition) (stmts_of (map slot_stmt_view body.items)) }
    {
        SlotStmt::While(condition, body)
    }

    pub fn repeat_until(body: Vec<SlotStmt>, condition: SlotExpr) -> SlotStmt
        ensures { slot_stmt_view result
            ≡ tree.REPEAT (stmts_of (map slot_stmt_view body.items)) (slot_expr_view condition) }
    {
        SlotStmt::Repeat(body, condition)
    }

    pub fn exit() -> SlotStmt
        ensures { slot_stmt_view result ≡ tree.EXIT }
    {
        SlotStmt::Exit
    }

    pub fn leave() -> SlotStmt
        ensures { slot_stmt_view result ≡ tree.RETURN }
    {
        SlotStmt::Return
    }
}
