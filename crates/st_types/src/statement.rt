//! Statements.

ghost use Rattle.std.specs.Prelude.{◌≡◌, map, option_map};
ghost use Rattle.st_types.specs.Statements as tree;
ghost use Rattle.st_types.specs.Statements.{stmts_of, arms_of, case_arms_of};
ghost use Rattle.st_types.specs.ExpressionViews.{expr_view, variable_view};
ghost use Rattle.st_types.specs.StatementViews.{argument_view, arm_view, case_arm_view, stmt_view};

use crate::expression::{Expr, Variable};
use crate::identifier::Identifier;
use crate::literal::{EnumeratedValue, Number};
use crate::tree::Tree;

/// A statement of a body, without its semicolon.
#[cycle(statement)]
pub enum Stmt {
    Empty,
    Assign(Variable, Expr),
    /// A call of a block's instance.
    Invoke(Identifier, Vec<Argument>),
    /// IF with its ELSIFs, and the statements after ELSE.
    If(Vec<Arm>, Vec<Stmt>),
    /// CASE over a selector, and the statements after ELSE.
    Case(Expr, Vec<CaseArm>, Vec<Stmt>),
    For {
        control: Identifier,
        start: Expr,
        limit: Expr,
        /// The expression after BY.
        step: Option<Expr>,
        body: Vec<Stmt>,
    },
    While(Expr, Vec<Stmt>),
    Repeat(Vec<Stmt>, Expr),
    /// EXIT at a place.
    Exit(usize),
    Return,
}

impl Drop for Stmt {
    #[cycle(dropped_statement)]
    fn drop(self) {
        match self {
            Self::Empty
            | Self::Assign(_, _)
            | Self::Invoke(_, _)
            | Self::If(_, _)
            | Self::Case(_, _, _)
            | Self::For {
                control: _,
                start: _,
                limit: _,
                step: _,
                body: _,
            }
            | Self::While(_, _)
            | Self::Repeat(_, _)
            | Self::Exit(_)
            | Self::Return => {}
        }
    }
}

/// A condition with the statements that it guards.
#[cycle(statement)]
pub struct Arm {
    pub condition: Expr,
    pub body: Vec<Stmt>,
}

impl Drop for Arm {
    #[cycle(dropped_statement)]
    fn drop(self) {
        let Self {
            condition: _,
            body: _,
        } = self;
    }
}

/// The labels of a CASE with their statements.
#[cycle(statement)]
pub struct CaseArm {
    pub labels: Vec<Label>,
    pub body: Vec<Stmt>,
}

impl Drop for CaseArm {
    #[cycle(dropped_statement)]
    fn drop(self) {
        let Self { labels: _, body: _ } = self;
    }
}

/// A label of a CASE.
pub enum Label {
    Single(Number),
    /// A least and a greatest number.
    Range(Number, Number),
    Enumerated(EnumeratedValue),
}

impl Drop for Label {
    fn drop(self) {
        match self {
            Self::Single(_) | Self::Range(_, _) | Self::Enumerated(_) => {}
        }
    }
}

/// An argument of a block call.
pub enum Argument {
    /// An input that is given a value.
    Input(Identifier, Expr),
    /// An output that is copied to a variable.
    Output(Identifier, Variable),
}

impl Drop for Argument {
    fn drop(self) {
        match self {
            Self::Input(_, _) | Self::Output(_, _) => {}
        }
    }
}

impl Argument {
    pub fn input(input: Identifier, value: Expr) -> Argument
        ensures { argument_view result ≡ tree.given input (expr_view value) }
    {
        Argument::Input(input, value)
    }

    pub fn output(output: Identifier, target: Variable) -> Argument
        ensures { argument_view result ≡ tree.copied output (variable_view target) }
    {
        Argument::Output(output, target)
    }
}

impl Stmt {
    pub fn empty() -> Stmt
        ensures { stmt_view result ≡ tree.empty }
    {
        Stmt::Empty
    }

    pub fn assign(target: Variable, value: Expr) -> Stmt
        ensures { stmt_view result ≡ tree.assign (variable_view target) (expr_view value) }
    {
        Stmt::Assign(target, value)
    }

    pub fn invoke(instance: Identifier, arguments: Vec<Argument>) -> Stmt
        ensures { stmt_view result ≡ tree.invoke instance (map argument_view arguments.items) }
    {
        Stmt::Invoke(instance, arguments)
    }

    #[tactic(auto, using(crate::proofs::Bridge::choose_view))]
    pub fn choose(arms: Vec<Arm>, otherwise: Vec<Stmt>) -> Stmt
        ensures { stmt_view result
            ≡ tree.IF (arms_of (map arm_view arms.items)) (stmts_of (map stmt_view otherwise.items)) }
    {
        Stmt::If(arms, otherwise)
    }

    #[tactic(auto, using(crate::proofs::Bridge::select_view))]
    pub fn select(selector: Expr, arms: Vec<CaseArm>, otherwise: Vec<Stmt>) -> Stmt
        ensures { stmt_view result ≡ tree.CASE (expr_view selector) (case_arms_of (map case_arm_view arms.items))
            (stmts_of (map stmt_view otherwise.items)) }
    {
        Stmt::Case(selector, arms, otherwise)
    }

    pub fn count(
        control: Identifier,
        start: Expr,
        limit: Expr,
        step: Option<Expr>,
        body: Vec<Stmt>,
    ) -> Stmt
        ensures { stmt_view result ≡ tree.FOR control (expr_view start) (expr_view limit) (option_map expr_view step)
            (stmts_of (map stmt_view body.items)) }
    {
        Stmt::For {
            control,
            start,
            limit,
            step,
            body,
        }
    }

    pub fn repeat_while(condition: Expr, body: Vec<Stmt>) -> Stmt
        ensures { stmt_view result ≡ tree.WHILE (expr_view condition) (stmts_of (map stmt_view body.items)) }
    {
        Stmt::While(condition, body)
    }

    pub fn repeat_until(body: Vec<Stmt>, condition: Expr) -> Stmt
        ensures { stmt_view result ≡ tree.REPEAT (stmts_of (map stmt_view body.items)) (expr_view condition) }
    {
        Stmt::Repeat(body, condition)
    }

    pub fn exit(place: usize) -> Stmt
        ensures { stmt_view result ≡ tree.EXIT place }
    {
        Stmt::Exit(place)
    }

    pub fn leave() -> Stmt
        ensures { stmt_view result ≡ tree.RETURN }
    {
        Stmt::Return
    }
}

impl Tree for Label {
    ghost use Rattle.st_types.specs.declared.statement.Label.{Label};

    ghost Mirror = { Label };

    ghost view = { λ x. x };
}

impl Tree for Argument {
    ghost use Rattle.st_types.specs.Statements as tree;
    ghost use Rattle.st_types.specs.StatementViews.{argument_view};

    ghost Mirror = { tree.Argument };

    ghost view = { argument_view };
}

impl Tree for Stmt {
    ghost use Rattle.st_types.specs.Statements as tree;
    ghost use Rattle.st_types.specs.StatementViews.{stmt_view};

    ghost Mirror = { tree.Stmt };

    ghost view = { stmt_view };
}

impl Tree for Arm {
    ghost use Rattle.st_types.specs.Statements as tree;
    ghost use Rattle.st_types.specs.StatementViews.{arm_view};

    ghost Mirror = { tree.Arm };

    ghost view = { arm_view };
}

impl Tree for CaseArm {
    ghost use Rattle.st_types.specs.Statements as tree;
    ghost use Rattle.st_types.specs.StatementViews.{case_arm_view};

    ghost Mirror = { tree.CaseArm };

    ghost view = { case_arm_view };
}
