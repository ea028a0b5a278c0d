//! How deep a tree is. The grammar allows 64.
//!
//! A leaf has depth 1, and a node is one deeper than the deepest of its parts. Each call answers at most `usize::MAX`.

ghost use Rattle.std.specs.Prelude.{◌≡◌, ◌+◌, min, map, option_map};
ghost use Rattle.st_types.specs.Expressions.{exprs_of, selectors_of};
ghost use Rattle.st_types.specs.ExpressionViews.{expr_view, variable_view, selector_view};
ghost use Rattle.st_types.specs.Statements.{stmts_of, arms_of, case_arms_of};
ghost use Rattle.st_types.specs.StatementViews.{stmt_view, argument_view, arm_view, case_arm_view};
ghost use Rattle.st_types.specs.Initials.{elements_of, members_of};
ghost use Rattle.st_types.specs.InitialViews.{initial_view, element_view, member_view};
ghost use Rattle.st_types.specs.Depths.{depth_of, deepest, depth_of_variable, deepest_subscript, depth_of_argument};
ghost use Rattle.st_types.specs.Depths.{deepest_argument, depth_of_step, depth_of_stmt, deepest_stmt, deepest_arm};
ghost use Rattle.st_types.specs.Depths.{deepest_case_arm, depth_of_initial, depth_of_element, deepest_element};
ghost use Rattle.st_types.specs.Depths.{deepest_member};

use crate::expression::{Expr, Selector, Variable};
use crate::initial::{Initial, InitialElement, InitialMember};
use crate::statement::{Argument, Arm, CaseArm, Stmt};

fn one_more(depth: usize) -> usize
    ensures { result ≡ min (depth + 1) usize.MAX }
{
    depth.saturating_add(1)
}

#[cycle(expression_depth)]
fn expression_depth(expression: &Expr) -> usize
    ensures { result ≡ min (depth_of (expr_view expression.now)) usize.MAX }
{
    match expression {
        Expr::Literal(_) => 1,
        Expr::Variable(variable) => variable_depth(variable),
        Expr::Call(_, arguments) => one_more(deepest_expression(arguments)),
        Expr::Parenthesis(_, inner) => one_more(expression_depth(inner)),
        Expr::Unary(_, _, operand) => one_more(expression_depth(operand)),
        Expr::Binary(_, left, right) => {
            one_more(expression_depth(left).max(expression_depth(right)))
        }
    }
}

#[cycle(expression_depth)]
fn deepest_expression(expressions: &[Expr]) -> usize
    ensures { result ≡ min (deepest (exprs_of (map expr_view expressions.now))) usize.MAX }
{
    let mut depth = 0;
    for expression in expressions {
        depth = depth.max(expression_depth(expression));
    }
    depth
}

#[cycle(expression_depth)]
fn variable_depth(variable: &Variable) -> usize
    ensures { result ≡ min (depth_of_variable (variable_view variable.now)) usize.MAX }
{
    one_more(subscript_depth(&variable.selectors))
}

#[cycle(expression_depth)]
fn subscript_depth(selectors: &[Selector]) -> usize
    ensures { result ≡ min (deepest_subscript (selectors_of (map selector_view selectors.now))) usize.MAX }
{
    let mut depth = 0;
    for selector in selectors {
        if let Selector::Subscript(subscript) = selector {
            depth = depth.max(expression_depth(subscript));
        }
    }
    depth
}

fn argument_depth(arguments: &[Argument]) -> usize
    ensures { result ≡ min (deepest_argument (map argument_view arguments.now)) usize.MAX }
{
    let mut depth = 0;
    for argument in arguments {
        let part = match argument {
            Argument::Input(_, value) => value.depth(),
            Argument::Output(_, target) => target.depth(),
        };
        depth = depth.max(part);
    }
    depth
}

fn step_depth(step: &Option<Expr>) -> usize
    ensures { result ≡ min (depth_of_step (option_map expr_view step.now)) usize.MAX }
{
    match step {
        Some(step) => step.depth(),
        None => 0,
    }
}

#[cycle(statement_depth)]
#[tactic(auto, using(crate::proofs::Bridge::choose_view, crate::proofs::Bridge::select_view))]
fn statement_depth(statement: &Stmt) -> usize
    ensures { result ≡ min (depth_of_stmt (stmt_view statement.now)) usize.MAX }
{
    match statement {
        Stmt::Empty | Stmt::Exit(_) | Stmt::Return => 1,
        Stmt::Assign(target, value) => one_more(target.depth().max(value.depth())),
        Stmt::Invoke(_, arguments) => one_more(argument_depth(arguments)),
        Stmt::If(arms, otherwise) => one_more(arm_depth(arms).max(list_depth(otherwise))),
        Stmt::Case(selector, arms, otherwise) => {
            let lists = case_arm_depth(arms).max(list_depth(otherwise));
            one_more(selector.depth().max(lists))
        }
        Stmt::For {
            control: _,
            start,
            limit,
            step,
            body,
        } => {
            let ends = start.depth().max(limit.depth());
            let turns = step_depth(step).max(list_depth(body));
            one_more(ends.max(turns))
        }
        Stmt::While(condition, body) => one_more(condition.depth().max(list_depth(body))),
        Stmt::Repeat(body, condition) => one_more(list_depth(body).max(condition.depth())),
    }
}

#[cycle(statement_depth)]
fn list_depth(statements: &[Stmt]) -> usize
    ensures { result ≡ min (deepest_stmt (stmts_of (map stmt_view statements.now))) usize.MAX }
{
    let mut depth = 0;
    for statement in statements {
        depth = depth.max(statement_depth(statement));
    }
    depth
}

#[cycle(statement_depth)]
fn arm_depth(arms: &[Arm]) -> usize
    ensures { result ≡ min (deepest_arm (arms_of (map arm_view arms.now))) usize.MAX }
{
    let mut depth = 0;
    for arm in arms {
        depth = depth.max(arm.condition.depth().max(list_depth(&arm.body)));
    }
    depth
}

#[cycle(statement_depth)]
fn case_arm_depth(arms: &[CaseArm]) -> usize
    ensures { result ≡ min (deepest_case_arm (case_arms_of (map case_arm_view arms.now))) usize.MAX }
{
    let mut depth = 0;
    for arm in arms {
        depth = depth.max(list_depth(&arm.body));
    }
    depth
}

#[cycle(initial_depth)]
#[tactic(auto, using(crate::proofs::Bridge::structure_view))]
fn initial_depth(initial: &Initial) -> usize
    ensures { result ≡ min (depth_of_initial (initial_view initial.now)) usize.MAX }
{
    match initial {
        Initial::Constant(_) => 1,
        Initial::List(_, elements) => one_more(deepest_element(elements)),
        Initial::Structure(_, members) => one_more(deepest_member(members)),
    }
}

#[cycle(initial_depth)]
fn element_depth(element: &InitialElement) -> usize
    ensures { result ≡ min (depth_of_element (element_view element.now)) usize.MAX }
{
    match element {
        InitialElement::Single(value) => initial_depth(value),
        InitialElement::Repeated(_, value) => initial_depth(value),
        InitialElement::Defaults(_) => 1,
    }
}

#[cycle(initial_depth)]
fn deepest_element(elements: &[InitialElement]) -> usize
    ensures { result ≡ min (deepest_element (elements_of (map element_view elements.now))) usize.MAX }
{
    let mut depth = 0;
    for element in elements {
        depth = depth.max(element_depth(element));
    }
    depth
}

#[cycle(initial_depth)]
fn deepest_member(members: &[InitialMember]) -> usize
    ensures { result ≡ min (deepest_member (members_of (map member_view members.now))) usize.MAX }
{
    let mut depth = 0;
    for member in members {
        depth = depth.max(initial_depth(&member.value));
    }
    depth
}

impl Expr {
    /// The depth of the expression.
    pub fn depth(&self) -> usize
        ensures { result ≡ min (depth_of (expr_view self.now)) usize.MAX }
    {
        expression_depth(self)
    }
}

impl Variable {
    /// The depth of the variable: one more than that of its deepest subscript.
    pub fn depth(&self) -> usize
        ensures { result ≡ min (depth_of_variable (variable_view self.now)) usize.MAX }
    {
        variable_depth(self)
    }
}

impl Stmt {
    /// The depth of the statement.
    pub fn depth(&self) -> usize
        ensures { result ≡ min (depth_of_stmt (stmt_view self.now)) usize.MAX }
    {
        statement_depth(self)
    }
}

impl Initial {
    /// The depth of the initial value.
    pub fn depth(&self) -> usize
        ensures { result ≡ min (depth_of_initial (initial_view self.now)) usize.MAX }
    {
        initial_depth(self)
    }
}
