//! The expressions of statements as one list, each with the demand of its place.

ghost use Rattle.std.specs.Prelude.{◌≡◌, ◌∷◌, ◌++◌, [], map, option_map, IfOk};
ghost use Rattle.std.specs.List.{flat_map};
ghost use Rattle.st_types.specs.ExpressionViews.{expr_view, variable_view, selector_view};
ghost use Rattle.st_types.specs.Statements.{arms_of};
ghost use Rattle.st_types.specs.StatementViews.{argument_view, arm_view, stmt_view};
ghost use Rattle.st_rules.specs.Demands.{condition};
ghost use Rattle.st_rules.specs.Environments.{Environment, input_of};
ghost use Rattle.st_rules.specs.Nodes.{node};
ghost use Rattle.st_rules.specs.Roots.{conditions_of, roots_of, roots_of_argument, roots_of_step, targets_of};
ghost use Rattle.st_rules.specs.Roots.{targets_of_arguments};
ghost use Rattle.symbols.specs.PlaceTypes.{place_type_view};
ghost use Rattle.symbols.specs.Serving.{Serves};
ghost use Rattle.st_check.specs.Listings.{listed_view};
ghost use Rattle.st_check.specs.Roots.{root_view, roots_of_selector, roots_of_target, all_roots};

use crate::listings::Listed;
use crate::selections::type_of_place;
use st_rules::{Demand, Purpose, Sorts};
use st_types::{Argument, Arm, Expr, Kind, Name, Selector, Stmt, Variable};
use st_typing::demand_of_type;
use std::alloc::{AllocError, Global};
use symbols::{PlaceType, Side, UnitNames};

/// An expression with the demand of its place.
#[derive(Clone, Copy)]
pub struct Root<'a> {
    pub demand: Demand,
    pub tree: &'a Expr,
}

fn push_root<'a>(
    roots: &mut Vec<Root<'a>>,
    demand: Demand,
    tree: &'a Expr,
) -> Result<(), AllocError>
    ensures { IfOk result (λ done. map root_view roots.new.items
        ≡ map root_view roots.old.items ++ node demand (expr_view tree.now) ∷ []) }
{
    roots.push(Root { demand, tree })?;
    Ok(())
}

/// The demand of a condition: that it is a BOOL.
fn condition() -> Demand
    ensures { result ≡ condition }
{
    Demand::Asked(Some(Kind::Bool), Sorts::Any, Purpose::Condition)
}

fn push_selector<'a>(roots: &mut Vec<Root<'a>>, selector: &'a Selector) -> Result<(), AllocError>
    ensures { IfOk result (λ done. map root_view roots.new.items
        ≡ map root_view roots.old.items ++ roots_of_selector (selector_view selector.now)) }
{
    match selector {
        Selector::Member(_) => Ok(()),
        Selector::Subscript(subscript) => {
            let demand = Demand::Asked(None, Sorts::Whole, Purpose::Subscript);
            push_root(roots, demand, subscript)
        }
    }
}

/// Appends the subscripts of a variable that is assigned.
fn push_target<'a>(roots: &mut Vec<Root<'a>>, variable: &'a Variable) -> Result<(), AllocError>
    ensures { IfOk result (λ done. map root_view roots.new.items
        ≡ map root_view roots.old.items ++ roots_of_target (variable_view variable.now)) }
{
    for selector in &variable.selectors {
        push_selector(roots, selector)?;
    }
    Ok(())
}

/// The type of an input of an instance.
fn input_of<'a>(names: &UnitNames<'_, 'a>, instance: &Name, name: &Name) -> Option<PlaceType<'a>>
    ensures { (env : Environment) → Serves names.now env
        → option_map place_type_view result ≡ input_of env instance.now name.now }
{
    match names.type_of_name(instance) {
        Some(declared) => names.tables.block_variable(Side::Input, declared, name),
        None => None,
    }
}

/// Appends the value that an input of an instance is given.
fn push_argument<'a>(
    roots: &mut Vec<Root<'a>>,
    names: &UnitNames,
    instance: &Name,
    argument: &'a Argument,
) -> Result<(), AllocError>
    ensures { IfOk result (λ done. (env : Environment) → Serves names.now env
        → map root_view roots.new.items ≡ map root_view roots.old.items
        ++ roots_of_argument env instance.now (argument_view argument.now)) }
{
    match argument {
        Argument::Input(input, value) => {
            let declared = input_of(names, instance, &input.name);
            let purpose = Purpose::Input(input.place);
            push_root(
                roots,
                demand_of_type(names.tables, purpose, declared),
                value,
            )
        }
        Argument::Output(_, _) => Ok(()),
    }
}

fn push_arguments<'a>(
    roots: &mut Vec<Root<'a>>,
    names: &UnitNames,
    instance: &Name,
    arguments: &'a [Argument],
) -> Result<(), AllocError>
    ensures { IfOk result (λ done. (env : Environment) → Serves names.now env
        → map root_view roots.new.items ≡ map root_view roots.old.items
        ++ flat_map (roots_of_argument env instance.now) (map argument_view arguments.now)) }
{
    for argument in arguments {
        push_argument(roots, names, instance, argument)?;
    }
    Ok(())
}

/// Appends the conditions of an IF.
fn push_conditions<'a>(roots: &mut Vec<Root<'a>>, arms: &'a [Arm]) -> Result<(), AllocError>
    ensures { IfOk result (λ done. map root_view roots.new.items
        ≡ map root_view roots.old.items ++ conditions_of (arms_of (map arm_view arms.now))) }
{
    for arm in arms {
        push_root(roots, condition(), &arm.condition)?;
    }
    Ok(())
}

/// Appends the number after BY.
fn push_step<'a>(
    roots: &mut Vec<Root<'a>>,
    demand: Demand,
    step: &'a Option<Expr>,
) -> Result<(), AllocError>
    ensures { IfOk result (λ done. map root_view roots.new.items
        ≡ map root_view roots.old.items ++ roots_of_step demand (option_map expr_view step.now)) }
{
    match step {
        Some(step) => push_root(roots, demand, step),
        None => Ok(()),
    }
}

/// Appends the numbers by which a FOR counts.
fn push_counts<'a>(
    roots: &mut Vec<Root<'a>>,
    demand: Demand,
    start: &'a Expr,
    limit: &'a Expr,
    step: &'a Option<Expr>,
) -> Result<(), AllocError>
    ensures { IfOk result (λ done. map root_view roots.new.items ≡ map root_view roots.old.items
        ++ ((node demand (expr_view start.now) ∷ node demand (expr_view limit.now) ∷ [])
        ++ roots_of_step demand (option_map expr_view step.now))) }
{
    push_root(roots, demand, start)?;
    push_root(roots, demand, limit)?;
    push_step(roots, demand, step)
}

/// Appends the expressions of a statement, not those of the statements inside it.
fn push_own<'a>(
    roots: &mut Vec<Root<'a>>,
    names: &UnitNames,
    statement: &'a Stmt,
) -> Result<(), AllocError>
    ensures { IfOk result (λ done. (env : Environment) → Serves names.now env
        → map root_view roots.new.items ≡ map root_view roots.old.items ++ roots_of env (stmt_view statement.now)) }
{
    match statement {
        Stmt::Assign(variable, value) => {
            let declared = type_of_place(names, variable);
            let purpose = Purpose::Assigned(variable.name.place);
            push_root(
                roots,
                demand_of_type(names.tables, purpose, declared),
                value,
            )
        }
        Stmt::Invoke(instance, arguments) => {
            push_arguments(roots, names, &instance.name, arguments)
        }
        Stmt::If(arms, _) => push_conditions(roots, arms),
        Stmt::Case(selector, _, _) => {
            let demand = Demand::Asked(None, Sorts::Selecting, Purpose::Selector);
            push_root(roots, demand, selector)
        }
        Stmt::For {
            control,
            start,
            limit,
            step,
            body: _,
        } => {
            let declared = names.type_of_name(&control.name);
            let purpose = Purpose::Count(control.place);
            push_counts(
                roots,
                demand_of_type(names.tables, purpose, declared),
                start,
                limit,
                step,
            )
        }
        Stmt::While(repeated, _) => push_root(roots, condition(), repeated),
        Stmt::Repeat(_, repeated) => push_root(roots, condition(), repeated),
        _ => Ok(()),
    }
}

/// Appends the subscripts of the variable to which an output is copied.
fn push_copy<'a>(roots: &mut Vec<Root<'a>>, argument: &'a Argument) -> Result<(), AllocError>
    ensures { IfOk result (λ done. map root_view roots.new.items ≡ map root_view roots.old.items
        ++ flat_map roots_of_target (targets_of_arguments (argument_view argument.now ∷ []))) }
{
    match argument {
        Argument::Input(_, _) => Ok(()),
        Argument::Output(_, variable) => push_target(roots, variable),
    }
}

fn push_copies<'a>(roots: &mut Vec<Root<'a>>, arguments: &'a [Argument]) -> Result<(), AllocError>
    ensures { IfOk result (λ done. map root_view roots.new.items ≡ map root_view roots.old.items
        ++ flat_map roots_of_target (targets_of_arguments (map argument_view arguments.now))) }
{
    for argument in arguments {
        push_copy(roots, argument)?;
    }
    Ok(())
}

/// Appends the subscripts of the variables that a statement assigns.
fn push_targets<'a>(roots: &mut Vec<Root<'a>>, statement: &'a Stmt) -> Result<(), AllocError>
    ensures { IfOk result (λ done. map root_view roots.new.items ≡ map root_view roots.old.items
        ++ flat_map roots_of_target (targets_of (stmt_view statement.now))) }
{
    match statement {
        Stmt::Assign(variable, _) => push_target(roots, variable),
        Stmt::Invoke(_, arguments) => push_copies(roots, arguments),
        _ => Ok(()),
    }
}

fn push_statement<'a>(
    roots: &mut Vec<Root<'a>>,
    names: &UnitNames,
    statement: &'a Stmt,
) -> Result<(), AllocError>
    ensures { IfOk result (λ done. (env : Environment) → Serves names.now env
        → map root_view roots.new.items ≡ map root_view roots.old.items ++ all_roots env (stmt_view statement.now)) }
{
    push_own(roots, names, statement)?;
    push_targets(roots, statement)
}

/// The expressions of statements, and those in the subscripts of the variables that they assign.
pub fn roots_of<'a>(
    alloc: Global,
    names: &UnitNames,
    statements: &[Listed<'a>],
) -> Result<Vec<Root<'a>>, AllocError>
    ensures { IfOk result (λ roots. (env : Environment) → Serves names.now env → map root_view roots.items
        ≡ flat_map (λ l. all_roots env l.statement) (map listed_view statements.now)) }
{
    let mut roots = Vec::new(alloc);
    for listed in statements {
        push_statement(&mut roots, names, listed.statement)?;
    }
    Ok(roots)
}
