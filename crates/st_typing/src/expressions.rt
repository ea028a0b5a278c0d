//! The typing of every expression, and the faults in it.

ghost use Rattle.std.specs.Prelude.{◌≡◌, [], map, drop, option_map, Some};
ghost use Rattle.std.specs.List.{flat_map};
ghost use Rattle.st_types.specs.Expressions.{read, call, exprs_of, selectors_of};
ghost use Rattle.st_types.specs.ExpressionViews.{expr_view, variable_view, selector_view};
ghost use Rattle.st_meaning.specs.NameTypes.{type_after_selectors};
ghost use Rattle.st_meaning.specs.Resolution.{standard_kind};
ghost use Rattle.st_rules.specs.Collecting.{Collects};
ghost use Rattle.st_rules.specs.Environments.{Environment, type_of_place};
ghost use Rattle.st_rules.specs.Nodes.{nodes_of_selector, nodes_of_selectors};
ghost use Rattle.st_rules.specs.Typings.{typing_of, typings_of, typing_of_kind, kinds_of};
ghost use Rattle.st_rules.specs.ExpressionRules.{wrong_expression, wrong_node};
ghost use Rattle.symbols.specs.PlaceTypes.{place_type_view};
ghost use Rattle.symbols.specs.Serving.{Serves};
ghost use Rattle.symbols.specs.Standard.{standard_view};
ghost use Rattle.st_typing.specs.Answers.{Types};
ghost use Rattle.st_typing.specs.Arguments.{demands_of_inputs, demands_view, wrong_arguments, wrong_in_call, wrong_in_standard};
ghost use Rattle.st_typing.specs.Selections.{wrong_in_selectors, wrong_place};

use crate::calls::{Typed, call_of_one, call_of_three, call_of_two, demand_of_input, wrong_count};
use crate::demands::{Demands, demands_of_standard, standard_kind};
use crate::operands::{kind_of, typing_of_kind};
use crate::operations::{negation, operation, wrong_at};
use crate::readings::{typing_of_alone, typing_of_literal};
use crate::selections::{select, typing_of_place};
use st_rules::{Broken, BrokenRules, Demand, Purpose, Reason, Sorts, Typing};
use st_types::{Expr, Identifier, Kind, Selector, Variable};
use symbols::{Callee, PlaceType, Standard, UnitNames};

/// The typing of an expression; adds the faults in its parts that have a type. Those in untyped parts are known with the type
/// that they take.
#[cycle(typing)]
pub fn typing(names: &UnitNames, expression: &Expr, broken: &mut BrokenRules) -> Typing
    ensures { (env : Environment) → Serves names.now env
        → Types env (expr_view expression.now) result broken.old broken.new }
{
    match expression {
        Expr::Literal(literal) => typing_of_literal(names, literal, broken),
        Expr::Variable(variable) => typing_of_read(names, variable, broken),
        Expr::Call(function, arguments) => typing_of_call(names, function, arguments, broken),
        Expr::Parenthesis(_, inner) => typing(names, inner, broken),
        Expr::Unary(operator, place, operand) => {
            let operand_typing = typing(names, operand, broken);
            negation(*operator, *place, operand_typing, broken);
            operand_typing
        }
        Expr::Binary(operator, left, right) => {
            let left_typing = typing(names, left, broken);
            let right_typing = typing(names, right, broken);
            operation(*operator, left, left_typing, right, right_typing, broken)
        }
    }
}

/// Adds the faults in an expression at a place with a demand, and gives its typing.
#[cycle(typing)]
pub fn wrong_expression(
    names: &UnitNames,
    demand: Demand,
    expression: &Expr,
    broken: &mut BrokenRules,
) -> Typing
    ensures typing { (env : Environment) → Serves names.now env → result ≡ typing_of env (expr_view expression.now) }
    ensures broken { (env : Environment) → Serves names.now env
        → Collects (wrong_expression env demand (expr_view expression.now)) broken.old broken.new }
{
    let found = typing(names, expression, broken);
    wrong_at(demand, found, expression, broken);
    found
}

/// Adds the faults in the subscript of a selector.
#[cycle(typing)]
fn wrong_subscript(names: &UnitNames, selector: &Selector, broken: &mut BrokenRules)
    ensures { (env : Environment) → Serves names.now env
        → Collects (flat_map (wrong_node env) (nodes_of_selector env (selector_view selector.now))) broken.old
        broken.new }
{
    if let Selector::Subscript(subscript) = selector {
        let demand = Demand::Asked(None, Sorts::Whole, Purpose::Subscript);
        wrong_expression(names, demand, subscript, broken);
    }
}

/// The type of the part that selectors, step by step, select of a variable at a place; adds their faults.
#[cycle(typing)]
fn select_all<'a>(
    names: &UnitNames<'_, 'a>,
    place: usize,
    declared: PlaceType<'a>,
    selectors: &[Selector],
    broken: &mut BrokenRules,
) -> Option<PlaceType<'a>>
    ensures selected { (env : Environment) → Serves names.now env → option_map place_type_view result
        ≡ type_after_selectors env.text (selectors_of (map selector_view selectors.now))
        (place_type_view declared.entry) }
    ensures broken { (env : Environment) → Serves names.now env
        → Collects (wrong_in_selectors env place (Some (place_type_view declared.entry))
        (selectors_of (map selector_view selectors.now))) broken.old broken.new }
{
    let mut found = Some(declared);
    for selector in selectors {
        wrong_subscript(names, selector, broken);
        found = select(names.tables, place, found, selector, broken);
    }
    found
}

/// The type of the part that a variable selects; adds the variable's faults. A part that depends on an unknown type has none.
#[cycle(typing)]
pub fn place_of<'a>(
    names: &UnitNames<'_, 'a>,
    variable: &Variable,
    broken: &mut BrokenRules,
) -> Option<PlaceType<'a>>
    ensures selected { (env : Environment) → Serves names.now env
        → option_map place_type_view result ≡ type_of_place env (variable_view variable.now) }
    ensures broken { (env : Environment) → Serves names.now env
        → Collects (wrong_place env (variable_view variable.now)) broken.old broken.new }
{
    let place = variable.name.place;
    match names.type_of_name(&variable.name.name) {
        Some(declared) => select_all(names, place, declared, &variable.selectors, broken),
        None => {
            broken.add(Broken {
                reason: Reason::Undeclared,
                place,
            });
            wrong_subscripts(names, &variable.selectors, broken);
            None
        }
    }
}

/// Adds the faults in the subscripts of selectors.
#[cycle(typing)]
fn wrong_subscripts(names: &UnitNames, selectors: &[Selector], broken: &mut BrokenRules)
    ensures { (env : Environment) → Serves names.now env
        → Collects (flat_map (wrong_node env) (nodes_of_selectors env
        (selectors_of (map selector_view selectors.now)))) broken.old broken.new }
{
    for selector in selectors {
        wrong_subscript(names, selector, broken);
    }
}

/// The typing of a variable that is read, or of a value of an enumerated type; adds its faults.
#[cycle(typing)]
fn typing_of_read(names: &UnitNames, variable: &Variable, broken: &mut BrokenRules) -> Typing
    ensures { (env : Environment) → Serves names.now env
        → Types env (read (variable_view variable.now)) result broken.old broken.new }
{
    if variable.selectors.is_empty() {
        return typing_of_alone(names, &variable.name, broken);
    }
    let declared = place_of(names, variable, broken);
    typing_of_place(names.tables, declared)
}

/// Adds the faults in the arguments of a function of the text with these inputs, called at a place, and in their number.
#[cycle(typing)]
fn wrong_arguments(
    names: &UnitNames,
    place: usize,
    inputs: &[Option<Kind>],
    arguments: &[Expr],
    broken: &mut BrokenRules,
)
    ensures { (env : Environment) → Serves names.now env
        → Collects (wrong_in_call env place (demands_of_inputs place inputs.now)
        (exprs_of (map expr_view arguments.now))) broken.old broken.new }
{
    wrong_count(place, arguments.len(), inputs.len(), broken);
    for (number, argument) in arguments.iter().enumerate() {
        let demand = demand_of_input(place, inputs, number);
        wrong_expression(names, demand, argument, broken);
    }
}

/// The typing of a call of a standard function, which takes one argument, two or three; adds its faults.
#[cycle(typing)]
fn call_of_standard(
    names: &UnitNames,
    place: usize,
    called: Standard,
    arguments: &[Expr],
    broken: &mut BrokenRules,
) -> Typing
    ensures typing { (env : Environment) → Serves names.now env
        → result ≡ typing_of_kind (standard_kind (standard_view called)
        (kinds_of (typings_of env (exprs_of (map expr_view arguments.now))))) }
    ensures broken { (env : Environment) → Serves names.now env
        → Collects (wrong_in_standard env place (standard_view called) (exprs_of (map expr_view arguments.now)))
        broken.old broken.new }
{
    match arguments {
        [] => {
            let demands = demands_of_standard(place, called, None);
            wrong_count(place, 0, demands.count(), broken);
            typing_of_kind(standard_kind(called, None))
        }
        [only] => {
            let only = typed(names, only, broken);
            call_of_one(place, called, only, broken)
        }
        [first, second] => {
            let first = typed(names, first, broken);
            let second = typed(names, second, broken);
            call_of_two(place, called, first, second, broken)
        }
        [first, second, third] => {
            let first = typed(names, first, broken);
            let second = typed(names, second, broken);
            let third = typed(names, third, broken);
            call_of_three(place, called, first, second, third, broken)
        }
        [first, ..] => {
            let first = typed(names, first, broken);
            let common = kind_of(first.typing);
            let demands = demands_of_standard(place, called, common);
            wrong_at(
                demands.of_argument(0),
                first.typing,
                first.expression,
                broken,
            );
            for number in 1..arguments.len() {
                let demand = demands.of_argument(number);
                wrong_expression(names, demand, &arguments[number], broken);
            }
            wrong_count(place, arguments.len(), demands.count(), broken);
            typing_of_kind(standard_kind(called, common))
        }
    }
}

/// An argument with its typing; adds the faults in its parts that have a type.
#[cycle(typing)]
fn typed<'a>(names: &UnitNames, expression: &'a Expr, broken: &mut BrokenRules) -> Typed<'a>
    ensures expression { result.expression.now ≡ expression.now }
    ensures typing { (env : Environment) → Serves names.now env
        → Types env (expr_view expression.now) result.typing broken.old broken.new }
{
    Typed {
        expression,
        typing: typing(names, expression, broken),
    }
}

/// The typing of a call of a function; adds its faults.
#[cycle(typing)]
fn typing_of_call(
    names: &UnitNames,
    function: &Identifier,
    arguments: &[Expr],
    broken: &mut BrokenRules,
) -> Typing
    ensures { (env : Environment) → Serves names.now env
        → Types env (call function.now (exprs_of (map expr_view arguments.now))) result broken.old broken.new }
{
    let place = function.place;
    match names.tables.callee_of(&function.name) {
        Some(Callee::Standard(called)) => call_of_standard(names, place, called, arguments, broken),
        Some(Callee::Own(signature)) => {
            wrong_arguments(names, place, &signature.inputs, arguments, broken);
            typing_of_kind(signature.result)
        }
        None => {
            broken.add(Broken {
                reason: Reason::Undeclared,
                place,
            });
            wrong_arguments_of_unknown(names, arguments, broken);
            Typing::Nothing
        }
    }
}

/// Adds the faults in the arguments of an unknown function, on which there is no demand.
#[cycle(typing)]
fn wrong_arguments_of_unknown(names: &UnitNames, arguments: &[Expr], broken: &mut BrokenRules)
    ensures { (env : Environment) → Serves names.now env
        → Collects (wrong_arguments env [] (exprs_of (map expr_view arguments.now))) broken.old broken.new }
{
    for argument in arguments {
        wrong_expression(names, Demand::Operand(None), argument, broken);
    }
}
