//! Calls of standard functions, whose arguments have known typings.

ghost use Rattle.std.specs.Prelude.{◌≡◌, ◌==◌, ◌∷◌, [], drop};
ghost use Rattle.st_types.specs.Expressions.{no_exprs, expr_then};
ghost use Rattle.st_types.specs.ExpressionViews.{expr_view};
ghost use Rattle.st_rules.specs.declared.reason.Reason.TheVariants.{ArgumentCount};
ghost use Rattle.st_rules.specs.Collecting.{Collects};
ghost use Rattle.st_rules.specs.Faults.{breaking, unless};
ghost use Rattle.st_rules.specs.Environments.{Environment};
ghost use Rattle.st_rules.specs.Nodes.{first_demand};
ghost use Rattle.st_rules.specs.Typings.{typing_of, typing_of_kind, kind_of};
ghost use Rattle.st_meaning.specs.Resolution.{standard_kind};
ghost use Rattle.symbols.specs.Standard.{standard_view};
ghost use Rattle.st_typing.specs.Arguments.{demands_of_inputs, wrong_standard};

use crate::demands::{common_of_three, common_of_two, demands_of_standard, standard_kind};
use crate::operands::{kind_of, typing_of_kind};
use crate::operations::wrong_at;
use st_rules::{BrokenRules, Demand, Purpose, Reason, Sorts, Typing};
use st_types::{Expr, Kind};
use symbols::Standard;

/// The demand of a function of the text, called at a place, on its argument of this number, counted from 0: its input's type.
/// There is no demand on an argument too many.
pub fn demand_of_input(place: usize, inputs: &[Option<Kind>], number: usize) -> Demand
    ensures { result ≡ first_demand (drop number (demands_of_inputs place inputs.now)) }
{
    match inputs.get(number) {
        Some(kind) => Demand::Asked(*kind, Sorts::Any, Purpose::Argument(place)),
        None => Demand::Operand(None),
    }
}

/// Adds too few or too many arguments of a call at a place (C10).
pub fn wrong_count(place: usize, given: usize, taken: usize, broken: &mut BrokenRules)
    ensures { Collects (breaking (ArgumentCount given taken) (unless (given == taken) place)) broken.old broken.new }
{
    broken.add_unless(given == taken, Reason::ArgumentCount(given, taken), place);
}

/// An argument with its typing.
#[derive(Clone, Copy)]
pub struct Typed<'a> {
    pub expression: &'a Expr,
    pub typing: Typing,
}

/// The typing of a call of a standard function at a place with one argument; adds its faults, but for those in parts of the
/// argument that have a type.
pub fn call_of_one(place: usize, called: Standard, only: Typed, broken: &mut BrokenRules) -> Typing
    ensures typing { result ≡ typing_of_kind (standard_kind (standard_view called) (kind_of only.entry.typing ∷ [])) }
    ensures broken { (env : Environment) → only.entry.typing ≡ typing_of env (expr_view only.entry.expression.now)
        → Collects (wrong_standard env place (standard_view called)
        (expr_then (expr_view only.entry.expression.now) no_exprs)) broken.old broken.new }
{
    let common = kind_of(only.typing);
    let demands = demands_of_standard(place, called, common);
    wrong_at(demands.of_argument(0), only.typing, only.expression, broken);
    wrong_count(place, 1, demands.count(), broken);
    typing_of_kind(standard_kind(called, common))
}

/// The same for two arguments.
pub fn call_of_two(
    place: usize,
    called: Standard,
    first: Typed,
    second: Typed,
    broken: &mut BrokenRules,
) -> Typing
    ensures typing { result ≡ typing_of_kind (standard_kind (standard_view called)
        (kind_of first.entry.typing ∷ kind_of second.entry.typing ∷ [])) }
    ensures broken { (env : Environment) → first.entry.typing ≡ typing_of env (expr_view first.entry.expression.now)
        → second.entry.typing ≡ typing_of env (expr_view second.entry.expression.now)
        → Collects (wrong_standard env place (standard_view called) (expr_then (expr_view first.entry.expression.now)
        (expr_then (expr_view second.entry.expression.now) no_exprs))) broken.old broken.new }
{
    let common = common_of_two(called, kind_of(first.typing), kind_of(second.typing));
    let demands = demands_of_standard(place, called, common);
    wrong_at(
        demands.of_argument(0),
        first.typing,
        first.expression,
        broken,
    );
    wrong_at(
        demands.of_argument(1),
        second.typing,
        second.expression,
        broken,
    );
    wrong_count(place, 2, demands.count(), broken);
    typing_of_kind(standard_kind(called, common))
}

/// The same for three arguments.
pub fn call_of_three(
    place: usize,
    called: Standard,
    first: Typed,
    second: Typed,
    third: Typed,
    broken: &mut BrokenRules,
) -> Typing
    ensures typing { result ≡ typing_of_kind (standard_kind (standard_view called)
        (kind_of first.entry.typing ∷ kind_of second.entry.typing ∷ kind_of third.entry.typing ∷ [])) }
    ensures broken { (env : Environment) → first.entry.typing ≡ typing_of env (expr_view first.entry.expression.now)
        → second.entry.typing ≡ typing_of env (expr_view second.entry.expression.now)
        → third.entry.typing ≡ typing_of env (expr_view third.entry.expression.now)
        → Collects (wrong_standard env place (standard_view called) (expr_then (expr_view first.entry.expression.now)
        (expr_then (expr_view second.entry.expression.now) (expr_then (expr_view third.entry.expression.now)
        no_exprs)))) broken.old broken.new }
{
    let common = common_of_three(
        called,
        kind_of(first.typing),
        kind_of(second.typing),
        kind_of(third.typing),
    );
    let demands = demands_of_standard(place, called, common);
    wrong_at(
        demands.of_argument(0),
        first.typing,
        first.expression,
        broken,
    );
    wrong_at(
        demands.of_argument(1),
        second.typing,
        second.expression,
        broken,
    );
    wrong_at(
        demands.of_argument(2),
        third.typing,
        third.expression,
        broken,
    );
    wrong_count(place, 3, demands.count(), broken);
    typing_of_kind(standard_kind(called, common))
}
