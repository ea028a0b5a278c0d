//! The arguments and results of standard functions.

ghost use Rattle.std.specs.Prelude.{◌≡◌, ◌∷◌, [], List, Option, drop, length};
ghost use Rattle.st_types.specs.declared.kind.Kind.{Kind};
ghost use Rattle.st_meaning.specs.Resolution.{common_kind, standard_kind};
ghost use Rattle.st_rules.specs.Demands.{demands_of_standard};
ghost use Rattle.st_rules.specs.Nodes.{first_demand};
ghost use Rattle.symbols.specs.Standard.{standard_view};
ghost use Rattle.st_typing.specs.Arguments.{demands_view};

use crate::kinds::or_kind;
use st_rules::{Demand, Purpose, Sorts};
use st_types::Kind;
use symbols::Standard;

/// The demands of a standard function on its arguments, in order.
#[derive(Clone, Copy)]
pub enum Demands {
    One(Demand),
    Two(Demand, Demand),
    Three(Demand, Demand, Demand),
}

/// The demands of a standard function, called at a place, on its arguments, whose operands have this common type.
pub fn demands_of_standard(place: usize, function: Standard, common: Option<Kind>) -> Demands
    ensures { demands_view result ≡ demands_of_standard place (standard_view function) common }
{
    let argument = Purpose::Argument(place);
    match function {
        Standard::Abs => Demands::One(Demand::Asked(None, Sorts::Whole, argument)),
        Standard::Min | Standard::Max => {
            let operand = Demand::Asked(common, Sorts::WholeOrTime, argument);
            Demands::Two(operand, operand)
        }
        Standard::Limit => {
            let operand = Demand::Asked(common, Sorts::WholeOrTime, argument);
            Demands::Three(operand, operand, operand)
        }
        Standard::Sel => {
            let selector = Demand::Asked(Some(Kind::Bool), Sorts::Any, argument);
            let selected = Demand::Asked(common, Sorts::Any, argument);
            Demands::Three(selector, selected, selected)
        }
        Standard::Shl | Standard::Shr | Standard::Rol | Standard::Ror => Demands::Two(
            Demand::Asked(None, Sorts::BitString, argument),
            Demand::Asked(None, Sorts::Whole, argument),
        ),
        Standard::Convert(from, _) => Demands::One(Demand::Asked(Some(from), Sorts::Any, argument)),
    }
}

impl Demands {
    /// How many arguments the function takes.
    pub fn count(self) -> usize
        ensures { result ≡ length (demands_view self) }
    {
        match self {
            Demands::One(_) => 1,
            Demands::Two(_, _) => 2,
            Demands::Three(_, _, _) => 3,
        }
    }

    /// The demand on the argument of this number, counted from 0; there is none on an argument too many.
    pub fn of_argument(self, number: usize) -> Demand
        ensures { result ≡ first_demand (drop number (demands_view self)) }
    {
        match (number, self) {
            (0, Demands::One(first) | Demands::Two(first, _) | Demands::Three(first, _, _)) =>
                first,
            (1, Demands::Two(_, second) | Demands::Three(_, second, _)) => second,
            (2, Demands::Three(_, _, third)) => third,
            _ => Demand::Operand(None),
        }
    }
}

/// The common type of two arguments.
pub fn common_of_two(function: Standard, first: Option<Kind>, second: Option<Kind>) -> Option<Kind>
    ensures { result ≡ common_kind (standard_view function) (first ∷ second ∷ []) }
{
    match function {
        Standard::Min | Standard::Max => or_kind(first, second),
        _ => first,
    }
}

/// The common type of three arguments.
pub fn common_of_three(
    function: Standard,
    first: Option<Kind>,
    second: Option<Kind>,
    third: Option<Kind>,
) -> Option<Kind>
    ensures { result ≡ common_kind (standard_view function) (first ∷ second ∷ third ∷ []) }
{
    match function {
        Standard::Limit => or_kind(first, or_kind(second, third)),
        Standard::Sel => or_kind(second, third),
        _ => first,
    }
}

/// The type that a standard function gives; its operands have this common type.
pub fn standard_kind(function: Standard, common: Option<Kind>) -> Option<Kind>
    ensures { (ks : List (Option Kind)) → common ≡ common_kind (standard_view function) ks
        → result ≡ standard_kind (standard_view function) ks }
{
    match function {
        Standard::Convert(_, to) => Some(to),
        _ => or_kind(common, Some(Kind::Lint)),
    }
}
