//! Literals of numbers.

ghost use Rattle.std.specs.Prelude.{◌≡◌};
ghost use Rattle.st_types.specs.Kinds.{holds};
ghost use Rattle.st_meaning.specs.Operators.{number_of};
ghost use Rattle.st_meaning.specs.Resolution.{is_untyped_literal};
ghost use Rattle.st_rules.specs.Collecting.{Collects};
ghost use Rattle.st_rules.specs.ExpressionRules.{wrong_number};

use crate::kinds::kind_or_taken;
use st_meaning::number_of;
use st_rules::{BrokenRules, Reason};
use st_types::{Kind, Literal, Number};

/// Whether the literal has no type of its own.
pub fn is_untyped_literal(literal: &Literal) -> bool
    ensures { result ≡ is_untyped_literal literal.now }
{
    match literal {
        Literal::Number(number) => number.written.is_none(),
        _ => false,
    }
}

/// Whether the type has the literal's number.
fn holds(kind: Kind, number: &Number) -> bool
    ensures { result ≡ holds kind (number_of number.now) }
{
    let value = number_of(number);
    kind.least() <= value && value <= kind.greatest()
}

/// Adds a number outside the type that is written, or outside the one that it takes if one is expected (C4).
pub fn wrong_number(offered: Option<Kind>, number: &Number, broken: &mut BrokenRules)
    ensures { Collects (wrong_number offered number.now) broken.old broken.new }
{
    let kind = kind_or_taken(offered, number.written);
    broken.add_unless(holds(kind, number), Reason::OutOfRange(kind), number.place);
}
