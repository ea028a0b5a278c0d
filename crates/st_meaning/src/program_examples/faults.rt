//! Worked examples of the variables after a fault, each proved by computation.

ghost use Rattle.std.specs.Prelude.{◌≡◌, ◌∷◌, [], pos, false};
ghost use Rattle.st_types.specs.declared.kind.Kind.TheVariants.{Int};
ghost use Rattle.st_types.specs.declared.fault.Fault.TheVariants.{Range, DivisionByZero};
ghost use Rattle.st_types.specs.declared.operator.BinaryOperator.TheVariants.{And, Equal, Divide, Add};
ghost use Rattle.st_types.specs.Expressions.{binary};
ghost use Rattle.st_meaning.specs.ProgramExamples.{outcome_with, after_with, variables, set, number, name, bool_literal, by_0, bool};
ghost use Rattle.st_meaning.specs.ProgramExamples.{int, A, X, Y, Z};

use crate::outcome::Outcome;

/// A fault undoes what the run had assigned: `x := 5; y := y + 1;` with y an INT of 32767, and `y := 10 / d;`.
#[tactic(auto, unfolding(crate::specs::Runs::ran, crate::specs::Runs::ran_where, crate::specs::Runs::outcome_of, crate::specs::Runs::store_after, crate::specs::Runs::units_within))]
pub fn faults()
    ensures leaves_the_type { outcome_with [] (set X (number Int (pos 5)) ∷ set Y (binary Add (name Y)
        (number Int (pos 1))) ∷ []) ((X, int (pos 0)) ∷ (Y, int (pos 32767)) ∷ []) ≡ Outcome.Faulted Range }
    ensures undone { after_with [] (set X (number Int (pos 5)) ∷ set Y (binary Add (name Y) (number Int (pos 1))) ∷ [])
        ((X, int (pos 0)) ∷ (Y, int (pos 32767)) ∷ []) ≡ variables ((X, int (pos 0)) ∷ (Y, int (pos 32767)) ∷ []) }
    ensures by_0 { outcome_with [] (set Y (binary Divide (number Int (pos 10)) (name X)) ∷ [])
        ((X, int (pos 0)) ∷ (Y, int (pos 0)) ∷ []) ≡ Outcome.Faulted DivisionByZero }
    // b := FALSE AND (1 / z = 1);
    ensures and_evaluates_both { outcome_with [] (set X
        (binary And (bool_literal false) (binary Equal (binary Divide (number Int (pos 1)) (name Z)) (number Int (pos 1))))
        ∷ []) ((X, bool false) ∷ (Z, int (pos 0)) ∷ []) ≡ Outcome.Faulted DivisionByZero }
{}
