//! Worked examples of elements and members, each proved by computation.

ghost use Rattle.std.specs.Prelude.{◌≡◌, ◌∷◌, [], pos, codes};
ghost use Rattle.st_types.specs.declared.fault.Fault.TheVariants.{Index, DivisionByZero};
ghost use Rattle.st_types.specs.declared.kind.Kind.TheVariants.{Int};
ghost use Rattle.st_types.specs.declared.operator.BinaryOperator.TheVariants.{Add, Divide};
ghost use Rattle.st_types.specs.Expressions.{binary, read, variable, subscript, member, selectors_of};
ghost use Rattle.st_types.specs.Statements.{assign};
ghost use Rattle.st_meaning.specs.Scopes.{member_at};
ghost use Rattle.st_meaning.specs.Runs.{outcome_of, store_after};
ghost use Rattle.st_meaning.specs.ProgramExamples.{program, number, identifier, int, A, I};
ghost use Rattle.st_meaning.specs.CallExamples.{indexed, dotted, own_member, own_element};

use crate::outcome::Outcome;

/// A member of a structure is a variable of its own, also in an array of structures. A subscript that is out of bounds is
/// F3, before the parts after it are evaluated.
#[tactic(auto, unfolding(crate::specs::Runs::ran, crate::specs::Runs::ran_where, crate::specs::Runs::outcome_of, crate::specs::Runs::store_after, crate::specs::Runs::units_within))]
pub fn parts_of_variables()
    // i.u := i.v + 1; with i.v = 5
    ensures members { store_after (program [] (assign (dotted I (codes "U"))
        (binary Add (read (dotted I (codes "V"))) (number Int (pos 1))) ∷ [])) 1
        ((own_member I (codes "U"), int (pos 0)) ∷ (own_member I (codes "V"), int (pos 5)) ∷ []) [] 0
        ≡ (own_member I (codes "U"), int (pos 6)) ∷ (own_member I (codes "V"), int (pos 5)) ∷ [] }
    // a[1].u := 4;
    ensures member_of_an_element { store_after (program [] (assign (variable (identifier A)
        (selectors_of (subscript (number Int (pos 1)) ∷ member (identifier (codes "U")) ∷ []))) (number Int (pos 4))
        ∷ [])) 1 ((member_at (own_element A (pos 0)) (codes "U"), int (pos 0))
        ∷ (member_at (own_element A (pos 1)) (codes "U"), int (pos 0)) ∷ []) [] 0
        ≡ (member_at (own_element A (pos 0)) (codes "U"), int (pos 0)) ∷ (
          member_at (own_element A (pos 1)) (codes "U"),
          int (pos 4),
        ) ∷ [] }
    // a[2].u := 4;
    ensures out_of_bounds { outcome_of (program [] (assign (variable (identifier A)
        (selectors_of (subscript (number Int (pos 2)) ∷ member (identifier (codes "U")) ∷ []))) (number Int (pos 4))
        ∷ [])) 1 ((member_at (own_element A (pos 0)) (codes "U"), int (pos 0))
        ∷ (member_at (own_element A (pos 1)) (codes "U"), int (pos 0)) ∷ []) [] 0 ≡ Outcome.Faulted Index }
    // a[2][1 / 0] := 4;
    ensures each_subscript_before_the_next { outcome_of (program [] (assign (variable (identifier A)
        (selectors_of (subscript (number Int (pos 2))
        ∷ subscript (binary Divide (number Int (pos 1)) (number Int (pos 0))) ∷ []))) (number Int (pos 4)) ∷ [])) 1
        ((own_element A (pos 0), int (pos 0)) ∷ []) [] 0 ≡ Outcome.Faulted Index }
    // a[2] := 1 / 0;
    ensures value_before_subscripts { outcome_of (program [] (assign (indexed A (number Int (pos 2)))
        (binary Divide (number Int (pos 1)) (number Int (pos 0))) ∷ [])) 1 ((own_element A (pos 0), int (pos 0)) ∷ [])
        [] 0 ≡ Outcome.Faulted DivisionByZero }
{}
