//! Worked examples of the types that untyped literals take, each proved by computation.

ghost use Rattle.std.specs.Prelude.{◌≡◌, ◌∷◌, [], Ok, Some, None, pos, negsuc, codes, true};
ghost use Rattle.st_types.specs.declared.kind.Kind.TheVariants.{Int, Dint, Lint, Bool};
ghost use Rattle.st_types.specs.declared.operator.BinaryOperator.TheVariants.{Equal, Add};
ghost use Rattle.st_types.specs.Expressions.{binary, call, exprs_of};
ghost use Rattle.st_meaning.specs.Operators.{value_of_literal};
ghost use Rattle.st_meaning.specs.Resolution.{resolved_expr};
ghost use Rattle.st_meaning.specs.ProgramExamples.{number, name, int, untyped, identifier, three_variables, its_text};
ghost use Rattle.st_types.specs.declared.literal.Literal.TheVariants as literals;

/// An untyped literal takes the type that its place expects; if none is expected that can hold it, it is a LINT.
#[tactic(auto, unfolding(crate::specs::StandardFunctions::standard_of, crate::specs::StandardFunctions::standard_functions))]
pub fn untyped_literals()
    // n := -32768;
    ensures least_int { resolved_expr its_text three_variables (Some Int) (untyped (negsuc 32767))
        ≡ number Int (negsuc 32767) }
    ensures least_int_is_one { value_of_literal (literals.Number (record {
      place = 0;
      is_negative = true;
      magnitude =
          32768;
      written = None;
      is_decimal = true;
      taken = Some Int;
    })) ≡ Ok (int (negsuc 32767)) }
    // d := n + 1; the 1 is an INT beside n
    ensures beside_a_typed_operand { resolved_expr its_text three_variables (Some Dint)
        (binary Add (name (codes "N")) (untyped (pos 1))) ≡ binary Add (name (codes "N")) (number Int (pos 1)) }
    // d := 1 + 2;
    ensures both_untyped { resolved_expr its_text three_variables (Some Dint)
        (binary Add (untyped (pos 1)) (untyped (pos 2))) ≡ binary Add (number Dint (pos 1)) (number Dint (pos 2)) }
    // b := 1 = 2;
    ensures compared { resolved_expr its_text three_variables (Some Bool)
        (binary Equal (untyped (pos 1)) (untyped (pos 2))) ≡ binary Equal (number Lint (pos 1)) (number Lint (pos 2)) }
    // b := b = 1;
    ensures beside_a_bool { resolved_expr its_text three_variables (Some Bool)
        (binary Equal (name (codes "B")) (untyped (pos 1))) ≡ binary Equal (name (codes "B")) (number Lint (pos 1)) }
    // n := MIN(1, 2); and n := MIN(n, 2);
    ensures untyped_arguments { resolved_expr its_text three_variables (Some Int)
        (call (identifier (codes "MIN")) (exprs_of (untyped (pos 1) ∷ untyped (pos 2) ∷ [])))
        ≡ call (identifier (codes "MIN")) (exprs_of (number Lint (pos 1) ∷ number Lint (pos 2) ∷ [])) }
    ensures argument_beside_a_typed_one { resolved_expr its_text three_variables (Some Dint)
        (call (identifier (codes "MIN")) (exprs_of (name (codes "N") ∷ untyped (pos 2) ∷ [])))
        ≡ call (identifier (codes "MIN")) (exprs_of (name (codes "N") ∷ number Int (pos 2) ∷ [])) }
{}
