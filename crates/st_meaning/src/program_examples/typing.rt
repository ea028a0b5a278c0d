//! Worked examples of runs that meet something ill typed and of runs that don't.

ghost use Rattle.std.specs.Prelude.{◌∷◌, [], pos, codes, true, false};
ghost use Rattle.st_types.specs.declared.kind.Kind.TheVariants.{Int, Usint, Dint};
ghost use Rattle.st_types.specs.declared.operator.BinaryOperator.TheVariants.{Add};
ghost use Rattle.st_types.specs.Expressions.{binary, read};
ghost use Rattle.st_meaning.specs.Asked.{IsTypedRun};
ghost use Rattle.st_meaning.specs.ProgramExamples.{program, variables, own, number, name, bool_literal, set, if_then, int, datum, A, X};
ghost use Rattle.st_meaning.specs.ProgramExamples.{Y};
ghost use Rattle.st_meaning.specs.CallExamples.{calling_with, indexed, own_element, invoked};

/// A fault of the run is not ill typed: F1, F2, F3 and F4 stay the same.
pub fn typed_runs()
    // x := x + 1; with x = 32767
    ensures range { IsTypedRun (program [] (set X (binary Add (name X) (number Int (pos 1))) ∷ [])) 9
        (variables ((X, int (pos 32767)) ∷ [])) [] 0 }
    // x := a[5];
    ensures index { IsTypedRun (program [] (set X (read (indexed A (number Int (pos 5)))) ∷ [])) 9
        ((own X, int (pos 0)) ∷ (own_element A (pos 0), int (pos 0)) ∷ []) [] 0 }
    // y := INT_TO_USINT(256);
    ensures conversion { IsTypedRun (program [] (set Y (calling_with (codes "INT_TO_USINT") (number Int (pos 256)))
        ∷ [])) 9 (variables ((Y, datum Usint (pos 0)) ∷ [])) [] 0 }
    // IF FALSE THEN x := TRUE; END_IF;
    ensures where_it_does_not_come { IsTypedRun (program [] (if_then (bool_literal false) (set X (bool_literal true) ∷ []) ∷ [])) 9
        (variables ((X, int (pos 0)) ∷ [])) [] 0 }
{}

/// Ill typed are: a value of another type, operands of two types, a condition that isn't a BOOL, and a unit that doesn't
/// exist.
pub fn ill_typed_runs()
    // x := TRUE;
    ensures value { IsTypedRun (program [] (set X (bool_literal true) ∷ [])) 9 (variables ((X, int (pos 0)) ∷ [])) [] 0 → ⊥ }
    // x := x + y; with y a DINT
    ensures operands { IsTypedRun (program [] (set X (binary Add (name X) (name Y)) ∷ [])) 9
        (variables ((X, int (pos 0)) ∷ (Y, datum Dint (pos 0)) ∷ [])) [] 0 → ⊥ }
    // IF x THEN END_IF;
    ensures condition { IsTypedRun (program [] (if_then (name X) [] ∷ [])) 9 (variables ((X, int (pos 0)) ∷ [])) [] 0
        → ⊥ }
    // x := Y(1);
    ensures function { IsTypedRun (program [] (set X (calling_with Y (number Int (pos 1))) ∷ [])) 9
        (variables ((X, int (pos 0)) ∷ [])) [] 0 → ⊥ }
    // x();
    ensures instance { IsTypedRun (program [] (invoked X [] ∷ [])) 9 (variables ((X, int (pos 0)) ∷ [])) [] 0 → ⊥ }
{}
