//! Worked examples of the globals that a run asks for.

ghost use Rattle.std.specs.Prelude.{◌∷◌, [], pos, true, false};
ghost use Rattle.st_types.specs.declared.kind.Kind.TheVariants.{Int};
ghost use Rattle.st_types.specs.declared.operator.BinaryOperator.TheVariants.{Multiply};
ghost use Rattle.st_types.specs.Expressions.{binary, read};
ghost use Rattle.st_types.specs.Statements.{assign, invoke};
ghost use Rattle.st_meaning.specs.Scopes.{unowned};
ghost use Rattle.st_meaning.specs.ProgramExamples.{set, number, name, bool_literal, identifier, Asks, element, element_of_a, if_then};
ghost use Rattle.st_meaning.specs.ProgramExamples.{faulting, assigned_if_c, A, C, I, P, X, Z};

/// A run asks for a global's value if it looks it up before it assigns it, whatever becomes of the value.
pub fn asked_globals()
    // x := p * 0;
    ensures without_effect { Asks false (set X (binary Multiply (name P) (number Int (pos 0))) ∷ []) (unowned P) }
    // IF c THEN x := 1; END_IF;
    ensures condition { Asks false (if_then (name C) (set X (number Int (pos 1)) ∷ []) ∷ []) (unowned C) }
    // x := a[p];
    ensures subscript { Asks false (set X (read (element_of_a (name P))) ∷ []) (unowned P) }
    ensures element { Asks false (set X (read (element_of_a (name P))) ∷ []) (element (pos 1)) }
    // a[p] := 1;
    ensures subscript_of_a_target { Asks false (assign (element_of_a (name P)) (number Int (pos 1)) ∷ []) (unowned P) }
    // x := p; y := 1 / 0;
    ensures before_a_fault { Asks false (set X (name P) ∷ faulting ∷ []) (unowned P) }
    ensures unless_assigned { Asks false assigned_if_c (unowned P) }
    // x := z;
    ensures input { Asks false (set X (name Z) ∷ []) (unowned Z) }
    // i();
    ensures in_a_block { Asks false (invoke (identifier I) [] ∷ []) (unowned P) }
{}

/// A run does not ask for a global that it has assigned, that is in code it does not come to, or that it only assigns.
pub fn globals_not_asked()
    // p := 1; x := p;
    ensures assigned { Asks false (set P (number Int (pos 1)) ∷ set X (name P) ∷ []) (unowned P) → ⊥ }
    // IF FALSE THEN x := p; END_IF;
    ensures in_no_branch { Asks false (if_then (bool_literal false) (set X (name P) ∷ []) ∷ []) (unowned P) → ⊥ }
    // y := 1 / 0; x := p;
    ensures behind_a_fault { Asks false (faulting ∷ set X (name P) ∷ []) (unowned P) → ⊥ }
    ensures assigned_in_a_branch { Asks true assigned_if_c (unowned P) → ⊥ }
    // x := a[p];
    ensures other_element { Asks false (set X (read (element_of_a (name P))) ∷ []) (element (pos 0)) → ⊥ }
    // p := 1;
    ensures only_assigned { Asks false (set P (number Int (pos 1)) ∷ []) (unowned P) → ⊥ }
{}
