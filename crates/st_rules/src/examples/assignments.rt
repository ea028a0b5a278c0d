//! Assignments.

ghost use Rattle.std.specs.Prelude.{◌≡◌, ◌∷◌, [], pos, negsuc, true, codes};
ghost use Rattle.st_types.specs.Statements.{assign, EXIT};
ghost use Rattle.st_rules.specs.declared.rule.Rule.TheVariants.{UnknownName, WrongType, OutOfRange, NotAssignable};
ghost use Rattle.st_rules.specs.declared.rule.Rule.TheVariants.{ExitOutsideLoop};
ghost use Rattle.st_rules.specs.ExampleWords.{broken_rules};
ghost use Rattle.st_rules.specs.ExampleWords.{setting, breaks, number, bool_literal, duration, name, reading, element, part};
ghost use Rattle.st_rules.specs.ExampleWords.{add, add_constant, wide, N, M, B, F};

/// One statement in `PROGRAM Add VAR n : INT; END_VAR`, and with VAR CONSTANT in the last one.
pub fn one_statement()
    // `n := TRUE;`
    ensures truth { broken_rules (add (setting 33 N (bool_literal 38 true) ∷ [])) ≡ breaks WrongType 38 ∷ [] }
    // `n := 40000;`
    ensures too_great { broken_rules (add (setting 33 N (number 38 (pos 40000)) ∷ [])) ≡ breaks OutOfRange 38 ∷ [] }
    // `n := -32768;`
    ensures least { broken_rules (add (setting 33 N (number 38 (negsuc 32767)) ∷ [])) ≡ [] }
    // `n := -32769;`
    ensures too_small { broken_rules (add (setting 33 N (number 38 (negsuc 32768)) ∷ [])) ≡ breaks OutOfRange 38 ∷ [] }
    // `m := 1;`
    ensures unknown { broken_rules (add (setting 33 M (number 38 (pos 1)) ∷ [])) ≡ breaks UnknownName 33 ∷ [] }
    // `EXIT;`
    ensures exit { broken_rules (add (EXIT 33 ∷ [])) ≡ breaks ExitOutsideLoop 33 ∷ [] }
    // `n := 1;` of a constant
    ensures fixed { broken_rules (add_constant (setting 42 N (number 47 (pos 1)) ∷ [])) ≡ breaks NotAssignable 42 ∷ [] }
{}

/// In `PROGRAM P VAR n : INT; b : BOOL; w : WORD; a : ARRAY [1..2] OF INT; f : TON; d : TIME; u : UINT; END_VAR`.
pub fn targets()
    // `f.Q := TRUE`: an output from outside
    ensures output { broken_rules (wide (assign (part 100 F 102 (codes "Q")) (bool_literal 107 true) ∷ []))
        ≡ breaks NotAssignable 100 ∷ [] }
    // `f.IN := TRUE`: an input can't be seen from outside
    ensures input { broken_rules (wide (assign (part 100 F 102 (codes "IN")) (bool_literal 107 true) ∷ []))
        ≡ breaks UnknownName 102 ∷ [] }
    // `a := a`: an array has no value as a whole
    ensures whole_array { broken_rules (wide (setting 100 (codes "A") (reading 105 (codes "A")) ∷ []))
        ≡ breaks WrongType 105 ∷ [] }
    // `a := m`: only the unknown name is reported
    ensures array_and_unknown { broken_rules (wide (setting 100 (codes "A") (reading 105 M) ∷ []))
        ≡ breaks UnknownName 105 ∷ [] }
    // `f := n`
    ensures instance { broken_rules (wide (setting 100 F (reading 105 N) ∷ [])) ≡ breaks WrongType 105 ∷ [] }
    // `a[b] := 1`
    ensures subscript { broken_rules (wide (assign (element 100 (codes "A") (reading 102 B)) (number 108 (pos 1)) ∷ []))
        ≡ breaks WrongType 102 ∷ [] }
    // `a[1] := 1`
    ensures element { broken_rules (wide (assign (element 100 (codes "A") (number 102 (pos 1))) (number 108 (pos 1)) ∷ []))
        ≡ [] }
    // `n[1] := 1`: not an array
    ensures no_array { broken_rules (wide (assign (element 100 N (number 102 (pos 1))) (number 108 (pos 1)) ∷ []))
        ≡ breaks WrongType 100 ∷ [] }
    // `d := T#5ms`
    ensures duration { broken_rules (wide (setting 100 (codes "D") (duration 105 5) ∷ [])) ≡ [] }
    // `d := 5`: untyped beside a TIME is a LINT
    ensures no_duration { broken_rules (wide (setting 100 (codes "D") (number 105 (pos 5)) ∷ []))
        ≡ breaks WrongType 105 ∷ [] }
    // `u := -1`
    ensures below_nothing { broken_rules (wide (setting 100 (codes "U") (number 105 (negsuc 0)) ∷ []))
        ≡ breaks OutOfRange 105 ∷ [] }
{}
