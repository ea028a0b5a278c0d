//! Parts of structures and arrays, and the inputs of functions.

ghost use Rattle.std.specs.Prelude.{◌≡◌, ◌∷◌, [], pos, negsuc, true, codes};
ghost use Rattle.st_types.specs.declared.operator.BinaryOperator.TheVariants.{Equal};
ghost use Rattle.st_types.specs.Expressions.{read, binary};
ghost use Rattle.st_types.specs.Statements.{assign};
ghost use Rattle.st_rules.specs.declared.rule.Rule.TheVariants.{UnknownName, WrongType, OutOfRange, WrongArguments};
ghost use Rattle.st_rules.specs.ExampleWords.{broken_rules};
ghost use Rattle.st_rules.specs.ExampleWords.{setting, breaks, number, bool_literal, reading, element, part, calling, wide};
ghost use Rattle.st_rules.specs.ExampleWords.{N, M, B, F};
ghost use Rattle.st_rules.specs.ExampleTexts.{with_structures, selected, after_dot, after_bracket, three_inputs, A};

/// In `PROGRAM P VAR m : x; f : t; END_VAR`, with `TYPE x : STRUCT n : INT; a : ARRAY [1..2] OF INT; END_STRUCT; t :
/// ARRAY [1..2] OF x; END_TYPE`.
pub fn structures()
    // m.n := 1; m.n := TRUE; m.n := 40000;
    ensures field { broken_rules (with_structures (assign (part 100 M 102 N) (number 107 (pos 1))
        ∷ assign (part 110 M 112 N) (bool_literal 117 true) ∷ assign (part 130 M 132 N) (number 137 (pos 40000)) ∷ []))
        ≡ breaks WrongType 117 ∷ breaks OutOfRange 137 ∷ [] }
    // m.b := 1; f.n := 1: no such fields
    ensures no_field { broken_rules (with_structures (assign (part 100 M 102 B) (number 107 (pos 1))
        ∷ assign (part 110 F 112 N) (number 117 (pos 1)) ∷ [])) ≡ breaks UnknownName 102 ∷ breaks UnknownName 112 ∷ [] }
    // f[1].n := m.n; f[1].a[2] := 40000;
    ensures deeper { broken_rules (with_structures
        (assign (selected 100 F (after_bracket (number 102 (pos 1)) ∷ after_dot 105 N ∷ [])) (read (part 110 M 112 N))
        ∷ assign (selected 120 F (after_bracket (number 122 (pos 1)) ∷ after_dot 125 A
        ∷ after_bracket (number 127 (pos 2)) ∷ []))
        (number 133 (pos 40000)) ∷ [])) ≡ breaks OutOfRange 133 ∷ [] }
    // f[1].b := 1; f[TRUE].n := 1; m[1] := 1; f[1][2] := 1;
    ensures wrong_steps { broken_rules (with_structures
        (assign (selected 100 F (after_bracket (number 102 (pos 1)) ∷ after_dot 105 B ∷ [])) (number 110 (pos 1))
        ∷ assign (selected 120 F (after_bracket (bool_literal 122 true) ∷ after_dot 128 N ∷ [])) (number 133 (pos 1))
        ∷ assign (element 140 M (number 142 (pos 1))) (number 148 (pos 1))
        ∷ assign (selected 150 F (after_bracket (number 152 (pos 1)) ∷ after_bracket (number 155 (pos 2))
        ∷ [])) (number 161 (pos 1))
        ∷ []))
        ≡ breaks UnknownName 105 ∷ breaks WrongType 122 ∷ breaks WrongType 140 ∷ breaks WrongType 150 ∷ [] }
    // m := m; f[1] := m; m.a := m.a; m := m.n: a variable with parts is not assigned as a whole
    ensures wholes { broken_rules (with_structures (setting 100 M (reading 105 M)
        ∷ assign (element 110 F (number 112 (pos 1))) (reading 118 M)
        ∷ assign (part 120 M 122 A) (read (part 127 M 129 A))
        ∷ setting 140 M (read (part 145 M 147 N)) ∷ []))
        ≡ breaks WrongType 105 ∷ breaks WrongType 118 ∷ breaks WrongType 127 ∷ breaks WrongType 145 ∷ [] }
    // m.n := m
    ensures read_whole { broken_rules (with_structures (assign (part 100 M 102 N) (reading 107 M) ∷ []))
        ≡ breaks WrongType 107 ∷ [] }
{}

/// In `PROGRAM P VAR n : INT; b : BOOL; w : WORD; a : ARRAY [1..2] OF INT; f : TON; d : TIME; u : UINT; END_VAR`.
pub fn parts()
    // n := a[1][2]; n := a.n; b := f.Q.Q; b := f[1];
    ensures too_far { broken_rules
        (wide (setting 100 N (read (selected 105 A (after_bracket (number 107 (pos 1))
        ∷ after_bracket (number 110 (pos 2)) ∷ [])))
        ∷ setting 120 N (read (part 125 A 127 N))
        ∷ setting 130 B (read (selected 135 F (after_dot 137 (codes "Q") ∷ after_dot 139 (codes "Q") ∷ [])))
        ∷ setting 150 B (read (element 155 F (number 157 (pos 1)))) ∷ []))
        ≡ breaks WrongType 105 ∷ breaks UnknownName 127 ∷ breaks UnknownName 139 ∷ breaks WrongType 155 ∷ [] }
    // n := a[m]; n := m[1]; n := m.n: only the unknown name
    ensures unknown { broken_rules (wide (setting 100 N (read (element 105 A (reading 107 M)))
        ∷ setting 110 N (read (element 115 M (number 117 (pos 1)))) ∷ setting 120 N (read (part 125 M 127 N)) ∷ []))
        ≡ breaks UnknownName 107 ∷ breaks UnknownName 115 ∷ breaks UnknownName 125 ∷ [] }
    // n := a[a[b]]; a[a[b]] := 1;
    ensures subscript_inside { broken_rules (wide (setting 100 N (read (element 105 A (read (element 107 A (reading 109 B)))))
        ∷ assign (element 120 A (read (element 122 A (reading 124 B)))) (number 131 (pos 1)) ∷ []))
        ≡ breaks WrongType 109 ∷ breaks WrongType 124 ∷ [] }
    // n := f: an instance has no value
    ensures instance { broken_rules (wide (setting 100 N (reading 105 F) ∷ [])) ≡ breaks WrongType 105 ∷ [] }
    // n := foo(40000, m): the arguments of an unknown function are judged within LINT
    ensures unknown_function { broken_rules
        (wide (setting 100 N (calling 105 (codes "FOO") (number 109 (pos 40000) ∷ reading 116 M ∷ [])) ∷ []))
        ≡ breaks UnknownName 105 ∷ breaks UnknownName 116 ∷ [] }
{}

/// Calls of `FUNCTION F : INT VAR_INPUT n : INT; b : BOOL; END_VAR VAR m : INT; END_VAR VAR_INPUT u : UINT; END_VAR`,
/// which has three inputs.
pub fn inputs()
    // n := F(1, b, 40000);
    ensures fitting { broken_rules (three_inputs (number 107 (pos 1) ∷ reading 110 B ∷ number 113 (pos 40000) ∷ [])) ≡ [] }
    // n := F(40000, n, -1);
    ensures of_other_types { broken_rules (three_inputs (number 107 (pos 40000) ∷ reading 114 N ∷ number 117 (negsuc 0) ∷ []))
        ≡ breaks OutOfRange 107 ∷ breaks WrongType 114 ∷ breaks OutOfRange 117 ∷ [] }
    // n := F(1, b), n := F(1, b, 2, 3)
    ensures too_few { broken_rules (three_inputs (number 107 (pos 1) ∷ reading 110 B ∷ [])) ≡ breaks WrongArguments 105 ∷ [] }
    ensures too_many { broken_rules (three_inputs (number 107 (pos 1) ∷ reading 110 B ∷ number 113 (pos 2)
        ∷ number 116 (pos 3) ∷ []))
        ≡ breaks WrongArguments 105 ∷ [] }
    // n := F(b = b, b, F(1, b, 2)): a BOOL and an INT in place of an INT and a UINT
    ensures of_calls { broken_rules (three_inputs (binary Equal (reading 107 B) (reading 111 B) ∷ reading 114 B
        ∷ calling 117 F (number 119 (pos 1) ∷ reading 122 B ∷ number 125 (pos 2) ∷ []) ∷ []))
        ≡ breaks WrongType 107 ∷ breaks WrongType 117 ∷ [] }
{}
