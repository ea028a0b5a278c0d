//! Which variables may be assigned and counted, by the words that a declaration begins with.

ghost use Rattle.std.specs.Prelude.{◌≡◌, ◌∷◌, [], pos, true, codes, None, Some};
ghost use Rattle.st_types.specs.declared.operator.BinaryOperator.TheVariants.{Add};
ghost use Rattle.st_types.specs.declared.declaration.Section.TheVariants.{Constant, External, ConstantExternal};
ghost use Rattle.st_types.specs.declared.unit.UnitSort.TheVariants.{Program};
ghost use Rattle.st_types.specs.Expressions.{read, binary};
ghost use Rattle.st_types.specs.Statements.{assign, IF, FOR, WHILE, REPEAT, EXIT, arms_of, stmts_of, no_stmts};
ghost use Rattle.st_rules.specs.declared.rule.Rule.TheVariants.{UnknownName, WrongType, OutOfRange, NotAssignable};
ghost use Rattle.st_rules.specs.declared.rule.Rule.TheVariants.{ExitOutsideLoop, WrongArguments};
ghost use Rattle.st_rules.specs.ExampleWords.{broken_rules};
ghost use Rattle.st_rules.specs.ExampleWords.{at, breaks, number, bool_literal, name, reading, element, part, setting};
ghost use Rattle.st_rules.specs.ExampleWords.{calling, invoking, giving, copying, block, organised, declaring};
ghost use Rattle.st_rules.specs.ExampleWords.{array, single};
ghost use Rattle.st_rules.specs.ExampleWords.{add_constant, wide, N, M, B, F, X, P};
ghost use Rattle.st_rules.specs.ExampleTexts.{in_section, function_f, with_own_block, case_with, A};

/// Assigned variables.
pub fn assigned()
    // VAR_EXTERNAL n : INT; END_VAR n := 1;
    ensures external { broken_rules (in_section External (setting 100 N (number 105 (pos 1)) ∷ [])) ≡ [] }
    // VAR_EXTERNAL CONSTANT n : INT; END_VAR n := 1;
    ensures constant_external { broken_rules (in_section ConstantExternal (setting 100 N (number 105 (pos 1)) ∷ []))
        ≡ breaks NotAssignable 100 ∷ [] }
    // VAR CONSTANT a : ARRAY [1..2] OF INT; END_VAR a[1] := 1;
    ensures element_of_constant { broken_rules (organised Program (at 8 P)
        (block Constant (declaring (at 14 A) (array 18 (pos 1) (pos 2)) ∷ []) ∷ [])
        (assign (element 100 A (number 102 (pos 1))) (number 108 (pos 1)) ∷ []) ∷ []) ≡ breaks NotAssignable 100 ∷ [] }
    // FUNCTION F .. F := F + 1;: the result, read too
    ensures result { broken_rules (function_f (setting 100 F (binary Add (reading 105 F) (number 109 (pos 1))) ∷ [])) ≡ [] }
    // FUNCTION F : INT .. F := TRUE;
    ensures result_of_other_type { broken_rules (function_f (setting 100 F (bool_literal 105 true) ∷ []))
        ≡ breaks WrongType 105 ∷ [] }
{}

/// Control variables.
pub fn counted()
    // FOR n := 1 TO 2 DO END_FOR over a VAR CONSTANT: it is the unit's own
    ensures constant { broken_rules (add_constant (FOR (at 104 N) (number 109 (pos 1)) (number 114 (pos 2)) None no_stmts
        ∷ []))
        ≡ breaks NotAssignable 104 ∷ [] }
    // over an external
    ensures external { broken_rules
        (in_section External (FOR (at 104 N) (number 109 (pos 1)) (number 114 (pos 2)) None no_stmts ∷ []))
        ≡ breaks WrongType 104 ∷ [] }
    // over a constant external
    ensures constant_external { broken_rules
        (in_section ConstantExternal (FOR (at 104 N) (number 109 (pos 1)) (number 114 (pos 2)) None no_stmts ∷ []))
        ≡ breaks WrongType 104 ∷ breaks NotAssignable 104 ∷ [] }
    // over a function's result
    ensures result { broken_rules (function_f (FOR (at 104 F) (number 109 (pos 1)) (number 114 (pos 2)) None no_stmts ∷ []))
        ≡ breaks WrongType 104 ∷ [] }
    // FOR n := 1 TO 2 BY 40000 DO END_FOR
    ensures step_too_great { broken_rules
        (wide (FOR (at 104 N) (number 109 (pos 1)) (number 114 (pos 2)) (Some (number 119 (pos 40000))) no_stmts ∷ []))
        ≡ breaks OutOfRange 119 ∷ [] }
    // FOR n := 1 TO 2 BY u DO END_FOR
    ensures step_of_other_type { broken_rules
        (wide (FOR (at 104 N) (number 109 (pos 1)) (number 114 (pos 2)) (Some (reading 119 (codes "U"))) no_stmts ∷ []))
        ≡ breaks WrongType 119 ∷ [] }
    // FOR n := b TO 2 DO END_FOR
    ensures start_of_other_type { broken_rules (wide (FOR (at 104 N) (reading 109 B) (number 114 (pos 2)) None no_stmts ∷ []))
        ≡ breaks WrongType 109 ∷ [] }
{}

/// A control variable that runs, in `PROGRAM P VAR n : INT; b : BOOL; w : WORD; a : ARRAY [1..2] OF INT; f : TON;
/// d : TIME; u : UINT; END_VAR`.
pub fn running()
    // FOR n .. DO WHILE b DO n := 3; END_WHILE; END_FOR
    ensures in_while { broken_rules (wide (FOR (at 104 N) (number 109 (pos 1)) (number 114 (pos 2)) None
        (stmts_of (WHILE (reading 125 B) (stmts_of (setting 130 N (number 135 (pos 3)) ∷ [])) ∷ [])) ∷ []))
        ≡ breaks NotAssignable 130 ∷ [] }
    // FOR n .. DO FOR u .. DO n := 3; END_FOR; END_FOR
    ensures in_another_for { broken_rules (wide (FOR (at 104 N) (number 109 (pos 1)) (number 114 (pos 2)) None
        (stmts_of (FOR (at 123 (codes "U")) (number 128 (pos 1)) (number 133 (pos 2)) None
        (stmts_of (setting 140 N (number 145 (pos 3)) ∷ [])) ∷ [])) ∷ [])) ≡ breaks NotAssignable 140 ∷ [] }
    // FOR n .. DO IF b THEN n := 3; ELSE n := 4; END_IF; END_FOR
    ensures in_branches { broken_rules (wide (FOR (at 104 N) (number 109 (pos 1)) (number 114 (pos 2)) None
        (stmts_of (IF (arms_of ((reading 125 B, stmts_of (setting 130 N (number 135 (pos 3)) ∷ [])) ∷ []))
        (stmts_of (setting 140 N (number 145 (pos 4)) ∷ [])) ∷ [])) ∷ []))
        ≡ breaks NotAssignable 130 ∷ breaks NotAssignable 140 ∷ [] }
    // FOR n .. DO CASE u OF 1 : n := 3; ELSE EXIT; END_CASE; END_FOR
    ensures in_case { broken_rules (wide (FOR (at 104 N) (number 109 (pos 1)) (number 114 (pos 2)) None
        (stmts_of (case_with (reading 125 (codes "U")) (single 128 (pos 1) ∷ []) (setting 130 N (number 135 (pos 3))
        ∷ [])
        (EXIT 140 ∷ []) ∷ [])) ∷ [])) ≡ breaks NotAssignable 130 ∷ [] }
    // REPEAT EXIT; UNTIL b END_REPEAT; CASE n OF 1 : EXIT; ELSE n := b; END_CASE
    ensures exits { broken_rules (wide (REPEAT (stmts_of (EXIT 107 ∷ [])) (reading 119 B)
        ∷ case_with (reading 140 N) (single 145 (pos 1) ∷ []) (EXIT 150 ∷ []) (setting 160 N (reading 165 B) ∷ [])
        ∷ []))
        ≡ breaks ExitOutsideLoop 150 ∷ breaks WrongType 165 ∷ [] }
{}

/// Instances of a block of the text: in `PROGRAM P VAR f : M; n : INT; b : BOOL; END_VAR`, with `FUNCTION_BLOCK M
/// VAR_INPUT n : INT; END_VAR VAR_OUTPUT x : INT; END_VAR VAR b : INT; END_VAR`.
pub fn instances()
    // f(n := n, x => n); n := f.x
    ensures fitting { broken_rules (with_own_block (invoking 100 F (giving 102 N (reading 107 N)
        ∷ copying 110 X (name 115 N) ∷ [])
        ∷ setting 120 N (read (part 125 F 127 X)) ∷ [])) ≡ [] }
    // f(b := 1): a variable of its own
    ensures own_variable_given { broken_rules (with_own_block (invoking 100 F (giving 102 B (number 107 (pos 1)) ∷ []) ∷ []))
        ≡ breaks WrongArguments 102 ∷ [] }
    // f(n := 40000): the type of the input
    ensures too_great { broken_rules (with_own_block (invoking 100 F (giving 102 N (number 107 (pos 40000)) ∷ []) ∷ []))
        ≡ breaks OutOfRange 107 ∷ [] }
    // n := f.n; n := f.b
    ensures hidden { broken_rules (with_own_block (setting 100 N (read (part 105 F 107 N))
        ∷ setting 110 N (read (part 115 F 117 B)) ∷ []))
        ≡ breaks UnknownName 107 ∷ breaks UnknownName 117 ∷ [] }
    // f.x := 1; f.b := 1
    ensures assigned { broken_rules (with_own_block (assign (part 100 F 102 X) (number 107 (pos 1))
        ∷ assign (part 110 F 112 B) (number 117 (pos 1)) ∷ []))
        ≡ breaks NotAssignable 100 ∷ breaks UnknownName 112 ∷ [] }
    // m(): a block isn't an instance
    ensures block_itself { broken_rules (with_own_block (invoking 100 M [] ∷ [])) ≡ breaks UnknownName 100 ∷ [] }
    // n := m(1): nor a function
    ensures block_as_function { broken_rules
        (with_own_block (setting 100 N (calling 105 M (number 107 (pos 1) ∷ [])) ∷ []))
        ≡ breaks UnknownName 105 ∷ [] }
{}
