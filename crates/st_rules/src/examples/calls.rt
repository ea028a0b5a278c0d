//! Functions that call themselves: the call is a part of the body wherever it occurs.

ghost use Rattle.std.specs.Prelude.{◌≡◌, ◌∷◌, [], pos, codes, None, Some};
ghost use Rattle.st_types.specs.declared.operator.UnaryOperator.TheVariants.{Negate};
ghost use Rattle.st_types.specs.declared.operator.BinaryOperator.TheVariants.{Add};
ghost use Rattle.st_types.specs.Expressions.{read, unary, binary, parenthesis};
ghost use Rattle.st_types.specs.Statements.{assign, IF, FOR, WHILE, REPEAT, arms_of, stmts_of, no_stmts};
ghost use Rattle.st_rules.specs.declared.rule.Rule.TheVariants.{WrongType, TooDeep};
ghost use Rattle.st_rules.specs.ExampleWords.{broken_rules};
ghost use Rattle.st_rules.specs.ExampleWords.{at, breaks, number, reading, element, calling, setting, invoking};
ghost use Rattle.st_rules.specs.ExampleWords.{giving, copying, single, N, M, B};
ghost use Rattle.st_rules.specs.ExampleTexts.{function_f, function_with_counter, calling_f, asking_f, setting_f};
ghost use Rattle.st_rules.specs.ExampleTexts.{case_with, A};

/// In `FUNCTION F : INT VAR n : INT; b : BOOL; a : ARRAY [1..2] OF INT; END_VAR`: in conditions and bounds.
pub fn conditions()
    // REPEAT UNTIL F() = 1 END_REPEAT
    ensures until { broken_rules (function_f (REPEAT no_stmts (asking_f 110) ∷ [])) ≡ breaks TooDeep 9 ∷ [] }
    // WHILE F() = 1 DO END_WHILE
    ensures while_it_holds { broken_rules (function_f (WHILE (asking_f 106) no_stmts ∷ [])) ≡ breaks TooDeep 9 ∷ [] }
    // IF F() = 1 THEN END_IF
    ensures condition { broken_rules (function_f (IF (arms_of ((asking_f 103, no_stmts) ∷ [])) no_stmts ∷ []))
        ≡ breaks TooDeep 9 ∷ [] }
    // IF b THEN ELSIF F() = 1 THEN END_IF
    ensures second_condition { broken_rules
        (function_f (IF (arms_of ((reading 103 B, no_stmts) ∷ (asking_f 120, no_stmts) ∷ [])) no_stmts ∷ []))
        ≡ breaks TooDeep 9 ∷ [] }
    // CASE F() OF 1 : END_CASE
    ensures selector { broken_rules (function_f (case_with (calling_f 105) (single 112 (pos 1) ∷ []) [] [] ∷ []))
        ≡ breaks TooDeep 9 ∷ [] }
    // FOR n := F() TO 2, FOR n := 1 TO F(), FOR n := 1 TO 2 BY F()
    ensures start { broken_rules (function_f (FOR (at 104 N) (calling_f 109) (number 116 (pos 2)) None no_stmts ∷ []))
        ≡ breaks TooDeep 9 ∷ [] }
    ensures limit { broken_rules (function_f (FOR (at 104 N) (number 109 (pos 1)) (calling_f 116) None no_stmts ∷ []))
        ≡ breaks TooDeep 9 ∷ [] }
    ensures step { broken_rules
        (function_f (FOR (at 104 N) (number 109 (pos 1)) (number 114 (pos 2)) (Some (calling_f 120)) no_stmts ∷ []))
        ≡ breaks TooDeep 9 ∷ [] }
{}

/// In the bodies of statements.
pub fn bodies()
    // IF b THEN n := F(); END_IF
    ensures in_branch { broken_rules
        (function_f (IF (arms_of ((reading 103 B, stmts_of (setting_f 110 ∷ [])) ∷ [])) no_stmts ∷ []))
        ≡ breaks TooDeep 9 ∷ [] }
    // IF b THEN ELSE n := F(); END_IF
    ensures in_else { broken_rules
        (function_f (IF (arms_of ((reading 103 B, no_stmts) ∷ [])) (stmts_of (setting_f 115 ∷ [])) ∷ []))
        ≡ breaks TooDeep 9 ∷ [] }
    // CASE n OF 1 : n := F(); END_CASE
    ensures in_case { broken_rules
        (function_f (case_with (reading 105 N) (single 110 (pos 1) ∷ []) (setting_f 114 ∷ []) [] ∷ []))
        ≡ breaks TooDeep 9 ∷ [] }
    // CASE n OF 1 : ELSE n := F(); END_CASE
    ensures in_else_of_case { broken_rules
        (function_f (case_with (reading 105 N) (single 110 (pos 1) ∷ []) [] (setting_f 120 ∷ []) ∷ []))
        ≡ breaks TooDeep 9 ∷ [] }
    // REPEAT FOR n := 1 TO 2 DO WHILE b DO a[1] := F(); END_WHILE; END_FOR; UNTIL b END_REPEAT
    ensures in_loops { broken_rules (function_f (REPEAT (stmts_of (FOR (at 111 N) (number 116 (pos 1)) (number 121
        (pos 2)) None
        (stmts_of (WHILE (reading 132 B) (stmts_of (assign (element 137 A (number 139 (pos 1))) (calling_f 145) ∷ []))
        ∷ [])) ∷ [])) (reading 180 B) ∷ [])) ≡ breaks TooDeep 9 ∷ [] }
{}

/// In expressions.
pub fn parts()
    // n := ABS(F())
    ensures argument { broken_rules (function_f (setting 100 N (calling 105 (codes "ABS") (calling_f 109 ∷ [])) ∷ []))
        ≡ breaks TooDeep 9 ∷ [] }
    // n := MAX(1, F())
    ensures second_argument { broken_rules
        (function_f (setting 100 N (calling 105 (codes "MAX") (number 109 (pos 1) ∷ calling_f 112 ∷ [])) ∷ []))
        ≡ breaks TooDeep 9 ∷ [] }
    // n := a[F()]
    ensures subscript { broken_rules (function_f (setting 100 N (read (element 105 A (calling_f 107))) ∷ []))
        ≡ breaks TooDeep 9 ∷ [] }
    // a[F()] := 1
    ensures subscript_of_target { broken_rules (function_f (assign (element 100 A (calling_f 102)) (number 110 (pos 1)) ∷ []))
        ≡ breaks TooDeep 9 ∷ [] }
    // n := 1 + F(), n := F() + 1
    ensures right_operand { broken_rules
        (function_f (setting 100 N (binary Add (number 105 (pos 1)) (calling_f 109)) ∷ [])) ≡ breaks TooDeep 9 ∷ [] }
    ensures left_operand { broken_rules
        (function_f (setting 100 N (binary Add (calling_f 105) (number 111 (pos 1))) ∷ [])) ≡ breaks TooDeep 9 ∷ [] }
    // n := -(F())
    ensures within_parentheses { broken_rules
        (function_f (setting 100 N (unary Negate 105 (parenthesis 106 (calling_f 107))) ∷ []))
        ≡ breaks TooDeep 9 ∷ [] }
    // m(CU := F() = 1) and m(CV => a[F()]), of an instance that a function may not have
    ensures input { broken_rules (function_with_counter (invoking 100 M (giving 102 (codes "CU") (asking_f 108) ∷ []) ∷ []))
        ≡ breaks TooDeep 9 ∷ breaks WrongType 24 ∷ [] }
    ensures subscript_of_copy { broken_rules
        (function_with_counter (invoking 100 M (copying 102 (codes "CV") (element 108 A (calling_f 110)) ∷ []) ∷ []))
        ≡ breaks TooDeep 9 ∷ breaks WrongType 24 ∷ [] }
    // F := n: its name alone isn't a call
    ensures name_alone { broken_rules (function_f (setting 100 N (reading 105 (codes "F")) ∷ [])) ≡ [] }
{}
