//! Calls of instances, conditions and loops.

ghost use Rattle.std.specs.Prelude.{◌≡◌, ◌∷◌, [], pos, true, codes, None, Some};
ghost use Rattle.st_types.specs.Statements.{IF, FOR, WHILE, REPEAT, EXIT, RETURN, given, copied};
ghost use Rattle.st_types.specs.Statements.{arms_of};
ghost use Rattle.st_types.specs.Statements.{no_stmts, stmts_of};
ghost use Rattle.st_rules.specs.declared.rule.Rule.TheVariants.{UnknownName, WrongType, OutOfRange, NotAssignable};
ghost use Rattle.st_rules.specs.declared.rule.Rule.TheVariants.{ExitOutsideLoop, WrongArguments};
ghost use Rattle.st_rules.specs.ExampleWords.{broken_rules};
ghost use Rattle.st_rules.specs.ExampleWords.{setting, invoking, copying, giving, breaks, at, number, duration, name};
ghost use Rattle.st_rules.specs.ExampleWords.{reading, element, part};
ghost use Rattle.st_rules.specs.ExampleWords.{wide, block_of_inputs, N, M, B, F, X};

/// In `PROGRAM P VAR n : INT; b : BOOL; w : WORD; a : ARRAY [1..2] OF INT; f : TON; d : TIME; u : UINT; END_VAR`.
pub fn instances()
    // `f(IN := b, PT := T#5ms, Q => b)`
    ensures fitting { broken_rules (wide (invoking 100 F (giving 102 (codes "IN") (reading 108 B)
        ∷ giving 111 (codes "PT") (duration 117 5) ∷ copying 124 (codes "Q") (name 129 B) ∷ []) ∷ [])) ≡ [] }
    // `f(IN := b, IN := b)`
    ensures given_twice { broken_rules (wide (invoking 100 F (giving 102 (codes "IN") (reading 108 B)
        ∷ giving 111 (codes "IN") (reading 117 B) ∷ []) ∷ [])) ≡ breaks WrongArguments 111 ∷ [] }
    // `f(Q => b, Q => b)`
    ensures copied_twice { broken_rules (wide (invoking 100 F (copying 102 (codes "Q") (name 107 B)
        ∷ copying 110 (codes "Q") (name 115 B) ∷ []) ∷ [])) ≡ breaks WrongArguments 110 ∷ [] }
    // `f(Q := b)`: an output is not given
    ensures output_given { broken_rules (wide (invoking 100 F (giving 102 (codes "Q") (reading 107 B) ∷ []) ∷ []))
        ≡ breaks WrongArguments 102 ∷ [] }
    // `f(IN => b)`: an input is not copied
    ensures input_copied { broken_rules (wide (invoking 100 F (copying 102 (codes "IN") (name 108 B) ∷ []) ∷ []))
        ≡ breaks WrongArguments 102 ∷ [] }
    // `f(IN := 1, Q => n)`
    ensures of_other_types { broken_rules (wide (invoking 100 F (giving 102 (codes "IN") (number 108 (pos 1))
        ∷ copying 111 (codes "Q") (name 116 N) ∷ []) ∷ []))
        ≡ breaks WrongType 108 ∷ breaks WrongType 116 ∷ [] }
    // `f(Q => m)`
    ensures copied_to_unknown { broken_rules (wide (invoking 100 F (copying 102 (codes "Q") (name 107 M) ∷ []) ∷ []))
        ≡ breaks UnknownName 107 ∷ [] }
    // `f(Q => f.Q)`
    ensures copied_to_output { broken_rules (wide (invoking 100 F (copying 102 (codes "Q") (part 107 F 109 (codes "Q"))
        ∷ []) ∷ []))
        ≡ breaks NotAssignable 107 ∷ [] }
    // `f(ET => a[b])`: the type of the target, and that of its subscript
    ensures subscript_of_target { broken_rules (wide (invoking 100 F (copying 102 (codes "ET") (element 108 (codes "A")
        (reading 110 B)) ∷ [])
        ∷ []))
        ≡ breaks WrongType 110 ∷ breaks WrongType 108 ∷ [] }
    // `n()`
    ensures no_instance { broken_rules (wide (invoking 100 N [] ∷ [])) ≡ breaks WrongType 100 ∷ [] }
    // `m()`
    ensures unknown { broken_rules (wide (invoking 100 M [] ∷ [])) ≡ breaks UnknownName 100 ∷ [] }
    // `f()`
    ensures nothing_given { broken_rules (wide (invoking 100 F [] ∷ [])) ≡ [] }
    // An input is fixed in its own block, an output isn't.
    ensures own_input { broken_rules
        (block_of_inputs (setting 100 N (number 105 (pos 3)) ∷ setting 110 X (number 115 (pos 3)) ∷ []))
        ≡ breaks NotAssignable 100 ∷ [] }
{}

/// Conditions and loops in the same program.
pub fn loops()
    // `IF n THEN END_IF`
    ensures number_as_condition { broken_rules (wide (IF (arms_of ((reading 103 N, no_stmts) ∷ [])) no_stmts ∷ []))
        ≡ breaks WrongType 103 ∷ [] }
    // `IF b THEN ELSIF n THEN END_IF`
    ensures second_condition { broken_rules (wide (IF (arms_of ((reading 103 B, no_stmts) ∷ (reading 113 N, no_stmts)
        ∷ [])) no_stmts ∷ []))
        ≡ breaks WrongType 113 ∷ [] }
    // `WHILE 1 DO END_WHILE`, `REPEAT UNTIL b END_REPEAT`
    ensures literal_as_condition { broken_rules (wide (WHILE (number 106 (pos 1)) no_stmts
        ∷ REPEAT no_stmts (reading 120 B) ∷ []))
        ≡ breaks WrongType 106 ∷ [] }
    // `IF b THEN ELSE n := b; END_IF`
    ensures else_of_a_condition { broken_rules (wide (IF (arms_of ((reading 103 B, no_stmts) ∷ []))
        (stmts_of (setting 115 N (reading 120 B) ∷ [])) ∷ [])) ≡ breaks WrongType 120 ∷ [] }
    // `REPEAT UNTIL n END_REPEAT`
    ensures number_ends { broken_rules (wide (REPEAT no_stmts (reading 113 N) ∷ [])) ≡ breaks WrongType 113 ∷ [] }
    // `REPEAT n := b; UNTIL b END_REPEAT`
    ensures body_that_ends { broken_rules (wide (REPEAT (stmts_of (setting 107 N (reading 112 B) ∷ [])) (reading 121 B) ∷ []))
        ≡ breaks WrongType 112 ∷ [] }
    // `FOR n := 1 TO 2 BY 3 DO EXIT; END_FOR`
    ensures counting { broken_rules
        (wide (FOR (at 104 N) (number 109 (pos 1)) (number 114 (pos 2)) (Some (number 119 (pos 3)))
        (stmts_of (EXIT 127 ∷ [])) ∷ [])) ≡ [] }
    // `FOR n := 1 TO 2 DO n := 3; END_FOR`
    ensures control_assigned { broken_rules (wide (FOR (at 104 N) (number 109 (pos 1)) (number 114 (pos 2)) None
        (stmts_of (setting 119 N (number 124 (pos 3)) ∷ [])) ∷ [])) ≡ breaks NotAssignable 119 ∷ [] }
    // `FOR n := 1 TO 2 DO END_FOR; n := 3`: after its loop it may be assigned
    ensures control_assigned_later { broken_rules (wide (FOR (at 104 N) (number 109 (pos 1)) (number 114
        (pos 2)) None no_stmts
        ∷ setting 130 N (number 135 (pos 3)) ∷ [])) ≡ [] }
    // `FOR n := 1 TO 2 DO FOR n := 1 TO 2 DO END_FOR; END_FOR`
    ensures control_counts_again { broken_rules (wide (FOR (at 104 N) (number 109 (pos 1)) (number 114 (pos 2)) None
        (stmts_of (FOR (at 123 N) (number 128 (pos 1)) (number 133 (pos 2)) None no_stmts ∷ [])) ∷ []))
        ≡ breaks NotAssignable 123 ∷ [] }
    // `FOR n := 1 TO 40000 DO END_FOR`: the limit takes INT
    ensures limit_too_great { broken_rules (wide (FOR (at 104 N) (number 109 (pos 1)) (number 114
        (pos 40000)) None no_stmts ∷ []))
        ≡ breaks OutOfRange 114 ∷ [] }
    // `FOR n := 1 TO u DO END_FOR`
    ensures limit_of_other_type { broken_rules (wide (FOR (at 104 N) (number 109 (pos 1)) (reading 114
        (codes "U")) None no_stmts ∷ []))
        ≡ breaks WrongType 114 ∷ [] }
    // `FOR b := 1 TO 2 DO END_FOR`: the control variable, and the type offered to the literals, which isn't a whole number
    ensures control_of_truth { broken_rules (wide (FOR (at 104 B) (number 109 (pos 1)) (number 114 (pos 2)) None no_stmts
        ∷ []))
        ≡ breaks WrongType 109 ∷ breaks WrongType 114 ∷ breaks WrongType 104 ∷ [] }
    // `FOR m := 1 TO 2 DO END_FOR`
    ensures control_unknown { broken_rules (wide (FOR (at 104 M) (number 109 (pos 1)) (number 114 (pos 2)) None no_stmts
        ∷ []))
        ≡ breaks UnknownName 104 ∷ [] }
    // In a block, FOR over an input is both of a wrong sort and assigned; over an output it is of a wrong sort.
    ensures control_is_input { broken_rules (block_of_inputs (FOR (at 104 N) (number 109 (pos 1)) (number 114
        (pos 2)) None no_stmts
        ∷ FOR (at 124 X) (number 129 (pos 1)) (number 134 (pos 2)) None no_stmts ∷ []))
        ≡ breaks WrongType 104 ∷ breaks NotAssignable 104 ∷ breaks WrongType 124 ∷ [] }
    // `EXIT` inside an IF inside a WHILE; after it, one outside any loop; RETURN is allowed anywhere
    ensures exits { broken_rules (wide (WHILE (reading 106 B)
        (stmts_of (IF (arms_of ((reading 112 B, stmts_of (EXIT 119 ∷ [])) ∷ [])) no_stmts ∷ []))
        ∷ IF (arms_of ((reading 150 B, stmts_of (EXIT 157 ∷ [])) ∷ [])) no_stmts ∷ RETURN ∷ []))
        ≡ breaks ExitOutsideLoop 157 ∷ [] }
{}
