//! Worked examples of the types that untyped literals take in statements and initial values, each proved by
//! computation.

ghost use Rattle.std.specs.Prelude.{◌≡◌, ◌∷◌, [], Some, None, pos, codes, true};
ghost use Rattle.st_types.specs.declared.kind.Kind.TheVariants.{Sint, Int, Dint, Lint};
ghost use Rattle.st_types.specs.declared.operator.BinaryOperator.TheVariants.{Equal, Less, Add};
ghost use Rattle.st_types.specs.Expressions.{binary, call, exprs_of};
ghost use Rattle.st_types.specs.Statements.{assign, invoke, given, stmts_of, arms_of, case_arms_of, IF, CASE, FOR};
ghost use Rattle.st_types.specs.Statements.{WHILE, REPEAT};
ghost use Rattle.st_types.specs.Initials.{list, structure, single, repeated, defaults, elements_of, members_of};
ghost use Rattle.st_meaning.specs.NameTypes.{variable_type};
ghost use Rattle.st_meaning.specs.ResolvedUnits.{resolved_stmt, resolved_initial, resolved_type};
ghost use Rattle.st_meaning.specs.ProgramExamples.{identifier, name, number, untyped, bool_literal, set, A, C};
ghost use Rattle.st_meaning.specs.CallExamples.{indexed, dotted, giving, invoked};
ghost use Rattle.st_meaning.specs.ResolutionExamples.{several_variables, text_of_several, plain_number, labelled};
ghost use Rattle.st_meaning.specs.ResolutionExamples.{ranging, initially, two_dints};

/// In an assignment, the type is that of the target, also of an element or a member; a subscript is a LINT.
pub fn literals_in_assignments()
    // n := 1;
    ensures variable { resolved_stmt text_of_several several_variables (set (codes "N") (untyped (pos 1)))
        ≡ set (codes "N") (number Int (pos 1)) }
    // a[0] := 2;
    ensures element { resolved_stmt text_of_several several_variables (assign (indexed A (untyped (pos 0)))
        (untyped (pos 2))) ≡ assign (indexed A (number Lint (pos 0))) (number Dint (pos 2)) }
    // s.v := 3;
    ensures member { resolved_stmt text_of_several several_variables (assign (dotted (codes "S") (codes "V"))
        (untyped (pos 3))) ≡ assign (dotted (codes "S") (codes "V")) (number Sint (pos 3)) }
{}

/// An argument takes the type of its input, of a function and of an instance.
#[tactic(auto, unfolding(crate::specs::StandardFunctions::standard_of, crate::specs::StandardFunctions::standard_functions, crate::specs::StandardBlocks::block_of))]
pub fn literals_in_arguments()
    // d := Half(4);
    ensures function { resolved_stmt text_of_several several_variables (set (codes "D")
        (call (identifier (codes "HALF")) (exprs_of (untyped (pos 4) ∷ [])))) ≡ set (codes "D")
        (call (identifier (codes "HALF")) (exprs_of (number Sint (pos 4) ∷ []))) }
    // c(PV := 5);
    ensures instance { resolved_stmt text_of_several several_variables
        (invoked C (giving (codes "PV") (untyped (pos 5)) ∷ [])) ≡ invoked C (giving (codes "PV") (number Int (pos 5))
        ∷ []) }
{}

/// In conditions two untyped operands are LINTs; a FOR's bounds take its variable's type, and labels the selector's.
pub fn literals_in_conditions()
    // IF 1 = 2 THEN d := 6; END_IF;
    ensures condition { resolved_stmt text_of_several several_variables (IF (arms_of ((
      binary Equal (untyped (pos 1))
          (untyped (pos 2)),
      stmts_of (set (codes "D") (untyped (pos 6)) ∷ []),
    ) ∷ [])) (stmts_of []))
        ≡ IF (arms_of ((
          binary Equal (number Lint (pos 1)) (number Lint (pos 2)),
          stmts_of (set (codes "D") (number Dint (pos 6)) ∷ []),
        ) ∷ [])) (stmts_of []) }
    // WHILE n < 3 DO END_WHILE; and REPEAT UNTIL d = 3 END_REPEAT;
    ensures at_the_head { resolved_stmt text_of_several several_variables (WHILE (binary Less (name (codes "N"))
        (untyped (pos 3))) (stmts_of [])) ≡ WHILE (binary Less (name (codes "N")) (number Int (pos 3))) (stmts_of []) }
    ensures at_the_foot { resolved_stmt text_of_several several_variables (REPEAT (stmts_of [])
        (binary Equal (name (codes "D")) (untyped (pos 3)))) ≡ REPEAT (stmts_of []) (binary Equal (name (codes "D"))
        (number Dint (pos 3))) }
    // FOR n := 1 TO 9 BY 2 DO END_FOR;
    ensures bounds { resolved_stmt text_of_several several_variables (FOR (identifier (codes "N")) (untyped (pos 1))
        (untyped (pos 9)) (Some (untyped (pos 2))) (stmts_of [])) ≡ FOR (identifier (codes "N")) (number Int (pos 1))
        (number Int (pos 9)) (Some (number Int (pos 2))) (stmts_of []) }
    // CASE d OF 1, 3..5: END_CASE;
    ensures labels { resolved_stmt text_of_several several_variables (CASE (name (codes "D"))
        (case_arms_of ((labelled None 1 ∷ ranging None 3 5 ∷ [], stmts_of []) ∷ [])) (stmts_of []))
        ≡ CASE (name (codes "D")) (case_arms_of ((labelled (Some Dint) 1 ∷ ranging (Some Dint) 3 5 ∷ [], stmts_of [])
        ∷ [])) (stmts_of []) }
    // CASE 2 OF 2: END_CASE;
    ensures untyped_selector { resolved_stmt text_of_several several_variables (CASE (untyped (pos 2))
        (case_arms_of ((labelled None 2 ∷ [], stmts_of []) ∷ [])) (stmts_of [])) ≡ CASE (number Lint (pos 2))
        (case_arms_of ((labelled (Some Lint) 2 ∷ [], stmts_of []) ∷ [])) (stmts_of []) }
{}

/// An initial value takes its variable's type, of an array its elements', of a structure each field's; a count and an
/// array's bounds are LINTs.
pub fn literals_in_initial_values()
    // n : INT := 7;
    ensures variable { resolved_initial text_of_several (variable_type several_variables (codes "N")) (initially None 7)
        ≡ initially (Some Int) 7 }
    // a : ARRAY [0..1] OF DINT := [1, 2(3), 4()];
    ensures array { resolved_initial text_of_several (variable_type several_variables A) (list 0 (elements_of
        (single (initially None 1) ∷ repeated (plain_number None 2) (initially None 3) ∷ defaults (plain_number None 4) ∷ [])))
        ≡ list 0 (elements_of (single (initially (Some Dint) 1) ∷ repeated (plain_number (Some Lint) 2)
        (initially (Some Dint) 3) ∷ defaults (plain_number (Some Lint) 4) ∷ [])) }
    // s : Pair := (u := 1, v := 2);
    ensures structure { resolved_initial text_of_several (variable_type several_variables (codes "S"))
        (structure 0 (members_of ((identifier (codes "U"), initially None 1) ∷ (
          identifier (codes "V"),
          initially None 2,
        ) ∷ []))) ≡ structure 0 (members_of ((identifier (codes "U"), initially (Some Int) 1)
        ∷ (identifier (codes "V"), initially (Some Sint) 2) ∷ [])) }
{}
