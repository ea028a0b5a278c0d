//! Worked examples of FOR, WHILE and REPEAT, each proved by computation.

ghost use Rattle.std.specs.Prelude.{◌≡◌, ◌∷◌, [], Ok, Err, Some, None, pos, negsuc};
ghost use Rattle.st_types.specs.declared.fault.Fault.TheVariants.{Budget, ZeroStep};
ghost use Rattle.st_types.specs.declared.kind.Kind.TheVariants.{Int};
ghost use Rattle.st_types.specs.Statements.{stmts_of, FOR};
ghost use Rattle.st_meaning.specs.Loops.{goes_on};
ghost use Rattle.st_meaning.specs.ProgramExamples.{ran_with, variables, number, name, identifier, one_more, int, I, K};
ghost use Rattle.st_meaning.specs.ProgramExamples.{while_to_3, to_the_end, to_3, by_0, exit_at_3, repeat_to_3, A};

/// A FOR with a negative step turns until its variable is below the limit; one that has passed its limit at the start
/// does not turn.
#[tactic(auto, unfolding(crate::specs::Runs::ran, crate::specs::Runs::ran_where, crate::specs::Runs::units_within, crate::specs::Loops::looped, crate::specs::Loops::turns, crate::specs::Loops::guarded, crate::specs::Loops::runs_on, crate::specs::Loops::step_on))]
pub fn loops_up_and_down()
    // FOR i := 3 TO 1 BY -1 DO k := k + 1; END_FOR;
    ensures down { ran_with [] 7 (FOR (identifier I) (number Int (pos 3)) (number Int (pos 1))
        (Some (number Int (negsuc 0))) (stmts_of (one_more ∷ [])) ∷ []) ((I, int (pos 9)) ∷ (K, int (pos 0)) ∷ [])
        ≡ Ok (goes_on (variables ((I, int (pos 0)) ∷ (K, int (pos 3)) ∷ [])), 0) }
    ensures down_of_6 { ran_with [] 6 (FOR (identifier I) (number Int (pos 3)) (number Int (pos 1))
        (Some (number Int (negsuc 0))) (stmts_of (one_more ∷ [])) ∷ []) ((I, int (pos 9)) ∷ (K, int (pos 0)) ∷ [])
        ≡ Err Budget }
    // FOR i := -32765 TO -32768 BY -2 DO k := k + 1; END_FOR;
    ensures down_to_the_end { ran_with [] 5 (FOR (identifier I) (number Int (negsuc 32764)) (number Int (negsuc 32767))
        (Some (number Int (negsuc 1))) (stmts_of (one_more ∷ [])) ∷ []) ((I, int (pos 9)) ∷ (K, int (pos 0)) ∷ [])
        ≡ Ok (goes_on (variables ((I, int (negsuc 32766)) ∷ (K, int (pos 2)) ∷ [])), 0) }
    // FOR i := 1 TO 6 BY 2 DO k := k + 1; END_FOR;
    ensures by_2 { ran_with [] 7 (FOR (identifier I) (number Int (pos 1)) (number Int (pos 6))
        (Some (number Int (pos 2))) (stmts_of (one_more ∷ [])) ∷ []) ((I, int (pos 9)) ∷ (K, int (pos 0)) ∷ [])
        ≡ Ok (goes_on (variables ((I, int (pos 7)) ∷ (K, int (pos 3)) ∷ [])), 0) }
    // FOR i := 5 TO 3 DO k := k + 1; END_FOR;
    ensures above_its_limit { ran_with [] 1 (FOR (identifier I) (number Int (pos 5)) (number Int (pos 3)) None
        (stmts_of (one_more ∷ [])) ∷ []) ((I, int (pos 9)) ∷ (K, int (pos 0)) ∷ [])
        ≡ Ok (goes_on (variables ((I, int (pos 5)) ∷ (K, int (pos 0)) ∷ [])), 0) }
    // FOR i := 1 TO 3 BY -1 DO k := k + 1; END_FOR;
    ensures below_its_limit { ran_with [] 1 (FOR (identifier I) (number Int (pos 1)) (number Int (pos 3))
        (Some (number Int (negsuc 0))) (stmts_of (one_more ∷ [])) ∷ []) ((I, int (pos 9)) ∷ (K, int (pos 0)) ∷ [])
        ≡ Ok (goes_on (variables ((I, int (pos 1)) ∷ (K, int (pos 0)) ∷ [])), 0) }
    // FOR i := 4 TO 4 DO k := k + 1; END_FOR;
    ensures one_turn { ran_with [] 3 (FOR (identifier I) (number Int (pos 4)) (number Int (pos 4)) None
        (stmts_of (one_more ∷ [])) ∷ []) ((I, int (pos 9)) ∷ (K, int (pos 0)) ∷ [])
        ≡ Ok (goes_on (variables ((I, int (pos 5)) ∷ (K, int (pos 1)) ∷ [])), 0) }
    // FOR i := 1 TO k DO k := k + 1; END_FOR; with k = 2
    ensures limit_is_read_once { ran_with [] 5
        (FOR (identifier I) (number Int (pos 1)) (name K) None (stmts_of (one_more ∷ [])) ∷ []) ((I, int (pos 9))
        ∷ (K, int (pos 2)) ∷ []) ≡ Ok (goes_on (variables ((I, int (pos 3)) ∷ (K, int (pos 4)) ∷ [])), 0) }
{}

/// A FOR ends at the end of its type with the variable unchanged, else with the variable past the limit.
#[tactic(auto, unfolding(crate::specs::Runs::ran, crate::specs::Runs::ran_where, crate::specs::Runs::units_within, crate::specs::Loops::looped, crate::specs::Loops::turns, crate::specs::Loops::guarded, crate::specs::Loops::runs_on, crate::specs::Loops::step_on, crate::specs::Evaluation::truth_of))]
pub fn loops_with_a_variable()
    ensures end_of_type { ran_with [] 17 to_the_end ((I, int (pos 0)) ∷ (K, int (pos 0)) ∷ [])
        ≡ Ok (goes_on (variables ((I, int (pos 32767)) ∷ (K, int (pos 8)) ∷ [])), 0) }
    ensures past_the_limit { ran_with [] 100 to_3 ((I, int (pos 0)) ∷ [])
        ≡ Ok (goes_on (variables ((I, int (pos 4)) ∷ [])), 93) }
    ensures step_of_0 { ran_with [] 100 by_0 ((I, int (pos 0)) ∷ []) ≡ Err ZeroStep }
    ensures exit { ran_with [] 9 exit_at_3 ((I, int (pos 0)) ∷ (K, int (pos 0)) ∷ [])
        ≡ Ok (goes_on (variables ((I, int (pos 3)) ∷ (K, int (pos 2)) ∷ [])), 0) }
{}

/// A WHILE of three turns needs 8 ticks, and a REPEAT of three turns 6.
#[tactic(auto, unfolding(crate::specs::Runs::ran, crate::specs::Runs::ran_where, crate::specs::Runs::units_within, crate::specs::Loops::looped, crate::specs::Loops::turns, crate::specs::Loops::guarded, crate::specs::Loops::until, crate::specs::Evaluation::truth_of))]
pub fn loops_with_conditions()
    ensures budget_of_8 { ran_with [] 8 while_to_3 ((I, int (pos 0)) ∷ [])
        ≡ Ok (goes_on (variables ((I, int (pos 3)) ∷ [])), 0) }
    ensures budget_of_7 { ran_with [] 7 while_to_3 ((I, int (pos 0)) ∷ []) ≡ Err Budget }
    ensures repeat_of_6 { ran_with [] 6 repeat_to_3 ((I, int (pos 0)) ∷ [])
        ≡ Ok (goes_on (variables ((I, int (pos 3)) ∷ [])), 0) }
    ensures repeat_of_5 { ran_with [] 5 repeat_to_3 ((I, int (pos 0)) ∷ []) ≡ Err Budget }
{}
