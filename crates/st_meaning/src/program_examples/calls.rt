//! Worked examples of calls of blocks and functions of a text, each proved by computation.

ghost use Rattle.std.specs.Prelude.{◌≡◌, ◌∷◌, [], Ok, Err, pos, codes, true, false};
ghost use Rattle.st_types.specs.declared.fault.Fault.TheVariants.{Budget, DivisionByZero};
ghost use Rattle.st_types.specs.declared.kind.Kind.TheVariants.{Int, Dint};
ghost use Rattle.st_types.specs.Statements.{copied};
ghost use Rattle.st_meaning.specs.Scopes.{member_at};
ghost use Rattle.st_meaning.specs.Loops.{goes_on};
ghost use Rattle.st_meaning.specs.Runs.{outcome_of, store_after};
ghost use Rattle.st_meaning.specs.ProgramExamples.{own, number, name, set, bool_literal, target, identifier, int, bool, datum};
ghost use Rattle.st_meaning.specs.ProgramExamples.{ran_with, after_with, variables, square, A, C, I, K, P, X, Y};
ghost use Rattle.st_meaning.specs.CallExamples.{ran_calling, invoked, giving, copying, indexed, own_member, own_element};
ghost use Rattle.st_meaning.specs.CallExamples.{with_blocks, accumulator, accumulated, outer, two_outputs, early, fourth};
ghost use Rattle.st_meaning.specs.CallExamples.{calling, failing_block, first, calling_with, returning_at_2, Q, T, STEP};
ghost use Rattle.st_meaning.specs.CallExamples.{TOTAL};

use crate::outcome::Outcome;

/// A call of an instance evaluates its inputs, assigns them, runs the block's body and copies outputs. An input that is
/// not given keeps its value, and so do all members between calls.
#[tactic(auto, unfolding(crate::specs::Runs::ran, crate::specs::Runs::ran_where, crate::specs::Runs::units_within, crate::specs::StandardBlocks::block_of))]
pub fn calls_of_blocks()
    // a(step := 3, total => x); a(total => x);
    ensures kept_input { ran_calling (with_blocks (accumulator ∷ [])) ((A, codes "ACC") ∷ []) 4
        (invoked A (giving STEP (number Int (pos 3)) ∷ copying TOTAL X ∷ []) ∷ invoked A (copying TOTAL X ∷ []) ∷ [])
        (accumulated (pos 0) (pos 0) (pos 0)) ≡ Ok (goes_on (accumulated (pos 3) (pos 6) (pos 6)), 0) }
    // a(total => x, step := x); with x = 5 and a.total = 2
    ensures inputs_before_outputs { ran_calling (with_blocks (accumulator ∷ [])) ((A, codes "ACC") ∷ []) 2
        (invoked A (copying TOTAL X ∷ giving STEP (name X) ∷ []) ∷ []) (accumulated (pos 0) (pos 2) (pos 5))
        ≡ Ok (goes_on (accumulated (pos 5) (pos 7) (pos 7)), 0) }
    // t(p => i, q => a[i]); with i = 0
    ensures outputs_in_written_order { ran_calling (with_blocks (two_outputs ∷ [])) ((T, codes "TWO") ∷ []) 3
        (invoked T (copying P I ∷ copied (identifier Q) (indexed A (name I)) ∷ []) ∷ [])
        ((own_member T P, int (pos 0)) ∷ (own_member T Q, int (pos 0)) ∷ (own I, int (pos 0))
        ∷ (own_element A (pos 0), int (pos 0)) ∷ (own_element A (pos 1), int (pos 0)) ∷ [])
        ≡ Ok (
          goes_on ((own_member T P, int (pos 1)) ∷ (own_member T Q, int (pos 7)) ∷ (own I, int (pos 1))
              ∷ (own_element A (pos 0), int (pos 0)) ∷ (own_element A (pos 1), int (pos 7)) ∷ []),
          0,
        ) }
    // t(); t(); with t of a block with an instance of another
    ensures nested { ran_calling (with_blocks (accumulator ∷ outer ∷ [])) ((T, codes "OUTER") ∷ []) 6
        (invoked T [] ∷ invoked T [] ∷ [])
        ((member_at (own_member T A) STEP, int (pos 0)) ∷ (member_at (own_member T A) TOTAL, int (pos 0)) ∷ [])
        ≡ Ok (
          goes_on ((member_at (own_member T A) STEP, int (pos 2)) ∷ (member_at (own_member T A) TOTAL, int (pos 4))
              ∷ []),
          0,
        ) }
    ensures nested_of_2 { ran_calling (with_blocks (accumulator ∷ outer ∷ [])) ((T, codes "OUTER") ∷ []) 2
        (invoked T [] ∷ [])
        ((member_at (own_member T A) STEP, int (pos 0)) ∷ (member_at (own_member T A) TOTAL, int (pos 0)) ∷ [])
        ≡ Err Budget }
    // c(CU := TRUE, PV := 1, CV => x); with c a CTU
    ensures standard { ran_calling (with_blocks []) ((C, codes "CTU") ∷ []) 1
        (invoked C (giving (codes "CU") (bool_literal true) ∷ giving (codes "PV") (number Int (pos 1))
        ∷ copying (codes "CV") X ∷ []) ∷ [])
        ((own_member C (codes "CU"), bool false) ∷ (own_member C (codes "R"), bool false)
        ∷ (own_member C (codes "PV"), int (pos 0)) ∷ (own_member C (codes "Q"), bool false)
        ∷ (own_member C (codes "CV"), int (pos 0)) ∷ (own_member C (codes "M"), bool false) ∷ (own X, int (pos 0)) ∷ [])
        ≡ Ok (
          goes_on ((own_member C (codes "CU"), bool true) ∷ (own_member C (codes "R"), bool false)
              ∷ (own_member C (codes "PV"), int (pos 1)) ∷ (own_member C (codes "Q"), bool true)
              ∷ (own_member C (codes "CV"), int (pos 1)) ∷ (own_member C (codes "M"), bool true) ∷ (own X, int (pos 1)) ∷ []),
          0,
        ) }
{}

/// A function of the text calls another, whose statement takes a tick at each call.
#[tactic(auto, unfolding(crate::specs::Runs::ran, crate::specs::Runs::ran_where, crate::specs::Runs::units_within, crate::specs::StandardFunctions::standard_of, crate::specs::StandardFunctions::standard_functions))]
pub fn calls_within_functions()
    // y := Fourth(3);
    ensures four_ticks { ran_with (square ∷ fourth ∷ []) 4
        (set Y (calling_with (codes "FOURTH") (number Dint (pos 3))) ∷ []) ((Y, datum Dint (pos 0)) ∷ [])
        ≡ Ok (goes_on (variables ((Y, datum Dint (pos 81)) ∷ [])), 0) }
    ensures three_ticks { ran_with (square ∷ fourth ∷ []) 3
        (set Y (calling_with (codes "FOURTH") (number Dint (pos 3))) ∷ []) ((Y, datum Dint (pos 0)) ∷ []) ≡ Err Budget }
{}

/// RETURN leaves a block, and its caller goes on: outputs are copied, and the next statement runs.
#[tactic(auto, unfolding(crate::specs::Runs::ran, crate::specs::Runs::ran_where, crate::specs::Runs::units_within, crate::specs::StandardBlocks::block_of))]
pub fn returns_from_blocks()
    // t(p => x); y := 9;
    ensures { ran_calling (with_blocks (early ∷ [])) ((T, codes "EARLY") ∷ []) 4
        (invoked T (copying P X ∷ []) ∷ set Y (number Int (pos 9)) ∷ [])
        ((own_member T P, int (pos 0)) ∷ (own X, int (pos 0)) ∷ (own Y, int (pos 0)) ∷ [])
        ≡ Ok (goes_on ((own_member T P, int (pos 1)) ∷ (own X, int (pos 1)) ∷ (own Y, int (pos 9)) ∷ []), 0) }
{}

/// RETURN in a loop leaves the whole function, whose result is the value that its name has then.
#[tactic(auto, unfolding(crate::specs::Runs::ran, crate::specs::Runs::ran_where, crate::specs::Runs::store_after, crate::specs::Runs::units_within, crate::specs::StandardFunctions::standard_of, crate::specs::StandardFunctions::standard_functions, crate::specs::Loops::looped, crate::specs::Loops::turns, crate::specs::Loops::guarded, crate::specs::Loops::runs_on, crate::specs::Loops::step_on, crate::specs::Evaluation::truth_of))]
pub fn returns_from_functions()
    // y := First(4); and y := First(20);
    ensures within_the_loop { after_with (first ∷ []) (set Y (calling_with (codes "FIRST") (number Int (pos 4))) ∷ [])
        ((Y, int (pos 0)) ∷ []) ≡ variables ((Y, int (pos 4)) ∷ []) }
    ensures behind_the_loop { after_with (first ∷ []) (set Y (calling_with (codes "FIRST") (number Int (pos 20))) ∷ [])
        ((Y, int (pos 0)) ∷ []) ≡ variables ((Y, int (pos 100)) ∷ []) }
{}

/// RETURN in a loop within a loop ends the program's statements: nothing after the loops runs.
#[tactic(auto, unfolding(crate::specs::Runs::ran, crate::specs::Runs::ran_where, crate::specs::Runs::store_after, crate::specs::Runs::units_within, crate::specs::Loops::looped, crate::specs::Loops::turns, crate::specs::Loops::guarded, crate::specs::Loops::runs_on, crate::specs::Loops::step_on, crate::specs::Evaluation::truth_of))]
pub fn returns_from_loops()
    // FOR i := 1 TO 5 DO WHILE TRUE DO IF i = 2 THEN RETURN; END_IF; EXIT; END_WHILE; k := k + 1; END_FOR; k := 100;
    ensures { after_with [] (returning_at_2 ∷ set K (number Int (pos 100)) ∷ [])
        ((I, int (pos 0)) ∷ (K, int (pos 0)) ∷ []) ≡ variables ((I, int (pos 2)) ∷ (K, int (pos 1)) ∷ []) }
{}

/// A fault in a block ends the whole run, and undoes what the block and its caller assigned: `x := 5; t();`.
#[tactic(auto, unfolding(crate::specs::Runs::ran, crate::specs::Runs::ran_where, crate::specs::Runs::outcome_of, crate::specs::Runs::store_after, crate::specs::Runs::units_within, crate::specs::StandardBlocks::block_of))]
pub fn faults_in_blocks()
    ensures outcome { outcome_of (calling (with_blocks (failing_block ∷ [])) ((T, codes "FAILS") ∷ [])
        (set X (number Int (pos 5)) ∷ invoked T [] ∷ [])) 9 ((own_member T P, int (pos 0)) ∷ (own X, int (pos 0)) ∷ [])
        [] 0 ≡ Outcome.Faulted DivisionByZero }
    ensures undone { store_after (calling (with_blocks (failing_block ∷ [])) ((T, codes "FAILS") ∷ [])
        (set X (number Int (pos 5)) ∷ invoked T [] ∷ [])) 9 ((own_member T P, int (pos 0)) ∷ (own X, int (pos 0)) ∷ [])
        [] 0 ≡ (own_member T P, int (pos 0)) ∷ (own X, int (pos 0)) ∷ [] }
{}
