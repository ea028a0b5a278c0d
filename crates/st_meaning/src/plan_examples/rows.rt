//! Worked examples of the input of an execution: the inputs and the moment of its own activation's row, each proved by
//! computation.

ghost use Rattle.std.specs.Prelude.{◌≡◌, ℕ, ℤ, ◌∷◌, [], List, Option, Some, None, map, pos, negsuc, Bool, true, false};
ghost use Rattle.std.specs.Prelude.{codes};
ghost use Rattle.st_types.specs.declared.fault.Fault.TheVariants.{DivisionByZero};
ghost use Rattle.st_types.specs.declared.kind.Kind.TheVariants.{Int, Bool as Boolean};
ghost use Rattle.st_types.specs.declared.literal.Literal.TheVariants as literals;
ghost use Rattle.st_types.specs.declared.operator.BinaryOperator.TheVariants.{Add, Divide};
ghost use Rattle.st_types.specs.Values.{Datum};
ghost use Rattle.st_types.specs.Expressions.{literal, binary};
ghost use Rattle.st_types.specs.Statements.{Stmt, stmts_of, given, invoke};
ghost use Rattle.st_types.specs.declared.entry.Entry.{Entry};
ghost use Rattle.st_types.specs.declared.entry.Entry.TheVariants.{Row as latched, Done as ran};
ghost use Rattle.st_meaning.specs.Stores.{Store, get};
ghost use Rattle.st_meaning.specs.Scopes.{unowned, member_at};
ghost use Rattle.st_meaning.specs.StandardBlocks.{TON, members_of};
ghost use Rattle.st_meaning.specs.Plans.{Plan, no_single, single_input, single_global};
ghost use Rattle.st_meaning.specs.Logs.{after, outcomes_of, past_of};
ghost use Rattle.st_meaning.specs.PlanExamples.{of};
ghost use Rattle.st_meaning.specs.ProgramExamples.{body_over_globals, identifier, datum, set, number, name, bool_literal, owner, own};
ghost use Rattle.st_meaning.specs.ProgramExamples.{bool, int, time, C, X, Y, Z};

use crate::outcome::Outcome;

/// A program with a TON t, every 50 ms: `t(IN := TRUE, PT := T#100ms);`. Q and ET after its last run.
#[tactic(auto, unfolding(crate::specs::Runs::ran, crate::specs::Runs::ran_where, crate::specs::Runs::store_after, crate::specs::Runs::units_within, crate::specs::StandardBlocks::block_of))]
pub fn moments_of_rows()
    ensures { let plan : Plan = record {
      enumerations = [];
      variables = [];
      inputs = [];
      resources = 1;
      budget = 10;
      tasks = record { single = no_single; interval = 50; priority = 0 } ∷ [];
      programs = record {
        resource = 0;
        task = 0;
        code = record {
          library = record { functions = []; blocks = [] };
          owner = owner;
          body = record {
            externals = [];
            instances = (codes "T", codes "TON") ∷ [];
            statements = stmts_of (invoke (identifier (codes "T")) (given (identifier (codes "IN")) (bool_literal true)
                ∷ given (identifier (codes "PT")) (literal (literals.Duration 0 100)) ∷ []) ∷ []);
          };
        };
      } ∷ [];
    } in
        let start = map (λ m. (member_at (own (codes "T")) m.0, datum m.1 (pos 0))) (members_of TON) in
        let row : ℕ → Entry = λ moment. latched (record { moment = moment; image = [] }) in
        let q_et : List Entry → List (Option Datum) = λ log.
        map (λ x. get (after plan start log) (member_at (own (codes "T")) x)) (codes "Q" ∷ codes "ET" ∷ []) in
        (q_et (row 50 ∷ ran (of 0 0) ∷ []) ≡ Some (bool false) ∷ Some (time (pos 0)) ∷ [])
        × (q_et (row 50 ∷ ran (of 0 0) ∷ row 150 ∷ ran (of 0 1) ∷ []) ≡ Some (bool true) ∷ Some (time (pos 100)) ∷ [])
        -- it runs on the row at 100 ms, and not on the one at 150 ms
        × (q_et (row 50 ∷ ran (of 0 0) ∷ row 100 ∷ row 150 ∷ ran (of 0 1) ∷ []) ≡ Some (bool false)
        ∷ Some (time (pos 50)) ∷ [])
        -- its time counts from 50 ms, and not from 150 ms
        × (q_et (row 50 ∷ row 150 ∷ ran (of 0 0) ∷ row 200 ∷ ran (of 0 2) ∷ []) ≡ Some (bool true)
        ∷ Some (time (pos 100)) ∷ []) }
{}

/// A program every 10 ms over an input z: `x := x + z; c := TRUE; y := 12 / x;`, with x and y 0 and c FALSE at first. Each
/// execution has its own row's z, and the variables as the one before left them; one that faults leaves them. Of two more
/// tasks SINGLE is c, sampled in the variables before the row, and an input g, sampled in the row's image.
#[tactic(auto, unfolding(crate::specs::Runs::ran, crate::specs::Runs::ran_where, crate::specs::Runs::store_after, crate::specs::Runs::outcome_of, crate::specs::Runs::units_within))]
pub fn inputs_of_rows()
    ensures { let plan : Plan = record {
      enumerations = [];
      variables = [];
      inputs = record { path = unowned Z; kind = Int } ∷ record { path = unowned (codes "G"); kind = Boolean } ∷ [];
      resources = 1;
      budget = 10;
      tasks = record { single = no_single; interval = 10; priority = 0 }
          ∷ record { single = single_global (unowned C); interval = 0; priority = 0 }
          ∷ record { single = single_input 1; interval = 0; priority = 0 }
          ∷ [];
      programs = record {
        resource = 0;
        task = 0;
        code = record {
          library = record { functions = []; blocks = [] };
          owner = owner;
          body = body_over_globals (set X (binary Add (name X) (name Z)) ∷ set C (bool_literal true)
              ∷ set Y (binary Divide (number Int (pos 12)) (name X)) ∷ []);
        };
      } ∷ [];
    } in
        let store : ℕ → Bool → ℕ → Store =
        λ x c y. (unowned X, int (pos x)) ∷ (unowned C, bool c) ∷ (unowned Y, int (pos y)) ∷ [] in
        let row : ℕ → ℤ → Bool → Entry =
        λ moment z g. latched (record { moment = moment; image = int z ∷ bool g ∷ [] }) in
        let five_rows : List Entry = row 0 (pos 1) true ∷ row 5 (pos 2) false ∷ ran (of 0 0) ∷ row 10 (pos 5) true
        ∷ row 15 (negsuc 0) false ∷ ran (of 0 2) ∷ row 20 (negsuc 5) true ∷ ran (of 0 4) ∷ [] in
        (after plan (store 0 false 0) (row 0 (pos 1) true ∷ row 5 (pos 2) false ∷ ran (of 0 0) ∷ []) ≡ store 1 true 12)
        × (after plan (store 0 false 0) five_rows ≡ store 6 true 2)
        × (outcomes_of plan (store 0 false 0) five_rows ≡ None ∷ None ∷ Some Outcome.Done ∷ None ∷ None
        ∷ Some Outcome.Done ∷ None ∷ Some (Outcome.Faulted DivisionByZero) ∷ [])
        × (map (λ t. t.samples) (past_of plan (store 0 false 0) five_rows).history.sampled ≡ (false ∷ false ∷ true ∷ [])
        ∷ (false ∷ false ∷ false ∷ []) ∷ (false ∷ true ∷ true ∷ []) ∷ (false ∷ true ∷ false ∷ [])
        ∷ (false ∷ true ∷ true ∷ []) ∷ []) }
{}
