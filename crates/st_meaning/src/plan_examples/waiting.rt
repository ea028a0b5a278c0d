//! Worked examples of the activations that wait, the best one, and overruns.

ghost use Rattle.std.specs.Prelude.{◌≡◌, ◌∷◌, [], List, true, false};
ghost use Rattle.st_meaning.specs.declared.plan.Schedule.{Schedule};
ghost use Rattle.st_meaning.specs.Due.{History, Waits, IsBest, NoneWaits, HasOverruns, sooner, with_row, with_run};
ghost use Rattle.st_meaning.specs.PlanExamples.{every, rows_at, row_with, three_programs, of};

/// The lower PRIORITY number comes first, whatever the rows; then the lower row, whatever the declarations; then the
/// program that was declared first. In `three_programs` P1 and P2 have PRIORITY 1, and P3 has 0.
pub fn order_of_activations()
    ensures priority_before_row { sooner three_programs (of 2 3) (of 0 0) ≡ true }
    ensures not_row_before_priority { sooner three_programs (of 0 0) (of 2 3) ≡ false }
    ensures row_before_declaration { sooner three_programs (of 1 0) (of 0 1) ≡ true }
    ensures not_declaration_before_row { sooner three_programs (of 0 1) (of 1 0) ≡ false }
    ensures declaration_at_last { sooner three_programs (of 0 1) (of 1 1) ≡ true }
    ensures not_the_later_declaration { sooner three_programs (of 1 1) (of 0 1) ≡ false }
    ensures not_itself { sooner three_programs (of 1 1) (of 1 1) ≡ false }
{}

/// P1 by SINGLE and P2 every 20 ms have one PRIORITY. SINGLE rises at row 1: P2 of row 0 is the best, and not P1 of row
/// 1; once P2 has run P1 is.
pub fn row_before_declaration()
    ensures { let schedules : List Schedule = record { resource = 0; task = 0; interval = 0; priority = 1 }
        ∷ record { resource = 0; task = 1; interval = 20; priority = 1 } ∷ [] in
        let h : History = record { sampled = row_with 0 false ∷ row_with 5 true ∷ []; runs = [] } in
        IsBest schedules h 0 (of 1 0) × (IsBest schedules h 0 (of 0 1) → ⊥)
        × IsBest schedules (with_run h 1) 0 (of 0 1) }
{}

/// P1 of resource 0 has PRIORITY 0, and P2 of resource 1 has 5; both are due every 10 ms. Each is the best of its own
/// resource alone, nothing of resource 2 waits, and nothing of a resource whose program has run, whatever waits
/// elsewhere.
pub fn best_of_each_resource()
    ensures { let schedules : List Schedule = record { resource = 0; task = 0; interval = 10; priority = 0 }
        ∷ record { resource = 1; task = 0; interval = 10; priority = 5 } ∷ [] in
        let h : History = record { sampled = rows_at (0 ∷ []); runs = [] } in
        IsBest schedules h 0 (of 0 0)
        × IsBest schedules h 1 (of 1 0)
        × IsBest schedules (with_row (with_run h 1) 10 (false ∷ [])) 1 (of 1 1)
        × NoneWaits schedules h 2
        × NoneWaits schedules (with_run h 0) 0
        × NoneWaits schedules (with_run h 1) 1
        × (NoneWaits schedules h 1 → ⊥)
        × (IsBest schedules h 1 (of 0 0) → ⊥) }
{}

/// A program every 10 ms. It waits from the first row at which it is due to its Done, and no more after it, nor at a
/// row at which it is not due; it waits again from the next row at which it is due.
pub fn waiting_and_waiting_again()
    ensures waits { Waits (every 10) (record { sampled = rows_at (0 ∷ []); runs = [] }) (of 0 0) }
    ensures goes_on_waiting { Waits (every 10) (record { sampled = rows_at (0 ∷ 10 ∷ []); runs = [] }) (of 0 0) }
    ensures not_twice { Waits (every 10) (record { sampled = rows_at (0 ∷ 10 ∷ []); runs = [] }) (of 0 1) → ⊥ }
    ensures behind_its_done { NoneWaits (every 10) (with_run (record { sampled = rows_at (0 ∷ 10 ∷ []); runs = [] }) 0)
        0 }
    ensures not_due_again { NoneWaits (every 10)
        (with_row (with_run (record { sampled = rows_at (0 ∷ []); runs = [] }) 0) 5 (false ∷ [])) 0 }
    ensures due_again { Waits (every 10) (with_row (with_row
        (with_run (record { sampled = rows_at (0 ∷ []); runs = [] }) 0) 5 (false ∷ [])) 10 (false ∷ [])) (of 0 2) }
    // by SINGLE, which rises at rows 0 and 2
    ensures rises_again { Waits (every 0) (record {
      sampled = row_with 0 true ∷ row_with 5 false ∷ row_with 10 true
          ∷ [];
      runs = record { program = 0; rows = 1 } ∷ [];
    }) (of 0 2) }
{}

/// A program every 10 ms that has not run has an overrun at each further row at which it is due; its Done takes none
/// away, and is none.
pub fn overruns_while_one_waits()
    ensures none { HasOverruns (every 10) (record { sampled = rows_at (0 ∷ 5 ∷ []); runs = [] }) 0 0 }
    ensures two { HasOverruns (every 10) (record { sampled = rows_at (0 ∷ 10 ∷ 20 ∷ []); runs = [] }) 0 2 }
    ensures not_one { HasOverruns (every 10) (record { sampled = rows_at (0 ∷ 10 ∷ 20 ∷ []); runs = [] }) 0 1 → ⊥ }
    ensures behind_a_done { HasOverruns (every 10)
        (with_run (record { sampled = rows_at (0 ∷ 10 ∷ 20 ∷ []); runs = [] }) 0) 0 2 }
    ensures waiting_again { HasOverruns (every 10)
        (record { sampled = rows_at (0 ∷ 10 ∷ 20 ∷ 30 ∷ 40 ∷ []); runs = record { program = 0; rows = 3 } ∷ [] }) 0 3 }
{}
