//! Worked examples of when a program is due, each proved by computation.

ghost use Rattle.std.specs.Prelude.{◌≡◌, ◌∷◌, [], true, false};
ghost use Rattle.st_meaning.specs.Scopes.{unowned};
ghost use Rattle.st_meaning.specs.Plans.{sample_of, no_single, single_input, single_global};
ghost use Rattle.st_meaning.specs.PlanExamples.{every, row_with, dues};
ghost use Rattle.st_meaning.specs.ProgramExamples.{its_globals, bool, C};

/// SINGLE counts as FALSE before a life's first row, so that a SINGLE that is TRUE there makes the program due; while it
/// stays TRUE, nothing does.
pub fn single_at_the_first_row()
    ensures alone { dues (every 0) 0 (row_with 0 true ∷ row_with 5 true ∷ row_with 10 false ∷ row_with 15 true ∷ [])
        ≡ true ∷ false ∷ false ∷ true ∷ [] }
    ensures with_an_interval { dues (every 10) 0 (row_with 0 true ∷ row_with 10 true ∷ row_with 20 false
        ∷ row_with 25 true ∷ []) ≡ true ∷ false ∷ true ∷ true ∷ [] }
{}

/// If SINGLE is FALSE, the program is due by its interval: at the first row, and if a further whole interval has gone by
/// since the row before.
pub fn interval_beside_single()
    ensures no_interval_since { dues (every 10) 0 (row_with 0 false ∷ row_with 5 true ∷ row_with 10 true
        ∷ row_with 15 false ∷ []) ≡ true ∷ true ∷ false ∷ false ∷ [] }
    ensures interval_since { dues (every 10) 0 (row_with 0 false ∷ row_with 5 true ∷ row_with 10 true
        ∷ row_with 20 false ∷ []) ≡ true ∷ true ∷ false ∷ true ∷ [] }
    // SINGLE is absent
    ensures no_single { dues (record { resource = 0; task = 1; interval = 10; priority = 0 } ∷ []) 0 (row_with 0 true
        ∷ row_with 5 true ∷ row_with 10 true ∷ row_with 15 true ∷ []) ≡ true ∷ false ∷ true ∷ false ∷ [] }
{}

/// SINGLE is sampled in the row's image if it is an input, and in the variables if it is a global; if it is absent it is
/// FALSE.
pub fn samples_of_single()
    ensures absent { sample_of (its_globals true) (bool true ∷ bool true ∷ []) no_single ≡ false }
    ensures input { sample_of (its_globals false) (bool false ∷ bool true ∷ []) (single_input 1) ≡ true }
    ensures input_off { sample_of (its_globals true) (bool true ∷ bool false ∷ []) (single_input 1) ≡ false }
    ensures global { sample_of (its_globals true) (bool false ∷ []) (single_global (unowned C)) ≡ true }
    ensures global_off { sample_of (its_globals false) (bool true ∷ []) (single_global (unowned C)) ≡ false }
{}
