//! Worked examples of texts that run on their own layouts, each proved by computation.

ghost use Rattle.std.specs.Prelude.{◌≡◌, ◌∷◌, [], codes};
ghost use Rattle.st_types.specs.declared.kind.Kind.TheVariants.{Time, Bool as Boolean};
ghost use Rattle.layout.specs.LayoutExamples.{int, datum};
ghost use Rattle.layout.specs.InitialExamples.{mode};
ghost use Rattle.layout.specs.LibraryExamples.{text_of_calls, stores_after_one_run};
ghost use Rattle.layout.specs.PartExamples.{stores_after_a_row};

/// An instance of a program calls a block of the text, which calls another one and a function: each finds its variables
/// in the layout, and the other instance's are untouched.
#[tactic(auto, unfolding(crate::specs::Types::shape_within, st_meaning::specs::StandardBlocks::block_of, st_meaning::specs::StandardFunctions::standard_of, st_meaning::specs::StandardFunctions::standard_functions, st_meaning::specs::Runs::ran, st_meaning::specs::Runs::ran_where, st_meaning::specs::Runs::store_after, st_meaning::specs::Runs::units_within))]
pub fn a_run_of_each_instance()
    ensures { stores_after_one_run text_of_calls
        ≡ ((codes "G", int 7) ∷ (codes "H", int 0)
        ∷ (codes "R/P.O.A.STEP", int 3) ∷ (codes "R/P.O.A.TOTAL", int 13)
        ∷ (codes "R/P.O.T.IN", datum Boolean 0) ∷ (codes "R/P.O.T.PT", datum Time 0)
        ∷ (codes "R/P.O.T.Q", datum Boolean 0) ∷ (codes "R/P.O.T.ET", datum Time 0)
        ∷ (codes "R/P.O.T.RUN", datum Boolean 0) ∷ (codes "R/P.O.T.START", datum Time 0)
        ∷ (codes "R/P.O.P", int 26) ∷ (codes "R/P.X", int 26)
        ∷ (codes "R/Q.O.A.STEP", int 2) ∷ (codes "R/Q.O.A.TOTAL", int 10)
        ∷ (codes "R/Q.O.T.IN", datum Boolean 0) ∷ (codes "R/Q.O.T.PT", datum Time 0)
        ∷ (codes "R/Q.O.T.Q", datum Boolean 0) ∷ (codes "R/Q.O.T.ET", datum Time 0)
        ∷ (codes "R/Q.O.T.RUN", datum Boolean 0) ∷ (codes "R/Q.O.T.START", datum Time 0)
        ∷ (codes "R/Q.O.P", int 0) ∷ (codes "R/Q.X", int 0) ∷ [])
        ∷ ((codes "G", int 7) ∷ (codes "H", int 0)
        ∷ (codes "R/P.O.A.STEP", int 2) ∷ (codes "R/P.O.A.TOTAL", int 10)
        ∷ (codes "R/P.O.T.IN", datum Boolean 0) ∷ (codes "R/P.O.T.PT", datum Time 0)
        ∷ (codes "R/P.O.T.Q", datum Boolean 0) ∷ (codes "R/P.O.T.ET", datum Time 0)
        ∷ (codes "R/P.O.T.RUN", datum Boolean 0) ∷ (codes "R/P.O.T.START", datum Time 0)
        ∷ (codes "R/P.O.P", int 0) ∷ (codes "R/P.X", int 0)
        ∷ (codes "R/Q.O.A.STEP", int 3) ∷ (codes "R/Q.O.A.TOTAL", int 13)
        ∷ (codes "R/Q.O.T.IN", datum Boolean 0) ∷ (codes "R/Q.O.T.PT", datum Time 0)
        ∷ (codes "R/Q.O.T.Q", datum Boolean 0) ∷ (codes "R/Q.O.T.ET", datum Time 0)
        ∷ (codes "R/Q.O.T.RUN", datum Boolean 0) ∷ (codes "R/Q.O.T.START", datum Time 0)
        ∷ (codes "R/Q.O.P", int 26) ∷ (codes "R/Q.X", int 26) ∷ [])
        ∷ [] }
{}

/// A run over elements, fields and values of an enumerated type, in a loop, with an instance of a block, a timer, a
/// function and an input of the plant, needs 13 ticks: each name finds its part of the layout.
#[tactic(auto, unfolding(crate::specs::Types::shape_within, st_meaning::specs::StandardBlocks::block_of, st_meaning::specs::StandardFunctions::standard_of, st_meaning::specs::StandardFunctions::standard_functions, st_meaning::specs::Runs::ran, st_meaning::specs::Runs::ran_where, st_meaning::specs::Runs::store_after, st_meaning::specs::Runs::units_within, st_meaning::specs::Loops::looped, st_meaning::specs::Loops::turns, st_meaning::specs::Loops::guarded, st_meaning::specs::Loops::runs_on, st_meaning::specs::Loops::step_on))]
pub fn a_run_over_parts()
    ensures too_few { stores_after_a_row 12 ≡ stores_after_a_row 0 }
    ensures enough { stores_after_a_row 13
        ≡ ((codes "G", int 24)
        ∷ (codes "R/P.A[1].M", datum mode 0) ∷ (codes "R/P.A[1].N", datum mode 2)
        ∷ (codes "R/P.A[2].M", datum mode 2) ∷ (codes "R/P.A[2].N", datum mode 1)
        ∷ (codes "R/P.I", int 3) ∷ (codes "R/P.K", int 12)
        ∷ (codes "R/P.C.STEP", int 2) ∷ (codes "R/P.C.TOTAL", int 12)
        ∷ (codes "R/P.T.IN", datum Boolean 1) ∷ (codes "R/P.T.PT", datum Time 10)
        ∷ (codes "R/P.T.Q", datum Boolean 0) ∷ (codes "R/P.T.ET", datum Time 0)
        ∷ (codes "R/P.T.RUN", datum Boolean 1) ∷ (codes "R/P.T.START", datum Time 5) ∷ [])
        ∷ [] }
{}
