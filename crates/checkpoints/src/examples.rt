//! Worked examples of checkpoints, each proved by computation: a life of two programs, COUNT by INTERVAL and STORE by
//! SINGLE.

ghost use Rattle.std.specs.Prelude.{◌≡◌, ◌∷◌, ◌++◌, [], Some, None, true, false, pos, codes, fold};
ghost use Rattle.st_types.specs.declared.fault.Fault.TheVariants.{Range};
ghost use Rattle.st_meaning.specs.declared.outcome.Outcome.TheVariants as outcomes;
ghost use Rattle.st_meaning.specs.PlanExamples.{of};
ghost use Rattle.st_meaning.specs.RestartExamples.{int_line};
ghost use Rattle.checkpoints.specs.Checkpoints.{first_checkpoint};
ghost use Rattle.checkpoints.specs.Compaction.{compact_entry, compacted};
ghost use Rattle.checkpoints.specs.Continuation.{IsWaitingIn, IsBestWaiting, NoneIsWaitingIn, MayContinue};
ghost use Rattle.checkpoints.specs.Continuation.{outcomes_after};
ghost use Rattle.checkpoints.specs.Prefixes.{kept_of_checkpoint};
ghost use Rattle.checkpoints.specs.EndlessLives.{entry_comes, record_is_saved, after_events, new_life};
ghost use Rattle.checkpoints.specs.CheckpointExamples.{two_programs, x_y, z_g, row, done, five_rows, waits_with, rests};
ghost use Rattle.checkpoints.specs.CheckpointExamples.{compacted_from_100};

/// Before its first row a life has its variables at the start, and no program waits.
pub fn no_entry_yet()
    ensures { first_checkpoint two_programs (x_y 100 0) ≡ record {
      store = x_y 100 0;
      rows = 0;
      first = 0;
      last_row = None;
      samples = [];
      programs = rests 0 ∷ rests 0 ∷ [];
    } }
{}

/// COUNT is due at 5, 15 and 40 ms, since its interval counts from the life's first row; STORE is due at 14 and 40 ms,
/// when SINGLE rises. Each waits with the row at which it was due first, and has an overrun for each later one.
pub fn rows_are_compacted()
    ensures { compacted_from_100 five_rows ≡ record {
      store = x_y 100 0;
      rows = 5;
      first = 5;
      last_row = Some (z_g 40 16 true);
      samples = false ∷ true ∷ [];
      programs = waits_with 0 (z_g 5 1 false) 2 ∷ waits_with 1 (z_g 14 2 true) 1 ∷ [];
    } }
{}

/// STORE runs with z of its own row, which is 2, and then COUNT with z of its row, which is 1. Both have written their
/// variable, wait no more and keep their overruns.
#[tactic(auto, unfolding(st_meaning::specs::Runs::ran, st_meaning::specs::Runs::ran_where, st_meaning::specs::Runs::store_after, st_meaning::specs::Runs::units_within))]
pub fn executions_are_compacted()
    ensures one { compacted_from_100 (five_rows ++ done 1 1 ∷ []) ≡ record {
      store = x_y 100 102;
      rows = 5;
      first = 5;
      last_row = Some (z_g 40 16 true);
      samples = false ∷ true ∷ [];
      programs = waits_with 0 (z_g 5 1 false) 2 ∷ rests 1 ∷ [];
    } }
    ensures both { compacted_from_100 (five_rows ++ done 1 1 ∷ done 0 0 ∷ []) ≡ record {
      store = x_y 101 102;
      rows = 5;
      first = 5;
      last_row = Some (z_g 40 16 true);
      samples = false ∷ true ∷ [];
      programs = rests 2 ∷ rests 1 ∷ [];
    } }
{}

/// A life goes on from its checkpoint: at 45 ms COUNT's interval has gone by again, and SINGLE of STORE doesn't rise,
/// since it was TRUE at the row before.
#[tactic(auto, unfolding(st_meaning::specs::Runs::ran, st_meaning::specs::Runs::ran_where, st_meaning::specs::Runs::store_after, st_meaning::specs::Runs::units_within))]
pub fn lives_go_on_from_checkpoints()
    ensures { fold (compact_entry two_programs) (compacted_from_100 (five_rows ++ done 1 1 ∷ done 0 0 ∷ []))
        (row 45 32 true ∷ []) ≡ record {
          store = x_y 101 102;
          rows = 6;
          first = 5;
          last_row = Some (z_g 45 32 true);
          samples = false ∷ true ∷ [];
          programs = waits_with 5 (z_g 45 32 true) 2 ∷ rests 1 ∷ [];
        } }
{}

/// An execution that faults writes nothing, and its program waits no more: x is the greatest INT already.
#[tactic(auto, unfolding(st_meaning::specs::Runs::ran, st_meaning::specs::Runs::ran_where, st_meaning::specs::Runs::store_after, st_meaning::specs::Runs::units_within))]
pub fn faults_are_compacted()
    ensures { compacted two_programs (x_y 32767 0) (row 5 1 false ∷ done 0 0 ∷ []) ≡ record {
      store = x_y 32767 0;
      rows = 1;
      first = 5;
      last_row = Some (z_g 5 1 false);
      samples = false ∷ false ∷ [];
      programs = rests 0 ∷ rests 0 ∷ [];
    } }
{}

/// Executions end as they do on the whole past: COUNT is done once, and then x leaves its type.
#[tactic(auto, unfolding(st_meaning::specs::Runs::ran, st_meaning::specs::Runs::ran_where, st_meaning::specs::Runs::store_after, st_meaning::specs::Runs::outcome_of, st_meaning::specs::Runs::units_within))]
pub fn executions_end_after_checkpoints()
    ensures { outcomes_after two_programs (compacted two_programs (x_y 32766 0) (row 5 1 false ∷ []))
        (done 0 0 ∷ row 15 1 false ∷ done 0 1 ∷ []) ≡ Some outcomes.Done ∷ None ∷ Some (outcomes.Faulted Range) ∷ [] }
{}

/// A program waits with its own first row, and not with a later one. Of two that wait STORE is the best, by its
/// PRIORITY, though its row is later.
#[tactic(auto, unfolding(st_meaning::specs::Runs::ran, st_meaning::specs::Runs::ran_where, st_meaning::specs::Runs::store_after, st_meaning::specs::Runs::units_within))]
pub fn programs_that_wait()
    ensures count { IsWaitingIn (compacted_from_100 five_rows) (of 0 0) }
    ensures count_not_with_the_newest { IsWaitingIn (compacted_from_100 five_rows) (of 0 4) → ⊥ }
    ensures store { IsWaitingIn (compacted_from_100 five_rows) (of 1 1) }
    ensures store_not_with_the_newest { IsWaitingIn (compacted_from_100 five_rows) (of 1 4) → ⊥ }
    ensures no_third { IsWaitingIn (compacted_from_100 five_rows) (of 2 0) → ⊥ }
    ensures none_after_its_done { IsWaitingIn (compacted_from_100 (five_rows ++ done 1 1 ∷ [])) (of 1 1) → ⊥ }
    ensures first { IsBestWaiting two_programs (compacted_from_100 five_rows) 0 (of 1 1) }
    ensures not_first { IsBestWaiting two_programs (compacted_from_100 five_rows) 0 (of 0 0) → ⊥ }
    ensures second { IsBestWaiting two_programs (compacted_from_100 (five_rows ++ done 1 1 ∷ [])) 0 (of 0 0) }
    ensures then_none { NoneIsWaitingIn two_programs (compacted_from_100 (five_rows ++ done 1 1 ∷ done 0 0 ∷ [])) 0 }
    ensures none_elsewhere { NoneIsWaitingIn two_programs (compacted_from_100 five_rows) 1 }
    ensures not_none { NoneIsWaitingIn two_programs (compacted_from_100 five_rows) 0 → ⊥ }
{}

/// A row may follow if it is later than the last one, or than the moment before the life if there is none, and if it
/// fits the plan. A Done may follow if its activation waits.
pub fn entries_that_may_follow()
    ensures later { MayContinue two_programs (Some 9) (compacted_from_100 five_rows) (row 41 0 false) }
    ensures not_later { MayContinue two_programs (Some 9) (compacted_from_100 five_rows) (row 40 0 false) → ⊥ }
    ensures later_than_before { MayContinue two_programs (Some 9) (compacted_from_100 []) (row 10 0 false) }
    ensures not_later_than_before { MayContinue two_programs (Some 9) (compacted_from_100 []) (row 9 0 false) → ⊥ }
    ensures first_of_all { MayContinue two_programs None (compacted_from_100 []) (row 0 0 false) }
    ensures not_fitting { MayContinue two_programs None (compacted_from_100 []) (row 41 32768 false) → ⊥ }
    ensures waiting { MayContinue two_programs None (compacted_from_100 five_rows) (done 0 0) }
    ensures not_waiting { MayContinue two_programs None (compacted_from_100 five_rows) (done 0 2) → ⊥ }
{}

/// The record of a checkpoint has the retained variables, and the moment of the last row; before the first row it has
/// the moment before the life.
#[tactic(auto, unfolding(st_meaning::specs::Runs::ran, st_meaning::specs::Runs::ran_where, st_meaning::specs::Runs::store_after, st_meaning::specs::Runs::units_within))]
pub fn records_of_checkpoints()
    ensures after_rows { kept_of_checkpoint two_programs (Some 3) (compacted_from_100 (five_rows ++ done 0 0 ∷ []))
        ≡ record { lines = int_line (codes "X") (pos 101) ∷ []; moment = Some 40 } }
    ensures at_first { kept_of_checkpoint two_programs (Some 3) (compacted_from_100 [])
        ≡ record { lines = int_line (codes "X") (pos 100) ∷ []; moment = Some 3 } }
{}

/// A record is saved after two of four entries: it has what the two left, and these are acknowledged. The checkpoint is
/// that of all four.
#[tactic(auto, unfolding(st_meaning::specs::Runs::ran, st_meaning::specs::Runs::ran_where, st_meaning::specs::Runs::store_after, st_meaning::specs::Runs::units_within))]
pub fn events_of_an_endless_life()
    ensures { after_events two_programs None (new_life two_programs (x_y 100 0) None)
        (entry_comes (row 5 1 false) ∷ entry_comes (done 0 0) ∷ record_is_saved ∷ entry_comes (row 15 2 false)
        ∷ entry_comes (done 0 1) ∷ [])
        ≡ record {
          checkpoint = compacted_from_100 (row 5 1 false ∷ done 0 0 ∷ row 15 2 false ∷ done 0 1 ∷ []);
          entries = 4;
          acked = 2;
          saved = record { lines = int_line (codes "X") (pos 101) ∷ []; moment = Some 5 };
        } }
{}
