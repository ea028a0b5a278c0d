//! Laws and worked examples of the activations that are due and wait, and of the variables after a log.

ghost use Rattle.std.specs.Prelude.{◌≡◌, ℕ, ◌+◌, ◌<◌, ◌≤◌, ◌∷◌, ◌++◌, [], List, length, Bool, true, false, Option};
ghost use Rattle.st_types.specs.declared.entry.Entry.{Entry};
ghost use Rattle.st_meaning.specs.Stores.{Store};
ghost use Rattle.st_meaning.specs.declared.plan.Schedule.{Schedule};
ghost use Rattle.st_meaning.specs.Plans.{Plan};
ghost use Rattle.st_meaning.specs.Due.{History, due, served, Waits, IsBest, NoneWaits, HasOverruns, no_history, with_row};
ghost use Rattle.st_meaning.specs.Due.{with_run};
ghost use Rattle.st_types.specs.declared.entry.Entry.TheVariants.{Row, Done};
ghost use Rattle.st_types.specs.Rows.{Latch};
ghost use Rattle.st_types.specs.declared.entry.Activation.{Activation};
ghost use Rattle.st_meaning.specs.Logs.{Log, IsLegal, past_of, with_entry, row_count, done_count};
ghost use Rattle.st_meaning.specs.PlanExamples.{every, rows_at, dues, three_programs, four_rows, of, ran_3, ran_3_1, ran_all};

/// A program every 10 ms is due at the first row, and if a further whole interval has gone by since then.
pub fn intervals()
    ensures from_5 { dues (every 10) 0 (rows_at (5 ∷ 14 ∷ 15 ∷ 40 ∷ [])) ≡ true ∷ false ∷ true ∷ true ∷ [] }
    ensures from_0 { dues (every 10) 0 (rows_at (0 ∷ 9 ∷ 10 ∷ 25 ∷ 29 ∷ 30 ∷ [])) ≡ true ∷ false ∷ true ∷ true ∷ false
        ∷ true ∷ [] }
    ensures no_interval { dues (every 0) 0 (rows_at (0 ∷ 9 ∷ 10 ∷ 25 ∷ 29 ∷ 30 ∷ [])) ≡ false ∷ false ∷ false ∷ false
        ∷ false ∷ false ∷ [] }
{}

/// A program is due when SINGLE rises; while it is TRUE, the interval is held back.
pub fn single_and_interval()
    ensures both { dues three_programs 0 four_rows.sampled ≡ true ∷ true ∷ false ∷ true ∷ [] }
    ensures interval { dues three_programs 1 four_rows.sampled ≡ true ∷ false ∷ false ∷ true ∷ [] }
    ensures single { dues three_programs 2 four_rows.sampled ≡ false ∷ true ∷ false ∷ false ∷ [] }
{}

/// Of three programs over four rows P3 of row 1 runs first, then P1 of row 0, then P2 of row 0; then nothing waits.
pub fn three_programs_in_order()
    ensures first { IsBest three_programs four_rows 0 (of 2 1) }
    ensures second { IsBest three_programs ran_3 0 (of 0 0) }
    ensures third { IsBest three_programs ran_3_1 0 (of 1 0) }
    ensures then_none { NoneWaits three_programs ran_all 0 }
    ensures overruns_of_p1 { HasOverruns three_programs ran_all 0 2 }
    ensures overruns_of_p2 { HasOverruns three_programs ran_all 1 1 }
    ensures overruns_of_p3 { HasOverruns three_programs ran_all 2 0 }
{}

/// At most one activation of a resource is the best.
pub fn one_activation_is_best()
    ensures { (schedules : List Schedule) (h : History) (resource : ℕ) (a b : Activation)
        → IsBest schedules h resource a → IsBest schedules h resource b → a ≡ b }
{}

/// At most one activation of a program waits, and none right after its Done.
pub fn one_activation_waits()
    ensures one { (schedules : List Schedule) (h : History) (p j k : ℕ) → Waits schedules h
        record { program = p; row = j } → Waits schedules h record { program = p; row = k } → j ≡ k }
    ensures none_behind_a_done { (schedules : List Schedule) (h : History) (p k : ℕ)
        → Waits schedules (with_run h p) record { program = p; row = k } → ⊥ }
{}

/// An activation that was served never waits again, whatever rows and Dones follow: a program's last Done is after the row
/// that it served and after no more rows than there are, at first and after each row and each Done.
pub fn served_once()
    ensures by_its_done { (schedules : List Schedule) (h : History) (p k : ℕ)
        → Waits schedules h record { program = p; row = k } → k < served p (with_run h p).runs }
    ensures over_dones { (h : History) (p q k : ℕ) → k < served p h.runs → served p h.runs ≤ length h.sampled
        → k < served p (with_run h q).runs }
    ensures over_rows { (h : History) (moment : ℕ) (samples : List Bool) (p k : ℕ) → k < served p h.runs
        → k < served p (with_row h moment samples).runs }
    ensures within_at_first { (p : ℕ) → served p no_history.runs ≤ length no_history.sampled }
    ensures within_over_dones { (h : History) (p q : ℕ) → served p h.runs ≤ length h.sampled
        → served p (with_run h q).runs ≤ length (with_run h q).sampled }
    ensures within_over_rows { (h : History) (moment : ℕ) (samples : List Bool) (p : ℕ) → served p h.runs
        ≤ length h.sampled → served p (with_row h moment samples).runs ≤ length (with_row h moment samples).sampled }
    ensures never_waits { (schedules : List Schedule) (h : History) (p k : ℕ) → k < served p h.runs
        → Waits schedules h record { program = p; row = k } → ⊥ }
{}

/// There is no overrun at first. A row at which a waiting program is due is one more; one at which it is not due is none,
/// nor is one at which nothing of it waits. A Done takes none away.
pub fn overruns_are_rows_that_meet_a_waiting_program()
    ensures none_at_first { (schedules : List Schedule) (p : ℕ) → HasOverruns schedules no_history p 0 }
    ensures met { (schedules : List Schedule) (h : History) (moment : ℕ) (samples : List Bool) (p k n : ℕ)
        → Waits schedules h record { program = p; row = k } → HasOverruns schedules h p n
        → due schedules p (with_row h moment samples).sampled (length h.sampled) ≡ true
        → HasOverruns schedules (with_row h moment samples) p (n + 1) }
    ensures begun { (schedules : List Schedule) (h : History) (moment : ℕ) (samples : List Bool) (p n : ℕ)
        → served p h.runs ≤ length h.sampled → ((k : ℕ) → Waits schedules h record { program = p; row = k } → ⊥)
        → HasOverruns schedules h p n
        → due schedules p (with_row h moment samples).sampled (length h.sampled) ≡ true
        → HasOverruns schedules (with_row h moment samples) p n }
    ensures passed { (schedules : List Schedule) (h : History) (moment : ℕ) (samples : List Bool) (p n : ℕ)
        → HasOverruns schedules h p n
        → due schedules p (with_row h moment samples).sampled (length h.sampled) ≡ false
        → HasOverruns schedules (with_row h moment samples) p n }
    ensures done { (schedules : List Schedule) (h : History) (p k n : ℕ) → Waits schedules h
        record { program = p; row = k } → HasOverruns schedules h p n → HasOverruns schedules (with_run h p) p n }
{}

/// The state after a log with one entry more is one step further.
pub fn logs_grow_by_one_step()
    ensures { (plan : Plan) (start : Store) (log : List Entry) (e : Entry)
        → past_of plan start (log ++ e ∷ []) ≡ with_entry plan (past_of plan start log) e }
{}

/// Each entry of a log is a row or a Done. The state after a log has as many rows, and as many Dones served. One entry more
/// adds one row or one Done.
pub fn entries_are_counted()
    ensures each { (log : Log) → row_count log + done_count log ≡ length log }
    ensures rows { (plan : Plan) (start : Store) (log : Log)
        → length (past_of plan start log).rows ≡ row_count log }
    ensures dones { (plan : Plan) (start : Store) (log : Log)
        → length (past_of plan start log).history.runs ≡ done_count log }
    ensures row_more { (log : Log) (row : Latch) → row_count (log ++ Row row ∷ []) ≡ row_count log + 1 }
    ensures row_is_no_done { (log : Log) (row : Latch) → done_count (log ++ Row row ∷ []) ≡ done_count log }
    ensures done_more { (log : Log) (a : Activation) → done_count (log ++ Done a ∷ []) ≡ done_count log + 1 }
    ensures done_is_no_row { (log : Log) (a : Activation) → row_count (log ++ Done a ∷ []) ≡ row_count log }
{}

/// A legal log has an activation's Done at most once, whatever is before, between and after.
#[tactic(auto, using(crate::proofs::OnceLemmas::done_once))]
pub fn each_activation_is_done_once()
    ensures { (plan : Plan) (start : Store) (before : Option ℕ) (a : Activation) (log rest : Log)
        → IsLegal plan start before (log ++ (Done a ∷ (rest ++ Done a ∷ []))) → ⊥ }
{}
