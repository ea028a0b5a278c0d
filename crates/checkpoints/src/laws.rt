//! Laws of logs that are compacted into checkpoints. The functions do nothing: their contracts are the laws.

ghost use Rattle.std.specs.Prelude.{◌≡◌, ◌++◌, ◌+◌, ◌↔◌, ◌<◌, ◌≤◌, ◌∷◌, ℕ, List, Option, true, fold, length, map};
ghost use Rattle.std.specs.Prelude.{bytes_eq};
ghost use Rattle.std.specs.List.{IsDistinct};
ghost use Rattle.st_types.specs.declared.entry.Entry.{Entry};
ghost use Rattle.st_types.specs.declared.entry.Entry.TheVariants.{Row};
ghost use Rattle.st_types.specs.declared.entry.Activation.{Activation};
ghost use Rattle.st_types.specs.Rows.{Latch};
ghost use Rattle.st_meaning.specs.Stores.{Store, all_held};
ghost use Rattle.st_meaning.specs.Layouts.{path_text};
ghost use Rattle.st_meaning.specs.Restarts.{Kept, warm_start};
ghost use Rattle.st_meaning.specs.Plans.{Plan, schedules_of, samples_of, initial_store};
ghost use Rattle.st_meaning.specs.Due.{due, schedule_at, Waits, NoneWaits, IsBest, HasOverruns};
ghost use Rattle.st_meaning.specs.Logs.{Log, Past, with_entry, beginning, past_of, row_at, last_moment, outcomes_from};
ghost use Rattle.st_meaning.specs.Logs.{MayFollow, IsLegal, IsLegalFrom};
ghost use Rattle.checkpoints.specs.Checkpoints.{Checkpoint, first_checkpoint, progress_at, moment_before_next};
ghost use Rattle.checkpoints.specs.Compaction.{is_due_next, own_row, compact_entry, compacted};
ghost use Rattle.checkpoints.specs.CheckpointsOfPasts.{IsCheckpointOf};
ghost use Rattle.checkpoints.specs.Continuation.{IsWaitingIn, IsBestWaiting, NoneIsWaitingIn};
ghost use Rattle.checkpoints.specs.Continuation.{MayContinue, IsLegalAfter, outcomes_after};
ghost use Rattle.checkpoints.specs.Sizes.{HasBoundedSize};
ghost use Rattle.checkpoints.specs.Prefixes.{kept_of_checkpoint, IsKeptOfPrefix, IsKeptOfPrefixAfter, GivesBack};
ghost use Rattle.checkpoints.specs.EndlessLives.{LifeEvent, record_is_saved, entries_of, after_events, new_life};
ghost use Rattle.checkpoints.specs.EndlessLives.{IsEndlessLifeOf};

/// A life begins with the first checkpoint. An entry that may follow makes of the checkpoint of a past that of the past
/// with the entry. So a legal log is compacted into the checkpoint of its past, at once or in parts.
pub fn entries_are_compacted()
    ensures at_first { (plan : Plan) (start : Store) → IsCheckpointOf plan (beginning start)
        (first_checkpoint plan start) }
    ensures each { (plan : Plan) (before : Option ℕ) (past : Past) (c : Checkpoint) (e : Entry)
        → IsCheckpointOf plan past c → MayFollow plan before past e
        → IsCheckpointOf plan (with_entry plan past e) (compact_entry plan c e) }
    ensures logs { (plan : Plan) (start : Store) (before : Option ℕ) (log : Log) → IsLegal plan start before log
        → IsCheckpointOf plan (past_of plan start log) (compacted plan start log) }
    ensures in_parts { (plan : Plan) (start : Store) (front rest : Log) → compacted plan start (front ++ rest)
        ≡ fold (compact_entry plan) (compacted plan start front) rest }
{}

/// A checkpoint alone answers for the variables, what waits, with which row, what is best, the overruns, the last
/// moment, what is due at the next row, and what may follow.
pub fn checkpoints_answer_for_pasts()
    ensures variables { (plan : Plan) (past : Past) (c : Checkpoint) → IsCheckpointOf plan past c
        → c.store ≡ past.store }
    ensures waits { (plan : Plan) (past : Past) (c : Checkpoint) (a : Activation) → IsCheckpointOf plan past c
        → IsWaitingIn c a ↔ Waits (schedules_of plan) past.history a }
    ensures row { (plan : Plan) (past : Past) (c : Checkpoint) (a : Activation) → IsCheckpointOf plan past c
        → Waits (schedules_of plan) past.history a → own_row c a.program ≡ row_at past.rows a.row }
    ensures best { (plan : Plan) (past : Past) (c : Checkpoint) (resource : ℕ) (a : Activation)
        → IsCheckpointOf plan past c
        → IsBestWaiting plan c resource a ↔ IsBest (schedules_of plan) past.history resource a }
    ensures none { (plan : Plan) (past : Past) (c : Checkpoint) (resource : ℕ) → IsCheckpointOf plan past c
        → NoneIsWaitingIn plan c resource ↔ NoneWaits (schedules_of plan) past.history resource }
    ensures overruns { (plan : Plan) (past : Past) (c : Checkpoint) (p : ℕ) → IsCheckpointOf plan past c
        → p < length (schedules_of plan)
        → HasOverruns (schedules_of plan) past.history p (progress_at c.programs p).overruns }
    ensures moment { (plan : Plan) (past : Past) (c : Checkpoint) (before : Option ℕ) → IsCheckpointOf plan past c
        → last_moment before past.rows ≡ moment_before_next before c.last_row }
    ensures due { (plan : Plan) (past : Past) (c : Checkpoint) (row : Latch) (p : ℕ) → IsCheckpointOf plan past c
        → p < length (schedules_of plan)
        → due (schedules_of plan) p (with_entry plan past (Row row)).history.sampled (length past.history.sampled)
        ≡ is_due_next c row (samples_of plan past.store row.image) (schedule_at (schedules_of plan) p) }
    ensures follows { (plan : Plan) (before : Option ℕ) (past : Past) (c : Checkpoint) (e : Entry)
        → IsCheckpointOf plan past c → MayContinue plan before c e ↔ MayFollow plan before past e }
{}

/// A log goes on from a checkpoint as it does from the whole past: the same logs are legal, executions end alike, and
/// the checkpoint after them is that of the whole.
pub fn what_follows_is_the_same()
    ensures legal { (plan : Plan) (before : Option ℕ) (past : Past) (c : Checkpoint) (rest : Log)
        → IsCheckpointOf plan past c → IsLegalAfter plan before c rest ↔ IsLegalFrom plan before past rest }
    ensures outcomes { (plan : Plan) (before : Option ℕ) (past : Past) (c : Checkpoint) (rest : Log)
        → IsCheckpointOf plan past c → IsLegalFrom plan before past rest
        → outcomes_after plan c rest ≡ outcomes_from plan past rest }
    ensures goes_on { (plan : Plan) (before : Option ℕ) (past : Past) (c : Checkpoint) (rest : Log)
        → IsCheckpointOf plan past c → IsLegalFrom plan before past rest
        → IsCheckpointOf plan (fold (with_entry plan) past rest) (fold (compact_entry plan) c rest) }
{}

/// However long a legal log is, its checkpoint has the variables of the start, at most one sample for each task, and
/// the progress of each program; its rows fit the plan.
#[tactic(auto, using(crate::proofs::SizeLemmas::size_is_bounded))]
pub fn checkpoints_are_bounded()
    ensures { (plan : Plan) (start : Store) (before : Option ℕ) (log : Log) → IsLegal plan start before log
        → HasBoundedSize plan start (compacted plan start log) }
{}

/// A record of a prefix of what follows a checkpoint is one of a prefix of the whole log, and the other way round if
/// all that was compacted is acknowledged.
pub fn what_survives_survives_of_the_whole()
    ensures whole { (plan : Plan) (start : Store) (before : Option ℕ) (front rest : Log) (acked : ℕ) (kept : Kept)
        → IsLegal plan start before (front ++ rest)
        → IsKeptOfPrefixAfter plan before (compacted plan start front) rest acked kept
        → IsKeptOfPrefix plan start before (front ++ rest) (length front + acked) kept }
    ensures rest { (plan : Plan) (start : Store) (before : Option ℕ) (front rest : Log) (acked : ℕ) (kept : Kept)
        → IsLegal plan start before (front ++ rest)
        → IsKeptOfPrefix plan start before (front ++ rest) (length front + acked) kept
        → IsKeptOfPrefixAfter plan before (compacted plan start front) rest acked kept }
{}

/// A life goes on for ever without its log: whichever entries come, and whenever a record is saved, a stop leaves the
/// record of a prefix of all entries, which has all that is acknowledged, and a warm restart gives its values back. So
/// does a stop while a record is saved: it leaves the one before or the new one. All entries before a save are
/// acknowledged after it.
pub fn endless_lives_outlast_stops()
    ensures lived { (plan : Plan) (start : Store) (before : Option ℕ) (events : List LifeEvent)
        → IsLegal plan start before (entries_of events)
        → IsEndlessLifeOf plan start before (entries_of events)
        (after_events plan before (new_life plan start before) events) }
    ensures acknowledged { (plan : Plan) (start : Store) (before : Option ℕ) (events later : List LifeEvent)
        → length (entries_of events)
        ≤ (after_events plan before (new_life plan start before) (events ++ record_is_saved ∷ later)).acked }
    ensures saved { (plan : Plan) (r : Option Kept) (events : List LifeEvent)
        → IsDistinct bytes_eq (map (λ v. path_text v.path) plan.variables) → all_held (initial_store plan) ≡ true
        → IsLegal plan (warm_start plan r).store (warm_start plan r).moment (entries_of events)
        → let first = warm_start plan r in
        let life = after_events plan first.moment (new_life plan first.store first.moment) events in
        GivesBack plan first.store first.moment (entries_of events) life.acked life.saved }
    ensures being_saved { (plan : Plan) (r : Option Kept) (events : List LifeEvent)
        → IsDistinct bytes_eq (map (λ v. path_text v.path) plan.variables) → all_held (initial_store plan) ≡ true
        → IsLegal plan (warm_start plan r).store (warm_start plan r).moment (entries_of events)
        → let first = warm_start plan r in
        let life = after_events plan first.moment (new_life plan first.store first.moment) events in
        GivesBack plan first.store first.moment (entries_of events) life.acked
        (kept_of_checkpoint plan first.moment life.checkpoint) }
{}
