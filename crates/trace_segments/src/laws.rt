//! Laws of segments. The functions do nothing: their contracts are the laws.

ghost use Rattle.std.specs.Prelude.{◌≡◌, ◌+◌, ℕ, List, true};
ghost use Rattle.st_meaning.specs.Logs.{Log};
ghost use Rattle.plan.specs.declared.plan.Plan.{Plan};
ghost use Rattle.checkpoints.specs.Checkpoints.{Checkpoint};
ghost use Rattle.trace_segments.specs.declared.replaying.Ended.{Ended};
ghost use Rattle.trace_segments.specs.Positions.{checkpoint_at};
ghost use Rattle.trace_segments.specs.Runs.{EndsSegment, segment_of};
ghost use Rattle.trace_segments.specs.Segments.{FollowsOn, IsSegment};

/// A text that was run again to its last line is a segment, and one that was run again as the next one follows on the one
/// before.
pub fn what_is_run_again_is_a_segment()
    ensures whole { (plan : Plan) (number : ℕ) (head : Checkpoint) (text : List ℕ) (log : Log) (ended : Ended)
        → EndsSegment plan number head text log ended → ended.is_whole ≡ true
        → IsSegment plan text (segment_of head log ended) }
    ensures follows { (plan : Plan) (number : ℕ) (head : Checkpoint) (text next_text : List ℕ) (log next_log : Log)
        (ended next : Ended) → EndsSegment plan number head text log ended
        → EndsSegment plan (ended.number + 1) (checkpoint_at ended.position) next_text next_log next
        → next.position.before ≡ ended.position.before
        → FollowsOn plan (segment_of head log ended) (segment_of (checkpoint_at ended.position) next_log next) }
{}
