//! The law of the checkpoints of engines. The function does nothing: its contract is the law.

ghost use Rattle.std.specs.Prelude.{List};
ghost use Rattle.st_types.specs.Values.{Datum};
ghost use Rattle.st_meaning.specs.Logs.{Log};
ghost use Rattle.plan.specs.PlanViews.{plan_view};
ghost use Rattle.checkpoints.specs.CheckpointsOfPasts.{IsCheckpointOf};
ghost use Rattle.core_engine.specs.Steps.{past_in};
ghost use Rattle.core_engine.specs.Lived.{EngineView, IsEngine, IsEngineOf, life_in};
ghost use Rattle.core_engine.specs.Checkpointed.{checkpoint_of};

/// In each life that an engine may be of, its fields are the checkpoint of all entries so far. So whatever `checkpoints`
/// says of a compacted log holds for an engine.
#[tactic(auto, using(crate::proofs::CheckpointLemmas::has_checkpoint))]
pub fn engines_have_checkpoints()
    ensures { (engine : EngineView) (start : List Datum) (log : Log) → IsEngine engine → IsEngineOf start log engine
        → IsCheckpointOf (plan_view engine.plan) (past_in (life_in engine start log)) (checkpoint_of engine) }
{}
