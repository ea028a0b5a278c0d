//! Going on from a record of another layout text.

ghost use Rattle.std.specs.Prelude.{◌≡◌, ◌<◌, ◌≤◌, ℕ, Some, IfSome, length, vec_capacity};
ghost use Rattle.st_types.specs.declared.limits.TheConstants.{MOMENT_LIMIT};
ghost use Rattle.st_meaning.specs.Restarts.{warm_start};
ghost use Rattle.retain_records.specs.Records.{IsRecordable};
ghost use Rattle.retain_store.specs.Recovered.{Found};
ghost use Rattle.plan.specs.PlanViews.{plan_view};
ghost use Rattle.retain_records.specs.Lines.{lines_of};
ghost use Rattle.retain_records.specs.ContentLines.{kept_in};
ghost use Rattle.durable_core.specs.Restart.{fresh_state, layout_text_of, record_now, warm};
ghost use Rattle.durable_core.specs.Starting.{started};
ghost use Rattle.durable_core.specs.Endless.{IsFirstEngine, first_state};

use crate::parts::Parts;
use retain_records::restore_from;
use retain_store::Record;

/// Goes on from a record of any layout text: each retained variable takes the value in the line of its path and type,
/// if the record has one. It allocates nothing.
///
/// The record of the start that the core then has gives the same start again.
pub(crate) fn migrate(parts: &mut Parts, last: &Record)
    requires new { IsFirstEngine parts.old.engine }
    requires begun { first_state parts.old.engine ≡ fresh_state parts.old.engine.plan parts.old.engine.room }
    requires kept { length parts.old.engine.plan.variables.items ≤ vec_capacity parts.old.kept }
    requires lines { parts.old.lines ≡ lines_of (layout_text_of parts.old.engine.plan) }
    requires sound { IsRecordable last.now }

    ensures new { IsFirstEngine parts.new.engine }
    ensures resumed { first_state parts.new.engine ≡ started parts.old.engine.plan parts.old.engine.room
        (warm_start (plan_view parts.old.engine.plan) (Some (kept_in last.now))) }
    ensures again { (generation : ℕ) → first_state parts.new.engine ≡ started parts.old.engine.plan parts.old.engine.room
        (warm parts.old.engine.plan (Found generation (record_now (first_state parts.new.engine)))) }
    ensures early { IfSome (first_state parts.new.engine).before (λ t. t < MOMENT_LIMIT) }
    ensures kept { vec_capacity parts.old.kept ≤ vec_capacity parts.new.kept }
{
    parts.engine.retain(&mut parts.kept);
    restore_from(
        &mut parts.kept,
        &mut parts.lines,
        last.layout(),
        last.values(),
    );
    parts.engine.resume(&parts.kept, last.moment());
}
