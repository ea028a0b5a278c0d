//! The core over a disk.

ghost use Rattle.std.specs.Prelude.{◌≡◌, ◌≤◌, ◌<◌, List, ℕ, IfSome, length};
ghost use Rattle.st_types.specs.declared.limits.TheConstants.{MAX_LOG_ROOM, MOMENT_LIMIT};
ghost use Rattle.st_meaning.specs.Logs.{IsLegal};
ghost use Rattle.plan.specs.PlanViews.{plan_view};
ghost use Rattle.retain_store.specs.Recovered.{recovered};
ghost use Rattle.retain_store.specs.Kept.{IsLast};
ghost use Rattle.durable_core.specs.Cores.{survives};
ghost use Rattle.durable_core.specs.Starting.{IsStart, start_in};

use crate::endless::EndlessCore;
use disk::Disk;
use serial_core::History;
use std::marker::Model;

/// A core over a disk with its log. Contracts see how it was started, its plan, start and log, how many entries are acknowledged, and
/// its store.
///
/// It was started as these say. Its log is legal, its variables have the values after the log's executions, one after
/// another, and on a disk with `tells` every file that a stop now may leave survives: a warm restart gives the values
/// after a prefix of the log that holds all that is acknowledged.
pub struct Core<D: Disk> {
    pub(crate) endless: EndlessCore<D>,
    pub(crate) history: History,
}

impl<D: Disk + Drop> Drop for Core<D> {
    fn drop(self) {
        let Self {
            endless: _,
            history: _,
        } = self;
    }
}

impl<D: Disk> Model for Core<D> {
    ghost use Rattle.std.specs.Coded.{codes};
    ghost use Rattle.st_types.specs.contracts.source.Source as source;
    ghost use Rattle.slot_code.specs.contracts.code.Code as code;
    ghost use Rattle.durable_core.specs.Cores.{CoreView};

    ghost Value = { CoreView D };

    ghost coded = { Prim.hlevel (codes, source.the_row.coded, code.the_row.coded) };

    ghost use Rattle.durable_core.specs.Endless.{HasLog, core_in};

    ghost view = { λ x. core_in x.endless x.history.start x.history.log };

    ghost invariant = { λ x. HasLog x.endless x.history };
}

impl<D: Disk> Core<D> {
    /// Shows the type's invariant: every file that a stop now may leave survives, it was started as it says, and its
    /// log is legal and no longer than a log may be.
    pub fn kept(&self)
        ensures survives { D.tells → (file : List ℕ) → D.may_leave self.now.store.disk file
            → survives self.now (recovered file) }
        ensures few { self.now.acked ≤ length self.now.state.log }
        ensures last { IsLast self.now.store.generation self.now.store.last }
        ensures started { IsStart self.now.state.plan self.now.mode (start_in self.now.state) }
        ensures early { IfSome self.now.state.before (λ t. t < MOMENT_LIMIT) }
        ensures room { length self.now.state.log ≤ MAX_LOG_ROOM }
        ensures legal { IsLegal (plan_view self.now.state.plan) self.now.state.start self.now.state.before
            self.now.state.log }
    {
        self.endless.kept();
    }

    /// Ends the life and gives the disk back, without a device call.
    pub fn stop(self) -> D
        ensures disk { result ≡ self.store.disk }
        ensures survives { D.tells → (file : List ℕ) → D.may_leave result file → survives self (recovered file) }
    {
        self.kept();
        let Core {
            endless,
            history: _,
        } = self;
        endless.stop()
    }
}
