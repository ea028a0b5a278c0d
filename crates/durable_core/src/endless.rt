//! A core over a disk without its log.

ghost use Rattle.std.specs.Prelude.{◌≡◌, List, ℕ};
ghost use Rattle.retain_store.specs.Recovered.{recovered};
ghost use Rattle.retain_store.specs.Kept.{IsLast};
ghost use Rattle.durable_core.specs.Cores.{survives};
ghost use Rattle.durable_core.specs.Endless.{HasCoreLife, InEachCore};

use crate::starting::StartMode;
use core_engine::Engine;
use disk::Disk;
use retain_store::{Store, StoreFault};
use st_types::Value;
use std::marker::Model;

/// A core over a disk that has its engine and not its log, so its life may go on for ever in the same memory.
///
/// There is a life that it is of: a legal log after which the engine is as it is, and on a disk with `tells` every file that
/// a stop now may leave survives for this log. Contracts speak of each such life.
pub struct EndlessCore<D: Disk> {
    /// How it was started.
    pub(crate) mode: StartMode,
    pub(crate) engine: Engine,
    pub(crate) store: Store<D>,
    /// Room for the values of a record.
    pub(crate) kept: Vec<Value>,
    /// How many entries of the log are acknowledged.
    pub(crate) acked: u64,
    /// Why the store failed, once a flush has failed.
    pub(crate) failed: Option<StoreFault>,
}

impl<D: Disk + Drop> Drop for EndlessCore<D> {
    fn drop(self) {
        let Self {
            mode: _,
            engine: _,
            store: _,
            kept: _,
            acked: _,
            failed: _,
        } = self;
    }
}

impl<D: Disk> Model for EndlessCore<D> {
    ghost use Rattle.std.specs.Coded.{codes};
    ghost use Rattle.st_types.specs.contracts.source.Source as source;
    ghost use Rattle.slot_code.specs.contracts.code.Code as code;
    ghost use Rattle.durable_core.specs.Endless.{EndlessView};

    ghost Value = { EndlessView D };

    ghost coded = { Prim.hlevel (codes, source.the_row.coded, code.the_row.coded) };

    ghost use Rattle.std.specs.Prelude.{vec_capacity};
    ghost use Rattle.durable_core.specs.Endless.{IsEndless};

    ghost view = { λ x. record {
      mode = x.mode;
      engine = x.engine;
      acked = x.acked;
      failed = x.failed;
      store = x.store;
    } };

    ghost invariant = { λ x. IsEndless record {
      mode = x.mode;
      engine = x.engine;
      acked = x.acked;
      failed = x.failed;
      store = x.store;
    } (vec_capacity x.kept) };
}

impl<D: Disk> EndlessCore<D> {
    /// Shows the type's invariant: there is a life that it is of, and in each such life every file that a stop now may
    /// leave survives.
    pub fn kept(&self)
        ensures life { HasCoreLife self.now }
        ensures survives { D.tells → (file : List ℕ) → D.may_leave self.now.store.disk file
            → InEachCore self.now (λ core. survives core (recovered file)) }
        ensures last { IsLast self.now.store.generation self.now.store.last }
    {
        self.store.kept();
    }

    /// Its engine.
    pub fn engine(&self) -> &Engine
        ensures { result.now ≡ self.now.engine }
    {
        &self.engine
    }

    /// Ends the life and gives the disk back, without a device call.
    pub fn stop(self) -> D
        ensures disk { result ≡ self.store.disk }
        ensures survives { D.tells → (file : List ℕ) → D.may_leave result file
            → InEachCore self (λ core. survives core (recovered file)) }
    {
        self.kept();
        let EndlessCore {
            mode: _,
            engine: _,
            store,
            kept: _,
            acked: _,
            failed: _,
        } = self;
        store.into_disk()
    }
}
