//! The entries of the standard blocks.

ghost use Rattle.std.specs.Prelude.{◌≡◌, IfOk};
ghost use Rattle.st_link.specs.Shapes.{AreStandards, standard_kept};

use crate::aggregates::{Aggregate, standard_aggregate};
use std::alloc::{AllocError, Global};
use symbols::StandardBlock;

/// The standard blocks, each taken apart once.
pub struct Standards<'a> {
    sr: Aggregate<'a>,
    rs: Aggregate<'a>,
    r_trig: Aggregate<'a>,
    f_trig: Aggregate<'a>,
    ctu: Aggregate<'a>,
    ctd: Aggregate<'a>,
    ctud: Aggregate<'a>,
    ton: Aggregate<'a>,
    tof: Aggregate<'a>,
    tp: Aggregate<'a>,
}

impl Drop for Standards<'_> {
    fn drop(self) {
        let Self {
            sr: _,
            rs: _,
            r_trig: _,
            f_trig: _,
            ctu: _,
            ctd: _,
            ctud: _,
            ton: _,
            tof: _,
            tp: _,
        } = self;
    }
}

impl<'a> Standards<'a> {
    /// All standard blocks.
    pub fn new(alloc: Global) -> Result<Standards<'a>, AllocError>
        ensures { IfOk result AreStandards }
    {
        Ok(Standards {
            sr: standard_aggregate(alloc, StandardBlock::Sr)?,
            rs: standard_aggregate(alloc, StandardBlock::Rs)?,
            r_trig: standard_aggregate(alloc, StandardBlock::RTrig)?,
            f_trig: standard_aggregate(alloc, StandardBlock::FTrig)?,
            ctu: standard_aggregate(alloc, StandardBlock::Ctu)?,
            ctd: standard_aggregate(alloc, StandardBlock::Ctd)?,
            ctud: standard_aggregate(alloc, StandardBlock::Ctud)?,
            ton: standard_aggregate(alloc, StandardBlock::Ton)?,
            tof: standard_aggregate(alloc, StandardBlock::Tof)?,
            tp: standard_aggregate(alloc, StandardBlock::Tp)?,
        })
    }

    /// The entry of a block.
    pub fn aggregate(&self, block: StandardBlock) -> &Aggregate<'a>
        ensures { result.now ≡ standard_kept self.now block }
    {
        match block {
            StandardBlock::Sr => &self.sr,
            StandardBlock::Rs => &self.rs,
            StandardBlock::RTrig => &self.r_trig,
            StandardBlock::FTrig => &self.f_trig,
            StandardBlock::Ctu => &self.ctu,
            StandardBlock::Ctd => &self.ctd,
            StandardBlock::Ctud => &self.ctud,
            StandardBlock::Ton => &self.ton,
            StandardBlock::Tof => &self.tof,
            StandardBlock::Tp => &self.tp,
        }
    }
}
