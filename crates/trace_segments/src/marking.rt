//! A row comes: programs that are due wait with it.

ghost use Rattle.std.specs.Prelude.{◌≡◌, ◌<◌, ◌^◌, OnOk, length, slice_set};
ghost use Rattle.std.specs.List.{AllByRecursion};
ghost use Rattle.ready_list.specs.Ready.{is_due_at};
ghost use Rattle.checkpoints.specs.Checkpoints.{progress_at};
ghost use Rattle.checkpoints.specs.Compaction.{all_progress, progress_with};

use crate::progress::Progress;
use ready_list::{NewRow, is_due_at};
use st_meaning::Schedule;
use st_types::Row;
use std::alloc::{AllocError, Global};

/// A row comes for one of the programs.
fn mark_one(
    alloc: Global,
    programs: &mut Vec<Progress>,
    program: usize,
    is_due: bool,
    number: u64,
    row: &Row,
) -> Result<(), AllocError>
    requires there { program < length programs.old.items }
    requires room { (progress_at programs.old.items program).overruns < 2 ^ 63 }
    ensures { OnOk result (programs.new.items ≡ slice_set programs.old.items program
        (progress_with (progress_at programs.old.items program) is_due record { number = number; row = row.now })) }
{
    let progress = &mut programs[program];
    progress.row_comes(alloc, is_due, number, row)
}

/// A row comes for all programs, with the samples of SINGLE at the row before and at this one. The error is out of memory.
pub(crate) fn mark_all(
    alloc: Global,
    schedules: &[Schedule],
    programs: &mut Vec<Progress>,
    earlier: &[bool],
    samples: &[bool],
    new: NewRow,
    row: &Row,
) -> Result<(), AllocError>
    requires sized { length programs.old.items ≡ length schedules.now }
    requires room { AllByRecursion (λ p. p.overruns < 2 ^ 63) programs.old.items }
    ensures { OnOk result (programs.new.items ≡ all_progress (λ s. is_due_at new s earlier.now samples.now) schedules.now
        programs.old.items record { number = new.number; row = row.now }) }
{
    for program in 0..schedules.len() {
        let is_due = is_due_at(new, schedules[program], earlier, samples);
        mark_one(alloc, programs, program, is_due, new.number, row)?;
    }
    Ok(())
}
