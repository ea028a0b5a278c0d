//! Runs of programs in quick code.

ghost use Rattle.std.specs.Prelude.{◌≡◌, ◌≤◌, IfOk, IfSome, length};
ghost use Rattle.quick_code.specs.QuickRuns.{EndsWell, left};
ghost use Rattle.quick_code.specs.Soundness.{IsSound};
ghost use Rattle.quick_machine.specs.Going.{memory};
ghost use Rattle.slot_code.specs.Quick.{AreIn, AreTyped, EndsWith, frame_of, HasEnded, kinds_of, run_of, Wherever};
ghost use Rattle.slot_code.specs.WordValues.{AreHeld};

use crate::memory::{marks_of, values_in, values_left, words_over};
use crate::program::QuickProgram;
use machine_code::Mark;
use quick_code::QuickCode;
use st_types::Value;
use std::alloc::{AllocError, Global};

/// The result of a run that ended well: the words, the notes, and the ticks left.
#[derive(Drop)]
struct Left {
    words: Vec<i64>,
    notes: Vec<u8>,
    ticks: u32,
}

/// Runs code over words and notes.
fn run_over(
    code: &QuickCode,
    mut words: Vec<i64>,
    mut notes: Vec<u8>,
    now: u64,
    budget: u32,
) -> Option<Left>
    requires { IsSound code.now (length words.items) (length notes.items) }
    ensures { IfSome result (λ r. EndsWell code.now.instrs.items code.now.ways.items now 0
        (memory words.items notes.items) budget (left (memory r.words.items r.notes.items) r.ticks)) }
{
    match quick_machine::run(code, &mut words, &mut notes, now, budget) {
        Some(ticks) => Some(Left {
            words,
            notes,
            ticks,
        }),
        None => None,
    }
}

/// A run that ended well, over the slots of its window, in order: the values that it left, and their marks. The ticks are
/// those that are left.
#[derive(Drop)]
pub struct QuickRun {
    pub values: Vec<Value>,
    pub marks: Vec<Mark>,
    pub ticks: u32,
}

impl QuickProgram {
    /// The values of the slots of the window, from those of all slots.
    ///
    /// The only error is out of memory.
    pub fn named(&self, alloc: Global, slots: &[Value]) -> Result<Vec<Value>, AllocError>
        requires { kinds_of slots.now ≡ self.now.kinds }
        ensures values { IfOk result (λ values. AreIn self.now.window slots.now values.items) }
        ensures typed { IfOk result (λ values. AreTyped self.now.kinds self.now.window values.items) }
    {
        values_in(alloc, slots, self.window())
    }

    /// Runs the quick code over the words of values. None if the machine cannot predict how the run ends.
    fn run_words(
        &self,
        alloc: Global,
        values: &[Value],
        now: u64,
        budget: u32,
    ) -> Result<Option<Left>, AllocError>
        requires { AreTyped self.now.kinds self.now.window values.now }
        ensures ended { IfOk result (λ o. IfSome o (λ l. Wherever self.now.kinds self.now.window values.now
            (λ slots. HasEnded (frame_of self.now.parts self.now.window self.now.kinds now) slots
            (left (memory l.words.items l.notes.items) l.ticks)
            (run_of self.now.instrs self.now.extra now slots budget)))) }
        ensures held { IfOk result (λ o. IfSome o (λ l. AreHeld (kinds_of values.now) l.words.items)) }
        ensures words { IfOk result (λ o. IfSome o (λ l. length values.now ≤ length l.words.items)) }
        ensures notes { IfOk result (λ o. IfSome o (λ l. length values.now ≤ length l.notes.items)) }
    {
        let parts = &*self.parts;
        let words = words_over(alloc, values, &parts.constants, parts.words)?;
        let notes = vec![in alloc; 0; parts.words]?;
        Ok(run_over(&parts.code, words, notes, now, budget))
    }

    /// Runs the quick code at a moment, in milliseconds, with a budget of ticks, over the values of the slots of the window,
    /// in order. None if the machine cannot predict how the run ends. Whatever values the other slots have, the run of the
    /// instructions over all slots ends in the same way.
    ///
    /// The only error is out of memory.
    pub fn run(
        &self,
        alloc: Global,
        values: &[Value],
        now: u64,
        budget: u32,
    ) -> Result<Option<QuickRun>, AllocError>
        requires { AreTyped self.now.kinds self.now.window values.now }
        ensures { IfOk result (λ o. IfSome o (λ r. Wherever self.now.kinds self.now.window values.now
            (λ slots. EndsWith self.now.window slots r.ticks r.values.items r.marks.items
            (run_of self.now.instrs self.now.extra now slots budget)))) }
    {
        match self.run_words(alloc, values, now, budget)? {
            Some(left) => {
                let left_values = values_left(alloc, values, &left.words)?;
                let marks = marks_of(alloc, values.len(), &left.notes)?;
                Ok(Some(QuickRun {
                    values: left_values,
                    marks,
                    ticks: left.ticks,
                }))
            }
            None => Ok(None),
        }
    }
}
