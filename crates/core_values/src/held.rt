//! Rows that activations wait with.

ghost use Rattle.std.specs.Prelude.{◌≡◌, ◌<◌, length, if◌then◌else◌, slice_set};
ghost use Rattle.st_types.specs.Rows.{Latch};
ghost use Rattle.st_meaning.specs.Due.{History};
ghost use Rattle.ready_list.specs.Ready.{IsReadyOf};
ghost use Rattle.core_values.specs.Held.{HoldsNew, IsWide, is_number};

use ready_list::ReadyList;
use st_types::{Row, Value};
use std::marker::Model;

/// A row in memory that the next one is copied into. Contracts see the row.
pub struct HeldRow {
    moment: u64,
    image: Vec<Value>,
}

impl Drop for HeldRow {
    fn drop(self) {
        let Self {
            moment: _,
            image: _,
        } = self;
    }
}

impl Model for HeldRow {
    ghost use Rattle.st_types.specs.Rows.{Latch};

    ghost Value = { Latch };

    ghost view = { λ r. record { moment = r.moment; image = r.image.items } };
}

impl HeldRow {
    /// A row of moment 0 with these values.
    pub fn new(image: Vec<Value>) -> HeldRow
        ensures { result ≡ record { moment = 0; image = image.items } }
    {
        HeldRow { moment: 0, image }
    }

    /// Its moment in milliseconds.
    pub fn moment(&self) -> u64
        ensures { result ≡ self.now.moment }
    {
        self.moment
    }

    /// The values of the inputs.
    pub fn image(&self) -> &[Value]
        ensures { result.now ≡ self.now.image }
    {
        self.image.as_slice()
    }

    /// Becomes another row. It takes no memory.
    pub fn take(&mut self, row: &Row)
        requires wide { length self.old.image ≡ length row.now.image }
        ensures { self.new ≡ row.now }
    {
        self.moment = row.moment();
        self.image.copy_from_slice(row.image());
    }
}

/// Puts the row in its program's place, if the program waits with it.
fn hold_one(held: &mut Vec<HeldRow>, program: usize, is_new: bool, row: &Row)
    requires there { program < length held.old.items }
    requires wide { IsWide (length row.now.image) held.old.items }
    ensures { held.new.items ≡ (if is_new then slice_set held.old.items program row.now else held.old.items) }
{
    if is_new {
        let place = &mut held[program];
        place.take(row);
    }
}

/// Whether it is this number.
fn is_number(waiting: Option<u64>, number: u64) -> bool
    ensures { result ≡ is_number waiting number }
{
    match waiting {
        Some(row) => row == number,
        None => false,
    }
}

/// Puts the newest row, of this number, in the place of each program that waits with it. It takes no memory.
pub fn hold_all(ready: &ReadyList, held: &mut Vec<HeldRow>, number: u64, row: &Row)
    requires wide { IsWide (length row.now.image) held.old.items }
    ensures wide { IsWide (length row.now.image) held.new.items }
    ensures len { length held.new.items ≡ length held.old.items }
    ensures holds { (h : History) → IsReadyOf h ready.now
        → HoldsNew ready.now.schedules h held.old.items held.new.items number row.now (length held.old.items) }
{
    for program in 0..held.len() {
        let is_new = is_number(ready.waiting(program), number);
        hold_one(held, program, is_new, row);
    }
}
