//! A number that only rises: one thread raises it, and others read it without waiting.

ghost use Rattle.std.specs.Prelude.{◌≡◌, ℕ, ◌≤◌, max, IfOk};

use atomic_table::{Play, Seat, Split, Table, TableRule};
use std::alloc::{AllocError, Global};
use std::marker::Model;

/// The number as a pass knows it: whether it raises, and the greatest number that it raised or saw. No value of it is ever
/// made: it exists in proofs alone.
pub struct View {
    pub raises: bool,
    pub top: u64,
}

/// The word is the last number that the one raising pass raised, and no pass has seen more.
pub struct Rises;

impl TableRule<(), View, ()> for Rises {
    ghost use Rattle.run_lock.specs.Rising.{IsRising, raiser};

    ghost holds = { λ _. IsRising };

    ghost first = { λ _. raiser 0 };
}

/// A step that reads the word.
struct Look;

impl Play<(), View> for Look {
    ghost use Rattle.run_lock.specs.Rising.{Looked};

    ghost then = { Looked };
}

/// A step that raises the word.
struct Raise;

impl Play<(), View> for Raise {
    ghost use Rattle.run_lock.specs.Rising.{Raised};

    ghost then = { Raised };
}

/// A reader that is split off knows the same as its origin, and does not raise.
struct Reader;

impl Split<View> for Reader {
    ghost use Rattle.run_lock.specs.Rising.{looker};

    ghost left = { λ v. v };

    ghost right = { λ v. looker v.top };
}

/// The shared number. To a contract it is its name.
#[derive(Drop)]
pub struct Mark {
    table: Table<(), View, (), Rises, Global>,
}

impl Model for Mark {
    ghost use Rattle.std.specs.Prelude.{◌≡◌};
    ghost use Rattle.atomic_table.specs.Seated.{TableId};

    ghost Value = { TableId };

    ghost view = { λ m. m.table.shared.table_id };

    ghost invariant = { λ m. m.table.shared.table_id.words ≡ 1 };
}

/// The one right to raise a mark, with the greatest number raised.
#[derive(Drop)]
pub struct RaisePass {
    seat: Seat<(), View>,
}

impl Model for RaisePass {
    ghost use Rattle.std.specs.Prelude.{◌≡◌, true};
    ghost use Rattle.run_lock.specs.Sighting.{Sighting};

    ghost Value = { Sighting };

    ghost view = { λ p. record { mark = p.seat.table_id; top = p.seat.me.0.top } };

    ghost invariant = { λ p. p.seat.me.0.raises ≡ true };
}

/// The greatest number that one thread has seen of a mark.
#[derive(Drop)]
pub struct Pass {
    seat: Seat<(), View>,
}

impl Model for Pass {
    ghost use Rattle.std.specs.Prelude.{◌≡◌, false};
    ghost use Rattle.run_lock.specs.Sighting.{Sighting};

    ghost Value = { Sighting };

    ghost view = { λ p. record { mark = p.seat.table_id; top = p.seat.me.0.top } };

    ghost invariant = { λ p. p.seat.me.0.raises ≡ false };
}

impl Mark {
    /// A mark at 0, with the pass that raises it and one that reads it.
    pub fn new(alloc: Global) -> Result<(Mark, RaisePass, Pass), AllocError>
        ensures raises { IfOk result (λ m. (m.1.mark ≡ m.0) × (m.1.top ≡ 0)) }
        ensures reads { IfOk result (λ m. (m.2.mark ≡ m.0) × (m.2.top ≡ 0)) }
    {
        let (table, mut seat) = Table::of_words(alloc, &[0], &())?;
        let other = table.shared.split_seat::<Reader>(&mut seat);
        Ok((Mark { table }, RaisePass { seat }, Pass { seat: other }))
    }

    /// The number now. It is at least the one that the pass has seen, and counts as seen from then on.
    pub fn load(&self, pass: &mut Pass) -> u64
        requires own { pass.old.mark ≡ self.now }
        ensures same { pass.new.mark ≡ pass.old.mark }
        ensures later { pass.old.top ≤ result }
        ensures seen { pass.new.top ≡ result }
    {
        self.table.shared.load::<Look>(&mut pass.seat, 0)
    }

    /// Raises the number to `to`, unless it is higher.
    pub fn raise(&self, pass: &mut RaisePass, to: u64)
        requires own { pass.old.mark ≡ self.now }
        ensures same { pass.new.mark ≡ pass.old.mark }
        ensures raised { pass.new.top ≡ max pass.old.top to }
    {
        self.table.shared.fetch_max::<Raise>(&mut pass.seat, 0, to);
    }
}
