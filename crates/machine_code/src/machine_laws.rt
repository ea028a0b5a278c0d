//! Laws of the machine, each proved of the definitions. The functions do nothing: their contracts are the laws.

ghost use Rattle.std.specs.Prelude.{◌≡◌, ◌≤◌, ◌*◌, ℕ, zero, suc, true, false, [], List, Some, length, slice_get};
ghost use Rattle.std.specs.Prelude.{slice_set};
ghost use Rattle.st_types.specs.Kinds.{holds};
ghost use Rattle.st_types.specs.Values.{Datum};
ghost use Rattle.st_meaning.specs.Failures.{StuckFaults};
ghost use Rattle.machine_code.specs.declared.instr.Instr as instr;
ghost use Rattle.machine_code.specs.Memories.{plain};
ghost use Rattle.machine_code.specs.Machine.{act, exec, runs, finished};
ghost use Rattle.machine_code.specs.Tracking.{Tracked, tracking, unmarked, memory_of, is_read_in, is_assigned_in};
ghost use Rattle.machine_code.specs.Tracking.{EndsLike, AreOfKind};
ghost use Rattle.machine_code.specs.Asking.{IsOnlyLookedUp, FailsWith};

/// Over values of slots, the machine goes on from each instruction as the definition of the instruction says, ends at
/// the end of its code, and is over within as many instructions as the code has, and one, for each tick of its
/// budget, and one: whatever its code is.
pub fn machine_goes_on()
    ensures instruction { (t : StuckFaults) (now : ℕ) (code : List instr.Instr) (p : ℕ) (st vs : List Datum) (budget : ℕ)
        → runs plain t now code (suc p) st vs budget
        ≡ act plain t now (length code) (slice_get code p) (runs plain t now code) p st vs budget }
    ensures end { (t : StuckFaults) (now : ℕ) (code : List instr.Instr) (st vs : List Datum) (budget : ℕ)
        → runs plain t now code zero st vs budget ≡ finished vs budget }
    ensures over { (t : StuckFaults) (now : ℕ) (code : List instr.Instr) (p : ℕ) (st vs : List Datum) (budget : ℕ)
        → p ≤ length code → runs plain t now code p st vs budget
        ≡ exec plain t now code (suc budget * suc (length code)) p st vs budget }
{}

/// A run that marks what it reads ends as one that does not. Over other values of the same types, which are the same
/// wherever it looked a value up before it assigned the slot, the machine ends alike: with the same fault, or with as many
/// ticks left, the values that the marked run assigned, and all else as it was.
pub fn reads_suffice()
    ensures same { (t : StuckFaults) (now : ℕ) (code : List instr.Instr) (p : ℕ) (m : Tracked) (budget : ℕ)
        → runs plain t now code p [] m.values budget ≡ unmarked (runs tracking t now code p [] m budget) }
    ensures others { (t : StuckFaults) (now : ℕ) (code : List instr.Instr) (p : ℕ) (m : Tracked) (us : List Datum)
        (budget : ℕ) → length m.marks ≡ length m.values → ((k : ℕ) → is_assigned_in m k ≡ false)
        → ((k : ℕ) → AreOfKind (slice_get m.values k) (slice_get us k))
        → ((k : ℕ) → is_read_in (memory_of (runs tracking t now code p [] m budget)) k ≡ true
        → slice_get m.values k ≡ slice_get us k)
        → EndsLike us (runs tracking t now code p [] m budget) (runs plain t now code p [] us budget) }
{}

/// A slot that code only looks up, whose value it never takes as it is. If a run reads it, the run over the same values but
/// one there that its type does not hold ends with whatever fault stands for a missing value: so the run asks for it.
pub fn what_is_read_is_asked_for()
    ensures { (t u : StuckFaults) (now : ℕ) (code : List instr.Instr) (p : ℕ) (m : Tracked) (budget k : ℕ) (v w : Datum)
        → length m.marks ≡ length m.values → is_read_in m k ≡ false → is_assigned_in m k ≡ false
        → slice_get m.values k ≡ Some v → v.kind ≡ w.kind → holds w.kind w.number ≡ false → IsOnlyLookedUp code k
        → is_read_in (memory_of (runs tracking t now code p [] m budget)) k ≡ true
        → FailsWith u.missing (runs plain u now code p [] (slice_set m.values k w) budget) }
{}
