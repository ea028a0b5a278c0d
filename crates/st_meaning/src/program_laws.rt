//! Laws of the meaning of programs, each proved of the definitions. The functions do nothing: their contracts are the laws.

ghost use Rattle.std.specs.Prelude.{◌≡◌, ◌+◌, ◌<◌, ◌≤◌, ◌≤ℤ◌, ◌∷◌, ◌++◌, [], ℕ, ℤ, pos, List, Bool, true, false};
ghost use Rattle.std.specs.Prelude.{Option, Result, Ok, Err, Some, None, IsSome, ◌⊎◌};
ghost use Rattle.st_types.specs.declared.fault.Fault.{Fault};
ghost use Rattle.st_types.specs.declared.fault.Fault.TheVariants.{Budget};
ghost use Rattle.st_types.specs.declared.kind.Kind.TheVariants.{Int};
ghost use Rattle.st_types.specs.declared.operator.BinaryOperator.{BinaryOperator};
ghost use Rattle.st_types.specs.Kinds.{holds};
ghost use Rattle.st_types.specs.Values.{Datum};
ghost use Rattle.st_types.specs.Expressions.{Expr, binary};
ghost use Rattle.st_types.specs.Paths.{Path, same_path};
ghost use Rattle.st_meaning.specs.Failures.{ill_typed, with_missing, with_wrong};
ghost use Rattle.std.specs.Prelude.{length, slice_get};
ghost use Rattle.st_meaning.specs.Scopes.{seen};
ghost use Rattle.st_meaning.specs.Slots.{Slot, IsLayout, variables_with, inputs_in, after_write};
ghost use Rattle.st_meaning.specs.Stores.{Store, get, shape_of, all_held, IsStore, assigned};
ghost use Rattle.st_meaning.specs.StandardBlocks.{on_delay, off_delay, pulse, set_first, reset_first, up_count};
ghost use Rattle.st_meaning.specs.StandardBlocks.{down_count, up_down_count};
ghost use Rattle.st_meaning.specs.TimerRuns.{TimerCall, timer_after, WasOnFor};
ghost use Rattle.st_meaning.specs.Scopes.{Scope};
ghost use Rattle.st_meaning.specs.Evaluation.{value, known};
ghost use Rattle.st_meaning.specs.Loops.{End, Iteration, turns, looped};
ghost use Rattle.st_meaning.specs.Execution.{exec_all};
ghost use Rattle.st_meaning.specs.Runs.{Program, ran, scope_of, outcome_of, store_after, ran_where};
ghost use Rattle.st_meaning.specs.Asked.{IsAsked, without_value};

use crate::outcome::Outcome;

/// No run ends with more ticks than it had. A run that is done is done with a larger budget too, with as many more ticks
/// left; one that faults faults alike, unless its ticks ran out.
pub fn budgets()
    ensures falls { (p : Program) (image : Store) (now budget : ℕ) (s : Store) (e : End) (left : ℕ)
        → ran p image now budget s ≡ Ok (e, left) → left ≤ budget }
    ensures more { (p : Program) (image : Store) (now budget added : ℕ) (s : Store) (e : End) (left : ℕ)
        → ran p image now budget s ≡ Ok (e, left) → ran p image now (budget + added) s ≡ Ok (e, left + added) }
    ensures outcome { (p : Program) (image : Store) (now budget added : ℕ) (s : Store)
        → outcome_of p budget s image now ≡ Outcome.Done → outcome_of p (budget + added) s image now ≡ Outcome.Done }
    ensures fault { (p : Program) (image : Store) (now budget added : ℕ) (s : Store) (f : Fault) → (f ≡ Budget → ⊥)
        → outcome_of p budget s image now ≡ Outcome.Faulted f
        → outcome_of p (budget + added) s image now ≡ Outcome.Faulted f }
    ensures store { (p : Program) (image : Store) (now budget added : ℕ) (s : Store) → outcome_of p budget s image now
        ≡ Outcome.Done → store_after p (budget + added) s image now ≡ store_after p budget s image now }
{}

/// How deep calls may be and how often loops may turn in the definitions is never the limit of a run: the ticks are.
pub fn bounds_of_recursion()
    ensures calls { (p : Program) (image : Store) (now budget depth : ℕ) (s : Store) → budget ≤ depth
        → ran p image now budget s ≡ exec_all (scope_of p image now depth) p.body.statements s budget }
    ensures turns { (turn : Store → ℕ → Result (Iteration × ℕ) Fault) (step : Store → ℕ → Result (Option Store × ℕ) Fault)
        → ((s : Store) (b : ℕ) (t : Iteration) (c : ℕ) → turn s b ≡ Ok (t, c) → c ≤ b)
        → ((s : Store) (b : ℕ) (o : Option Store) (c : ℕ) → step s b ≡ Ok (o, c) → c ≤ b)
        → (n : ℕ) (s : Store) (b : ℕ) → b < n → turns n turn step s b ≡ looped turn step s b }
{}

/// A run that faults leaves every variable as it was.
pub fn faults_change_nothing()
    ensures { (p : Program) (budget : ℕ) (s image : Store) (now : ℕ) (fault : Fault)
        → outcome_of p budget s image now ≡ Outcome.Faulted fault → store_after p budget s image now ≡ s }
{}

/// A run neither adds nor takes away a variable, each variable keeps its type, and its value is one that this type
/// holds.
pub fn variables_stay()
    ensures types { (p : Program) (budget : ℕ) (s image : Store) (now : ℕ)
        → shape_of (store_after p budget s image now) ≡ shape_of s }
    ensures values { (p : Program) (budget : ℕ) (s image : Store) (now : ℕ) → IsStore image s
        → IsStore image (store_after p budget s image now) }
{}

/// An operator's right operand is evaluated whatever the left one is, also of AND and OR: its fault is the whole
/// operation's.
pub fn operands_are_all_evaluated()
    ensures left { (w : Scope) (s : Store) (op : BinaryOperator) (l r : Expr) (b : ℕ) (fault : Fault)
        → value w s l b ≡ Err fault → value w s (binary op l r) b ≡ Err fault }
    ensures right { (w : Scope) (s : Store) (op : BinaryOperator) (l r : Expr) (b c : ℕ) (x : Datum) (fault : Fault)
        → value w s l b ≡ Ok (x, c) → value w s r c ≡ Err fault → value w s (binary op l r) b ≡ Err fault }
{}

/// After any calls the time that a timer shows has not passed the PT of the last call.
pub fn timers_stop_at_their_time()
    ensures on_delay { (calls : List TimerCall) (c : TimerCall)
        → (timer_after on_delay (calls ++ c ∷ [])).et ≤ℤ pos c.pt }
    ensures off_delay { (calls : List TimerCall) (c : TimerCall)
        → (timer_after off_delay (calls ++ c ∷ [])).et ≤ℤ pos c.pt }
    ensures pulse { (calls : List TimerCall) (c : TimerCall) → (timer_after pulse (calls ++ c ∷ [])).et ≤ℤ pos c.pt }
{}

/// After any calls Q of TON is TRUE only if IN was TRUE at some call and at each one since, for PT at least.
pub fn on_delay_waits()
    ensures { (calls : List TimerCall) (c : TimerCall) → 0 < c.pt → (timer_after on_delay (calls ++ c ∷ [])).q ≡ true
        → WasOnFor (calls ++ c ∷ []) c.pt c.now }
{}

/// SR keeps Q1 if neither input is TRUE, and RS is reset whatever S says.
pub fn bistables()
    ensures sr_set { (reset q : Bool) → set_first true reset q ≡ true }
    ensures sr_reset { (q : Bool) → set_first false true q ≡ false }
    ensures sr_keeps { (q : Bool) → set_first false false q ≡ q }
    ensures rs_reset { (set q : Bool) → reset_first set true q ≡ false }
    ensures rs_set { (q : Bool) → reset_first true false q ≡ true }
    ensures rs_keeps { (q : Bool) → reset_first false false q ≡ q }
{}

/// A counter stays an INT, whatever it counts.
pub fn counters_stay_within_their_type()
    ensures up { (reset edge : Bool) (z : ℤ) → holds Int z ≡ true → holds Int (up_count reset edge z) ≡ true }
    ensures down { (load edge : Bool) (pv z : ℤ) → holds Int pv ≡ true → holds Int z ≡ true
        → holds Int (down_count load pv edge z) ≡ true }
    ensures up_down { (reset load up down : Bool) (pv z : ℤ) → holds Int pv ≡ true → holds Int z ≡ true
        → holds Int (up_down_count reset load pv up down z) ≡ true }
{}

/// The test of two paths is true exactly if they are the same path.
pub fn paths_are_compared()
    ensures only { (p q : Path) → same_path p q ≡ true → p ≡ q }
    ensures itself { (p : Path) → same_path p p ≡ true }
{}

/// If each path of a layout has one slot, the value at a path is the value of its slot, and an assignment by a path is a
/// write to its slot. An input isn't a variable.
pub fn paths_and_slots()
    ensures read { (layout : List Slot) (vs : List Datum) → IsLayout layout → length layout ≡ length vs
        → (k : ℕ) (l : Slot) → slice_get layout k ≡ Some l
        → seen (inputs_in layout vs) (variables_with layout vs) l.path ≡ slice_get vs k }
    ensures assigned { (layout : List Slot) (vs : List Datum) → IsLayout layout → length layout ≡ length vs → (k : ℕ)
        (l : Slot) (old v : Datum) → slice_get layout k ≡ Some l → l.is_input ≡ false → slice_get vs k ≡ Some old
        → assigned (variables_with layout vs) l.path v ≡ after_write layout vs k old v }
    ensures input { (layout : List Slot) (vs : List Datum) → IsLayout layout → (k : ℕ) (l : Slot) (v : Datum)
        → slice_get layout k ≡ Some l → l.is_input ≡ true → assigned (variables_with layout vs) l.path v ≡ Err ill_typed }
{}

/// If an image and a store hold their values, a look-up finds each of them. A store without a value has the same variables
/// with the same types and the same other values; a look-up no longer finds the value that was taken away.
pub fn missing_values()
    ensures none { (image s : Store) (p : Path) → all_held image ≡ true → all_held s ≡ true
        → known (seen image s p) ≡ seen image s p }
    ensures shape { (s : Store) (p : Path) → shape_of (without_value s p) ≡ shape_of s }
    ensures gone { (s : Store) (p : Path) → known (get (without_value s p) p) ≡ None }
    ensures others { (s : Store) (p q : Path) → same_path p q ≡ false → get (without_value s p) q ≡ get s q }
{}

/// If a run comes to something that has no value, it ends with the fault that stands for it; else it ends the same way
/// whatever this fault is. So two faults show whether a value is asked for. The same holds for something that is ill typed
/// and the fault that stands for that.
pub fn two_faults_show_what_is_asked()
    ensures ends { (f g : Fault) (p : Program) (image : Store) (now budget : ℕ) (s : Store)
        → (ran_where (with_missing f) p image now budget s ≡ ran_where (with_missing g) p image now budget s)
        ⊎ ((ran_where (with_missing f) p image now budget s ≡ Err f)
        × (ran_where (with_missing g) p image now budget s ≡ Err g)) }
    ensures wrong { (f g : Fault) (p : Program) (image : Store) (now budget : ℕ) (s : Store)
        → (ran_where (with_wrong f) p image now budget s ≡ ran_where (with_wrong g) p image now budget s)
        ⊎ ((ran_where (with_wrong f) p image now budget s ≡ Err f)
        × (ran_where (with_wrong g) p image now budget s ≡ Err g)) }
    ensures asked { (f g : Fault) (program : Program) (budget : ℕ) (s image : Store) (now : ℕ) (p : Path) → (f ≡ g → ⊥)
        → p.owner ≡ None → IsSome (seen image s p)
        → ran_where (with_missing f) program (without_value image p) now budget (without_value s p) ≡ Err f
        → ran_where (with_missing g) program (without_value image p) now budget (without_value s p) ≡ Err g
        → IsAsked program budget s image now p }
{}
