//! Laws of the values that outlast a log and a restart.

ghost use Rattle.std.specs.Prelude.{◌≡◌, ℕ, [], true, Option, Some, bytes_eq, if◌then◌else◌, map};
ghost use Rattle.std.specs.List.{IsDistinct};
ghost use Rattle.st_types.specs.Paths.{Path};
ghost use Rattle.st_meaning.specs.Stores.{Store, get, shape_of, all_held};
ghost use Rattle.st_meaning.specs.Layouts.{path_text};
ghost use Rattle.st_meaning.specs.Plans.{Plan, initial_store, is_retained};
ghost use Rattle.st_meaning.specs.Logs.{Log, after};
ghost use Rattle.st_meaning.specs.Restarts.{Kept, kept_of, warm_start};

/// A log neither adds nor takes away a variable, each keeps its type, and its value is one that this type holds.
pub fn logs_keep_the_variables()
    ensures types { (plan : Plan) (start : Store) (log : Log) → shape_of (after plan start log) ≡ shape_of start }
    ensures values { (plan : Plan) (start : Store) (log : Log) → all_held start ≡ true
        → all_held (after plan start log) ≡ true }
{}

/// A start has the plan's variables, whatever record it goes on from, each of its type with a value that this type
/// holds.
pub fn starts_have_the_variables()
    ensures types { (plan : Plan) (r : Option Kept) → shape_of (warm_start plan r).store
        ≡ shape_of (initial_store plan) }
    ensures values { (plan : Plan) (r : Option Kept) → all_held (initial_store plan) ≡ true
        → all_held (warm_start plan r).store ≡ true }
{}

/// A warm start gives each retained variable the value that was kept of it, and each other its initial value, whatever
/// their types: of any values that the plan's variables hold, and so after any log of any life. No two paths of the
/// plan are written alike.
pub fn restarts_give_back_what_was_kept()
    ensures values { (plan : Plan) (s : Store) (moment : Option ℕ) (p : Path)
        → IsDistinct bytes_eq (map (λ v. path_text v.path) plan.variables)
        → shape_of s ≡ shape_of (initial_store plan) → all_held s ≡ true
        → get (warm_start plan (Some (kept_of plan s moment))).store p
        ≡ (if is_retained plan p then get s p else get (initial_store plan) p) }
    ensures lives { (plan : Plan) (r : Option Kept) (log : Log) (moment : Option ℕ) (p : Path)
        → IsDistinct bytes_eq (map (λ v. path_text v.path) plan.variables)
        → all_held (initial_store plan) ≡ true
        → get (warm_start plan (Some (kept_of plan (after plan (warm_start plan r).store log) moment))).store p
        ≡ (if is_retained plan p
        then get (after plan (warm_start plan r).store log) p
        else get (initial_store plan) p) }
{}
