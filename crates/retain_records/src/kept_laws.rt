//! The values that a record of one plan gives another. The function does nothing: its contract is the law.

ghost use Rattle.std.specs.Prelude.{◌≡◌, ℕ, Option};
ghost use Rattle.st_meaning.specs.Stores.{Store};
ghost use Rattle.st_meaning.specs.Plans.{Plan};
ghost use Rattle.st_meaning.specs.Restarts.{kept};
ghost use Rattle.retain_records.specs.OtherPlans.{HoldTheSame, all_carried, started_after};

/// A warm start of another plan gives each variable that both plans retain, with its path and its type written alike,
/// the value that was kept, and each other variable its initial value; its moment is the one that was kept. Types that
/// are written alike hold the same values.
pub fn restarts_give_other_plans_what_is_theirs()
    ensures store { (old new : Plan) (s : Store) (moment : Option ℕ)
        → HoldTheSame old.enumerations new.enumerations new.variables (kept old s)
        → (started_after old new s moment).store ≡ all_carried old new s }
    ensures moment { (old new : Plan) (s : Store) (moment : Option ℕ) → (started_after old new s moment).moment ≡ moment }
{}
