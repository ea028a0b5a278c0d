//! Laws of a restart from a file that survives. The functions do nothing: their contracts are the laws.

ghost use Rattle.std.specs.Prelude.{◌≡◌, ◌++◌, ◌∷◌, [], ℕ, List, Option, None, true, ℤ, if◌then◌else◌, codes, drop, length, pos};
ghost use Rattle.st_types.specs.declared.kind.Kind.{Kind};
ghost use Rattle.st_types.specs.declared.kind.Kind.TheVariants.{Enumerated};
ghost use Rattle.st_types.specs.Values.{Datum};
ghost use Rattle.st_types.specs.Paths.{Path};
ghost use Rattle.st_meaning.specs.Stores.{Store, get, shape_of, all_held};
ghost use Rattle.st_types.specs.declared.entry.Entry.{Entry};
ghost use Rattle.st_meaning.specs.Plans.{initial_store, is_retained};
ghost use Rattle.st_meaning.specs.Logs.{past_of, after, last_moment};
ghost use Rattle.st_meaning.specs.Restarts.{kept_of};
ghost use Rattle.retain_records.specs.Records.{Content, has_keyword, record_bytes};
ghost use Rattle.retain_store.specs.Recovered.{Recovered, Found};
ghost use Rattle.plan.specs.declared.plan.Plan.{Plan};
ghost use Rattle.plan.specs.PlanViews.{plan_view};
ghost use Rattle.durable_core.specs.Recorded.{recorded};
ghost use Rattle.retain_records.specs.OtherPlans.{all_carried};
ghost use Rattle.retain_records.specs.ContentLines.{kept_in};
ghost use Rattle.durable_core.specs.Restart.{record_of, warm, Survives};

/// The bytes of a record alone give the values that were kept: the paths of the retained variables, their types and
/// their values, and the moment.
pub fn records_hold_what_was_kept()
    ensures { (plan : Plan) (s : Store) (moment : Option ℕ) → shape_of s ≡ shape_of (initial_store (plan_view plan))
        → kept_in (record_of plan s moment) ≡ kept_of (plan_view plan) s moment }
{}

/// If a file survives, a warm restart from it gives each retained variable the value that it had after a prefix of the
/// log, and each other variable its initial value; rows have to be later than the last row of this prefix. The prefix
/// holds all that is acknowledged.
pub fn what_survives_is_given_back()
    ensures values { (plan : Plan) (start : Store) (before : Option ℕ) (log : List Entry) (acked : ℕ)
        (file : Recovered) (p : Path) → shape_of start ≡ shape_of (initial_store (plan_view plan))
        → all_held start ≡ true → (s : Survives plan start before log acked file)
        → get (warm plan file).store p
        ≡ (if is_retained (plan_view plan) p
        then get (after (plan_view plan) start s.front) p
        else get (initial_store (plan_view plan)) p) }
    ensures moment { (plan : Plan) (start : Store) (before : Option ℕ) (log : List Entry) (acked : ℕ)
        (file : Recovered) (s : Survives plan start before log acked file)
        → (warm plan file).moment ≡ last_moment before (past_of (plan_view plan) start s.front).rows }
{}

/// If a file survives and holds a record, a warm restart of any other plan from it gives each variable that both plans
/// retain, with its path and its type written alike, the value that it had after a prefix of the log, and each other
/// variable its initial value. The prefix holds all that is acknowledged.
pub fn what_survives_is_given_to_other_plans()
    ensures store { (plan other : Plan) (start : Store) (before : Option ℕ) (log : List Entry) (acked generation : ℕ)
        (content : Content) → shape_of start ≡ shape_of (initial_store (plan_view plan))
        → all_held start ≡ true → (s : Survives plan start before log acked (Found generation content))
        → (warm other (Found generation content)).store
        ≡ all_carried (plan_view plan) (plan_view other) (after (plan_view plan) start s.front) }
    ensures moment { (plan other : Plan) (start : Store) (before : Option ℕ) (log : List Entry) (acked generation : ℕ)
        (content : Content) (s : Survives plan start before log acked (Found generation content))
        → (warm other (Found generation content)).moment ≡ last_moment before (past_of (plan_view plan) start s.front).rows }
{}

/// A record knows only the names of an enumerated type, so that the types of two texts with the same names are one type
/// there; it holds a value of an elementary type unchanged. For `Mode : (Stopped, Running, Fault)`, at any place among
/// the types of its text, and a retained `m : Mode` that is FAULT, the body has 39 bytes, of which the last is 02.
pub fn records_know_types_by_their_names()
    ensures enumerated { (number : ℕ) → ◌≡◌ {A = Datum} (recorded record { kind = Enumerated 3 number; number = pos 2 })
        record { kind = Enumerated 3 0; number = pos 2 } }
    ensures elementary { (k : Kind) (z : ℤ) → has_keyword k ≡ true
        → ◌≡◌ {A = Datum} (recorded record { kind = k; number = z }) record { kind = k; number = z } }
    ensures length { (number : ℕ) → length (record_bytes (record {
      moment = None;
      layout = codes "M (STOPPED,RUNNING,FAULT)" ++ 10 ∷ [];
      values = recorded record { kind = Enumerated 3 number; number = pos 2 } ∷ [];
    })) ≡ 39 }
    ensures last { (number : ℕ) → drop 38 (record_bytes (record {
      moment = None;
      layout = codes "M (STOPPED,RUNNING,FAULT)" ++ 10 ∷ [];
      values = recorded record { kind = Enumerated 3 number; number = pos 2 } ∷ [];
    })) ≡ 2 ∷ [] }
{}
