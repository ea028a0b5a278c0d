//! Laws of the invariant of a plan. The functions do nothing: their contracts are the laws.

ghost use Rattle.std.specs.Prelude.{◌≡◌, true, map};
ghost use Rattle.std.specs.List.{list_all};
ghost use Rattle.std.specs.Vec.{vec_items};
ghost use Rattle.plan.specs.declared.plan.Plan.{Plan};
ghost use Rattle.plan.specs.Owners.{AreDistinguished};
ghost use Rattle.plan.specs.Reads.{ReadsWhatItAsksFor};
ghost use Rattle.layout.specs.Names.{are_different};

/// If the code of an instance of a plan reads a global or an input, its program asks for it, whoever made the plan.
pub fn plans_read_what_they_ask_for()
    ensures { (plan : Plan) → ReadsWhatItAsksFor plan }
{}

/// The instances of a plan are distinguished by their names: no name is written as the beginning of another one. So are
/// the values of each of its enumerated types.
pub fn plan_instances_are_distinguished()
    ensures instances { (plan : Plan) → AreDistinguished (map (λ p. p.owner) plan.programs.items) }
    ensures values { (plan : Plan) → list_all are_different (map vec_items plan.enumerations.items) ≡ true }
{}
