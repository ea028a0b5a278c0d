//! Laws of well-typed expressions, statements and texts.

ghost use Rattle.st_link.specs.Soundness.{ValuesAreSound, AssignmentsAreSound};
ghost use Rattle.st_link.specs.StatementSoundness.{StatementsAreSound, StatementsWithoutInstancesAreSound};
ghost use Rattle.st_link.specs.UnitSoundness.{TypesAreKnown, UnitsAreSound, ProgramsAreSound};

/// If nothing is wrong in an expression of an elementary or enumerated type, its value is one of that type, or a fault
/// of the run, never a stand-in.
#[tactic(auto, using(crate::proofs::ValueLaw::values_are_sound))]
pub fn values_are_sound()
    ensures { ValuesAreSound }
{}

/// If nothing is wrong in an assignment, it is done, or ends with a fault of the run, never a stand-in. In the store
/// after it each place of the unit still has a value of its type.
#[tactic(auto, using(crate::proofs::AssignmentLaw::assignments_are_sound))]
pub fn assignments_are_sound()
    ensures { AssignmentsAreSound }
{}

/// If nothing is wrong in a list of statements, with all statements in them, and the calls of instances are sound, a
/// run of them is done, or ends with a fault of the run, never a stand-in. In the store after it each place of the unit
/// still has a value of its type.
#[tactic(auto, using(crate::proofs::BodyLaw::statements_are_sound))]
pub fn statements_are_sound()
    ensures { StatementsAreSound }
{}

/// The same for the statements of a unit none of whose variables is an instance: it has none to call.
#[tactic(auto, using(crate::proofs::BodyLaw::statements_without_instances_are_sound))]
pub fn statements_without_instances_are_sound()
    ensures { StatementsWithoutInstancesAreSound }
{}

/// In a text that breaks no rule the types of a unit's variables and of their parts are known, and each input and
/// result of a function has an elementary or enumerated type.
#[tactic(auto, using(crate::proofs::TextLaw::types_are_known))]
pub fn types_are_known()
    ensures { TypesAreKnown }
{}

/// The functions and blocks of a text that breaks no rule end alike whatever stands for the cases that no well-typed
/// text meets. A function gives a value of its result's type, and a block keeps the variables with their types.
pub fn units_are_sound()
    ensures { UnitsAreSound }
{}

/// A run of a program of a text that breaks no rule, over variables with values, is done, or ends with a fault of the
/// run, never a stand-in. It keeps the variables with their types.
#[tactic(auto, using(crate::proofs::TextLaw::programs_are_sound))]
pub fn programs_are_sound()
    ensures { ProgramsAreSound }
{}
