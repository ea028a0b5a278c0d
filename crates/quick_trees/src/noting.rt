//! The fact known of a slot's note at a place of the code.

ghost use Rattle.std.specs.Prelude.{◌≡◌};
ghost use Rattle.quick_trees.specs.Notes;

/// The fact known of the note of a slot wherever a run comes to a place of the code, beside what the program did.
#[derive(Clone, Copy, PartialEq, Eq)]
pub enum Noting {
    /// The note says what the program did.
    Exact,
    /// It also says that a look comes.
    LookAhead,
    /// It also says that an assignment comes.
    AssignmentAhead,
    /// It also says that a look comes and an assignment after it.
    BothAhead,
    /// The note says what the program did, and this looked the slot up or assigned it.
    Looked,
    /// The program looked the slot up or assigned it, and the note also says that an assignment comes.
    LookedAssignmentAhead,
    /// The note says what the program did, and this assigned the slot.
    Assigned,
}

impl Noting {
    /// The fact known after the program looks the slot up; none if the note would miss that.
    pub fn at_look(self) -> Option<Noting>
        ensures { result ≡ Notes.at_look self }
    {
        match self {
            Noting::LookAhead | Noting::Looked => Some(Noting::Looked),
            Noting::BothAhead | Noting::LookedAssignmentAhead => Some(
                Noting::LookedAssignmentAhead,
            ),
            Noting::Assigned => Some(Noting::Assigned),
            Noting::Exact | Noting::AssignmentAhead => None,
        }
    }

    /// The fact known after the program assigns the slot; none if the note would miss that.
    pub fn at_assignment(self) -> Option<Noting>
        ensures { result ≡ Notes.at_assignment self }
    {
        match self {
            Noting::AssignmentAhead | Noting::LookedAssignmentAhead | Noting::Assigned => Some(
                Noting::Assigned,
            ),
            Noting::Exact | Noting::LookAhead | Noting::BothAhead | Noting::Looked => None,
        }
    }

    /// The fact known after an instruction notes a look that comes; none if it says no more.
    pub fn with_look_ahead(self) -> Option<Noting>
        ensures { result ≡ Notes.with_look_ahead self }
    {
        match self {
            Noting::Exact => Some(Noting::LookAhead),
            _ => None,
        }
    }

    /// The fact known after an instruction notes an assignment that comes; none if it says no more.
    pub fn with_assignment_ahead(self) -> Option<Noting>
        ensures { result ≡ Notes.with_assignment_ahead self }
    {
        match self {
            Noting::Exact => Some(Noting::AssignmentAhead),
            Noting::LookAhead => Some(Noting::BothAhead),
            Noting::Looked => Some(Noting::LookedAssignmentAhead),
            _ => None,
        }
    }

    /// If this is known, so is the other.
    pub fn implies(self, other: Noting) -> bool
        ensures { result ≡ Notes.implies self other }
    {
        match (self, other) {
            (Noting::Assigned, _) => true,
            (Noting::Exact, Noting::Exact) => true,
            (Noting::LookAhead, Noting::LookAhead) => true,
            (Noting::AssignmentAhead, Noting::AssignmentAhead) => true,
            (Noting::BothAhead, Noting::BothAhead) => true,
            (Noting::Looked, Noting::Exact | Noting::LookAhead | Noting::Looked) => true,
            (Noting::LookedAssignmentAhead, Noting::AssignmentAhead | Noting::BothAhead) => true,
            (Noting::LookedAssignmentAhead, Noting::LookedAssignmentAhead) => true,
            _ => false,
        }
    }
}
