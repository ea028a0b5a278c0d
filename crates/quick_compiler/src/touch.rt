//! How statements touch a slot.

use crate::known::State;
use quick_trees::Noting;

/// How statements touch a slot, over all ways through them.
#[derive(Clone, Copy, PartialEq, Eq)]
pub struct Touch {
    /// A way neither looks it up nor assigns it.
    is_untouched: bool,
    /// A way looks it up and does not assign it.
    is_looked_up: bool,
    /// A way looks it up first, and then assigns it.
    is_changed: bool,
    /// A way assigns it before it looks it up, if it does.
    is_assigned: bool,
}

impl Touch {
    /// No way touches the slot.
    pub const NONE: Touch = Touch {
        is_untouched: true,
        is_looked_up: false,
        is_changed: false,
        is_assigned: false,
    };

    /// With a look after it.
    pub fn then_look(self) -> Touch {
        Touch {
            is_untouched: false,
            is_looked_up: self.is_looked_up || self.is_untouched,
            ..self
        }
    }

    /// With an assignment after it.
    pub fn then_assignment(self) -> Touch {
        Touch {
            is_untouched: false,
            is_looked_up: false,
            is_changed: self.is_changed || self.is_looked_up,
            is_assigned: self.is_assigned || self.is_untouched,
        }
    }

    /// Whether each way assigns the slot.
    pub fn assigns(self) -> bool {
        !self.is_untouched && !self.is_looked_up
    }

    /// Whether each way looks the slot up first.
    pub fn looks(self) -> bool {
        !self.is_untouched && !self.is_assigned
    }

    /// Whether all ways look it up before they assign it, or none does.
    pub fn is_alike(self) -> bool {
        !self.is_changed || !self.is_assigned
    }
}

impl State for Touch {
    fn joined(self, other: Touch) -> Option<Touch> {
        Some(Touch {
            is_untouched: self.is_untouched || other.is_untouched,
            is_looked_up: self.is_looked_up || other.is_looked_up,
            is_changed: self.is_changed || other.is_changed,
            is_assigned: self.is_assigned || other.is_assigned,
        })
    }
}

impl State for Noting {
    fn joined(self, other: Noting) -> Option<Noting> {
        if self.implies(other) {
            return Some(other);
        }
        if other.implies(self) {
            return Some(self);
        }
        None
    }
}
