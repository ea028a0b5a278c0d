//! Adding to broken rules.

ghost use Rattle.std.specs.Prelude.{◌≡◌, [], ◌∷◌};
ghost use Rattle.st_rules.specs.Collecting.{Collects, is_full};
ghost use Rattle.st_rules.specs.Faults.{breaking, unless, in_case};

use crate::broken_rules::BrokenRules;
use crate::reason::Reason;
use crate::rule::Broken;

impl BrokenRules {
    /// Whether there is no room for another one.
    pub fn is_full(&self) -> bool
        ensures { result ≡ is_full self.now }
    {
        self.room <= self.found.len()
    }

    /// Adds one, if there is room and it wasn't found before.
    pub fn add(&mut self, broken: Broken)
        ensures { Collects (broken ∷ []) self.old self.new }
    {
        if self.found.len() < self.room && !self.found.contains(&broken) {
            let _ = self.found.push(broken);
        }
    }

    /// Adds one at a place, unless the condition holds that has to hold there.
    pub fn add_unless(&mut self, right: bool, reason: Reason, place: usize)
        ensures { Collects (breaking reason (unless right place)) self.old self.new }
    {
        if !right {
            self.add(Broken { reason, place });
        }
    }

    /// Adds one at a place, in case a condition holds that must not.
    pub fn add_in_case(&mut self, wrong: bool, reason: Reason, place: usize)
        ensures { Collects (breaking reason (in_case wrong place)) self.old self.new }
    {
        if wrong {
            self.add(Broken { reason, place });
        }
    }
}
