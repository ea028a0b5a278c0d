//! The arms of a CASE as they are read.

ghost use Rattle.std.specs.Prelude.{◌≡◌, Ok};
ghost use Rattle.st_types.specs.StatementViews.{case_arm_view, stmt_view};
ghost use Rattle.st_parse.specs.ArmsView.{arms_view};
ghost use Rattle.st_parse.specs.Parsers.{Gives, each};
ghost use Rattle.st_parse.specs.StatementReading as reading;

use crate::fault::ReadError;
use st_types::{CaseArm, Label, Stmt};
use std::alloc::Global;

/// The arms before the last, and the statements of the last.
#[derive(Drop)]
pub struct Arms {
    before: Vec<CaseArm>,
    labels: Vec<Label>,
    body: Vec<Stmt>,
}

impl Arms {
    /// An arm alone, with no statement yet.
    pub fn first(alloc: Global, labels: Vec<Label>) -> Arms
        ensures { arms_view result ≡ reading.first_arm labels.items }
    {
        Arms {
            before: Vec::new(alloc),
            labels,
            body: Vec::new(alloc),
        }
    }

    /// All of them.
    pub fn all(self) -> Result<Vec<CaseArm>, ReadError>
        ensures { Gives (each case_arm_view) result (Ok (reading.all_arms (arms_view self))) }
    {
        let mut arms = self.before;
        arms.push(CaseArm {
            labels: self.labels,
            body: self.body,
        })?;
        Ok(arms)
    }

    /// With one more arm, which has no statement yet.
    pub fn with_arm(self, alloc: Global, labels: Vec<Label>) -> Result<Arms, ReadError>
        ensures { Gives arms_view result (Ok (reading.with_arm (arms_view self) labels.items)) }
    {
        Ok(Arms {
            before: self.all()?,
            labels,
            body: Vec::new(alloc),
        })
    }

    /// With one more statement in the last.
    pub fn with_statement(mut self, found: Stmt) -> Result<Arms, ReadError>
        ensures { Gives arms_view result (Ok (reading.with_stmt (arms_view self) (stmt_view found))) }
    {
        self.body.push(found)?;
        Ok(self)
    }
}
