//! EXIT outside of loops.

ghost use Rattle.std.specs.Prelude.{◌≡◌, map};
ghost use Rattle.std.specs.List.{flat_map};
ghost use Rattle.st_types.specs.StatementViews.{stmt_view};
ghost use Rattle.st_rules.specs.BodyRules.{wrong_exit};
ghost use Rattle.st_rules.specs.Collecting.{Collects};
ghost use Rattle.st_check.specs.Listings.{listed_view};

use crate::listings::Listed;
use st_rules::{BrokenRules, Reason};
use st_types::Stmt;

fn wrong_exit(in_loop: bool, statement: &Stmt, broken: &mut BrokenRules)
    ensures { Collects (wrong_exit in_loop (stmt_view statement.now)) broken.old broken.new }
{
    match statement {
        Stmt::Exit(place) => broken.add_unless(in_loop, Reason::ExitOutsideLoop, *place),
        _ => {}
    }
}

/// Adds the EXITs outside of any loop (C9).
pub fn wrong_exits(statements: &[Listed], broken: &mut BrokenRules)
    ensures { Collects (flat_map (λ l. wrong_exit l.in_loop l.statement) (map listed_view statements.now)) broken.old
        broken.new }
{
    for listed in statements {
        wrong_exit(listed.in_loop, listed.statement, broken);
    }
}
