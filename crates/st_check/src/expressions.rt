//! Faults in expressions, by the demands of their places.

ghost use Rattle.std.specs.Prelude.{◌≡◌, map};
ghost use Rattle.std.specs.List.{flat_map};
ghost use Rattle.st_rules.specs.Environments.{Environment};
ghost use Rattle.st_rules.specs.Collecting.{Collects};
ghost use Rattle.symbols.specs.Serving.{Serves};
ghost use Rattle.st_check.specs.Roots.{root_view, wrong_root};

use crate::roots::Root;
use st_rules::BrokenRules;
use st_typing::wrong_expression;
use symbols::UnitNames;

/// Adds the faults in an expression, by the demand of its place.
#[tactic(auto, unfolding(crate::specs::Roots::wrong_root))]
fn wrong_root(names: &UnitNames, root: Root, broken: &mut BrokenRules)
    ensures { (env : Environment) → Serves names.now env
        → Collects (wrong_root env (root_view root.entry)) broken.old broken.new }
{
    wrong_expression(names, root.demand, root.tree, broken);
}

/// Adds the faults in expressions, by the demands of their places.
pub fn wrong_roots(names: &UnitNames, roots: &[Root], broken: &mut BrokenRules)
    ensures { (env : Environment) → Serves names.now env
        → Collects (flat_map (wrong_root env) (map root_view roots.now)) broken.old broken.new }
{
    for root in roots {
        wrong_root(names, *root, broken);
    }
}
