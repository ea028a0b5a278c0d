//! The resolution of an expression by itself.

ghost use Rattle.std.specs.Prelude.{◌≡◌};
ghost use Rattle.st_types.specs.Expressions as tree;
ghost use Rattle.st_types.specs.ExpressionViews.{expr_view};
ghost use Rattle.st_meaning.specs.Resolution.{resolved_expr};
ghost use Rattle.st_rules.specs.Environments.{Environment};
ghost use Rattle.st_resolved.specs.Resolutions.{is_left, resolved_kind, resolved_tree, Resolves};

use crate::settling::settle;
use st_types::{Expr, Kind};

/// An expression that is resolved as far as it can be without its place.
#[derive(Drop)]
pub enum Resolution {
    /// Of only untyped literals, which wait for the type that their place offers.
    Untyped(Expr),
    /// Resolved, with its elementary or enumerated type, if it has one.
    Typed(Option<Kind>, Expr),
}

/// Whether the expression waits for its place.
pub fn is_left(resolution: &Resolution) -> bool
    ensures { result ≡ is_left resolution.now }
{
    matches!(resolution, Resolution::Untyped(_))
}

/// The type that the expression has by itself.
pub fn resolved_kind(resolution: &Resolution) -> Option<Kind>
    ensures { result ≡ resolved_kind resolution.now }
{
    match resolution {
        Resolution::Untyped(_) => None,
        Resolution::Typed(kind, _) => *kind,
    }
}

/// The expression as far as it is resolved.
pub fn into_tree(resolution: Resolution) -> Expr
    ensures { expr_view result ≡ resolved_tree resolution }
{
    match resolution {
        Resolution::Untyped(expression) => expression,
        Resolution::Typed(_, expression) => expression,
    }
}

/// The expression at a place that offers a type.
pub fn at_place(offered: Option<Kind>, resolution: Resolution) -> Expr
    ensures { (env : Environment) (e : tree.Expr) → Resolves env e resolution
        → expr_view result ≡ resolved_expr env.text env.unit offered e }
{
    match resolution {
        Resolution::Untyped(mut expression) => {
            settle(offered, &mut expression);
            expression
        }
        Resolution::Typed(_, expression) => expression,
    }
}
