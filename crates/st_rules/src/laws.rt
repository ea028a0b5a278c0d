//! Laws of the definitions. The functions do nothing: their contracts are the laws.

ghost use Rattle.std.specs.Prelude.{◌≡◌};
ghost use Rattle.st_types.specs.Expressions.{Expr};
ghost use Rattle.st_meaning.specs.Resolution.{own_kind, is_untyped};
ghost use Rattle.st_rules.specs.Environments.{Environment};
ghost use Rattle.st_rules.specs.Typings.{kind_of, is_untyped_typing, typing_of};
ghost use Rattle.st_rules.specs.Depths.{CyclesHaveChains, ChainsAreDepths};

/// The typing of an expression gives the type that the meaning of its untyped literals depends on.
#[tactic(auto, using(crate::proofs::TypingLaws::kinds_told, crate::proofs::TypingLaws::untyped_told))]
pub fn typings_are_those_of_the_meaning()
    ensures kind { (env : Environment) (e : Expr) → own_kind env.text env.unit e ≡ kind_of (typing_of env e) }
    ensures untyped { (env : Environment) (e : Expr) → is_untyped e ≡ is_untyped_typing (typing_of env e) }
{}

/// A type or unit that contains itself begins chains of any length, so it is too deep; one that does not begins chains
/// of just as many parts as it is deep.
#[tactic(auto, using(crate::proofs::DepthLaws::cycles_have_chains, crate::proofs::DepthLaws::chains_are_depths))]
pub fn chains_have_depths()
    ensures cycles { CyclesHaveChains }
    ensures depths { ChainsAreDepths }
{}
