//! Laws of linked texts.

ghost use Rattle.std.specs.Prelude.{◌≡◌, ℕ, [], Some, true, slice_get};
ghost use Rattle.st_types.specs.declared.kind.Kind.{Kind};
ghost use Rattle.st_types.specs.Configurations.{Configuration};
ghost use Rattle.st_types.specs.Expressions.{Expr};
ghost use Rattle.st_types.specs.Sources.{Source};
ghost use Rattle.st_types.specs.Statements.{Stmts};
ghost use Rattle.st_meaning.specs.NameTypes.{declared_in};
ghost use Rattle.st_meaning.specs.Resolution.{resolved_expr};
ghost use Rattle.st_meaning.specs.ResolvedUnits.{resolved_stmts};
ghost use Rattle.st_meaning.specs.Runs.{Program};
ghost use Rattle.st_rules.specs.declared.demand.Demand.{Demand};
ghost use Rattle.st_rules.specs.declared.typings.Typing.TheVariants.{Elementary};
ghost use Rattle.st_rules.specs.ConfigurationRules.{are_known};
ghost use Rattle.st_rules.specs.Demands.{expected_of};
ghost use Rattle.st_rules.specs.Environments.{Environment};
ghost use Rattle.st_rules.specs.ExpressionRules.{wrong_expression};
ghost use Rattle.st_rules.specs.Rules.{IsWellTyped};
ghost use Rattle.st_rules.specs.Statements.{Context, statements_of};
ghost use Rattle.st_rules.specs.Typings.{typing_of, settled};
ghost use Rattle.st_link.specs.StatementSoundness.{BodyRight};
ghost use Rattle.layout.specs.LayoutVariables.{configurations_in, only_configuration};
ghost use Rattle.layout.specs.Libraries.{programs_of_text};
ghost use Rattle.st_link.specs.WellTypedRuns.{HaveFunctionsNoExternals};
ghost use Rattle.slot_trees.specs.LinkedStatements.{linked_stmts};
ghost use Rattle.slot_trees.specs.Linking.{linked};
ghost use Rattle.slot_trees.specs.Tables.{Table};
ghost use Rattle.st_link.specs.LinkedSources.{HasLink, HasSlotRuns};
ghost use Rattle.st_link.specs.Served.{IsLinked, Serves, IsOrderly};

/// An expression of an elementary or enumerated type in which nothing is wrong, with its literals resolved, is linked
/// by each table that serves its unit.
pub fn expressions_without_faults_are_linked()
    ensures { (env : Environment) (t : Table) (d : Demand) (e : Expr) (k : Kind) → IsOrderly env → Serves env t
        → wrong_expression env d e ≡ [] → settled (expected_of d) (typing_of env e) ≡ Elementary k
        → IsLinked (linked t (resolved_expr env.text env.unit (expected_of d) e)) }
{}

/// So are statements in which nothing is wrong, with all statements in them.
pub fn statements_without_faults_are_linked()
    ensures { (env : Environment) (t : Table) (c : Context) (xs : Stmts) → IsOrderly env → Serves env t
        → BodyRight env (statements_of c xs) → IsLinked (linked_stmts t (resolved_stmts env.text env.unit xs)) }
{}

/// A text that breaks no rule, with one configuration in which all names are known, is linked: its functions, its
/// blocks and the programs of its instances. The grammar gives no function externals.
pub fn texts_that_break_no_rule_are_linked()
    ensures { (source : Source) (c : Configuration) → IsWellTyped source → HaveFunctionsNoExternals source
        → only_configuration (configurations_in source) ≡ Some c → are_known (declared_in source) c ≡ true
        → HasLink source }
{}

/// So each program of such a text has a linked body, whose runs over any values of the slots of the text's layout end
/// as the program's own do, and leave the same variables.
pub fn programs_of_accepted_texts_run_by_slots()
    ensures { (source : Source) (c : Configuration) (n : ℕ) (p : Program) → IsWellTyped source
        → HaveFunctionsNoExternals source → only_configuration (configurations_in source) ≡ Some c
        → are_known (declared_in source) c ≡ true → slice_get (programs_of_text source) n ≡ Some p
        → HasSlotRuns source n p }
{}
