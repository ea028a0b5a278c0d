//! Laws of accepted texts, each proved of the definitions. The functions do nothing: their contracts are the laws.

ghost use Rattle.std.specs.Prelude.{◌≡◌, ◌≤◌, ℕ, Bool, [], length};
ghost use Rattle.st_types.specs.declared.limits.TheConstants.{MAX_PATHS};
ghost use Rattle.st_types.specs.Expressions.{Expr};
ghost use Rattle.st_types.specs.Sources.{Source};
ghost use Rattle.st_types.specs.Statements.{Stmts};
ghost use Rattle.st_meaning.specs.Enumerations.{enumerations_of};
ghost use Rattle.st_meaning.specs.Resolution.{resolved_expr};
ghost use Rattle.st_meaning.specs.ResolvedUnits.{resolved_stmts};
ghost use Rattle.st_meaning.specs.Scopes.{Name};
ghost use Rattle.st_rules.specs.declared.demand.Demand.{Demand};
ghost use Rattle.st_rules.specs.Demands.{expected_of};
ghost use Rattle.st_rules.specs.Environments.{Environment};
ghost use Rattle.st_rules.specs.ExpressionRules.{wrong_expression};
ghost use Rattle.st_rules.specs.Statements.{Context, statements_of};
ghost use Rattle.st_link.specs.Soundness.{AreKnown};
ghost use Rattle.st_link.specs.StatementSoundness.{BodyRight};
ghost use Rattle.layout.specs.TextLayouts.{slots_of_text};
ghost use Rattle.slot_trees.specs.LibraryViews.{KeptLibrary};
ghost use Rattle.slot_trees.specs.Tables.{Table};
ghost use Rattle.machine_code.specs.UnitFrames.{UnitFrame};
ghost use Rattle.st_compile.specs.Linked.{CallLinkedWithin};
ghost use Rattle.config.specs.Sound.{ExprSound, StmtsSound};
ghost use Rattle.st_link.specs.Accepted.{IsAccepted, IsLinked};
ghost use Rattle.st_link.specs.KeptTexts.{KeptText};
ghost use Rattle.config.specs.Callable.{AreInvocable, IsCallable};
ghost use Rattle.config.specs.Compiled.{AreCompiled};
ghost use Rattle.config.specs.Spelled.{ExprOf, HaveFewNames, IsSpelled, StmtsOf};

/// Code is made of an expression in which nothing is wrong, with its literals resolved: its literals are values, and each
/// function that it calls gets as many arguments as it has inputs. Its durations are ones that a TIME holds, as the lexer
/// gives them.
pub fn expressions_without_faults_are_sound()
    ensures { (library : KeptLibrary) (depth : ℕ) (site : UnitFrame) (env : Environment) (t : Table) (d : Demand) (e : Expr)
        → wrong_expression env d e ≡ []
        → ExprOf (IsCallable (CallLinkedWithin library depth) site env t) e
        → ExprSound (CallLinkedWithin library depth) site t (resolved_expr env.text env.unit (expected_of d) e) }
{}

/// Code is also made of statements in which nothing is wrong, with all statements in them: their labels are numbers that
/// instructions hold. Code is made of the blocks of the unit's instances too, and no enumerated type has more names than the
/// language allows. The numbers of labels have no enumerated type before a `#`, as the grammar gives them.
pub fn statements_without_faults_are_sound()
    ensures { (library : KeptLibrary) (depth : ℕ) (site : UnitFrame) (env : Environment) (t : Table) (c : Context)
        (xs : Stmts) → AreKnown env → HaveFewNames (enumerations_of env.text.types)
        → AreInvocable (CallLinkedWithin library depth) site env t → BodyRight env (statements_of c xs)
        → StmtsOf (IsCallable (CallLinkedWithin library depth) site env t) xs
        → StmtsSound (CallLinkedWithin library depth) site t (resolved_stmts env.text env.unit xs) }
{}

/// So code is made of each program of an accepted text whose layout has room, apart from the size of the code and of its
/// memory, whatever functions are linked: calls are at most 64 deep, since no unit contains more, and each function and
/// block that is called has a number. The text's literals are as the grammar gives them.
pub fn accepted_texts_are_compiled()
    ensures { (source : Source) (called : Name → Bool) (kept : KeptText) → IsAccepted source → IsSpelled source
        → length (slots_of_text source) ≤ MAX_PATHS → IsLinked source called kept
        → AreCompiled kept.library (length (slots_of_text source)) kept.programs }
{}
