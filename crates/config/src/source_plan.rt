//! The plan of a text.

ghost use Rattle.std.specs.Prelude.{◌≡◌, ◌<◌, ◌≤◌, ◌⊎◌, List, ℕ, IfOk, IfErr, IsErrOf};
ghost use Rattle.st_types.specs.declared.limits.TheConstants.{MAX_BUDGET};
ghost use Rattle.st_types.specs.SourceViews.{source_view};
ghost use Rattle.st_types.specs.Sources as trees;
ghost use Rattle.st_meaning.specs.ResolvedUnits.{resolved_source};
ghost use Rattle.st_meaning.specs.Plans as plans;
ghost use Rattle.plan.specs.PlanViews.{plan_view};
ghost use Rattle.config.specs.Readiness.{IsJudged};
ghost use Rattle.config.specs.Texts.{IsTextOf};
ghost use Rattle.config.specs.Refusals.{GivesPlan, LacksPlan, SourceLacksPlan, TextLacksPlan};
ghost use Rattle.config.specs.TextPlans.{IsPlanOf};

use crate::build_error::BuildError;
use crate::codes::codes_of_text;
use crate::configured::configure;
use crate::literals::literals_of_texts_are_spelled;
use crate::path_laws::paths_of_texts_have_distinct_spellings;
use crate::text_plan::plan_from;
use layout::Layout;
use plan::Plan;
use st_check::check;
use st_lex::lex;
use st_parse::parse;
use st_types::Source;
use st_types::limits::MAX_BUDGET;
use std::alloc::Global;

/// The plan of a text that is judged, from its tree in which each literal has its type.
fn plan_of_tree(alloc: Global, tree: Source, budget: u32) -> Result<Plan, BuildError>
    requires judged { (text : trees.Source) × IsJudged text × (source_view tree ≡ resolved_source text) }
    requires some_ticks { 1 ≤ budget }
    requires ticks { budget ≤ MAX_BUDGET }
    ensures plan { IfOk result (λ plan. (text : trees.Source) → IsJudged text → source_view tree ≡ resolved_source text
        → IsPlanOf text budget (plan_view plan)) }
    ensures refused { IfErr result (λ e. (text : trees.Source) → IsJudged text
        → source_view tree ≡ resolved_source text → LacksPlan text e) }
{
    let layout = Layout::build(alloc, &tree)?;
    let codes = codes_of_text(alloc, &tree, &layout)?;
    plan_from(alloc, tree, layout, codes, budget)
}

/// The plan of a parsed text, which the configuration's rules may refuse only if no rule of the language does.
fn plan_of(alloc: Global, source: Source, budget: u32) -> Result<Plan, BuildError>
    requires text { (text : List ℕ) × IsTextOf text (source_view source) }
    requires some_ticks { 1 ≤ budget }
    requires ticks { budget ≤ MAX_BUDGET }
    ensures plan { IfOk result (λ plan. IsPlanOf (source_view source) budget (plan_view plan)) }
    ensures refused { IfErr result (λ e. SourceLacksPlan (source_view source) e) }
{
    paths_of_texts_have_distinct_spellings();
    literals_of_texts_are_spelled();
    let configured = configure(alloc, &source);
    let checked = check(alloc, source)?;
    configured?;
    plan_of_tree(alloc, checked.source, budget)
}

/// The plan of a text in Structured Text for a budget of 1 to 1,000,000 ticks: its layout, the code of each program's
/// instance, its resources and tasks.
///
/// G7 comes first, then the lexer's, the parser's and the checker's refusals, then G2; of the others any that applies may
/// come. A text that has a plan is refused only if memory runs out, or if there is no room for a program's code (M1, M2).
pub fn build(alloc: Global, text: &[u8], budget: u32) -> Result<Plan, BuildError>
    // The budget is judged before all else.
    ensures budget { (budget ≡ 0) ⊎ (MAX_BUDGET < budget) → IsErrOf result BuildError.Budget }
    // The plan is that of a tree that the bytes spell.
    ensures plan { IfOk result
        (λ plan. (source : trees.Source) × IsTextOf text.now source × IsPlanOf source budget (plan_view plan)) }
    // A text that has a plan gets it, unless memory runs out or its code has no room.
    ensures only { (source : trees.Source) (plan : plans.Plan) → IsTextOf text.now source → IsPlanOf source budget plan
        → GivesPlan source result plan }
    // A refusal applies.
    ensures refused { IfErr result (λ e. TextLacksPlan text.now budget e) }
{
    if budget == 0 || MAX_BUDGET < budget {
        return Err(BuildError::Budget);
    }
    let tokens = lex(alloc, text)?;
    let source = parse(alloc, &tokens)?;
    plan_of(alloc, source, budget)
}
