//! The plan of a text, from its tree, its layout and its codes.

ghost use Rattle.std.specs.Prelude.{◌≡◌, IfErr, IfOk, map};
ghost use Rattle.st_types.specs.SourceViews.{source_view};
ghost use Rattle.st_types.specs.Sources as trees;
ghost use Rattle.slot_code.specs.Codes.{code_view};
ghost use Rattle.plan.specs.PlanViews.{plan_view};
ghost use Rattle.st_meaning.specs.Layouts.{layout_text};
ghost use Rattle.layout.specs.KeptLayouts.{variables_among};
ghost use Rattle.layout.specs.TypeNames.{names_in_text};
ghost use Rattle.config.specs.Readiness.{IsReady};
ghost use Rattle.config.specs.Refusals.{LacksPlan};
ghost use Rattle.config.specs.TextPlans.{IsPlanOf};

use crate::build_error::BuildError;
use crate::numbered_slots::numbered_slots;
use crate::programs::programs_at;
use crate::record_length::record_length;
use crate::schedules::{Schedule, schedule_of};
use layout::{Layout, enumerations_in, only_configuration};
use plan::Plan;
use slot_code::Code;
use st_types::Source;
use st_types::limits::MAX_RECORD_BODY;
use std::alloc::Global;
use std::sync::Arc;

/// The plan of a text that breaks no rule, from its tree in which each literal has its type. It is refused only if a record
/// would be too long (G6) or memory runs out.
pub fn plan_from(
    alloc: Global,
    tree: Source,
    layout: Layout,
    codes: Vec<Code>,
    budget: u32,
) -> Result<Plan, BuildError>
    requires ready { (text : trees.Source)
        × IsReady text (source_view tree) layout.slots (map code_view codes.items) budget }
    requires layout_text { layout.text
        ≡ layout_text (names_in_text (source_view tree)) (variables_among layout.slots) }
    ensures plan { IfOk result (λ plan. (text : trees.Source)
        → IsReady text (source_view tree) layout.slots (map code_view codes.items) budget
        → IsPlanOf text budget (plan_view plan)) }
    ensures refused { IfErr result (λ e. (text : trees.Source)
        → IsReady text (source_view tree) layout.slots (map code_view codes.items) budget
        → LacksPlan text e) }
{
    let Some(configuration) = only_configuration(&tree) else {
        unreachable!()
    };
    let variables = layout.plan_variables(alloc)?;
    let inputs = layout.plan_inputs(alloc)?;
    let enumerations = enumerations_in(alloc, &tree)?;
    if record_length(layout.text(), &variables) > MAX_RECORD_BODY {
        return Err(BuildError::RecordTooLong);
    }
    let resources = configuration.resources.len();
    let Schedule { tasks, places } = schedule_of(
        alloc,
        &variables,
        &inputs,
        &configuration.resources,
    )?;
    let programs = programs_at(alloc, &places, codes)?;
    let slots = numbered_slots(alloc, &layout)?;
    Ok(Plan {
        text: Arc::new(alloc, tree)?,
        enumerations,
        variables,
        inputs,
        layout,
        slots,
        resources,
        tasks,
        programs,
        budget,
    })
}
