//! Where and how often the programs of a plan run.

ghost use Rattle.std.specs.Prelude.{◌≡◌, map, IfOk};
ghost use Rattle.st_meaning.specs.Plans.{schedules_of as schedules_in};
ghost use Rattle.plan.specs.PlanViews.{plan_view};
ghost use Rattle.ready_list.specs.Schedules.{code_schedule};

use plan::{Plan, ProgramInstance, Task};
use st_meaning::Schedule;
use std::alloc::{AllocError, Global};

/// Where and how often a program runs.
fn schedule_of(tasks: &[Task], program: &ProgramInstance) -> Schedule
    ensures { result ≡ code_schedule tasks.now program.now }
{
    match tasks.get(program.task) {
        Some(task) => Schedule {
            resource: program.resource,
            task: program.task,
            interval: task.interval,
            priority: task.priority,
        },
        None => Schedule {
            resource: program.resource,
            task: program.task,
            interval: 0,
            priority: 0,
        },
    }
}

/// The schedules of the programs, in declaration order.
fn schedules_of(
    alloc: Global,
    tasks: &[Task],
    programs: &[ProgramInstance],
) -> Result<Vec<Schedule>, AllocError>
    ensures { IfOk result (λ schedules. schedules.items ≡ map (code_schedule tasks.now) programs.now) }
{
    let mut schedules = Vec::new(alloc);
    for program in programs {
        schedules.push(schedule_of(tasks, program))?;
    }
    Ok(schedules)
}

/// The schedules of a plan's programs, in declaration order. It fails only if memory is short.
pub fn plan_schedules(alloc: Global, plan: &Plan) -> Result<Vec<Schedule>, AllocError>
    ensures { IfOk result (λ schedules. schedules.items ≡ schedules_in (plan_view plan.now)) }
{
    schedules_of(alloc, &plan.tasks, &plan.programs)
}
