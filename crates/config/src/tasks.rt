//! The tasks of a configuration.

ghost use Rattle.std.specs.Prelude.{◌≡◌, ◌++◌, IfOk, map};
ghost use Rattle.st_types.specs.Paths.{same_path};
ghost use Rattle.st_meaning.specs.Scopes.{unowned};
ghost use Rattle.config.specs.Tasks.{input_number, task_at, trigger_at, variable_number};

use plan::{Task, Trigger};
use st_meaning::{PlanInput, PlanVariable};
use st_types::{Identifier, Name, Path, Task as DeclaredTask};
use std::alloc::AllocError;

/// Whether the path is that of the global of this name.
fn is_global_of(path: &Path, name: &Name) -> bool
    ensures { result ≡ same_path (unowned name.now) path.now }
{
    path.owner().is_none() && path.name().is(name) && path.steps().is_empty()
}

fn input_number(inputs: &[PlanInput], name: &Name) -> Option<usize>
    ensures { result ≡ input_number inputs.now name.now }
{
    inputs.iter().position(|i| is_global_of(&i.path, name))
}

fn variable_number(variables: &[PlanVariable], name: &Name) -> Option<usize>
    ensures { result ≡ variable_number variables.now name.now }
{
    variables.iter().position(|v| is_global_of(&v.path, name))
}

/// The global that a task's SINGLE names.
fn trigger_at(
    variables: &[PlanVariable],
    inputs: &[PlanInput],
    single: &Option<Identifier>,
) -> Trigger
    ensures { result ≡ trigger_at variables.now inputs.now single.now }
{
    let Some(name) = single else {
        return Trigger::Absent;
    };
    if let Some(number) = input_number(inputs, &name.name) {
        return Trigger::Input(number);
    }
    match variable_number(variables, &name.name) {
        Some(number) => Trigger::Variable(number),
        None => Trigger::Absent,
    }
}

/// Appends the tasks of the resource of this number.
pub fn push_tasks(
    tasks: &mut Vec<Task>,
    variables: &[PlanVariable],
    inputs: &[PlanInput],
    number: usize,
    declared: &[DeclaredTask],
) -> Result<(), AllocError>
    ensures { IfOk result (λ done. tasks.new.items ≡ tasks.old.items
        ++ map (task_at variables.now inputs.now number) declared.now) }
{
    for task in declared {
        tasks.push(Task {
            resource: number,
            single: trigger_at(variables, inputs, &task.single),
            interval: task.interval.unwrap_or(0),
            priority: task.priority.number,
        })?;
    }
    Ok(())
}
