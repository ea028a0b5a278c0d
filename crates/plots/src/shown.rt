//! The variables and inputs of a plan that are shown.

ghost use Rattle.std.specs.Prelude.{◌≡◌, IfOk, IfSome, IfNone, length, min, vec_len};
ghost use Rattle.plots.specs.Calls.{is_written, IsVariableCalled, IsInputCalled, NoVariableCalled, NoInputCalled};
ghost use Rattle.plots.specs.Calls.{IsCalled, IsUncalled};

use plan::Plan;
use st_meaning::{PlanInput, PlanVariable};
use st_print::write_path;
use st_types::Path;
use std::alloc::{AllocError, Global};

/// A variable or an input that is shown.
#[derive(Clone, Copy, Debug, PartialEq, Eq)]
pub enum Shown {
    /// The variable of this number from 0, in layout order.
    Variable(usize),
    /// The input of this number from 0, in declaration order.
    Input(usize),
}

/// The greatest number of variables that are shown if none is asked for.
pub const MOST_VARIABLES: usize = 12;

/// Whether the word is the path as reports print it, in any case.
fn is_written(alloc: Global, path: &Path, word: &[u8]) -> Result<bool, AllocError>
    ensures { IfOk result (λ is. is ≡ is_written word.now path.now) }
{
    let mut text = Vec::new(alloc);
    match write_path(&mut text, path) {
        Ok(()) => Ok(text.as_slice().eq_ignore_ascii_case(word)),
        Err(_) => Err(AllocError),
    }
}

/// The number of the first variable of this path.
fn variable_of(
    alloc: Global,
    variables: &[PlanVariable],
    word: &[u8],
) -> Result<Option<usize>, AllocError>
    ensures found { IfOk result (λ found. IfSome found (IsVariableCalled variables.now word.now)) }
    ensures none { IfOk result (λ found. IfNone found (NoVariableCalled variables.now word.now)) }
{
    for i in 0..variables.len() {
        match is_written(alloc, &variables[i].path, word) {
            Ok(true) => return Ok(Some(i)),
            Ok(false) => {}
            Err(error) => return Err(error),
        }
    }
    Ok(None)
}

/// The number of the first input of this path.
fn input_of(alloc: Global, inputs: &[PlanInput], word: &[u8]) -> Result<Option<usize>, AllocError>
    ensures found { IfOk result (λ found. IfSome found (IsInputCalled inputs.now word.now)) }
    ensures none { IfOk result (λ found. IfNone found (NoInputCalled inputs.now word.now)) }
{
    for i in 0..inputs.len() {
        match is_written(alloc, &inputs[i].path, word) {
            Ok(true) => return Ok(Some(i)),
            Ok(false) => {}
            Err(error) => return Err(error),
        }
    }
    Ok(None)
}

/// The variable of this path, as reports print it, in any case; else the input of this name, if there is one.
pub fn find(alloc: Global, plan: &Plan, word: &[u8]) -> Result<Option<Shown>, AllocError>
    ensures found { IfOk result (λ found. IfSome found (IsCalled plan.now word.now)) }
    ensures none { IfOk result (λ found. IfNone found (IsUncalled plan.now word.now)) }
{
    match variable_of(alloc, &plan.variables, word) {
        Ok(Some(number)) => Ok(Some(Shown::Variable(number))),
        Ok(None) => match input_of(alloc, &plan.inputs, word) {
            Ok(Some(number)) => Ok(Some(Shown::Input(number))),
            Ok(None) => Ok(None),
            Err(error) => Err(error),
        },
        Err(error) => Err(error),
    }
}

/// The first variables of a plan, at most `MOST_VARIABLES`, to be shown if none is asked for.
pub fn first_variables(alloc: Global, plan: &Plan) -> Result<Vec<Shown>, AllocError>
    ensures { IfOk result (λ shown. vec_len shown ≡ min (length plan.now.variables.items) MOST_VARIABLES) }
{
    let mut shown = Vec::new(alloc);
    for number in 0..plan.slots().min(MOST_VARIABLES) {
        shown.push(Shown::Variable(number))?;
    }
    Ok(shown)
}
