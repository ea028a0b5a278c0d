//! The strips of values.

use crate::chart::{Level, Line, Point, Shape};
use crate::frame::MOST_LEVELS;
use crate::labels::{path_label, value_label};
use crate::notes::{Change, Course};
use crate::shown::Shown;
use plan::Plan;
use st_types::{Kind, Name, Path, Value};
use std::alloc::{AllocError, Global};

/// The path and the type of a variable or input that is shown.
fn subject<'a>(plan: &'a Plan, shown: Shown) -> Option<(&'a Path, Kind)> {
    match shown {
        Shown::Variable(number) => {
            let variable = plan.variables.get(number)?;
            Some((&variable.path, variable.initial.kind()))
        }
        Shown::Input(number) => {
            let input = plan.inputs.get(number)?;
            Some((&input.path, input.kind))
        }
    }
}

/// The points of a line; a value from before the first row counts from the beginning of the plot.
fn points(alloc: Global, begin: u64, changes: &[Change]) -> Result<Vec<Point>, AllocError> {
    let mut points = Vec::with_capacity(alloc, changes.len())?;
    for change in changes {
        points.push(Point {
            moment: change.moment.unwrap_or(begin),
            number: change.value.number(),
        })?;
    }
    Ok(points)
}

/// The least and the greatest value that a variable had.
fn extremes(changes: &[Change]) -> Option<(Value, Value)> {
    let (first, others) = changes.split_first()?;
    let (mut least, mut greatest) = (first.value, first.value);
    for change in others {
        if change.value.number() < least.number() {
            least = change.value;
        }
        if change.value.number() > greatest.number() {
            greatest = change.value;
        }
    }
    Some((least, greatest))
}

/// The least and the greatest value; one value if they are equal.
fn bounds(alloc: Global, changes: &[Change]) -> Result<Vec<Value>, AllocError> {
    let mut values = Vec::new(alloc);
    if let Some((least, greatest)) = extremes(changes) {
        values.push(least)?;
        if !greatest.is(least) {
            values.push(greatest)?;
        }
    }
    Ok(values)
}

/// The first change to the value of this number.
fn change_to(changes: &[Change], number: i128) -> Option<&Change> {
    changes
        .iter()
        .find(|change| change.value.number() == number)
}

/// The names that an enumerated variable had, in the order of its type; the first and the last if they are many.
fn names_seen(alloc: Global, names: u16, changes: &[Change]) -> Result<Vec<Value>, AllocError> {
    let mut values = Vec::new(alloc);
    for place in 0..names {
        if let Some(change) = change_to(changes, i128::from(place)) {
            values.push(change.value)?;
        }
    }
    if values.len() > MOST_LEVELS {
        return bounds(alloc, changes);
    }
    Ok(values)
}

/// FALSE and TRUE.
fn bool_levels(alloc: Global) -> Result<Vec<Value>, AllocError> {
    let mut values = Vec::new(alloc);
    values.push(Value::from_bool(false))?;
    values.push(Value::from_bool(true))?;
    Ok(values)
}

/// The values that are marked at the left of a line.
fn marked_values(alloc: Global, kind: Kind, changes: &[Change]) -> Result<Vec<Value>, AllocError> {
    match kind {
        Kind::Bool => bool_levels(alloc),
        Kind::Enumerated { names, .. } => names_seen(alloc, names, changes),
        _ => bounds(alloc, changes),
    }
}

fn levels(alloc: Global, types: &[Vec<Name>], values: &[Value]) -> Result<Vec<Level>, AllocError> {
    let mut levels = Vec::new(alloc);
    for value in values {
        levels.push(Level {
            number: value.number(),
            text: value_label(alloc, types, *value)?,
        })?;
    }
    Ok(levels)
}

fn shape(kind: Kind) -> Shape {
    match kind {
        Kind::Bool => Shape::Band,
        _ => Shape::Steps,
    }
}

/// The strip of a variable or input, if the plan has it; its axis begins at this moment.
pub(crate) fn line(
    alloc: Global,
    plan: &Plan,
    begin: u64,
    course: &Course,
) -> Result<Option<Line>, AllocError> {
    let Some((path, kind)) = subject(plan, course.shown) else {
        return Ok(None);
    };
    let values = marked_values(alloc, kind, &course.changes)?;
    Ok(Some(Line {
        label: path_label(alloc, path)?,
        shape: shape(kind),
        levels: levels(alloc, &plan.enumerations, &values)?,
        points: points(alloc, begin, &course.changes)?,
    }))
}
