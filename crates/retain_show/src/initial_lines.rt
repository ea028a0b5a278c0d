//! The retained variables of a text, as they are written.

ghost use Rattle.std.specs.Prelude.{◌≡◌, ◌++◌, IfOk, OnOk, Some, None, filter, map, option_map};
ghost use Rattle.std.specs.List.{flat_map};
ghost use Rattle.std.specs.Vec.{vec_items};
ghost use Rattle.std.specs.Io.KnownBytes.{Appends};
ghost use Rattle.retain_show.specs.Against.{retained};
ghost use Rattle.retain_show.specs.InitialLines.{line_view, initial_line};

use crate::spelling::{path_text, type_text};
use crate::written_lines::Line;
use st_meaning::PlanVariable;
use st_types::Name;
use std::alloc::Global;
use std::io;

/// A variable as a record spells it, with its initial value.
fn initial_line(alloc: Global, types: &[Vec<Name>], variable: &PlanVariable) -> io::Result<Line>
    ensures { IfOk result (λ line. line_view line ≡ initial_line (map vec_items types.now) variable.now) }
{
    Ok(Line {
        path: path_text(alloc, &variable.path)?,
        spelling: type_text(alloc, types, variable.initial.kind())?,
        value: variable.initial,
    })
}

/// The retained variables, in order.
pub(crate) fn retained(
    alloc: Global,
    types: &[Vec<Name>],
    variables: &[PlanVariable],
) -> io::Result<Vec<Line>>
    ensures { IfOk result (λ lines. map line_view lines.items
        ≡ map (initial_line (map vec_items types.now)) (retained variables.now)) }
{
    let mut lines = Vec::new(alloc);
    for variable in variables {
        if variable.retained {
            lines.push(initial_line(alloc, types, variable)?)?;
        }
    }
    Ok(lines)
}
