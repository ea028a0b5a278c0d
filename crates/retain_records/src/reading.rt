//! Reading a layout text and the values that belong to its lines.

ghost use Rattle.std.specs.Prelude.{◌≡◌, ◌≤◌, ◌<◌, ◌++◌, ◌∷◌, [], length, option_map, IsTrue, false, None};
ghost use Rattle.std.specs.Vec.{vec_len, vec_capacity};
ghost use Rattle.retain_records.specs.declared.sizes.TheConstants.{MAX_LAYOUT_BYTES, MAX_LINES};
ghost use Rattle.retain_records.specs.Reading.{AreVariables, variable_at, variables_in};

use crate::line::line_at;
use crate::value_bytes::value_at;
use st_types::Value;

/// A retained variable: its path, the spelling of its type, and its value.
#[derive(Clone, Copy)]
struct RecordedVariable<'a> {
    path: &'a [u8],
    spelling: &'a [u8],
    value: Value,
}

/// Reads lines and their values to the end of both: the offsets of the lines, and the values. False if these aren't
/// lines with their values; the two lists are unspecified then. It allocates nothing.
pub(crate) fn read_variables(
    text: &[u8],
    bytes: &[u8],
    starts: &mut Vec<u32>,
    values: &mut Vec<Value>,
) -> bool
    requires short { length text.now ≤ MAX_LAYOUT_BYTES }
    requires starts_room { MAX_LINES ≤ vec_capacity starts.old }
    requires values_room { MAX_LINES ≤ vec_capacity values.old }
    ensures yes { IsTrue result → AreVariables text.now bytes.now starts.new.items values.new.items }
    ensures no { result ≡ false → variables_in (length text.now) text.now bytes.now ≡ None }
    ensures starts_room { MAX_LINES ≤ vec_capacity starts.new }
    ensures values_room { MAX_LINES ≤ vec_capacity values.new }
{
    starts.clear();
    values.clear();
    let mut text_left = text;
    let mut bytes_left = bytes;
    while !text_left.is_empty() {
        let start = text.len() - text_left.len();
        let Some((variable, text_behind, bytes_behind)) = variable_at(text_left, bytes_left) else {
            return false;
        };
        add(starts, start as u32);
        add(values, variable.value);
        text_left = text_behind;
        bytes_left = bytes_behind;
    }
    bytes_left.is_empty()
}

/// The line at the front of the text and the value at the front of the bytes, and the rest after them.
#[tactic(auto, unfolding(crate::specs::Reading::variable_at))]
fn variable_at<'a>(
    text: &'a [u8],
    bytes: &'a [u8],
) -> Option<(RecordedVariable<'a>, &'a [u8], &'a [u8])>
    ensures { option_map (λ p. (
      record { path = p.0.path.now; spelling = p.0.spelling.now; value = p.0.value },
      p.1.now,
      p.2.now,
    )) result ≡ variable_at text.now bytes.now }
{
    let (line, text_behind) = line_at(text)?;
    let Some((value, bytes_behind)) = value_at(line.kind, bytes) else {
        return None;
    };
    let variable = RecordedVariable {
        path: line.path,
        spelling: line.spelling,
        value,
    };
    Some((variable, text_behind, bytes_behind))
}

/// Adds an item if there is room for it.
fn add<T: Copy>(items: &mut Vec<T>, item: T)
    requires { vec_len items.old < vec_capacity items.old }
    ensures added { items.new.items ≡ items.old.items ++ item ∷ [] }
    ensures capacity { vec_capacity items.old ≤ vec_capacity items.new }
{
    let _ = items.push(item);
}
