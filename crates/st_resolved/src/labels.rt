//! Labels of a CASE with the types that they take.

ghost use Rattle.std.specs.Prelude.{◌≡◌, Option, IfOk, map};
ghost use Rattle.st_types.specs.declared.kind.Kind.{Kind};
ghost use Rattle.st_types.specs.declared.statement.Label.TheVariants.{Enumerated};
ghost use Rattle.st_meaning.specs.NameTypes.{Declared};
ghost use Rattle.st_meaning.specs.ResolvedUnits.{resolved_label};
ghost use Rattle.symbols.specs.Tables.{ServesTables};

use crate::copies::copied_value;
use crate::literals::taking_number;
use crate::members::{member_written, number_of_member};
use st_types::{EnumeratedValue, Kind, Label};
use st_typing::taken_kind;
use std::alloc::{AllocError, Global};
use symbols::TextTables;

/// A label that is a name: the number of a value, if it stands for one.
fn named_label(
    alloc: Global,
    tables: &TextTables,
    value: &EnumeratedValue,
) -> Result<Label, AllocError>
    ensures { IfOk result (λ l. (text : Declared) → ServesTables tables.now text → (k : Option Kind)
        → l ≡ resolved_label text k (Enumerated value.now)) }
{
    match member_written(tables, value) {
        Some(member) => Ok(Label::Single(number_of_member(value.place, member))),
        None => Ok(Label::Enumerated(copied_value(alloc, value)?)),
    }
}

/// A label of a CASE over a selector of a type.
fn resolved_label(
    alloc: Global,
    tables: &TextTables,
    kind: Option<Kind>,
    label: &Label,
) -> Result<Label, AllocError>
    ensures { IfOk result (λ l. (text : Declared) → ServesTables tables.now text
        → l ≡ resolved_label text kind label.now) }
{
    match label {
        Label::Single(number) => Ok(Label::Single(taking_number(taken_kind(kind), *number))),
        Label::Range(lower, upper) => {
            let taken = taken_kind(kind);
            Ok(Label::Range(taking_number(taken, *lower), taking_number(taken, *upper)))
        }
        Label::Enumerated(value) => named_label(alloc, tables, value),
    }
}

/// The labels of an arm of a CASE over a selector of a type.
pub fn resolved_labels(
    alloc: Global,
    tables: &TextTables,
    kind: Option<Kind>,
    labels: &[Label],
) -> Result<Vec<Label>, AllocError>
    ensures { IfOk result (λ list. (text : Declared) → ServesTables tables.now text
        → list.items ≡ map (resolved_label text kind) labels.now) }
{
    let mut resolved = Vec::new(alloc);
    for label in labels {
        resolved.push(resolved_label(alloc, tables, kind, label)?)?;
    }
    Ok(resolved)
}
