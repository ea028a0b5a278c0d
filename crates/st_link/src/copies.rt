//! Copies of literals and labels.

ghost use Rattle.std.specs.Prelude.{◌≡◌, IfOk};

use st_types::{EnumeratedValue, Label, Literal, Name};
use std::alloc::{AllocError, Global};

fn copied_name(alloc: Global, name: &Option<Name>) -> Result<Option<Name>, AllocError>
    ensures { IfOk result (λ x. x ≡ name.now) }
{
    match name {
        Some(name) => Ok(Some(name.copied(alloc)?)),
        None => Ok(None),
    }
}

fn copied_value(alloc: Global, value: &EnumeratedValue) -> Result<EnumeratedValue, AllocError>
    ensures { IfOk result (λ x. x ≡ value.now) }
{
    Ok(EnumeratedValue {
        place: value.place,
        type_name: copied_name(alloc, &value.type_name)?,
        name: value.name.copied(alloc)?,
    })
}

/// Another literal with the same spelling.
pub fn copied_literal(alloc: Global, literal: &Literal) -> Result<Literal, AllocError>
    ensures { IfOk result (λ l. l ≡ literal.now) }
{
    match literal {
        Literal::Number(number) => Ok(Literal::Number(*number)),
        Literal::Truth(place, truth) => Ok(Literal::Truth(*place, *truth)),
        Literal::Duration(place, milliseconds) => Ok(Literal::Duration(*place, *milliseconds)),
        Literal::Enumerated(value) => Ok(Literal::Enumerated(copied_value(alloc, value)?)),
    }
}

fn copied_label(alloc: Global, label: &Label) -> Result<Label, AllocError>
    ensures { IfOk result (λ l. l ≡ label.now) }
{
    match label {
        Label::Single(number) => Ok(Label::Single(*number)),
        Label::Range(least, greatest) => Ok(Label::Range(*least, *greatest)),
        Label::Enumerated(value) => Ok(Label::Enumerated(copied_value(alloc, value)?)),
    }
}

/// Other labels, in the same order.
pub fn copied_labels(alloc: Global, labels: &[Label]) -> Result<Vec<Label>, AllocError>
    ensures { IfOk result (λ list. list.items ≡ labels.now) }
{
    let mut copied = Vec::new(alloc);
    for label in labels {
        copied.push(copied_label(alloc, label)?)?;
    }
    Ok(copied)
}
