//! The labels of a CASE: their types (C3), their numbers (C4), and those that overlap (C7).

ghost use Rattle.std.specs.Prelude.{◌≡◌, ◌++◌, map, option_map, IfOk};
ghost use Rattle.std.specs.List.{flat_map};
ghost use Rattle.st_types.specs.Statements.{case_arms_of};
ghost use Rattle.st_types.specs.StatementViews.{case_arm_view};
ghost use Rattle.st_meaning.specs.NameTypes.{Declared};
ghost use Rattle.st_rules.specs.Collecting.{Adds, Covers, Collects};
ghost use Rattle.st_rules.specs.LabelRules.{labels_of, wrong_label, span_of_reading, span_of, spans_of};
ghost use Rattle.st_rules.specs.LabelRules.{wrong_labels};
ghost use Rattle.symbols.specs.Enumerated.{reading_view};
ghost use Rattle.symbols.specs.Tables.{ServesTables};
ghost use Rattle.st_typing.specs.Spans.{span_view};

use crate::kinds::kind_or_taken;
use crate::lone_labels::wrong_label;
use crate::spans::{Span, wrong_spans};
use st_meaning::number_of;
use st_rules::BrokenRules;
use st_types::{CaseArm, Kind, Label};
use std::alloc::{AllocError, Global};
use symbols::{Reading, TextTables};

/// Appends the labels of one list.
fn push_labels<'a>(labels: &mut Vec<&'a Label>, list: &'a [Label]) -> Result<(), AllocError>
    ensures { IfOk result
        (λ done. map (λ x. x.now) labels.new.items ≡ map (λ x. x.now) labels.old.items ++ list.now) }
{
    for label in list {
        labels.push(label)?;
    }
    Ok(())
}

/// The labels of all lists of a CASE.
fn labels_of<'a>(alloc: Global, arms: &'a [CaseArm]) -> Result<Vec<&'a Label>, AllocError>
    ensures { IfOk result (λ labels. map (λ x. x.now) labels.items
        ≡ labels_of (case_arms_of (map case_arm_view arms.now))) }
{
    let mut labels = Vec::new(alloc);
    for arm in arms {
        push_labels(&mut labels, &arm.labels)?;
    }
    Ok(labels)
}

/// Adds the faults in labels by themselves.
fn wrong_alone(
    tables: &TextTables,
    selector: Option<Kind>,
    labels: &[&Label],
    broken: &mut BrokenRules,
)
    ensures { (text : Declared) → ServesTables tables.now text
        → Collects (flat_map (wrong_label text selector) (map (λ x. x.now) labels.now)) broken.old broken.new }
{
    for label in labels {
        wrong_label(tables, selector, label, broken);
    }
}

fn span_of_reading(place: usize, reading: Reading) -> Option<Span>
    ensures { option_map span_view result ≡ span_of_reading place (reading_view reading) }
{
    match reading {
        Reading::Value(member) => {
            let number = member.place as i128;
            Some(Span {
                place,
                kind: member.kind,
                lower: number,
                upper: number,
            })
        }
        _ => None,
    }
}

/// The numbers that a label holds; none if it has a name that stands for no value.
fn span_of(tables: &TextTables, selector: Option<Kind>, label: &Label) -> Option<Span>
    ensures { (text : Declared) → ServesTables tables.now text
        → option_map span_view result ≡ span_of text selector label.now }
{
    match label {
        Label::Single(number) => Some(Span {
            place: number.place,
            kind: kind_or_taken(selector, number.written),
            lower: number_of(number),
            upper: number_of(number),
        }),
        Label::Range(lower, upper) => Some(Span {
            place: lower.place,
            kind: kind_or_taken(selector, lower.written),
            lower: number_of(lower),
            upper: number_of(upper),
        }),
        Label::Enumerated(value) => span_of_reading(value.place, tables.reading_written(value)),
    }
}

fn spans_of(
    alloc: Global,
    tables: &TextTables,
    selector: Option<Kind>,
    labels: &[&Label],
) -> Result<Vec<Span>, AllocError>
    ensures { IfOk result (λ spans. (text : Declared) → ServesTables tables.now text
        → map span_view spans.items ≡ spans_of text selector (map (λ x. x.now) labels.now)) }
{
    let mut spans = Vec::new(alloc);
    for label in labels {
        if let Some(span) = span_of(tables, selector, label) {
            spans.push(span)?;
        }
    }
    Ok(spans)
}

/// Adds the faults in the labels of a CASE whose selector has this type, if it has one.
pub fn wrong_labels(
    alloc: Global,
    tables: &TextTables,
    selector: Option<Kind>,
    arms: &[CaseArm],
    broken: &mut BrokenRules,
) -> Result<(), AllocError>
    ensures adds { (text : Declared) → ServesTables tables.now text
        → Adds (wrong_labels text selector (labels_of (case_arms_of (map case_arm_view arms.now)))) broken.old
        broken.new }
    ensures covers { IfOk result (λ done. (text : Declared) → ServesTables tables.now text
        → Covers (wrong_labels text selector (labels_of (case_arms_of (map case_arm_view arms.now)))) broken.new) }
{
    let labels = labels_of(alloc, arms)?;
    wrong_alone(tables, selector, &labels, broken);
    let spans = spans_of(alloc, tables, selector, &labels)?;
    wrong_spans(spans, broken)
}
