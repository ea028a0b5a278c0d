//! The numbers that the labels of a CASE hold: reversed ranges, and labels that overlap (C7).

ghost use Rattle.std.specs.Prelude.{◌≡◌, List, OnOk, IfOk, map};
ghost use Rattle.std.specs.List.{flat_map};
ghost use Rattle.std.specs.List.Sorted.{IsPermutation};
ghost use Rattle.st_types.specs.Kinds.{kind_index, names_in, number_of_type};
ghost use Rattle.st_rules.specs.Collecting.{Adds, Covers, Collects};
ghost use Rattle.st_rules.specs.Faults.{breaking, in_case};
ghost use Rattle.st_rules.specs.declared.reason.Reason.TheVariants.{ReversedLabel};
ghost use Rattle.st_rules.specs.LabelRules.{begins_before, bounds_of, is_reversed, overlap, overlaps, wrong_spans};
ghost use Rattle.st_typing.specs.declared.spans.Span as code_span;
ghost use Rattle.st_typing.specs.Spans.{span_view, further, touches, touching, touching_back, Ascend, AreInOrder};

use st_rules::{Bounds, Broken, BrokenRules, Reason};
use st_types::Kind;
use std::alloc::AllocError;

/// The numbers of a type that a label holds, from the lower to the upper one.
#[derive(Clone, Copy, Drop)]
pub struct Span {
    /// The offset of the label.
    pub place: usize,
    pub kind: Kind,
    pub lower: i128,
    pub upper: i128,
}

fn is_reversed(span: &Span) -> bool
    ensures { result ≡ is_reversed (span_view span.now) }
{
    span.upper < span.lower
}

fn bounds_of(span: &Span) -> Bounds
    ensures { result ≡ bounds_of (span_view span.now) }
{
    Bounds {
        lower: span.lower,
        upper: span.upper,
    }
}

/// Adds the reversed spans.
fn wrong_orders(spans: &[Span], broken: &mut BrokenRules)
    ensures { Collects (flat_map (λ s. breaking (ReversedLabel (bounds_of s)) (in_case (is_reversed s) s.place))
        (map span_view spans.now)) broken.old broken.new }
{
    for span in spans {
        broken.add_in_case(
            is_reversed(span),
            Reason::ReversedLabel(bounds_of(span)),
            span.place,
        );
    }
}

/// The row of a type in the table of types.
fn row_of(kind: Kind) -> usize
    ensures { result ≡ kind_index kind }
{
    match kind {
        Kind::Sint => 0,
        Kind::Int => 1,
        Kind::Dint => 2,
        Kind::Lint => 3,
        Kind::Usint => 4,
        Kind::Uint => 5,
        Kind::Udint => 6,
        Kind::Ulint => 7,
        Kind::Byte => 8,
        Kind::Word => 9,
        Kind::Dword => 10,
        Kind::Lword => 11,
        Kind::Time => 12,
        Kind::Bool => 13,
        Kind::Enumerated { .. } => 14,
    }
}

/// How many names an enumerated type has.
fn names_of(kind: Kind) -> u16
    ensures { result ≡ names_in kind }
{
    match kind {
        Kind::Enumerated { names, .. } => names,
        _ => 0,
    }
}

/// The number of an enumerated type.
fn number_of(kind: Kind) -> u32
    ensures { result ≡ number_of_type kind }
{
    match kind {
        Kind::Enumerated { number, .. } => number,
        _ => 0,
    }
}

/// Puts spans in the order of their types, and those of one type in the order in which they begin. The last key decides
/// only between spans at one place: the labels of a text have none, but no premise says so.
fn sort(spans: &mut Vec<Span>) -> Result<(), AllocError>
    ensures permutation { IsPermutation spans.old.items spans.new.items }
    ensures ascending { OnOk result (Ascend spans.new.items) }
{
    spans.sort_by_key(|span| {
        let kind = span.kind;
        (
            row_of(kind),
            names_of(kind),
            number_of(kind),
            span.lower,
            span.place,
            span.upper,
        )
    })?;
    Ok(())
}

/// Whether the first of two spans begins before the other: at a smaller number, or at the same one and before it in the
/// text.
fn begins_before(span: &Span, other: &Span) -> bool
    ensures { result ≡ begins_before (span_view span.now) (span_view other.now) }
{
    span.lower < other.lower || span.lower == other.lower && span.place < other.place
}

/// Whether a span is of the type of one that begins before it, and begins no later than that one ends.
fn touches(reach: &Span, span: &Span) -> bool
    ensures { result ≡ touches reach.now span.now }
{
    reach.kind.is(span.kind) && span.lower <= reach.upper && begins_before(reach, span)
}

/// The fault of a span that overlaps another one.
fn overlap(span: &Span, other: &Span) -> Broken
    ensures { result ≡ overlap (span_view span.now) (span_view other.now) }
{
    Broken {
        reason: Reason::Overlap(bounds_of(span), bounds_of(other), other.place),
        place: span.place,
    }
}

/// Adds a span that overlaps one that begins before it.
fn compare(reach: &Span, span: &Span, broken: &mut BrokenRules)
    ensures { Collects (touching reach.now span.now) broken.old broken.new }
{
    if touches(reach, span) {
        broken.add(overlap(span, reach));
    }
}

/// Adds a span that overlaps the one after it.
fn compare_back(span: &Span, next: &Span, broken: &mut BrokenRules)
    ensures { Collects (touching_back span.now next.now) broken.old broken.new }
{
    if touches(span, next) {
        broken.add(overlap(span, next));
    }
}

/// Of the spans up to a span, the one of its type that ends last, given the one before it of which that held.
fn further(reach: &Span, span: &Span) -> Span
    ensures { result ≡ further reach.now span.now }
{
    if reach.kind.is(span.kind) && span.upper < reach.upper {
        *reach
    } else {
        *span
    }
}

/// Adds each span that overlaps another one, with one or two of those: of those that begin before it the one that ends
/// last, and of those that begin after it the first.
fn wrong_overlaps(spans: &[Span], broken: &mut BrokenRules)
    ensures { (all : List code_span.Span) → IsPermutation all spans.now → Ascend spans.now → AreInOrder spans.now
        → Collects (overlaps (map span_view all)) broken.old broken.new }
{
    if spans.is_empty() {
        return;
    }
    let mut reach = spans[0];
    for at in 1..spans.len() {
        compare(&reach, &spans[at], broken);
        compare_back(&spans[at - 1], &spans[at], broken);
        reach = further(&reach, &spans[at]);
    }
}

/// Adds labels whose range is reversed, and each label that overlaps another one, with one or two of those (C7).
/// The spans are sorted; each is compared with the one of its type that ends last of those before it, and with the next
/// one.
pub fn wrong_spans(mut spans: Vec<Span>, broken: &mut BrokenRules) -> Result<(), AllocError>
    ensures adds { Adds (wrong_spans (map span_view spans.items)) broken.old broken.new }
    ensures covers { IfOk result (λ done. Covers (wrong_spans (map span_view spans.items)) broken.new) }
{
    wrong_orders(&spans, broken);
    spans.retain(|span| !is_reversed(span));
    sort(&mut spans)?;
    wrong_overlaps(&spans, broken);
    Ok(())
}
