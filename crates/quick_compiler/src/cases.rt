//! Tables of CASE.

use crate::stop::Stop;
use slot_trees::SlotCaseArm;
use st_meaning::number_of;
use st_types::Label;
use std::alloc::Global;

/// The greatest number of entries in the table of a CASE.
const MAX_NUMBERS: usize = 512;

/// The numbers of a label, or of all labels of a CASE.
#[derive(Clone, Copy)]
struct Span {
    least: i128,
    greatest: i128,
}

/// The arm of each number, from the least one on that a label has; none if no label has it.
pub struct Cases {
    /// The addend to a number, so that the least one's is 0.
    pub shift: i32,
    pub arms: Vec<Option<usize>>,
}

impl Drop for Cases {
    fn drop(self) {
        let Self { shift: _, arms: _ } = self;
    }
}

/// The numbers of a label, if there are any.
fn span_of(label: &Label) -> Option<Span> {
    let span = match label {
        Label::Single(number) => Span {
            least: number_of(number),
            greatest: number_of(number),
        },
        Label::Range(least, greatest) => Span {
            least: number_of(least),
            greatest: number_of(greatest),
        },
        Label::Enumerated(_) => return None,
    };
    if span.least <= span.greatest {
        Some(span)
    } else {
        None
    }
}

/// The numbers from the least to the greatest one of all labels.
fn span_of_all(arms: &[SlotCaseArm]) -> Option<Span> {
    let mut all: Option<Span> = None;
    for arm in arms {
        for label in &arm.labels {
            if let Some(span) = span_of(label) {
                all = match all {
                    None => Some(span),
                    Some(known) => Some(Span {
                        least: known.least.min(span.least),
                        greatest: known.greatest.max(span.greatest),
                    }),
                };
            }
        }
    }
    all
}

/// The table of a CASE.
pub fn cases_of(alloc: Global, arms: &[SlotCaseArm]) -> Result<Cases, Stop> {
    let mut cases = Cases {
        shift: 0,
        arms: Vec::new(alloc),
    };
    let Some(all) = span_of_all(arms) else {
        return Ok(cases);
    };
    let (Some(count), Some(shift)) = (all.greatest.checked_sub(all.least), all.least.checked_neg())
    else {
        return Err(Stop::NotCovered);
    };
    let Ok(shift) = i32::try_from(shift) else {
        return Err(Stop::NotCovered);
    };
    let Ok(count) = usize::try_from(count) else {
        return Err(Stop::NotCovered);
    };
    if count >= MAX_NUMBERS {
        return Err(Stop::NotCovered);
    }
    cases.shift = shift;
    for _ in 0..=count {
        cases.arms.push(None)?;
    }
    for (place, arm) in arms.iter().enumerate() {
        for label in &arm.labels {
            if let Some(span) = span_of(label) {
                fill(&mut cases.arms, all.least, span, place);
            }
        }
    }
    Ok(cases)
}

/// The numbers of a label lead to an arm, unless one before it has them.
fn fill(arms: &mut Vec<Option<usize>>, least: i128, span: Span, arm: usize) {
    let (Some(first), Some(last)) = (
        span.least.checked_sub(least),
        span.greatest.checked_sub(least),
    ) else {
        return;
    };
    let (Ok(first), Ok(last)) = (usize::try_from(first), usize::try_from(last)) else {
        return;
    };
    if last >= arms.len() {
        return;
    }
    for place in first..=last {
        if place < arms.len() && arms[place] == None {
            arms[place] = Some(arm);
        }
    }
}
