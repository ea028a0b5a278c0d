//! The ways of a CASE.

ghost use Rattle.std.specs.Prelude.{◌≡◌, ◌<◌, ◌+◌, ◌+ℤ◌, ◌≤ℤ◌, ◌<ℤ◌, ℕ, ℤ, IfNone, IfOk, IfSome, IsTrue, Some, false, length, map, pos, slice_get};
ghost use Rattle.std.specs.List.{list_any};
ghost use Rattle.st_meaning.specs.Execution.{label_holds};
ghost use Rattle.slot_trees.specs.StatementViews.{slot_case_arm_view};
ghost use Rattle.quick_code.specs.declared.quick_code.Way.{Way};
ghost use Rattle.quick_code.specs.Words.{case_of};
ghost use Rattle.quick_checks.specs.Choices.{chosen};

use crate::draft::QuickDraft;
use crate::refusal::Refusal;
use quick_code::{Way, is_way};
use slot_trees::SlotCaseArm;
use st_meaning::number_of;
use st_types::Label;
use std::alloc::Global;

/// The table of a switch: the addend to the selector, the first way, and how many there are before the last one, which is
/// that of all other numbers.
#[derive(Clone, Copy)]
pub struct Table {
    pub shift: i32,
    pub first: u16,
    pub count: u16,
}

/// Whether a label holds a number.
fn holds(label: &Label, number: i128) -> bool
    ensures { result ≡ label_holds number label.now }
{
    match label {
        Label::Single(single) => number == number_of(single),
        Label::Range(least, greatest) => {
            number_of(least) <= number && number <= number_of(greatest)
        }
        Label::Enumerated(_) => false,
    }
}

/// Whether any of the labels holds a number.
fn any_holds(labels: &[Label], number: i128) -> bool
    ensures { result ≡ list_any (label_holds number) labels.now }
{
    let mut index = 0;
    while index < labels.len() {
        if holds(&labels[index], number) {
            return true;
        }
        index += 1;
    }
    false
}

/// The first arm with a label that holds a number, or how many arms there are.
fn chosen_arm(arms: &[SlotCaseArm], number: i128) -> usize
    ensures { result ≡ chosen number (map slot_case_arm_view arms.now) }
{
    let mut index = 0;
    while index < arms.len() {
        if any_holds(&arms[index].labels, number) {
            return index;
        }
        index += 1;
    }
    index
}

/// Whether a table has a way of its own for a number.
fn is_inside(table: &Table, number: i128) -> bool
    ensures low { IsTrue result → pos 0 ≤ℤ (number +ℤ table.now.shift) }
    ensures high { IsTrue result → (number +ℤ table.now.shift) <ℤ pos table.now.count }
{
    let shift = i128::from(table.shift);
    match number.checked_add(shift) {
        Some(place) => 0 <= place && place < i128::from(table.count),
        None => false,
    }
}

/// Whether the table has a way of its own for each number that a label holds.
#[tactic(auto, using(crate::proofs::Tables::single_inside, crate::proofs::Tables::range_inside))]
fn label_inside(table: &Table, label: &Label) -> bool
    ensures { IsTrue result → (n : ℤ) → case_of table.now.count (n +ℤ table.now.shift) ≡ table.now.count
        → label_holds n label.now ≡ false }
{
    match label {
        Label::Single(single) => is_inside(table, number_of(single)),
        Label::Range(least, greatest) => {
            is_inside(table, number_of(least)) && is_inside(table, number_of(greatest))
        }
        Label::Enumerated(_) => true,
    }
}

/// Whether the table has a way of its own for each number that any of the labels holds.
fn labels_inside(table: &Table, labels: &[Label]) -> bool
    ensures { IsTrue result → (n : ℤ) → case_of table.now.count (n +ℤ table.now.shift) ≡ table.now.count
        → list_any (label_holds n) labels.now ≡ false }
{
    let mut index = 0;
    while index < labels.len() {
        if !label_inside(table, &labels[index]) {
            return false;
        }
        index += 1;
    }
    true
}

/// Whether the table has a way of its own for each number for which an arm is chosen.
pub fn arms_inside(table: &Table, arms: &[SlotCaseArm]) -> bool
    ensures { IsTrue result → (n : ℤ) → case_of table.now.count (n +ℤ table.now.shift) ≡ table.now.count
        → chosen n (map slot_case_arm_view arms.now) ≡ length arms.now }
{
    let mut index = 0;
    while index < arms.len() {
        if !labels_inside(table, &arms[index].labels) {
            return false;
        }
        index += 1;
    }
    true
}

/// The arms that are chosen for the numbers for which the table has a way of its own.
pub fn choices_of(alloc: Global, table: &Table, arms: &[SlotCaseArm]) -> Result<Vec<usize>, Refusal>
    ensures chosen { IfOk result (λ v. (n : ℤ) (j : ℕ) → j < table.now.count → n +ℤ table.now.shift ≡ pos j
        → slice_get v.items j ≡ Some (chosen n (map slot_case_arm_view arms.now))) }
    ensures all { IfOk result (λ v. length v.items ≡ table.now.count) }
{
    let mut choices = Vec::new(alloc);
    let mut index: u16 = 0;
    while index < table.count {
        let Some(number) = i128::from(index).checked_sub(i128::from(table.shift)) else {
            return Err(Refusal::Other);
        };
        choices.push(chosen_arm(arms, number))?;
        index += 1;
    }
    Ok(choices)
}

/// The way at a place of the table of ways.
pub fn way_at(draft: &QuickDraft, place: usize) -> Result<Way, Refusal>
    ensures { IfOk result (λ w. slice_get draft.now.code.ways.items place ≡ Some w) }
{
    match draft.code.ways.get(place) {
        Some(way) => Ok(*way),
        None => Err(Refusal::Other),
    }
}

/// The first number of the table for which an arm is chosen.
fn first_choice(choices: &[usize], arm: usize) -> Option<usize>
    ensures { IfNone result ((j : ℕ) → slice_get choices.now j ≡ Some arm → ⊥) }
{
    let mut index = 0;
    while index < choices.len() {
        if choices[index] == arm {
            return Some(index);
        }
        index += 1;
    }
    None
}

/// Whether a number of the table has another choice than an arm, or its way is this one.
fn leads_so(
    draft: &QuickDraft,
    table: &Table,
    choices: &[usize],
    arm: usize,
    way: Way,
    index: usize,
) -> bool
    ensures { IsTrue result → (v : Way) → slice_get choices.now index ≡ Some arm
        → slice_get draft.now.code.ways.items (table.now.first + index) ≡ Some v → v ≡ way }
{
    let Some(place) = (table.first as usize).checked_add(index) else {
        return false;
    };
    match (choices.get(index), way_at(draft, place)) {
        (Some(choice), Ok(there)) => *choice != arm || is_way(there, way),
        _ => false,
    }
}

/// Whether the ways of all numbers of the table for which an arm is chosen are this one.
pub fn all_lead(draft: &QuickDraft, table: &Table, choices: &[usize], arm: usize, way: Way) -> bool
    ensures { IsTrue result → (j : ℕ) (v : Way) → slice_get choices.now j ≡ Some arm
        → slice_get draft.now.code.ways.items (table.now.first + j) ≡ Some v → v ≡ way }
{
    let mut index = 0;
    while index < choices.len() {
        if !leads_so(draft, table, choices, arm, way, index) {
            return false;
        }
        index += 1;
    }
    true
}

/// The way of all numbers of the table for which an arm is chosen; none if there are none.
pub fn way_of_arm(
    draft: &QuickDraft,
    table: &Table,
    choices: &[usize],
    arm: usize,
) -> Result<Option<Way>, Refusal>
    ensures all { IfOk result (λ o. IfSome o (λ w. (j : ℕ) (v : Way) → slice_get choices.now j ≡ Some arm
        → slice_get draft.now.code.ways.items (table.now.first + j) ≡ Some v → v ≡ w)) }
    ensures none { IfOk result (λ o. IfNone o ((j : ℕ) → slice_get choices.now j ≡ Some arm → ⊥)) }
{
    let Some(index) = first_choice(choices, arm) else {
        return Ok(None);
    };
    let Some(place) = (table.first as usize).checked_add(index) else {
        return Err(Refusal::Other);
    };
    let way = way_at(draft, place)?;
    if !all_lead(draft, table, choices, arm, way) {
        return Err(Refusal::Other);
    }
    Ok(Some(way))
}
