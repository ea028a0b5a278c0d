//! Which values of a function its body assigns.

use crate::spot::below;
use crate::stop::Stop;
use slot_trees::{Anchor, SlotFunction, SlotStmt};
use std::alloc::Global;

/// Whether the body of a function assigns each of its values.
pub fn assigned_values(
    alloc: Global,
    function: &SlotFunction,
    levels: usize,
) -> Result<Vec<bool>, Stop> {
    let mut assigned = Vec::new(alloc);
    for _ in &function.fresh {
        assigned.push(false)?;
    }
    put_assigned(&mut assigned, &function.body, levels)?;
    Ok(assigned)
}

fn put_one(assigned: &mut Vec<bool>, anchor: Anchor) {
    let slot = match anchor {
        Anchor::Own(slot) | Anchor::Absolute(slot) => slot,
    };
    if slot < assigned.len() {
        assigned[slot] = true;
    }
}

/// Records the values that statements assign.
fn put_assigned(
    assigned: &mut Vec<bool>,
    statements: &[SlotStmt],
    levels: usize,
) -> Result<(), Stop> {
    let levels = below(levels)?;
    for statement in statements {
        match statement {
            SlotStmt::Assign(place, _) => put_one(assigned, place.anchor),
            SlotStmt::If(arms, otherwise) => {
                for arm in arms {
                    put_assigned(assigned, &arm.body, levels)?;
                }
                put_assigned(assigned, otherwise, levels)?;
            }
            SlotStmt::Case(_, arms, otherwise) => {
                for arm in arms {
                    put_assigned(assigned, &arm.body, levels)?;
                }
                put_assigned(assigned, otherwise, levels)?;
            }
            SlotStmt::For { control, body, .. } => {
                put_one(assigned, *control);
                put_assigned(assigned, body, levels)?;
            }
            SlotStmt::While(_, body) | SlotStmt::Repeat(body, _) => {
                put_assigned(assigned, body, levels)?;
            }
            SlotStmt::Invoke(_, _, _) => return Err(Stop::NotCovered),
            SlotStmt::Empty | SlotStmt::Exit | SlotStmt::Return => {}
        }
    }
    Ok(())
}
