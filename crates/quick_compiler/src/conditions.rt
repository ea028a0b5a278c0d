//! The code of conditions.

use crate::draft::Draft;
use crate::reading::put_read;
use crate::sheet::{BranchMark, NO_WAY};
use crate::spot::Spot;
use crate::stop::Stop;
use crate::unit::Unit;
use quick_checks::{bool_branch, branch_for, branch_for_by, number_for};
use slot_trees::{Operands, SlotExpr};
use st_types::{BinaryOperator, Kind, UnaryOperator};

/// A branch that is taken when a condition holds, or unless it does.
#[derive(Clone, Copy)]
pub struct Branch {
    pub when: bool,
    pub lead: BranchMark,
}

impl Branch {
    /// One that is taken unless its condition holds, to a mark.
    pub fn unless(mark: usize) -> Branch {
        Branch {
            when: false,
            lead: BranchMark {
                mark,
                is_turn: false,
            },
        }
    }
}

/// Writes the code that tests a condition, with the branch.
#[cycle(draft)]
pub fn put_test(
    unit: Unit,
    draft: &mut Draft,
    condition: &SlotExpr,
    branch: Branch,
    spot: Spot,
) -> Result<(), Stop> {
    match condition {
        SlotExpr::Unary(UnaryOperator::Not, operand) => {
            let turned = Branch {
                when: !branch.when,
                lead: branch.lead,
            };
            put_test(unit, draft, operand, turned, spot.inside()?)
        }
        SlotExpr::Binary(operator, operands) if is_comparison(*operator) => {
            put_compared(unit, draft, *operator, operands, branch, spot.inside()?)
        }
        _ => {
            let read = put_read(unit, draft, condition, spot.inside()?)?;
            if read.kind != Kind::Bool {
                return Err(Stop::NotCovered);
            }
            let instr = bool_branch(branch.when, read.word, NO_WAY, 0);
            draft.sheet.put_branch(Some(instr), branch.lead)
        }
    }
}

/// The same for a comparison.
#[cycle(draft)]
fn put_compared(
    unit: Unit,
    draft: &mut Draft,
    operator: BinaryOperator,
    operands: &Operands,
    branch: Branch,
    spot: Spot,
) -> Result<(), Stop> {
    let when = branch.when;
    let left = put_read(unit, draft, &operands.left, spot.inside()?)?;
    if let Some(constant) = number_for(&operands.right, left.kind) {
        let instr = branch_for_by(when, operator, left.word, constant, NO_WAY, 0);
        return draft.sheet.put_branch(instr, branch.lead);
    }
    let right = put_read(unit, draft, &operands.right, spot.after_temporaries(1)?)?;
    if right.kind != left.kind {
        return Err(Stop::NotCovered);
    }
    let instr = branch_for(when, operator, left.word, right.word, NO_WAY, 0);
    draft.sheet.put_branch(instr, branch.lead)
}

fn is_comparison(operator: BinaryOperator) -> bool {
    match operator {
        BinaryOperator::Equal
        | BinaryOperator::NotEqual
        | BinaryOperator::Less
        | BinaryOperator::LessOrEqual
        | BinaryOperator::Greater
        | BinaryOperator::GreaterOrEqual => true,
        _ => false,
    }
}
