//! The ways of branches.

use quick_code::{QuickInstr, Way};

/// Where a branch leads, and the ticks when it is not taken.
#[derive(Clone, Copy)]
pub struct Leg {
    pub way: Way,
    pub past: u16,
}

/// Whether a run goes on elsewhere than at the next instruction, or may, or is over.
pub fn is_turning(instr: QuickInstr) -> bool {
    match instr {
        QuickInstr::End | QuickInstr::Jump { .. } | QuickInstr::Switch { .. } => true,
        _ => is_branch(instr) || is_count(instr),
    }
}

/// Whether an instruction is a branch on a comparison.
fn is_branch(instr: QuickInstr) -> bool {
    match instr {
        QuickInstr::JumpIfEqual { .. }
        | QuickInstr::JumpIfNotEqual { .. }
        | QuickInstr::JumpIfLess { .. }
        | QuickInstr::JumpIfAtMost { .. }
        | QuickInstr::JumpIfEqualConst { .. }
        | QuickInstr::JumpIfNotEqualConst { .. }
        | QuickInstr::JumpIfLessConst { .. }
        | QuickInstr::JumpIfAtMostConst { .. }
        | QuickInstr::JumpIfGreaterConst { .. }
        | QuickInstr::JumpIfAtLeastConst { .. } => true,
        _ => false,
    }
}

/// Whether an instruction ends a turn of FOR.
pub fn is_count(instr: QuickInstr) -> bool {
    match instr {
        QuickInstr::CountUpInt { .. }
        | QuickInstr::CountUpDint { .. }
        | QuickInstr::CountDownInt { .. }
        | QuickInstr::CountDownDint { .. } => true,
        _ => false,
    }
}

/// The same branch with these ways.
pub fn with_leg(instr: QuickInstr, leg: Leg) -> QuickInstr {
    match instr {
        QuickInstr::Jump { .. } => QuickInstr::Jump { way: leg.way },
        _ => {
            if is_count(instr) {
                count_with(instr, leg)
            } else {
                branch_with(instr, leg)
            }
        }
    }
}

fn branch_with(instr: QuickInstr, leg: Leg) -> QuickInstr {
    let Leg { way, past } = leg;
    match instr {
        QuickInstr::JumpIfEqual { left, right, .. } => QuickInstr::JumpIfEqual {
            left,
            right,
            way,
            past,
        },
        QuickInstr::JumpIfNotEqual { left, right, .. } => QuickInstr::JumpIfNotEqual {
            left,
            right,
            way,
            past,
        },
        QuickInstr::JumpIfLess { left, right, .. } => QuickInstr::JumpIfLess {
            left,
            right,
            way,
            past,
        },
        QuickInstr::JumpIfAtMost { left, right, .. } => QuickInstr::JumpIfAtMost {
            left,
            right,
            way,
            past,
        },
        QuickInstr::JumpIfEqualConst { left, constant, .. } => QuickInstr::JumpIfEqualConst {
            left,
            constant,
            way,
            past,
        },
        QuickInstr::JumpIfNotEqualConst { left, constant, .. } => QuickInstr::JumpIfNotEqualConst {
            left,
            constant,
            way,
            past,
        },
        QuickInstr::JumpIfLessConst { left, constant, .. } => QuickInstr::JumpIfLessConst {
            left,
            constant,
            way,
            past,
        },
        QuickInstr::JumpIfAtMostConst { left, constant, .. } => QuickInstr::JumpIfAtMostConst {
            left,
            constant,
            way,
            past,
        },
        QuickInstr::JumpIfGreaterConst { left, constant, .. } => QuickInstr::JumpIfGreaterConst {
            left,
            constant,
            way,
            past,
        },
        QuickInstr::JumpIfAtLeastConst { left, constant, .. } => QuickInstr::JumpIfAtLeastConst {
            left,
            constant,
            way,
            past,
        },
        other => other,
    }
}

fn count_with(instr: QuickInstr, leg: Leg) -> QuickInstr {
    let Leg { way, past } = leg;
    match instr {
        QuickInstr::CountUpInt {
            control,
            step,
            limit,
            ..
        } => QuickInstr::CountUpInt {
            control,
            step,
            limit,
            way,
            past,
        },
        QuickInstr::CountUpDint {
            control,
            step,
            limit,
            ..
        } => QuickInstr::CountUpDint {
            control,
            step,
            limit,
            way,
            past,
        },
        QuickInstr::CountDownInt {
            control,
            step,
            limit,
            ..
        } => {
            QuickInstr::CountDownInt {
                control,
                step,
                limit,
                way,
                past,
            }
        }
        QuickInstr::CountDownDint {
            control,
            step,
            limit,
            ..
        } => {
            QuickInstr::CountDownDint {
                control,
                step,
                limit,
                way,
                past,
            }
        }
        other => other,
    }
}
