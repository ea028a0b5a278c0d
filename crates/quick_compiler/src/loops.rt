//! The code of loops.

use crate::conditions::{Branch, put_test};
use crate::draft::Draft;
use crate::known::Ways;
use crate::notes::note_turns;
use crate::ranges::put_within;
use crate::reading::{Reading, put_read};
use crate::sheet::{BranchMark, NO_WAY};
use crate::spot::Spot;
use crate::statements::{Exits, put_stmts};
use crate::stop::Stop;
use crate::survey::Turns;
use crate::unit::Unit;
use quick_checks::{instr_for, literal_value};
use quick_code::QuickInstr;
use quick_trees::Pace;
use slot_trees::{Anchor, SlotExpr, SlotStmt};
use st_types::{BinaryOperator, Kind, is_wide};

/// The values computed before the body of a FOR.
#[derive(Clone, Copy)]
pub struct Turning<'a> {
    pub control: Anchor,
    pub start: &'a SlotExpr,
    pub limit: &'a SlotExpr,
    pub step: &'a Option<SlotExpr>,
}

/// A loop that is being written.
#[derive(Clone, Copy)]
struct Loop {
    /// The marks after the loop, at its head, and at the end of its body.
    behind: usize,
    head: usize,
    foot: usize,
    landing: usize,
}

impl Loop {
    fn new(draft: &mut Draft) -> Result<Loop, Stop> {
        let behind = draft.sheet.mark()?;
        Ok(Loop {
            behind,
            head: draft.sheet.mark()?,
            foot: draft.sheet.mark()?,
            landing: draft.promise(behind)?,
        })
    }

    /// Begins the turns, of which there may be none.
    fn begin(self, draft: &mut Draft, may_have_none: bool) -> Result<(), Stop> {
        let ways = Ways::new(draft.alloc, draft.known.changes());
        draft.outs.push(ways)?;
        if may_have_none {
            draft.add_out(true)?;
        }
        Ok(())
    }

    /// Ends the body, to which no run may come.
    fn end_body(self, draft: &mut Draft, goes_on: bool) -> Result<(), Stop> {
        draft.is_lost = !goes_on;
        draft.sheet.bind(self.foot)
    }

    /// Ends the loop.
    fn end(self, draft: &mut Draft, goes_on: bool) -> Result<(), Stop> {
        draft.add_out(goes_on)?;
        draft.is_lost = false;
        let Some(ways) = draft.outs.pop() else {
            return Err(Stop::NotCovered);
        };
        draft.sheet.bind(self.behind)?;
        draft.known.meet(ways)?;
        draft.keep_here(self.landing)
    }

    fn exits(self, around: Exits) -> Exits {
        Exits {
            out: self.behind,
            end: self.foot,
            ..around
        }
    }

    /// A branch back to the head, when a condition holds or unless it does.
    fn back(self, when: bool) -> Branch {
        Branch {
            when,
            lead: BranchMark {
                mark: self.head,
                is_turn: !when,
            },
        }
    }
}

#[cycle(draft)]
pub fn put_while(
    unit: Unit,
    draft: &mut Draft,
    condition: &SlotExpr,
    body: &[SlotStmt],
    spot: Spot,
    exits: Exits,
) -> Result<(), Stop> {
    let turned = Loop::new(draft)?;
    put_test(
        unit,
        draft,
        condition,
        Branch::unless(turned.behind),
        spot.inside()?,
    )?;
    turned.begin(draft, true)?;
    let turns = Turns {
        body,
        condition: Some(condition),
    };
    note_turns(unit, draft, turns, spot.levels)?;
    draft.sheet.bind(turned.head)?;
    let goes_on = put_stmts(unit, draft, body, spot.inside()?, turned.exits(exits))?;
    turned.end_body(draft, goes_on)?;
    draft.sheet.tick()?;
    put_test(unit, draft, condition, turned.back(true), spot.inside()?)?;
    turned.end(draft, goes_on)
}

#[cycle(draft)]
pub fn put_repeat(
    unit: Unit,
    draft: &mut Draft,
    body: &[SlotStmt],
    condition: &SlotExpr,
    spot: Spot,
    exits: Exits,
) -> Result<(), Stop> {
    let turned = Loop::new(draft)?;
    turned.begin(draft, false)?;
    let turns = Turns {
        body,
        condition: Some(condition),
    };
    note_turns(unit, draft, turns, spot.levels)?;
    draft.sheet.bind(turned.head)?;
    let goes_on = put_stmts(unit, draft, body, spot.inside()?, turned.exits(exits))?;
    turned.end_body(draft, goes_on)?;
    put_test(unit, draft, condition, turned.back(false), spot.inside()?)?;
    turned.end(draft, goes_on)
}

#[cycle(draft)]
pub fn put_for(
    unit: Unit,
    draft: &mut Draft,
    turning: Turning,
    body: &[SlotStmt],
    spot: Spot,
    exits: Exits,
) -> Result<(), Stop> {
    let turned = Loop::new(draft)?;
    let control = unit.slot_of(turning.control)?;
    let kind = unit.kind_at(control)?;
    let word = unit.own_word_of(control)?;
    let start = put_read(unit, draft, turning.start, spot.inside()?)?;
    let behind = spot.after_temporaries(1)?;
    let read = put_read(unit, draft, turning.limit, behind)?;
    if start.kind != kind || read.kind != kind {
        return Err(Stop::NotCovered);
    }
    let limit = kept(unit, draft, read, behind)?;
    let pace = put_pace(unit, draft, kind, turning.step, spot.after_temporaries(2)?)?;
    let inside = spot.after_temporaries(depth_of(pace))?;
    let count = Count {
        kind,
        control: word,
        limit,
        pace,
        depth: inside.depth,
    };
    draft.sheet.put(QuickInstr::Move {
        from: start.word,
        to: count.control,
    })?;
    draft.assign(unit, turning.control)?;
    let over = BranchMark {
        mark: turned.behind,
        is_turn: false,
    };
    count.put_first_test(draft, over)?;
    turned.begin(draft, true)?;
    let turns = Turns {
        body,
        condition: None,
    };
    note_turns(unit, draft, turns, spot.levels)?;
    draft.sheet.bind(turned.head)?;
    let goes_on = put_stmts(unit, draft, body, inside, turned.exits(exits))?;
    turned.end_body(draft, goes_on)?;
    let back = BranchMark {
        mark: turned.head,
        is_turn: true,
    };
    count.put_next(unit, draft, back)?;
    turned.end(draft, goes_on)
}

/// How many temporaries are taken within a FOR: those of start and limit, and those of a step and its sign.
fn depth_of(pace: Pace) -> usize {
    match pace {
        Pace::Literal(_) => 2,
        Pace::Words { .. } => 4,
    }
}

/// Writes the step of a FOR over a type, unless it is a literal.
#[cycle(draft)]
fn put_pace(
    unit: Unit,
    draft: &mut Draft,
    kind: Kind,
    step: &Option<SlotExpr>,
    spot: Spot,
) -> Result<Pace, Stop> {
    match step {
        None => Ok(Pace::Literal(1)),
        Some(SlotExpr::Constant(literal)) => {
            let number = literal_value(literal)?.number();
            Ok(Pace::Literal(literal_step(number, kind)?))
        }
        Some(step) => {
            let read = put_read(unit, draft, step, spot.inside()?)?;
            if read.kind != kind || is_wide(kind) {
                return Err(Stop::NotCovered);
            }
            let step = kept(unit, draft, read, spot)?;
            let below = draft.temporary(spot.after_temporaries(1)?.depth);
            put_sign(draft, step, below)?;
            Ok(Pace::Words { step, below })
        }
    }
}

/// Writes whether a step is below 0, if it is not 0.
fn put_sign(draft: &mut Draft, step: u16, below: u16) -> Result<(), Stop> {
    draft.sheet.put(QuickInstr::DivideLint {
        left: step,
        right: step,
        to: below,
    })?;
    draft.sheet.put(QuickInstr::Set {
        constant: 0,
        to: below,
    })?;
    draft.sheet.put(QuickInstr::Less {
        left: step,
        right: below,
        to: below,
    })
}

/// A limit, or a step, in a word that no statement assigns.
fn kept(unit: Unit, draft: &mut Draft, read: Reading, spot: Spot) -> Result<u16, Stop> {
    if !unit.may_assign(read.word) {
        return Ok(read.word);
    }
    let to = draft.temporary(spot.depth);
    draft.sheet.put(QuickInstr::Move {
        from: read.word,
        to,
    })?;
    Ok(to)
}

/// How a FOR counts, and from which depth on temporaries are free within.
#[derive(Clone, Copy)]
struct Count {
    kind: Kind,
    control: u16,
    limit: u16,
    pace: Pace,
    depth: u16,
}

impl Count {
    /// Writes the branch that is taken if the limit is passed at once.
    fn put_first_test(self, draft: &mut Draft, over: BranchMark) -> Result<(), Stop> {
        let (left, right) = match self.pace {
            Pace::Literal(step) if step > 0 => (self.limit, self.control),
            Pace::Literal(_) => (self.control, self.limit),
            Pace::Words { below, .. } => {
                let (lower, upper) = self.put_ordered(draft, below)?;
                (upper, lower)
            }
        };
        let test = QuickInstr::JumpIfLess {
            left,
            right,
            way: NO_WAY,
            past: 0,
        };
        draft.sheet.put_branch(Some(test), over)
    }

    /// Puts the control variable and the limit into temporaries, the first of which is not above the second if the loop goes
    /// on.
    fn put_ordered(self, draft: &mut Draft, below: u16) -> Result<(u16, u16), Stop> {
        let Some(second) = self.depth.checked_add(1) else {
            return Err(Stop::NotCovered);
        };
        let lower = draft.temporary(self.depth);
        let upper = draft.temporary(second);
        draft.sheet.put(QuickInstr::Select {
            condition: below,
            yes: self.limit,
            no: self.control,
            to: lower,
        })?;
        draft.sheet.put(QuickInstr::Select {
            condition: below,
            yes: self.control,
            no: self.limit,
            to: upper,
        })?;
        Ok((lower, upper))
    }

    /// The end of a turn by one instruction, if there is one.
    fn next(self, step: i32) -> Option<QuickInstr> {
        let Count {
            kind,
            control,
            limit,
            ..
        } = self;
        let (way, past) = (NO_WAY, 0);
        match (kind, step > 0) {
            (Kind::Int, true) => Some(QuickInstr::CountUpInt {
                control,
                step,
                limit,
                way,
                past,
            }),
            (Kind::Dint, true) => Some(QuickInstr::CountUpDint {
                control,
                step,
                limit,
                way,
                past,
            }),
            (Kind::Int, false) => Some(QuickInstr::CountDownInt {
                control,
                step,
                limit,
                way,
                past,
            }),
            (Kind::Dint, false) => Some(QuickInstr::CountDownDint {
                control,
                step,
                limit,
                way,
                past,
            }),
            _ => None,
        }
    }

    /// Adds a literal, as to a LINT.
    fn put_step(self, unit: Unit, draft: &mut Draft, step: i32) -> Result<(), Stop> {
        draft.sheet.put(QuickInstr::AddLintBy {
            left: self.control,
            constant: step,
            to: self.control,
        })?;
        if self.kind == Kind::Lint || self.kind == Kind::Ulint {
            return Ok(());
        }
        put_within(unit, draft, self.kind, self.control, self.control)
    }

    /// Adds a word.
    fn put_word(self, unit: Unit, draft: &mut Draft, step: u16) -> Result<(), Stop> {
        let control = self.control;
        let instr = instr_for(BinaryOperator::Add, self.kind, control, step, control);
        if instr.is_some() {
            return draft.sheet.put_for(instr);
        }
        draft.sheet.put(QuickInstr::AddLint {
            left: control,
            right: step,
            to: control,
        })?;
        put_within(unit, draft, self.kind, control, control)
    }

    /// Writes the branch that is taken for a further turn, and a tick, which a turn takes whether one follows or not.
    fn put_further_test(
        self,
        draft: &mut Draft,
        lower: u16,
        upper: u16,
        back: BranchMark,
    ) -> Result<(), Stop> {
        let test = QuickInstr::JumpIfAtMost {
            left: lower,
            right: upper,
            way: NO_WAY,
            past: 0,
        };
        draft.sheet.put_branch(Some(test), back)?;
        draft.sheet.tick()
    }

    /// Writes the end of a turn.
    fn put_next(self, unit: Unit, draft: &mut Draft, back: BranchMark) -> Result<(), Stop> {
        match self.pace {
            Pace::Literal(step) => {
                if let Some(instr) = self.next(step) {
                    return draft.sheet.put_branch(Some(instr), back);
                }
                self.put_step(unit, draft, step)?;
                if step > 0 {
                    return self.put_further_test(draft, self.control, self.limit, back);
                }
                self.put_further_test(draft, self.limit, self.control, back)
            }
            Pace::Words { step, below } => {
                self.put_word(unit, draft, step)?;
                let (lower, upper) = self.put_ordered(draft, below)?;
                self.put_further_test(draft, lower, upper, back)
            }
        }
    }
}

/// The literal step of a FOR, which is not 0.
fn literal_step(number: i128, kind: Kind) -> Result<i32, Stop> {
    if number == 0 || number < kind.least() || kind.greatest() < number {
        return Err(Stop::NotCovered);
    }
    match i32::try_from(number) {
        Ok(step) => Ok(step),
        Err(_) => Err(Stop::NotCovered),
    }
}
