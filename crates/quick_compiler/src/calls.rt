//! The code of functions in the place of their calls.

use crate::assigned::assigned_values;
use crate::constants::small_word;
use crate::draft::Draft;
use crate::reading::{Reading, put_read};
use crate::spot::Spot;
use crate::statements::{Exits, put_stmts};
use crate::stop::Stop;
use crate::unit::{FunctionWord, Unit, Values, narrow};
use quick_code::QuickInstr;
use slot_trees::{SlotExpr, SlotFunction};
use st_types::Kind;
use std::alloc::Global;

/// Writes the code of a call, whose result is then in a word: its type.
#[cycle(draft)]
pub fn put_call(
    unit: Unit,
    draft: &mut Draft,
    number: usize,
    arguments: &[SlotExpr],
    spot: Spot,
    to: u16,
) -> Result<Kind, Stop> {
    let mut read = Vec::new(draft.alloc);
    for (place, argument) in arguments.iter().enumerate() {
        read.push(put_read(unit, draft, argument, spot.after_temporaries(place)?)?)?;
    }
    let behind = spot.after_temporaries(arguments.len())?;
    put_function(unit, draft, number, &read, behind, to)
}

/// Writes the code of a function whose arguments are read, and whose values begin at the depth.
#[cycle(draft)]
fn put_function(
    unit: Unit,
    draft: &mut Draft,
    number: usize,
    read: &[Reading],
    spot: Spot,
    to: u16,
) -> Result<Kind, Stop> {
    let Some(calls) = unit.calls.checked_sub(1) else {
        return Err(Stop::NotCovered);
    };
    let function = unit.function_at(number)?;
    let body = spot.after_temporaries(function.fresh.len())?;
    draft.sheet.need_words(body.depth as usize);
    let values = begin(draft, function, read, spot)?;
    let inner = Unit {
        values: &values,
        calls,
        ..unit
    };
    let last = draft.sheet.mark()?;
    let landing = draft.promise(last)?;
    draft.keep_here(landing)?;
    let exits = Exits {
        out: last,
        back: last,
        end: last,
    };
    put_stmts(inner, draft, &function.body, body, exits)?;
    draft.sheet.bind(last)?;
    let from = inner.function_word_at(function.result)?.word;
    draft.sheet.put(QuickInstr::Move { from, to })?;
    inner.kind_at(function.result)
}

/// The values of a function are begun: inputs stay where their arguments are unless the body assigns them.
fn begin(
    draft: &mut Draft,
    function: &SlotFunction,
    read: &[Reading],
    spot: Spot,
) -> Result<Values, Stop> {
    let alloc = draft.alloc;
    let assigned = assigned_values(alloc, function, spot.levels)?;
    let inputs = inputs_of(alloc, function, read)?;
    let mut kinds = Vec::new(alloc);
    let mut seats = Vec::new(alloc);
    for (slot, value) in function.fresh.as_slice().iter().enumerate() {
        let Some(own) = (spot.depth as usize).checked_add(slot) else {
            return Err(Stop::NotCovered);
        };
        let own = FunctionWord {
            word: narrow(own)?,
            is_own: true,
        };
        let seat = match (inputs.get(slot), assigned.get(slot)) {
            (Some(Some(argument)), Some(false)) => FunctionWord {
                word: argument.word,
                is_own: false,
            },
            (Some(Some(argument)), _) => {
                draft.sheet.put(QuickInstr::Move {
                    from: argument.word,
                    to: own.word,
                })?;
                own
            }
            _ => {
                let Some(constant) = small_word(*value) else {
                    return Err(Stop::NotCovered);
                };
                draft.sheet.put(QuickInstr::Set {
                    constant,
                    to: own.word,
                })?;
                own
            }
        };
        kinds.push(value.kind())?;
        seats.push(seat)?;
    }
    Ok(Values::Called(kinds, seats))
}

/// The argument of each value of a function that is an input.
fn inputs_of(
    alloc: Global,
    function: &SlotFunction,
    read: &[Reading],
) -> Result<Vec<Option<Reading>>, Stop> {
    if function.inputs.len() != read.len() {
        return Err(Stop::NotCovered);
    }
    let mut inputs = Vec::new(alloc);
    for _ in &function.fresh {
        inputs.push(None)?;
    }
    for (place, slot) in function.inputs.as_slice().iter().enumerate() {
        if *slot >= inputs.len() || place >= read.len() {
            return Err(Stop::NotCovered);
        }
        inputs[*slot] = Some(read[place]);
    }
    Ok(inputs)
}
