//! The strips of executions.

use crate::chart::{Lane, Lanes, Mark, Sign};
use crate::labels::name_label;
use crate::notes::{Event, Happening, History};
use plan::{Plan, ProgramInstance};
use st_types::Fault;
use std::alloc::{AllocError, Global};

fn fault_word(fault: Fault) -> &'static str {
    match fault {
        Fault::Range => "F1",
        Fault::DivisionByZero => "F2",
        Fault::Index => "F3",
        Fault::Conversion => "F4",
        Fault::Budget => "F5",
        Fault::ZeroStep => "F6",
    }
}

fn mark(event: &Event) -> Mark {
    let (sign, word) = match event.happening {
        Happening::Done => (Sign::Tick, "done"),
        Happening::Faulted(fault) => (Sign::Cross, fault_word(fault)),
        Happening::Overrun => (Sign::Triangle, "overrun"),
    };
    Mark {
        moment: event.moment,
        sign,
        word,
    }
}

/// The lane of a program with this history.
fn lane(alloc: Global, program: &ProgramInstance, history: &History) -> Result<Lane, AllocError> {
    let mut marks = Vec::with_capacity(alloc, history.events.len())?;
    for event in &history.events {
        marks.push(mark(event))?;
    }
    Ok(Lane {
        label: name_label(alloc, &program.owner.instance)?,
        marks,
    })
}

/// The strip of a resource, by its number from 0, with a lane for each of its programs; none if it has no program.
pub(crate) fn lanes(
    alloc: Global,
    plan: &Plan,
    resource: usize,
    histories: &[History],
) -> Result<Option<Lanes>, AllocError> {
    let mut strip = None;
    for (program, history) in plan.programs.iter().zip(histories) {
        if program.resource == resource {
            let mut lanes = match strip {
                Some(lanes) => lanes,
                None => Lanes {
                    label: name_label(alloc, &program.owner.resource)?,
                    lanes: Vec::new(alloc),
                },
            };
            lanes.lanes.push(lane(alloc, program, history)?)?;
            strip = Some(lanes);
        }
    }
    Ok(strip)
}
