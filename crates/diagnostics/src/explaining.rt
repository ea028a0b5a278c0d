//! Findings on the fault of a text, as far as its tokens allow.

use crate::fault::{SourceFault, WholeFault};
use crate::finding::Finding;
use crate::grammar::{depth_reason, grammar_reason};
use crate::lexical::words_reason;
use crate::spot::Spot;
use st_lex::{LexError, lex};
use st_parse::ParseError;
use st_types::limits::{MAX_BUDGET, MAX_PATHS, MAX_RECORD_BODY, MAX_SOURCE_BYTES};
use std::alloc::{AllocError, Global};

const NO_MEMORY: &str = "memory ran out";

fn lex_error_reason(alloc: Global, text: &[u8], error: LexError) -> Result<Finding, AllocError> {
    match error {
        LexError::Fault(fault, place) => words_reason(alloc, text, fault, place),
        LexError::TooLong => Ok(Finding::new(format!(in alloc;
            "the source is longer than {MAX_SOURCE_BYTES} bytes"
        )?)),
        LexError::Memory => Finding::plain(alloc, NO_MEMORY),
    }
}

fn unexpected_reason(alloc: Global, text: &[u8], place: usize) -> Result<Finding, AllocError> {
    match lex(alloc, text) {
        Ok(tokens) => grammar_reason(alloc, &Spot::new(text, &tokens, place)),
        Err(_) => Finding::plain(alloc, "the grammar doesn't allow this"),
    }
}

fn parse_error_reason(
    alloc: Global,
    text: &[u8],
    error: ParseError,
) -> Result<Finding, AllocError> {
    match error {
        ParseError::Unexpected(place) => unexpected_reason(alloc, text, place),
        ParseError::Deep => depth_reason(alloc),
        ParseError::Memory => Finding::plain(alloc, NO_MEMORY),
    }
}

fn size_reason(alloc: Global, fault: WholeFault) -> Result<Finding, AllocError> {
    let sentence = match fault {
        WholeFault::Budget => format!(in alloc; "the budget has to be 1 to {MAX_BUDGET} ticks")?,
        WholeFault::RecordTooLong => {
            format!(in alloc;
                "the record of the RETAIN variables would be over {MAX_RECORD_BODY} bytes long"
            )?
        }
        _ => format!(in alloc;
            "there are more than {MAX_PATHS} paths, block instances or function values"
        )?,
    };
    Ok(Finding::new(sentence))
}

/// The finding on a text as a whole, without looking into it.
pub fn whole_text_reason(alloc: Global, fault: WholeFault) -> Result<Finding, AllocError> {
    let sentence = match fault {
        WholeFault::Unread => "the source can't be read",
        WholeFault::NotOne => "there is no CONFIGURATION, or more than one",
        WholeFault::Unknown => { "a task, program or global is unknown, or doesn't fit its use" }
        WholeFault::WrongAddress => {
            "an address is used twice, out of range, of the wrong width, or not allowed here"
        }
        WholeFault::TooMany => "there are too many resources, tasks or programs",
        WholeFault::WithoutTask => "a program has no task: WITH and a task's name are missing",
        WholeFault::TooManyInstructions => "a program has too many instructions",
        WholeFault::JudgingMemory | WholeFault::LayoutMemory | WholeFault::PlanMemory => NO_MEMORY,
        WholeFault::Budget | WholeFault::RecordTooLong | WholeFault::TooManyPaths => {
            return size_reason(alloc, fault);
        }
    };
    Finding::plain(alloc, sentence)
}

/// The finding on the fault of a text, as far as its tokens allow.
pub fn explained(alloc: Global, text: &[u8], fault: SourceFault) -> Result<Finding, AllocError> {
    match fault {
        SourceFault::Words(error) => lex_error_reason(alloc, text, error),
        SourceFault::Grammar(error) => parse_error_reason(alloc, text, error),
        SourceFault::Rule(_) => Finding::plain(alloc, "a rule of the language is broken here"),
        SourceFault::Whole(fault) => whole_text_reason(alloc, fault),
    }
}
