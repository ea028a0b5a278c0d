//! Lines whose rows have no moments of their own.

ghost use Rattle.std.specs.Prelude.{◌≡◌, ◌++◌, ℕ, List, IfOk, OnOk, codes};
ghost use Rattle.std.specs.Fmt.{decimal};
ghost use Rattle.live_rows.specs.RowLines.{after_comma, headed, timed};

use crate::line_reader::MAX_LINE_BYTES;
use crate::row_reader::without_cr;
use std::alloc::{AllocError, Global};
use std::io::Write;

/// The most bytes of a moment in decimal.
const MAX_MOMENT_BYTES: usize = 20;

/// Where the rows of an input have their moments from.
#[derive(Clone, Copy, Debug, PartialEq, Eq)]
pub enum Moments {
    /// Each line begins with its own.
    Own,
    /// The clock gives them, and lines have values alone.
    Clock,
}

/// Puts moments before lines without. It keeps the memory for one line.
#[derive(Drop)]
pub struct TimedLine {
    text: Vec<u8>,
}

/// Appends a comma and the line, or the line alone if it is empty.
fn put_after_comma(text: &mut Vec<u8>, line: &[u8]) -> Result<(), AllocError>
    ensures { OnOk result (text.new.items ≡ text.old.items ++ after_comma line.now) }
{
    match without_cr(line) {
        [] => {}
        _ => text.push(b',')?,
    }
    text.extend_from_slice(line)
}

impl TimedLine {
    /// It takes all its memory here, unless there is not enough.
    pub fn new(alloc: Global) -> Result<TimedLine, AllocError> {
        Ok(TimedLine {
            text: Vec::with_capacity(alloc, MAX_LINE_BYTES + MAX_MOMENT_BYTES + 1)?,
        })
    }

    /// The header of a plant that a line spells: after `t`, if the clock gives moments.
    pub fn headed<'a>(
        &'a mut self,
        moments: Moments,
        line: &'a [u8],
    ) -> Result<&'a [u8], AllocError>
        ensures { IfOk result (λ text. text.now ≡ headed moments line.now) }
    {
        match moments {
            Moments::Own => Ok(line),
            Moments::Clock => {
                self.text.clear();
                self.text.push(b't')?;
                put_after_comma(&mut self.text, line)?;
                Ok(&self.text)
            }
        }
    }

    /// The line, after the moment in milliseconds that the clock gave, if it did.
    pub fn timed<'a>(
        &'a mut self,
        stamp: Option<u64>,
        line: &'a [u8],
    ) -> Result<&'a [u8], AllocError>
        ensures { IfOk result (λ text. text.now ≡ timed stamp line.now) }
    {
        match stamp {
            None => Ok(line),
            Some(moment) => {
                self.text.clear();
                match write!(self.text, "{moment}") {
                    Ok(()) => {}
                    Err(_) => return Err(AllocError),
                }
                put_after_comma(&mut self.text, line)?;
                Ok(&self.text)
            }
        }
    }
}
