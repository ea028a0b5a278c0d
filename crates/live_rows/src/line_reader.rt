//! Lines of an input that goes on, in bounded memory.

ghost use Rattle.std.specs.Prelude.{◌≡◌, ◌+◌, ◌<◌, ◌≤◌, ◌++◌, ℕ, List, length, IfOk, MatchBool};
ghost use Rattle.live_rows.specs.Lines.{HasLf, HasNoLf, ReadsLine, TakesPart};

use memchr::memchr;
use std::alloc::Global;
use std::io;
use std::io::{BufRead, BufReader, Read};
use std::marker::Model;

/// The most bytes of a line, its LF not counted.
pub const MAX_LINE_BYTES: usize = 65_536;

/// How many bytes are read at once.
const CAPACITY: usize = 65_536;

/// How a line ended.
#[derive(Clone, Copy, Debug, PartialEq, Eq)]
pub enum LineEnd {
    /// With its LF.
    Whole,
    /// It has more than 65,536 bytes, and was skipped up to its LF or to the end of the input.
    TooLong,
    /// With the end of the input, before its LF.
    Unfinished,
}

/// How far a line has been read.
#[derive(Clone, Copy, Debug, PartialEq, Eq)]
enum Part {
    /// Its LF has not come yet.
    Begun,
    /// Its LF was read.
    Ended,
    /// The input has ended.
    NoMore,
}

/// A reader by lines. It takes no memory after it was made.
#[derive(Drop)]
pub struct LineReader<R: Read + Drop> {
    reader: BufReader<R>,
    /// The line that was read last, without its LF.
    line: Vec<u8>,
}

impl<R: Read + Drop> Model for LineReader<R> {
    ghost use Rattle.std.specs.Prelude.{vec_items};
    ghost use Rattle.std.specs.Io.Buffered.{reader_buffer, reader_remaining};
    ghost use Rattle.live_rows.specs.Lines.{LinesView};

    ghost Value = { LinesView };

    ghost view = { λ x. record {
      left = reader_remaining R.remaining x.reader;
      ahead = reader_buffer x.reader;
      line = vec_items x.line;
    } };
}

fn is_interrupted(error: &io::Error) -> bool {
    error.kind() == io::ErrorKind::Interrupted
}

/// Appends the bytes that are there, up to the first LF, and takes the LF away. It takes no more bytes than `room`, the LF
/// counted. The error is the reader's, or out of memory.
fn read_part<B: BufRead>(reader: &mut B, line: &mut Vec<u8>, room: usize) -> io::Result<Part>
    ensures takes { IfOk result (λ part. (more : List ℕ) × (line.new.items ≡ line.old.items ++ more) × HasNoLf more
        × (length more ≤ room) × TakesPart part more (B.remaining reader.old) (B.remaining reader.new)) }
    ensures ended { IfOk result (λ part. part ≡ Part.Ended → length line.new.items < length line.old.items + room) }
{
    let there = match reader.fill_buf() {
        Ok(there) => there,
        Err(error) if is_interrupted(&error) => return Ok(Part::Begun),
        Err(error) => return Err(error),
    };
    if there.is_empty() {
        return Ok(Part::NoMore);
    }
    let len = there.len().min(room);
    match memchr(b'\n', &there[..len]) {
        Some(end) => {
            line.extend_from_slice(&there[..end])?;
            reader.consume(end + 1);
            Ok(Part::Ended)
        }
        None => {
            line.extend_from_slice(&there[..len])?;
            reader.consume(len);
            Ok(Part::Begun)
        }
    }
}

impl<R: Read + Drop> LineReader<R> {
    /// A reader of the lines of an input. It takes all its memory here.
    pub fn new(alloc: Global, input: R) -> io::Result<LineReader<R>>
        ensures { IfOk result (λ lines. lines.left ≡ R.remaining input) }
    {
        Ok(LineReader {
            reader: BufReader::with_capacity(alloc, CAPACITY, input)?,
            line: Vec::with_capacity(alloc, MAX_LINE_BYTES + 1)?,
        })
    }

    /// The line that was read last, without its LF, if it is whole.
    pub fn line(&self) -> &[u8]
        ensures { result.now ≡ self.now.line }
    {
        &self.line
    }

    /// Whether a line feed is among the bytes that were read already, so that the next line comes without a wait.
    pub fn has_line(&self) -> bool
        ensures { MatchBool result (HasLf self.now.ahead) (HasNoLf self.now.ahead) }
    {
        memchr(b'\n', self.reader.buffer()).is_some()
    }

    /// Reads the next line, and says how it ended; none at the end of the input. It may wait for bytes.
    pub fn next(&mut self) -> io::Result<Option<LineEnd>>
        ensures { IfOk result (ReadsLine self.old.left self.new.line self.new.left) }
    {
        self.line.clear();
        for _ in 0..u64::MAX {
            let room = (MAX_LINE_BYTES + 1).saturating_sub(self.line.len());
            match read_part(&mut self.reader, &mut self.line, room)? {
                Part::Begun if self.line.len() > MAX_LINE_BYTES => {
                    self.reader.skip_until(b'\n')?;
                    return Ok(Some(LineEnd::TooLong));
                }
                Part::Begun => {}
                Part::Ended => return Ok(Some(LineEnd::Whole)),
                Part::NoMore if self.line.is_empty() => return Ok(None),
                Part::NoMore => return Ok(Some(LineEnd::Unfinished)),
            }
        }
        Err(io::Error::from(io::ErrorKind::Other))
    }
}
