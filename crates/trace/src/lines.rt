//! The lines of a trace.

ghost use Rattle.std.specs.Prelude.{◌≡◌, ◌++◌, [], List, ℕ, Option, true, codes, map, option_map};
ghost use Rattle.std.specs.Vec.{vec_items};
ghost use Rattle.std.specs.Fmt.{decimal};
ghost use Rattle.st_meaning.specs.Layouts.{owner_text, path_text, step_text, steps_text};
ghost use Rattle.st_print.specs.Spelling.{value_text};
ghost use Rattle.trace.specs.Puts.{Puts};
ghost use Rattle.trace.specs.Texts.{begin_text, done_line, end_line, ending_text, entry_text, fault_text};
ghost use Rattle.trace.specs.Texts.{instance_text, keep_line, line, mode_text, moment_text, outcome_text};

use crate::putting::{put, put_number};
use arrayvec::ArrayVec;
use durable_core::StartMode;
use itoa::Buffer;
use plan::{Plan, ProgramInstance};
use st_meaning::Outcome;
use st_print::write_value;
use st_types::limits::MAX_NAME_LENGTH;
use st_types::{Entry, Fault, Name, Owner, Path, Step, Value};
use std::io::Write;

/// As many bytes as a value is spelled with at most: those of a name.
const MOST_BYTES: usize = MAX_NAME_LENGTH;

/// Writes the resource and the instance of a variable's program.
fn put_owner<W: Write>(out: &mut W, works: bool, owner: &Option<Owner>) -> bool
    ensures { Puts (W.contents out.old) works (W.contents out.new) result (owner_text owner.now) }
{
    let Some(owner) = owner else {
        return put(out, works, b"");
    };
    let works = put(out, works, owner.resource.as_slice());
    let works = put(out, works, b"/");
    let works = put(out, works, owner.instance.as_slice());
    put(out, works, b".")
}

/// Writes a dot and a member, or a subscript in brackets.
fn put_step<W: Write>(out: &mut W, works: bool, step: &Step) -> bool
    ensures { Puts (W.contents out.old) works (W.contents out.new) result (step_text step.now) }
{
    match step {
        Step::Member(name) => {
            let works = put(out, works, b".");
            put(out, works, name.as_slice())
        }
        Step::Element(subscript) => {
            let mut digits = Buffer::new();
            let works = put(out, works, b"[");
            let works = put(out, works, digits.format(*subscript).as_bytes());
            put(out, works, b"]")
        }
    }
}

fn put_steps<W: Write>(out: &mut W, works: bool, steps: &[Step]) -> bool
    ensures { Puts (W.contents out.old) works (W.contents out.new) result (steps_text steps.now) }
{
    let mut works = works;
    for step in steps {
        works = put_step(out, works, step);
    }
    works
}

/// Writes `keep ` and a path.
pub(crate) fn put_path<W: Write>(out: &mut W, works: bool, path: &Path) -> bool
    ensures { Puts (W.contents out.old) works (W.contents out.new) result (codes "keep " ++ path_text path.now) }
{
    let works = put(out, works, b"keep ");
    let works = put_owner(out, works, path.owner());
    let works = put(out, works, path.name().as_slice());
    put_steps(out, works, path.steps())
}

/// Writes a space, a value and LF.
fn put_value<W: Write>(out: &mut W, works: bool, types: &[Vec<Name>], value: Value) -> bool
    ensures { Puts (W.contents out.old) works (W.contents out.new) result
        (line (codes " " ++ value_text (map vec_items types.now) value)) }
{
    let mut text: ArrayVec<u8, MOST_BYTES> = ArrayVec::new();
    match write_value(&mut text, value, types) {
        Ok(()) => {
            let works = put(out, works, b" ");
            let works = put(out, works, text.as_slice());
            put(out, works, b"\n")
        }
        Err(_) => false,
    }
}

/// Writes `keep PATH VALUE`, with the names of these enumerated types.
pub fn put_keep<W: Write>(
    out: &mut W,
    works: bool,
    types: &[Vec<Name>],
    path: &Path,
    value: Value,
) -> bool
    ensures { Puts (W.contents out.old) works (W.contents out.new) result
        (keep_line (map vec_items types.now) path.now value) }
{
    let works = put_path(out, works, path);
    put_value(out, works, types, value)
}

/// Writes words, a number and LF.
fn put_count<W: Write>(out: &mut W, works: bool, words: &[u8], number: u64) -> bool
    ensures { Puts (W.contents out.old) works (W.contents out.new) result (line (words.now ++ decimal number)) }
{
    let works = put(out, works, words);
    let works = put_number(out, works, number);
    put(out, works, b"\n")
}

/// Writes how a life was started.
fn put_mode<W: Write>(out: &mut W, works: bool, mode: StartMode) -> bool
    ensures { Puts (W.contents out.old) works (W.contents out.new) result (line (codes "start " ++ mode_text mode)) }
{
    match mode {
        StartMode::Warm => put(out, works, b"start warm\n"),
        StartMode::Cold => put(out, works, b"start cold\n"),
    }
}

/// Writes the moment that rows have to be later than.
fn put_moment<W: Write>(out: &mut W, works: bool, moment: Option<u64>) -> bool
    ensures { Puts (W.contents out.old) works (W.contents out.new) result
        (line (codes "moment " ++ moment_text moment)) }
{
    match moment {
        Some(moment) => put_count(out, works, b"moment ", moment),
        None => put(out, works, b"moment none\n"),
    }
}

/// Writes the lines before those of the retained variables.
pub(crate) fn put_begin<W: Write>(
    out: &mut W,
    budget: u32,
    mode: StartMode,
    moment: Option<u64>,
) -> bool
    ensures { Puts (W.contents out.old) true (W.contents out.new) result (begin_text budget mode moment) }
{
    let works = put(out, true, b"trace 1\n");
    let works = put_count(out, works, b"budget ", budget as u64);
    let works = put_mode(out, works, mode);
    put_moment(out, works, moment)
}

fn fault_word(fault: Fault) -> &'static [u8]
    ensures { result.now ≡ fault_text fault }
{
    match fault {
        Fault::Range => b"F1",
        Fault::DivisionByZero => b"F2",
        Fault::Index => b"F3",
        Fault::Conversion => b"F4",
        Fault::Budget => b"F5",
        Fault::ZeroStep => b"F6",
    }
}

/// How the end of an execution is spelled.
pub fn outcome_word(outcome: Option<Outcome>) -> &'static [u8]
    ensures { result.now ≡ outcome_text outcome }
{
    match outcome {
        None => b"",
        Some(Outcome::Done) => b"ok",
        Some(Outcome::Faulted(fault)) => fault_word(fault),
    }
}

/// Writes the resource and the instance of a program.
fn put_instance<W: Write>(out: &mut W, works: bool, program: Option<&ProgramInstance>) -> bool
    ensures { Puts (W.contents out.old) works (W.contents out.new) result
        (codes "done " ++ instance_text (option_map (λ p. p.now) program.entry)) }
{
    let works = put(out, works, b"done ");
    let Some(program) = program else {
        return put(out, works, b"");
    };
    let works = put(out, works, program.owner.resource.as_slice());
    let works = put(out, works, b"/");
    put(out, works, program.owner.instance.as_slice())
}

/// Writes the row of an execution, and how it ended.
fn put_ending<W: Write>(out: &mut W, works: bool, row: u64, outcome: Option<Outcome>) -> bool
    ensures { Puts (W.contents out.old) works (W.contents out.new) result (ending_text row outcome) }
{
    let works = put(out, works, b" ");
    let works = put_number(out, works, row);
    let works = put(out, works, b" ");
    let works = put(out, works, outcome_word(outcome));
    put(out, works, b"\n")
}

/// Writes `done RES/INST ROW` and how the execution ended.
pub fn put_done<W: Write>(
    out: &mut W,
    works: bool,
    program: Option<&ProgramInstance>,
    row: u64,
    outcome: Option<Outcome>,
) -> bool
    ensures { Puts (W.contents out.old) works (W.contents out.new) result
        (done_line (option_map (λ p. p.now) program.entry) row outcome) }
{
    let works = put_instance(out, works, program);
    put_ending(out, works, row, outcome)
}

/// Writes the line of an entry whose execution ended so, if there is one.
pub(crate) fn put_entry<W: Write>(
    out: &mut W,
    works: bool,
    plan: &Plan,
    entry: Option<&Entry>,
    outcome: Option<Outcome>,
) -> bool
    ensures { Puts (W.contents out.old) works (W.contents out.new) result
        (entry_text plan.now (option_map (λ e. e.now) entry.entry) outcome) }
{
    match entry {
        None => put(out, works, b""),
        Some(Entry::Row(row)) => put_count(out, works, b"row ", row.moment()),
        Some(Entry::Done(activation)) => {
            let program = plan.programs.get(activation.program);
            put_done(out, works, program, activation.row, outcome)
        }
    }
}

/// Writes `end N`.
pub(crate) fn put_end<W: Write>(out: &mut W, works: bool, entries: usize) -> bool
    ensures { Puts (W.contents out.old) works (W.contents out.new) result (end_line entries) }
{
    put_count(out, works, b"end ", entries as u64)
}
