//! An entry of the table, as it is printed.

ghost use Rattle.std.specs.Prelude.{◌≡◌, OnOk};
ghost use Rattle.std.specs.Io.KnownBytes.{Appends};
ghost use Rattle.source_run.specs.Spelling.{both_text, example_text, explanation_text, frame_text, gives_line};
ghost use Rattle.source_run.specs.Spelling.{gives_words, lines_text, right_line, right_text, status_text, title_line};
ghost use Rattle.source_run.specs.Spelling.{wrong_text};

use crate::entry::{Example, Explanation, Frame, Status};
use std::io;
use std::io::Write;

/// The place of the lines of an example, as words after its code.
fn frame_words(frame: Frame) -> &'static str
    ensures { result.now ≡ frame_text frame }
{
    match frame {
        Frame::Text => "as a whole source",
        Frame::Units => "before a configuration that runs the program Main",
        Frame::Statements => "in the program Main, where n is an INT",
        Frame::Globals => "in a configuration, before its resources",
        Frame::Resource => "in a resource with the task Cycle, for the program Main",
        Frame::Plant => "as the plant of a source without inputs",
        Frame::Trace => "in the trace of one program over rows at 0, 10 and 20",
        Frame::Command => "on the command line",
        Frame::ShortMemory => "on the command line, if memory runs out just then",
    }
}

/// The exit status and its meaning, with LF.
#[tactic(auto, unfolding(crate::specs::Spelling::status_text))]
fn status_line(status: Status) -> &'static str
    ensures { result.now ≡ status_text status }
{
    match status {
        Status::Source =>
            "Exit status 2: the source is refused; plant and retain file were not opened.\n",
        Status::Plant => "Exit status 3: the plant is refused; the retain file was not opened.\n",
        Status::Trace =>
            "Exit status 3: the trace is refused, or a successful run could not write it.\n",
        Status::Start => {
            "Exit status 4: the start is refused; the retain file keeps its values, unless the device failed.\n"
        }
        Status::Run => "Exit status 5: the run is refused; everything acknowledged is kept.\n",
        Status::Execution => {
            "Exit status 0: one execution failed and wrote nothing; the run went on, and the report counts it.\n"
        }
    }
}

/// Writes each line with these words before it, and LF after it.
fn write_lines<W: Write>(out: &mut W, before: &str, lines: &[&str]) -> io::Result<()>
    ensures { OnOk result (Appends (W.contents out.old) (W.contents out.new) (lines_text before.now lines.now)) }
{
    for line in lines {
        writeln!(out, "{before}{line}")?;
    }
    Ok(())
}

/// The words before a code that is given.
#[tactic(auto, unfolding(crate::specs::Spelling::gives_words))]
fn before_code() -> &'static str
    ensures { result.now ≡ gives_words }
{
    "This gives "
}

/// The line before lines that are right.
#[tactic(auto, unfolding(crate::specs::Spelling::right_line))]
fn before_right() -> &'static str
    ensures { result.now ≡ right_line }
{
    "This is right:\n"
}

/// Writes the line that says which code comes, before the lines that give it.
fn write_gives<W: Write>(out: &mut W, code: &str, frame: Frame) -> io::Result<()>
    ensures { OnOk result (Appends (W.contents out.old) (W.contents out.new) (gives_line code.now frame)) }
{
    out.write_all(before_code().as_bytes())?;
    out.write_all(code.as_bytes())?;
    out.write_all(b", ")?;
    out.write_all(frame_words(frame).as_bytes())?;
    out.write_all(b":\n")
}

/// Writes the lines that give a code.
#[tactic(auto, unfolding(crate::specs::Spelling::wrong_text))]
fn write_wrong<W: Write>(out: &mut W, code: &str, example: &Example) -> io::Result<()>
    ensures { OnOk result (Appends (W.contents out.old) (W.contents out.new) (wrong_text code.now example.now)) }
{
    write_gives(out, code, example.frame)?;
    write_lines(out, "    ", example.wrong)
}

/// Writes the lines that are right.
#[tactic(auto, unfolding(crate::specs::Spelling::right_text))]
fn write_right<W: Write>(out: &mut W, example: &Example) -> io::Result<()>
    ensures { OnOk result (Appends (W.contents out.old) (W.contents out.new) (right_text example.now)) }
{
    out.write_all(before_right().as_bytes())?;
    write_lines(out, "    ", example.right)
}

/// Writes the lines that give a code, and those that are right.
fn write_both<W: Write>(out: &mut W, code: &str, example: &Example) -> io::Result<()>
    ensures { OnOk result (Appends (W.contents out.old) (W.contents out.new) (both_text code.now example.now)) }
{
    write_wrong(out, code, example)?;
    write_right(out, example)
}

/// Writes the example of a code, if there is one.
#[tactic(auto, unfolding(crate::specs::Spelling::example_text))]
fn write_example<W: Write>(out: &mut W, code: &str, example: &Option<Example>) -> io::Result<()>
    ensures { OnOk result (Appends (W.contents out.old) (W.contents out.new) (example_text code.now example.now)) }
{
    match example {
        Some(example) => write_both(out, code, example),
        None => Ok(()),
    }
}

/// Writes a code with its title.
#[tactic(auto, unfolding(crate::specs::Spelling::title_line))]
fn write_title<W: Write>(out: &mut W, entry: &Explanation) -> io::Result<()>
    ensures { OnOk result (Appends (W.contents out.old) (W.contents out.new) (title_line entry.now)) }
{
    out.write_all(entry.code.as_bytes())?;
    out.write_all(b": ")?;
    out.write_all(entry.title.as_bytes())?;
    out.write_all(b"\n")
}

/// Writes the explanation of a code: its title, its meaning, an example, and the exit status of a command that reports it.
pub fn write_explanation<W: Write>(out: &mut W, entry: &Explanation) -> io::Result<()>
    ensures { OnOk result (Appends (W.contents out.old) (W.contents out.new) (explanation_text entry.now)) }
{
    write_title(out, entry)?;
    write_lines(out, "", entry.meaning)?;
    write_example(out, entry.code, &entry.example)?;
    out.write_all(status_line(entry.status).as_bytes())
}
