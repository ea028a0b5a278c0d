//! The lines that go out.

ghost use Rattle.std.specs.Prelude.{◌≡◌, ◌++◌, [], ◌∷◌, ℕ, List, IfOk, OnOk, slice_get};
ghost use Rattle.durable_core.specs.Endless.{InEachCore};
ghost use Rattle.live_drive.specs.AnswerLines.{Sends, header_line, missed_line, missed_text, outputs_now};
ghost use Rattle.live_drive.specs.AnswerLines.{name_field, name_fields, value_field, value_fields};
ghost use Rattle.live_drive.specs.Cycles.{HasSettledLife};

use disk::Disk;
use durable_core::EndlessCore;
use plan::Plan;
use st_meaning::PlanVariable;
use st_types::Value;
use st_types::limits::MAX_NAME_LENGTH;
use std::alloc::{AllocError, Global};
use std::io;
use std::io::Write;
use std::marker::Model;
use trace::put;

/// As many bytes as a field has at most, with the comma before it: those of a name, since a number has fewer.
const MOST_BYTES: usize = MAX_NAME_LENGTH + 1;

/// Why a line has no outputs as its answer.
#[derive(Clone, Copy, Debug, PartialEq, Eq)]
pub enum Missed {
    /// It spells no row of the plan: I2.
    NoRow,
    /// Its moment isn't later than that of the row before: K4.
    NotLater,
    /// A newer line was there already, so its row was not latched.
    Newer,
}

impl Missed {
    /// What a line that goes out says of it.
    pub fn text(self) -> &'static str
        ensures { result.now ≡ missed_text self }
    {
        match self {
            Missed::NoRow => "refused I2",
            Missed::NotLater => "refused K4",
            Missed::Newer => "missed",
        }
    }
}

/// Makes the lines that go out, and sends them. Each line goes out whole and at once.
#[derive(Drop)]
pub struct Answers {
    /// The line that is made.
    line: Vec<u8>,
    /// The places of the outputs among the variables.
    outputs: Vec<usize>,
}

impl Model for Answers {
    ghost use Rattle.std.specs.Prelude.{List, ℕ, vec_items};

    ghost Value = { List ℕ };

    ghost view = { λ x. vec_items x.outputs };
}

/// Appends a comma and the number of the value at a place, if there is one.
fn put_value(line: &mut Vec<u8>, values: &[Value], place: usize) -> io::Result<()>
    ensures { OnOk result (line.new.items ≡ line.old.items ++ value_field (slice_get values.now place)) }
{
    match values.get(place) {
        Some(value) => write!(line, ",{}", value.number()),
        None => Ok(()),
    }
}

/// Appends a comma and the number of each output.
fn put_values(line: &mut Vec<u8>, outputs: &[usize], values: &[Value]) -> io::Result<()>
    ensures { OnOk result (line.new.items ≡ line.old.items ++ value_fields values.now outputs.now) }
{
    for place in outputs {
        put_value(line, values, *place)?;
    }
    Ok(())
}

/// Appends a comma and the name of the variable at a place, if there is one.
fn put_name(line: &mut Vec<u8>, variables: &[PlanVariable], place: usize) -> io::Result<()>
    ensures { OnOk result (line.new.items ≡ line.old.items ++ name_field (slice_get variables.now place)) }
{
    let Some(variable) = variables.get(place) else {
        return Ok(());
    };
    line.push(b',')?;
    line.extend_from_slice(variable.path.name().as_slice())?;
    Ok(())
}

/// Appends a comma and the name of each output.
fn put_names(line: &mut Vec<u8>, outputs: &[usize], variables: &[PlanVariable]) -> io::Result<()>
    ensures { OnOk result (line.new.items ≡ line.old.items ++ name_fields variables.now outputs.now) }
{
    for place in outputs {
        put_name(line, variables, *place)?;
    }
    Ok(())
}

/// Writes a line and its LF, and hands all of it on. If that fails, a beginning of it may have gone out.
fn send<W: Write>(out: &mut W, line: &mut Vec<u8>) -> io::Result<()>
    ensures { Sends result (W.contents out.old) (W.contents out.new) (line.old.items ++ 10 ∷ []) }
{
    line.push(b'\n')?;
    if !put(out, true, line) {
        return Err(io::Error::from(io::ErrorKind::WriteZero));
    }
    out.flush()
}

impl Answers {
    /// Makes lines of the values of these variables. It takes the memory for a line here.
    pub fn new(alloc: Global, outputs: Vec<usize>) -> Result<Answers, AllocError>
        ensures { IfOk result (λ answers. answers ≡ outputs.items) }
    {
        let fields = outputs.len().saturating_add(2);
        Ok(Answers {
            line: Vec::with_capacity(alloc, fields.saturating_mul(MOST_BYTES))?,
            outputs,
        })
    }

    /// Sends the header: `t` and the names of the outputs.
    pub fn send_header<W: Write>(&mut self, out: &mut W, plan: &Plan) -> io::Result<()>
        ensures sent { Sends result (W.contents out.old) (W.contents out.new) (header_line plan.now self.old) }
        ensures outputs { self.new ≡ self.old }
    {
        self.line.clear();
        self.line.push(b't')?;
        put_names(&mut self.line, &self.outputs, &plan.variables)?;
        send(out, &mut self.line)
    }

    /// Sends the moment of the last row and the outputs of a core in which nothing waits and all is acknowledged. So a line is
    /// never sent before the state that it shows is safe.
    pub fn send_outputs<D: Disk, W: Write>(
        &mut self,
        out: &mut W,
        core: &EndlessCore<D>,
    ) -> io::Result<()>
        requires settled { HasSettledLife core.now }
        ensures sent { (line : List ℕ) × Sends result (W.contents out.old) (W.contents out.new) line
            × InEachCore core.now (λ core. line ≡ outputs_now self.old core.state) }
        ensures outputs { self.new ≡ self.old }
    {
        let moment = core.last_moment().unwrap_or(0);
        let values = core.values();
        self.line.clear();
        write!(self.line, "{moment}")?;
        put_values(&mut self.line, &self.outputs, values)?;
        send(out, &mut self.line)
    }

    /// Sends why a line has no outputs as its answer, after its moment in milliseconds if it spells one.
    pub fn send_missed<W: Write>(
        &mut self,
        out: &mut W,
        moment: Option<u64>,
        missed: Missed,
    ) -> io::Result<()>
        ensures sent { Sends result (W.contents out.old) (W.contents out.new) (missed_line moment missed) }
        ensures outputs { self.new ≡ self.old }
    {
        self.line.clear();
        if let Some(moment) = moment {
            write!(self.line, "{moment}")?;
        }
        write!(self.line, ",{}", missed.text())?;
        send(out, &mut self.line)
    }
}
