//! Records: the variables of a life that are kept.

ghost use Rattle.std.specs.Prelude.{◌≡◌, ◌≤◌, [], length, nat_lt, IfOk, IsTrue, false, None, Some};
ghost use Rattle.std.specs.Vec.{vec_capacity};
ghost use Rattle.retain_records.specs.Records.{Content, IsRecordable, record_bytes};
ghost use Rattle.retain_records.specs.Reading.{decoded};
ghost use Rattle.retain_records.specs.Rooms.{HasRoom};

use crate::parts::parts_at;
use crate::paths::{LineRoom, are_distinct};
use crate::reading::read_variables;
use crate::sizes::{MAX_LAYOUT_BYTES, MAX_LINES};
use st_types::Value;
use st_types::limits::MAX_RECORD_BODY;
use std::alloc::{AllocError, Global};
use std::marker::Model;

/// The content of a record: the moment of the last row, the layout text, and the values in its order. It has room for
/// every record.
pub struct Record {
    moment: Option<u64>,
    layout: Vec<u8>,
    values: Vec<Value>,
}

impl Drop for Record {
    fn drop(self) {
        let Self {
            moment: _,
            layout: _,
            values: _,
        } = self;
    }
}

impl Model for Record {
    ghost use Rattle.retain_records.specs.Records.{Content};
    ghost use Rattle.retain_records.specs.Rooms.{HasRoom};

    ghost Value = { Content };

    ghost view = { λ r. record { moment = r.moment; layout = r.layout.items; values = r.values.items } };

    ghost invariant = { λ r. HasRoom r.layout r.values };
}

impl Record {
    /// The moment of the last row in milliseconds, if there was one.
    pub fn moment(&self) -> Option<u64>
        ensures { result ≡ self.now.moment }
    {
        self.moment
    }

    /// The layout text: a line `PATH TYPE` for each value.
    pub fn layout(&self) -> &[u8]
        ensures { result.now ≡ self.now.layout }
    {
        &self.layout
    }

    /// The values, in the order of the layout text.
    pub fn values(&self) -> &[Value]
        ensures { result.now ≡ self.now.values }
    {
        &self.values
    }

    /// No moment, no layout text and no values, and room for every record; `AllocError` if an allocation fails. No
    /// other call of a record allocates.
    pub fn with_room(alloc: Global) -> Result<Record, AllocError>
        ensures { IfOk result (λ r. r ≡ record { moment = None; layout = []; values = [] }) }
    {
        Ok(Record {
            moment: None,
            layout: Vec::with_capacity(alloc, MAX_LAYOUT_BYTES)?,
            values: Vec::with_capacity(alloc, MAX_LINES)?,
        })
    }

    /// Makes it hold these. It allocates nothing.
    pub fn set(&mut self, moment: Option<u64>, layout: &[u8], values: &[Value])
        requires sound { IsRecordable (record { moment = moment; layout = layout.now; values = values.now }) }
        requires short { length (record_bytes (record { moment = moment; layout = layout.now; values = values.now }))
            ≤ MAX_RECORD_BODY }
        ensures { self.new ≡ record { moment = moment; layout = layout.now; values = values.now } }
    {
        self.moment = moment;
        fill(&mut self.layout, layout);
        fill(&mut self.values, values);
    }

    /// Reads a body: false if it isn't a record, and the content of this record is unspecified then. It allocates nothing.
    pub fn read(&mut self, body: &[u8], lines: &mut LineRoom) -> bool
        ensures yes { IsTrue result → decoded body.now ≡ Some self.new }
        ensures no { result ≡ false → decoded body.now ≡ None }
        ensures sound { IsTrue result → IsRecordable self.new }
    {
        if is_too_long(body) {
            return false;
        }
        let Some(parts) = parts_at(body) else {
            return false;
        };
        if !read_variables(
            parts.layout,
            parts.rest,
            &mut lines.starts,
            &mut self.values,
        ) {
            return false;
        }
        if !are_distinct(parts.layout, &mut lines.starts) {
            return false;
        }
        self.moment = parts.moment;
        fill(&mut self.layout, parts.layout);
        true
    }
}

/// Whether the body is longer than every record.
fn is_too_long(body: &[u8]) -> bool
    ensures { result ≡ nat_lt MAX_RECORD_BODY (length body.now) }
{
    MAX_RECORD_BODY < body.len()
}

/// Replaces the old items with these.
fn fill<T: Copy>(items: &mut Vec<T>, from: &[T])
    requires { length from.now ≤ vec_capacity items.old }
    ensures items { items.new.items ≡ from.now }
    ensures capacity { vec_capacity items.old ≤ vec_capacity items.new }
{
    items.clear();
    let _ = items.extend_from_slice(from);
}
