//! Lives as data, and their ends.

use crate::event::{Event, Reply};
use disk::Stop;
use durable_core::{StartFault, StartMode};
use st_types::Value;

/// A life to be lived.
#[derive(Drop)]
pub struct Life {
    pub mode: StartMode,
    /// How many entries its log may have, 1 to 65,536.
    pub log_room: usize,
    pub events: Vec<Event>,
    /// The device step within which the machine stops, with the bytes that it leaves. Without one, power fails after the
    /// last event.
    pub stop: Option<Stop>,
    /// The number of the device step that fails.
    pub fails: Option<u64>,
}

/// The course of a life that was started.
pub struct Course {
    /// The values of the variables at its start, in layout order.
    pub values: Vec<Value>,
    /// The answer to each event.
    pub replies: Vec<Reply>,
    /// How many entries its log has.
    pub len: usize,
    /// How many of them are acknowledged.
    pub acked: usize,
}

impl Drop for Course {
    fn drop(self) {
        let Self {
            values: _,
            replies: _,
            len: _,
            acked: _,
        } = self;
    }
}

/// The end of a life.
pub struct LifeEnd {
    /// Its course, or why it was not started.
    pub course: Result<Course, StartFault>,
    /// The file that it leaves.
    pub file: Vec<u8>,
}

impl Drop for LifeEnd {
    fn drop(self) {
        let Self { course: _, file: _ } = self;
    }
}
