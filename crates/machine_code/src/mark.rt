//! The mark that a run leaves on a slot.

/// How a run used a slot.
#[derive(Clone, Copy)]
pub struct Mark {
    /// It looked the slot up before it assigned it.
    pub is_read: bool,
    pub is_assigned: bool,
}
