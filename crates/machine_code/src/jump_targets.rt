//! Where statements lead.

/// The places where EXIT and RETURN lead, and how many values of running FORs RETURN takes away.
#[derive(Clone, Copy)]
pub struct JumpTargets {
    pub exit: u16,
    pub back: u16,
    pub held: u16,
}
