//! The last record of retained values on a disk: a store opens a file, recovers the record, and saves others, one after
//! another, into two gated areas.
//!
//! This crate owns the disk. The type of `Store` guarantees that every file which a stop now may leave is recovered to the
//! last record or to that of a failed save. A gate is opened only over a body that is synced. Nothing here depends on plans.
#![tactic(auto)]

mod area;
mod fault;
mod frame;
mod loading;
mod shape;
mod store;
mod surveying;

pub use area::{Areas, Gate, Half, format, write_frame};
pub use fault::StoreFault;
pub use retain_records::Record;
pub use shape::{AREA_BYTES, FILE_BYTES, HEADER_BYTES, sizes_of_areas};
pub use store::Store;
pub use surveying::survey;
