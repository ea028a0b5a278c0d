//! A disk that may fail or stop at any moment: the rules that it keeps, one in memory that fails and stops as chosen, and
//! one over a real file.
//!
//! Nothing here knows what a file holds.
#![tactic(auto)]

mod disk;
mod file_disk;
mod medium;
mod sim_disk;

pub use disk::{Disk, DiskError};
pub use file_disk::FileDisk;
pub use sim_disk::{SimDisk, Stop, room_of_a_simulated_disk};
