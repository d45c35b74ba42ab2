//! Disks that count their faults, as the journal sees them: what a read gives, which images a crash
//! may leave now, and which ones a crash at some moment since a time might have left. The journal's
//! promises rest on the trait alone; `MemDisk` is for tests, and `FileDisk` for the program.
#![tactic(auto)]

mod bytes;
mod call;
mod disk;
mod file_disk;
mod image;
mod laws;
mod mem_disk;
mod pick;

pub use disk::Disk;
pub use file_disk::FileDisk;
pub use laws::{calls_are_recorded, moments_within_calls, worked_examples};
pub use mem_disk::MemDisk;
pub use pick::Pick;
