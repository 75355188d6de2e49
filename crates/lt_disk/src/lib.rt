//! The disk: one flat file of bytes, 0 past its end, and what a crash may leave of it.
//!
//! `Disk` is the trait of the device. Its clauses are what all promises on crashes rest on. `MemDisk` is a disk in memory that
//! tells its bytes and its images, and `FileDisk` one over the file store.lt, which tells neither.
#![tactic(auto)]

mod calls;
mod content;
mod crash;
mod disk;
mod fault;
mod file_disk;
mod history;
mod mem_disk;

pub use crash::Pick;
pub use disk::Disk;
pub use fault::DiskFault;
pub use file_disk::FileDisk;
pub use mem_disk::MemDisk;
