//! Disks: bytes that are read and written at places, of which a crash may leave less than was written.
//!
//! Any call of a disk may fail, and failed calls are counted. What a crash may leave is defined for a disk in memory;
//! for a real file it is a premise.
#![tactic(auto)]

mod call;
mod disk;
mod faulty_disk;
mod file_disk;
pub mod laws;
mod memory_disk;
mod raw_file;
mod system_file;

pub use call::{DiskCall, Written};
pub use disk::{Disk, DiskFault};
pub use faulty_disk::{FaultyDisk, Tear};
pub use file_disk::FileDisk;
pub use memory_disk::MemoryDisk;
pub use raw_file::RawFile;
pub use system_file::{SystemFile, folder_of, open_regular};
