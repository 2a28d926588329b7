//! Opening files: a trait that says what stands at each path before a call and after it.
//!
//! [`SystemFiles`] are the files of the system, of which nothing is known. [`MemoryFiles`] are files in memory, of
//! which everything is known.
#![tactic(auto)]

mod files;
mod in_memory;
pub mod laws;
mod memory_files;
mod system_files;

pub use files::{Files, Mode, OpenFault};
pub use in_memory::InMemory;
pub use memory_files::{FileState, MemoryFiles};
pub use system_files::SystemFiles;
