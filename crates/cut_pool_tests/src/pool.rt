//! Books and whole studies, with real threads, tables that were computed apart from this program, and disks and wires that
//! fail.

mod books;
mod piece;
mod refused_memory;
mod resumed;
mod runs;
mod tables;
