//! The lines of a study's table: the header, and the line of a cell with the sums over its trials.
//!
//! A table is comma-separated values, in decimal and without quotes, each line with a line feed. The program prints it
//! and a server's replies carry it, so its text is defined here alone.

mod line;
mod row;

pub use line::{LONGEST_LINE, cell_line, header};
