//! What contracts say of a seat. No value of these types is made.

use std::collections::LinkedList;

/// One thing that a seat did, with its study and its number.
pub enum Entry {
    /// It drew the number.
    Drew(u32, u64),
    /// It counted the number.
    Counted(u32, u64),
    /// It read the number as what was counted so far.
    Read(u32, u64),
}

/// What a seat has done.
pub struct View {
    /// How many of the board's seats it stands for: 1 for each seat that a caller holds.
    pub parts: u64,
    /// What it drew, counted and read, in order.
    pub log: LinkedList<Entry>,
}
