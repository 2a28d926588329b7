//! A board: numbers that threads draw, each once, and counts that they add to and read.
//!
//! A board has two words for each of up to 64 studies: how many numbers were drawn of it, and the sum of
//! what was counted of it. [`Board::draw`], [`Board::count`] and [`Board::read`] are one atomic step each.
//! There is no lock, no call waits for another thread, and none of the three takes memory.
//!
//! # Seats
//!
//! A thread works at a board through a [`Seat`] of its own. [`Board::start`] makes all there will be, and
//! [`Board::finish`] takes them back. A seat may go from one thread to another. In proofs it carries a
//! [`View`]: what its holders drew, counted and read, in order. The contract of each call says what the
//! call adds to the view of the seat that it is given, and that is all it does: other seats are other
//! values, which it has no access to. [`laws`] say what such an addition does to the numbers, the sum and
//! the greatest count of each study.
//!
//! # The rule
//!
//! This holds of the words and of all views together, between any two atomic steps:
//!
//! - Of each study, the numbers in all views are those below its draw word, each once.
//! - Its count word is the sum of what all views counted.
//! - No view has read a greater count than that.
//! - Each seat has one part. The parts of all views are as many as the seats that were made, and a view
//!   draws and counts at most 2^48 for each of its parts. So no word wraps, the seat that took in all
//!   others has every part, and a view of no parts has drawn and counted nothing.
//!
//! Six kinds of step are made: the first seat, with all parts, comes with the words; one is added to a
//! draw word; something is added to a count word; a count word is read; a part of a seat goes to a new
//! one; a seat takes in another, which is left with nothing. The last two are made by `start` and
//! `finish` alone. They read a word too, since a view changes only at an atomic step.
//!
//! # What a thread may rely on
//!
//! - Two draws of one study never give one number, and no number is left out. What a seat draws of a study
//!   rises.
//! - What a seat reads is never less than what it read before, nor than what it counted itself. This goes
//!   with the seat to whichever thread holds it.
//! - Once `finish` has all seats, the totals are exactly what all of them did.
//!
//! # What it may not rely on
//!
//! - Between two seats there is no order. A thread that has learned of another's count by some other way
//!   can't conclude that its own seat's next read has it: a read is fresh for its own seat only. Nor does
//!   the lesser of two numbers say which of two seats drew first.
//! - The words of two studies, or the two words of one, are not read together. A draw that is counted may
//!   be followed by its count at any later time, or never.
//! - Nothing is said of time: not that a thread goes on, nor how soon.
//!
//! # Memory order
//!
//! Each step is sequentially consistent, the only order that the table offers, and the rule is proved for
//! the one order in which all steps then stand. The claims above need less. Each is about one word at a
//! time: that numbers differ and that no addition is lost needs that an addition is one step, and that a
//! seat's reads don't fall needs that a thread sees the changes of one word in their order, which relaxed
//! atomics have too. Nothing else is handed over through a word: a number says which piece of work is
//! one's own, and no memory that another thread wrote. `finish` has the board by value, so all borrows of
//! it have ended, and what ended them, as the join of a thread, orders their steps before it.
//!
//! The words stand 64 bytes apart, so that no two of them share a cache line of that size.
#![tactic(auto)]

mod board;
mod fault;
pub mod laws;
mod rule;
mod seat;
mod totals;
mod view;

pub use board::Board;
pub use fault::{SeatFault, Unfinished};
pub use seat::Seat;
pub use totals::{BoardTotals, StudyTotals};
pub use view::{Entry, View};
