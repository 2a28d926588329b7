//! A study under a lock: its ledger, its journal, and its history.
//!
//! A [`Book`] takes the results of pieces, in any order, and keeps the slip of each on a disk before it enters it into
//! the ledger. Its calls and their answers are its [`History`], and every history is legal: each call is a step of the
//! machine that defines a run of a study.
//!
//! [`open_book`] opens the study of a plan over the disk that a [`Shelf`] has for it, if it has one.
#![tactic(auto)]

mod append;
mod book;
mod book_opening;
mod call;
mod fault;
mod history;
pub mod laws;
mod opened;
mod shelf;
mod submit_fault;

pub use book::Book;
pub use book_opening::open_book;
pub use call::{Answer, Call};
pub use fault::BookFault;
pub use history::History;
pub use opened::Opened;
pub use shelf::{NoShelf, Shelf, ShelfFault};
pub use submit_fault::SubmitFault;
