//! A study that is run by threads of its own, from its plan to its table on a wire.
//!
//! A [`StudyRun`] opens the book of a plan over what its journal keeps, gives it a hall of one slot, lets its workers
//! draw pieces, and writes each line of the table as soon as its cell is done. [`run_study`] is the same with its values as
//! arguments.
#![tactic(auto)]

mod conclusion;
mod emit;
mod private_hall;
mod run_fault;
mod study_run;

pub use cut_book::{Book, NoShelf, Opened, Shelf, ShelfFault};
pub use cut_hall::{Gate, Hall, OpenGate, Pass, Report};
pub use run_fault::RunFault;
pub use study_run::{Done, EndedRun, StudyRun, run_study};
