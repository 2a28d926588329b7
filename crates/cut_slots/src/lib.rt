//! The slots of a hall, its passes, and what its calls and trials are counted with: all that a thread does under a lock
//! of the hall, as functions on what the lock guards.
//!
//! A [`Slot`] has the book of one study, of which it notes how many calls it had and which lines were given. A thread
//! has a [`Pass`]: it draws a piece in a slot and hands its result in, and its trials are counted on the board. Nothing
//! here waits or takes a lock: calls are counted by a [`CallCounter`], which a hall gives its slots.
//!
//! Two ledgers count the calls of all books ([`Accounts`]): in the one each pass has a share, in the other each slot.
//! When a hall is closed their sums are compared, and for each slot the trials that were counted on the board with
//! those that its history accepted ([`audit`]).
#![tactic(auto)]

mod accounts;
mod call_counter;
mod call_ledger;
mod closing;
mod next_row_fault;
mod not_closed;
mod pass;
mod report;
mod slot;
mod turn;

pub use accounts::{Accounts, Full};
pub use call_counter::CallCounter;
pub use call_ledger::{Blanks, CallLedger};
pub use closing::{Parts, audit, lacks_passes, take_apart};
pub use next_row_fault::NextRowFault;
pub use not_closed::{Mismatch, NotClosed};
pub use pass::{Pass, make_passes};
pub use report::{Report, SlotReport};
pub use slot::{Asked, CallFault, EndedSlot, Match, Slot};
pub use turn::{Drawn, Next, draw_in, next_after};
