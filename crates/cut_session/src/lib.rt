//! A server of a client's requests, over the messages of [`cut_messages`], which this crate offers too.
//!
//! [`session`] serves a client: it reads its requests, answers them from a hall of studies in order, and returns why it
//! ended. What it says of the bytes on its wire holds if the wire's log has them; that a failed read or write is
//! reported only where one failed holds over every wire.
#![tactic(auto)]

mod answer;
mod ending;
mod fault_reply;
mod rows;
mod serve;
mod session_end;
mod trust;

pub use cut_messages::{
    AskFault, EndFault, Fed, Kind, Message, Payload, Reader, Side, StreamFault, ask, laws,
};
pub use ending::{sessions_report_failures, sessions_see_no_less};
pub use serve::session;
pub use session_end::{SessionEnd, SessionFault};
pub use trust::trusted_replies_are_own;
