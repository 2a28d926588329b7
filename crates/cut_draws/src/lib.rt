//! Draws: the pseudo-random keys of a trial, and the orders that they give.
//!
//! All randomness of a study is the key stream of ChaCha with 8 rounds (the block function of RFC 8439), with the
//! plan's seed as key and the trial's number as stream. A draw is named by its place in that stream, so it depends on
//! no other draw. The places are defined by this project.
#![tactic(auto)]

mod delivery;
mod delivery_order;
mod draws;
pub mod laws;
mod packed;
mod process_order;

pub use delivery::Delivery;
pub use delivery_order::DeliveryOrder;
pub use draws::Draws;
pub use process_order::ProcessOrder;
