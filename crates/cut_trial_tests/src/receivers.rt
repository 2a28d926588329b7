//! Candidates beside a recount, receivers of drawn trials beside detectors to which their deliveries are replayed one by
//! one, receivers whose images tie, images of so few bits that many tie, and receivers for whose times memory runs out.

mod candidates;
mod copies;
mod drawn;
mod edges;
mod lanes;
mod refused_memory;
mod replays;
mod setting;
mod seven_bits;
mod ties;
