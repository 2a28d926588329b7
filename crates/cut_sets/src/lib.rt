//! Sets of numbers below a length: [`bits`], a list of bits that are set one by one, and [`ranges`], a set that is kept by
//! the numbers at which its spans begin and end.
#![tactic(auto)]

pub mod bits;
pub mod ranges;
