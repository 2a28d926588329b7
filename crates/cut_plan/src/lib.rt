//! Study plans: what a study is to simulate, read from JSON and checked once.
//!
//! Every [`Plan`] is an accepted one: its type guarantees every range, every ascending list and every limit, so that no
//! layer above tests or requires them again.
#![tactic(auto)]

mod cell;
mod combinations;
mod dead;
mod failing;
mod faults;
mod field_checks;
pub mod laws;
mod limits;
mod plan;
mod plan_lists;
mod plan_text;
mod refusal;

pub use cell::Cell;
pub use cut_fields::{Field, Version};
pub use dead::Dead;
pub use failing::Failing;
pub use faults::Faults;
pub use limits::{LONGEST_TEXT, MOST_CELLS, MOST_COPIES, MOST_NODES, MOST_REPEATS, MOST_RINGS};
pub use plan::Plan;
pub use refusal::{PlanFault, Refusal};
