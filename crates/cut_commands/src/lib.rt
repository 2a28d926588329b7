//! The program's commands over wires: a plan is read, and what answers it is written.
//!
//! [`run_io`] runs a study and writes its table, over any disk or over none, [`run`] over a file or none. Of a plan
//! [`check_io`] writes what it has, [`explain_io`] what is right or wrong with its text, and [`canonical_io`] its
//! canonical text. [`status`] writes what a checkpoint file holds, [`migrate`] moves a study of version 1 to its plan's
//! upgrade, and [`ask`] asks the server at a socket for a table. A [`PlanSource`] says where the plan is read from, be it
//! a file: [`run_from`], [`check_from`], [`explain_from`], [`canonical_from`] and [`ask`] take one.
//! Each ends with its answer or with a [`CliFault`], whose line and status are those that the program ends with.
//!
//! What they say of the bytes on a wire is known if its log has them; that a failed read or write is reported exactly
//! where one failed holds over every wire.
#![tactic(auto)]

mod ask_command;
mod canonical;
mod check;
mod checkpoint;
mod ended;
mod explain;
mod fault;
mod input;
mod migrate_command;
mod output;
mod run_command;
mod status_command;

pub use ask_command::ask;
pub use canonical::{canonical_from, canonical_io};
pub use check::{check_from, check_io};
pub use ended::Ended;
pub use explain::{explain_from, explain_io};
pub use fault::{CliFault, FaultText};
pub use input::{PlanSource, read_plan};
pub use migrate_command::{MigratedFiles, migrate, migrate_io};
pub use output::write_answer;
pub use run_command::{Study, StudyWork, Work, run, run_from, run_io};
pub use status_command::status;
