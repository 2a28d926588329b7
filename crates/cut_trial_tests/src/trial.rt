//! Plans, trials and lines beside values that were computed elsewhere, printed faults, the help after the first line of an
//! explanation, and how long a study is estimated to take.

mod explanations;
mod lines;
mod mixed;
mod plans;
mod rows;
mod tables;
mod trials;
