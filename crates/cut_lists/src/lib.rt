//! A list in memory of its own, and lemmas on lists that several crates share: `proofs/` has these, by module:
//!
//! - numbers of a range: `Ranges` (tests, counts and filters over them), `Intervals` (tests that all of them
//!   pass, and their first ones), `Additions` (sums and counts where a part passes that did not), `Firsts`
//!   (the first that passes), `Listed` (lists of exactly those that pass), `Pigeonhole`, `Rounds` (places
//!   round a ring);
//! - elements of any list: `Counts` and `Parts` (how many pass a test), `Finds` (the first that passes),
//!   `Prefixes` (what is before the first that fails), `Maps` and `FlatMaps`;
//! - order: `Ascending`, `Greatest`, `Keyed` (numbers sorted by a key), `Orders` (lists that hold each of the
//!   first numbers once), `Ranks` and `RankOrders` (how many come before);
//! - masks: `Ones` (their bits counted), `BitSets` (lists of them as sets of pairs).
#![tactic(auto)]

mod items;

pub use items::Items;
