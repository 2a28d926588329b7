use crate::Slip;
use cut_lists::Items;

/// The slips that a ledger begins with, in order. Contracts see a list.
pub type Base = Items<Slip>;
