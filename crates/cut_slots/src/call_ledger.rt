ghost use Rattle.std.specs.Prelude.{ℕ, Bool, Option};
ghost use Rattle.cut_slots.specs.Start.{StudyStart};

use std::marker::Brand;
use std::sync::ledger::{Blank, Ledger};

/// A ledger of the calls that are made of books. Each call counts once in it.
pub trait CallLedger: Ledger {
    /// Into how many parts its shares are cut.
    ghost all: { ℕ };

    /// Whether the slips that studies begin with, whose calls it counts, are those that their trials give.
    ghost trusts: { Bool };

    /// With what the study of each of its slots began, if they were made with one.
    ghost opening: { Option StudyStart };
}

/// The blanks of a hall's two ledgers of calls.
#[derive(Drop)]
pub struct Blanks {
    /// That of the calls that are made, with a part for each pass.
    pub made: Blank,
    /// That of the calls that are kept, with a part for each slot.
    pub kept: Blank,
}

impl CallLedger for Brand {
    ghost use Rattle.std.specs.Prelude.{false, None};

    ghost all = { 0 };

    ghost trusts = { false };

    ghost opening = { None };
}
