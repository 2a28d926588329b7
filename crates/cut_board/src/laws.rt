//! Laws of what seats do. Each function does nothing, and its contract is the law.
ghost use Rattle.cut_board.specs.Laws.{DrawsAdd, CountsAdd, CountsAreSeen, ReadsAreSeen, OwnCountsAreSeen};
ghost use Rattle.cut_board.specs.Laws.{IdleHasNothing};

/// A draw adds its number to those of its study, and to no other's.
pub fn draws_add()
    ensures { DrawsAdd }
{}

/// A count adds to the sum of its study, and to no other's. The seat has seen at least the new sum.
pub fn counts_add()
    ensures sum { CountsAdd }
    ensures seen { CountsAreSeen }
{}

/// A read can only raise the greatest count that the seat has seen of its study, and leaves those of others.
pub fn reads_are_seen()
    ensures { ReadsAreSeen }
{}

/// A seat has seen what it counted itself.
#[tactic(auto, unfolding(crate::specs::Views::seen_in))]
pub fn own_counts_are_seen()
    ensures { OwnCountsAreSeen }
{}

/// A seat that has done nothing has no numbers, has counted 0 and has seen 0, of every study.
#[tactic(auto, unfolding(crate::specs::Views::seen_in))]
pub fn idle_has_nothing()
    ensures { IdleHasNothing }
{}
