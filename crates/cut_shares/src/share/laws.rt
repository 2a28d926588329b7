//! What is true of all shares. Each function does nothing that is seen, and its contract is the law.

ghost use Rattle.cut_shares.specs.share.Laws.{BlocksAreNumbered, SharesAreAll, SharesAreApart, SharesTakeTurns};

/// The shares of one division of a plan are disjoint, and together they are all of its trials: each trial is in
/// exactly one of them.
pub fn shares_are_a_partition()
    ensures apart { SharesAreApart }
    ensures all { SharesAreAll }
{}

/// Shares take turns: of as many blocks in a row as there are shares, each share has exactly one. So the numbers of
/// blocks of two shares differ by one at most.
#[tactic(auto, using(crate::proofs::Turns::take_turns))]
pub fn shares_are_balanced()
    ensures { SharesTakeTurns }
{}

/// The blocks of a plan are numbered from 0 in the order of their trials, and no number is left out.
pub fn blocks_are_numbered()
    ensures { BlocksAreNumbered }
{}
