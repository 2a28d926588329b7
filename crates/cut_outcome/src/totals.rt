ghost use Rattle.std.specs.Prelude.{◌≡◌, ◌^◌};
ghost use Rattle.cut_outcome.specs.Sum.{plus, IsAtMost};

/// The sums over trials that a line of the table has.
#[derive(Clone, Copy, Debug, PartialEq, Eq)]
pub struct Totals {
    /// How many receivers there were: the processes that are not targets.
    pub receivers: u64,
    /// How many announced a proposal that lacks a target.
    pub conflicts: u64,
    /// How many announced nothing.
    pub silent: u64,
    /// How many announced a proposal with a process that is not a target.
    pub extra: u64,
    /// The largest number of receivers with equal proposals, of each trial.
    pub votes: u64,
    /// In how many trials the votes reached a quorum.
    pub decided: u64,
    /// In how many trials a quorum proposed exactly the targets.
    pub right: u64,
    /// The sum of the places at which receivers proposed, each counted in deliveries from 1. 0 for a plan
    /// of version 1, whose tables don't have it.
    pub settled: u64,
}

impl Totals {
    /// The sums over no trials.
    pub const ZERO: Totals = Totals {
        receivers: 0,
        conflicts: 0,
        silent: 0,
        extra: 0,
        votes: 0,
        decided: 0,
        right: 0,
        settled: 0,
    };

    /// The sums over two lists of trials, added up number by number. Each number is at most 2^43, and `settled` 2^61,
    /// so that no sum overflows.
    pub fn plus(self, other: Totals) -> Totals
        requires self_fits { IsAtMost (2 ^ 43) self }
        requires other_fits { IsAtMost (2 ^ 43) other }
        ensures { result ≡ plus self other }
    {
        Totals {
            receivers: self.receivers + other.receivers,
            conflicts: self.conflicts + other.conflicts,
            silent: self.silent + other.silent,
            extra: self.extra + other.extra,
            votes: self.votes + other.votes,
            decided: self.decided + other.decided,
            right: self.right + other.right,
            settled: self.settled + other.settled,
        }
    }
}
