ghost use Rattle.std.specs.Prelude.{◌≡◌, ◌+◌, ◌^◌, ◌-◌, ◌<◌, [], ◌∷◌, ◌++◌, List, ℕ, length, replicate, OnOk};
ghost use Rattle.std.specs.Prelude.{OnErr};
ghost use Rattle.cut_outcome.specs.FastRound.{votes_of, most_votes, HasCounted};

use cut_detector::Proposal;
use std::alloc::{AllocError, Global};
use std::collections::HashMap;
use std::marker::Model;

/// The votes of a trial's fast round (the Rapid paper's leaderless agreement, which counts identical
/// proposals). Contracts see, for each list of members that was proposed, how many proposals have it.
#[derive(Debug, Drop)]
pub struct Ballot {
    alloc: Global,
    votes: HashMap<Vec<u16>, u64>,
}

impl Model for Ballot {
    ghost use Rattle.std.specs.Prelude.{List, ℕ};

    ghost Value = { List (List ℕ × ℕ) };

    ghost use Rattle.cut_trial.specs.inside.BallotInside.{entries_of};

    ghost view = { entries_of };
}

impl Ballot {
    /// A ballot without votes.
    pub fn new(alloc: Global) -> Ballot
        ensures { HasCounted result [] }
    {
        Ballot {
            alloc,
            votes: HashMap::new(alloc),
        }
    }

    /// Removes all votes, and keeps the memory of the table.
    pub fn clear(&mut self)
        ensures { HasCounted self.new [] }
    {
        self.votes.clear();
    }

    /// Counts a proposal. Fails only if memory runs out, and then counts nothing.
    pub fn add(&mut self, proposal: &Proposal) -> Result<(), AllocError>
        ensures counted { OnOk result ((cast : List (List ℕ)) → length cast < 2 ^ 64 - 1 →
            HasCounted self.old cast → HasCounted self.new (cast ++ proposal.now.members ∷ [])) }
        ensures err { OnErr result (self.new ≡ self.old) }
    {
        self.add_members(proposal.members.as_slice())
    }

    /// Counts a proposal with these members.
    pub(crate) fn add_members(&mut self, members: &[u16]) -> Result<(), AllocError>
        ensures counted { OnOk result ((cast : List (List ℕ)) → length cast < 2 ^ 64 - 1 →
            HasCounted self.old cast → HasCounted self.new (cast ++ members.now ∷ [])) }
        ensures err { OnErr result (self.new ≡ self.old) }
    {
        self.add_votes(members, 1)
    }

    /// Counts `votes` proposals with these members, which are copied if no proposal had them before.
    pub(crate) fn add_votes(&mut self, members: &[u16], votes: u64) -> Result<(), AllocError>
        ensures counted { OnOk result ((cast : List (List ℕ)) → length cast + votes < 2 ^ 64 →
            HasCounted self.old cast → HasCounted self.new (cast ++ replicate votes members.now)) }
        ensures err { OnErr result (self.new ≡ self.old) }
    {
        match self.votes.get_mut(members) {
            Some(counted) => *counted = counted.saturating_add(votes),
            None => {
                let copy = Vec::from_slice(self.alloc, members)?;
                self.votes.insert(copy, votes)?;
            }
        }
        Ok(())
    }

    /// The largest number of proposals with equal members, 0 if there is none.
    pub fn largest(&self) -> u64
        ensures { (cast : List (List ℕ)) → HasCounted self.now cast → result ≡ most_votes cast }
    {
        let mut most = 0;
        for votes in self.votes.values() {
            most = most.max(*votes);
        }
        most
    }

    /// How many proposals have exactly these members.
    pub fn votes_for(&self, members: &[u16]) -> u64
        ensures { (cast : List (List ℕ)) → HasCounted self.now cast →
            result ≡ votes_of cast members.now }
    {
        self.votes.get(members).copied().unwrap_or(0)
    }
}
