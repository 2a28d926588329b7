ghost use Rattle.std.specs.Prelude.{◌≡◌, ℕ, ◌<◌, ◌↔◌, false, List, [], length, IsTrue, IfSome, OnOk, OnErr};
ghost use Rattle.cut_arrivals.specs.proposals.Reception.{Reception};
ghost use Rattle.cut_arrivals.specs.candidates.Candidates.{subjects_of};
ghost use Rattle.cut_arrivals.specs.receivers.Received.{HasReceived};
ghost use Rattle.cut_arrivals.specs.receivers.LaneVerdicts.{flagged, has_bit, is_proposal, has_proposals, lane_verdict_in};
ghost use Rattle.cut_arrivals.specs.receivers.LaneVerdicts.{members_at};
ghost use Rattle.cut_arrivals.specs.receivers.LaneVerdicts.{IsVerdictOn};

use crate::candidates::Candidates;
use crate::proposals::laws;
use crate::receivers::Receivers;
use crate::receivers::lanes::{bits_of, has_ended, others, silences};
use std::alloc::AllocError;

/// What a receiver is found to propose, compared with the expected members.
#[derive(Clone, Copy, Debug, PartialEq, Eq)]
pub enum LaneVerdict {
    /// Equal images leave it open: its deliveries are to be replayed by whole keys.
    Doubtful,
    /// No proposal.
    Silent,
    /// A proposal with exactly the expected members.
    Wanted,
    /// A proposal with other members.
    Other,
}

impl LaneVerdict {
    /// Whether a proposal is found.
    #[inline]
    pub fn is_proposal(self) -> bool
        ensures { result ≡ is_proposal self }
    {
        matches!(self, LaneVerdict::Wanted | LaneVerdict::Other)
    }
}

/// What four receivers are found to propose: bits of which each receiver has one.
#[derive(Clone, Copy, Debug)]
pub struct LaneVerdicts {
    pub doubtful: u64,
    pub silent: u64,
    pub others: u64,
}

impl LaneVerdicts {
    /// What the receiver in a lane is found to propose.
    #[inline]
    pub fn at(self, lane: usize) -> LaneVerdict
        requires { lane < 4 }
        ensures lane_verdict { result ≡ lane_verdict_in self lane }
        ensures doubtful { (result ≡ LaneVerdict.Doubtful) ↔ IsTrue (has_bit self.doubtful lane) }
    {
        if has_bit(self.doubtful, lane) {
            LaneVerdict::Doubtful
        } else if has_bit(self.silent, lane) {
            LaneVerdict::Silent
        } else if has_bit(self.others, lane) {
            LaneVerdict::Other
        } else {
            LaneVerdict::Wanted
        }
    }

    /// Whether some of the receivers is found to propose. If none is, none of their places is needed.
    #[inline]
    pub fn has_proposals(self) -> bool
        ensures { result ≡ has_proposals self }
    {
        (0..4).any(|lane| self.at(lane).is_proposal())
    }
}

/// Whether the bit of a lane is set.
#[inline]
pub(crate) fn has_bit(bits: u64, lane: usize) -> bool
    requires { lane < 4 }
    ensures { result ≡ has_bit bits lane }
{
    (bits >> lane) % 2 == 1
}

impl Receivers {
    /// Judges what four receivers propose, if the candidates with a flag are the expected members.
    pub fn judge(&self, wanted: &[bool]) -> LaneVerdicts
        requires { length wanted.now ≡ length self.now.stable_at.items }
        ensures doubtful { result.doubtful ≡ self.now.proposal_time.doubt }
        ensures finds { (x : Reception) (subjects : List ℕ) (i : ℕ) → i < 4 → HasReceived x subjects i self.now
            → IsVerdictOn (flagged subjects wanted.now) (members_at x) (lane_verdict_in result i) }
    {
        laws::images_give_the_members();
        laws::candidates_show_the_verdict();
        let time = self.proposal_time.time;
        LaneVerdicts {
            doubtful: self.proposal_time.doubt,
            silent: bits_of(silences(time)),
            others: bits_of(others(self.stable_at.as_slice(), time, wanted)),
        }
    }

    /// Lists the members that the receiver in a lane proposes, ascending, in place of what the list held. Fails only if
    /// memory runs out, and the list is empty then.
    pub fn members(
        &self,
        candidates: &Candidates,
        lane: usize,
        members: &mut Vec<u16>,
    ) -> Result<(), AllocError>
        requires lane { lane < 4 }
        requires candidates { length candidates.now.candidates.items ≡ length self.now.stable_at.items }
        ensures members { OnOk result ((x : Reception) → HasReceived x (subjects_of candidates.now.candidates.items)
            lane self.now
            → has_bit self.now.proposal_time.doubt lane ≡ false
            → IfSome (members_at x) (λ ms. members.new.items ≡ ms)) }
        ensures err { OnErr result (members.new.items ≡ []) }
    {
        laws::images_give_the_members();
        laws::candidates_show_the_verdict();
        members.clear();
        members.reserve(candidates.candidates.len())?;
        for (place, candidate) in candidates.candidates.iter().enumerate() {
            if has_ended(self.stable_at[place], self.proposal_time.time, lane) {
                members.push_reserved(candidate.subject);
            }
        }
        Ok(())
    }
}
