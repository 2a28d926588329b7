ghost use Rattle.std.specs.Prelude.{All, IsTrue};
ghost use Rattle.cut_plan.specs.Plan.{IsPlan};
ghost use Rattle.cut_outcome.specs.Sum.{is_piece};
ghost use Rattle.cut_shares.specs.share.inside.PieceParts.{IsRest};

use crate::share::Share;
use cut_outcome::Piece;
use cut_plan::{Plan, laws};

/// An iterator over the pieces of a share within pieces of its plan: what is left of the current one, and those after
/// it.
#[derive(Clone, Copy)]
pub(crate) struct SharePieces<'a> {
    plan: &'a Plan,
    share: Share,
    rest: Piece,
    later: &'a [Piece],
    ghost accepted: { IsPlan plan.now },
    ghost rest_fits: { IsRest plan.now rest },
    ghost later_fit: { All (λ p. IsTrue (is_piece plan.now p)) later.now },
}

impl<'a> SharePieces<'a> {
    ghost use Rattle.std.specs.Prelude.{◌≡◌, ℕ, ◌+◌, ◌-◌, ◌^◌, ◌<◌, ◌≤◌, [], ◌∷◌, true, min, IfSome, IfNone};
    ghost use Rattle.cut_outcome.specs.Outcome.{one_if};
    ghost use Rattle.cut_ledger.specs.Contents.{is_in};
    ghost use Rattle.cut_shares.specs.share.inside.Pieces.{IsSharePiece, own_times, own_trials, trials_in_all};
    ghost use Rattle.cut_shares.specs.share.Share.{is_in_share};

    /// The pieces of a share in pieces of the plan.
    pub(crate) fn of(plan: &'a Plan, share: Share, pieces: &'a [Piece]) -> SharePieces<'a>
        requires { All (λ p. IsTrue (is_piece plan.now p)) pieces.now }
        ensures plan { result.plan.now ≡ plan.now }
        ensures share { result.share ≡ share }
        ensures times { (t : ℕ) → own_times share plan.now (result.rest ∷ result.later.now) t
            ≡ own_times share plan.now pieces.now t }
    {
        laws::plans_are_accepted(plan);
        let rest = Piece { first: 0, count: 0 };
        SharePieces {
            plan,
            share,
            rest,
            later: pieces,
        }
    }

    /// How many trials the pieces have that are left. At 2^64 - 1 the number stays.
    pub(crate) fn trials_left(self) -> u64
        ensures { result ≡ min (own_trials self.entry.share self.entry.plan.now (self.entry.rest ∷ self.entry.later.now)) (2 ^ 64 - 1) }
    {
        let mut pieces = self;
        let mut trials = 0u64;
        while let Some(piece) = pieces.next() {
            trials = trials.saturating_add(u64::from(piece.count));
        }
        trials
    }

    /// The next piece, or `None` if none is left.
    pub(crate) fn next(&mut self) -> Option<Piece>
        ensures plan { self.new.plan.now ≡ self.old.plan.now }
        ensures share { self.new.share ≡ self.old.share }
        ensures own { IfSome result (IsSharePiece self.old.share self.old.plan.now) }
        ensures taken { IfSome result (λ p. (t : ℕ) →
            one_if (is_in p t) + own_times self.old.share self.old.plan.now (self.new.rest ∷ self.new.later.now) t
            ≡ own_times self.old.share self.old.plan.now (self.old.rest ∷ self.old.later.now) t) }
        ensures none { IfNone result ((t : ℕ) →
            own_times self.old.share self.old.plan.now (self.old.rest ∷ self.old.later.now) t ≡ 0) }
        ensures empty { IfNone result ((t : ℕ) →
            own_times self.old.share self.old.plan.now (self.new.rest ∷ self.new.later.now) t ≡ 0) }
        ensures no_more { trials_in_all (self.new.rest ∷ self.new.later.now)
            ≤ trials_in_all (self.old.rest ∷ self.old.later.now) }
        ensures fewer { IfSome result (λ p. trials_in_all (self.new.rest ∷ self.new.later.now)
            < trials_in_all (self.old.rest ∷ self.old.later.now)) }
    {
        loop {
            if let Some(piece) = self.next_of_rest() {
                return Some(piece);
            }
            let Some((first, later)) = self.later.split_first() else {
                return None;
            };
            *self = SharePieces {
                plan: self.plan,
                share: self.share,
                rest: *first,
                later,
            };
        }
    }

    /// The next piece of what is left of one, or `None` if none of it is the share's.
    fn next_of_rest(&mut self) -> Option<Piece>
        ensures plan { self.new.plan.now ≡ self.old.plan.now }
        ensures share { self.new.share ≡ self.old.share }
        ensures later { self.new.later.now ≡ self.old.later.now }
        ensures own { IfSome result (IsSharePiece self.old.share self.old.plan.now) }
        ensures taken { IfSome result (λ p. (t : ℕ) →
            one_if (is_in p t) + own_times self.old.share self.old.plan.now (self.new.rest ∷ []) t
            ≡ own_times self.old.share self.old.plan.now (self.old.rest ∷ []) t) }
        ensures none { IfNone result ((t : ℕ) →
            own_times self.old.share self.old.plan.now (self.old.rest ∷ []) t ≡ 0) }
        ensures fewer { IfSome result (λ p. self.new.rest.count < self.old.rest.count) }
        ensures no_more { self.new.rest.count ≤ self.old.rest.count }
        ensures empty { IfNone result (self.new.rest.count ≡ 0) }
    {
        while self.rest.count > 0 {
            let piece = self.take_block();
            if self.share.has(self.plan, piece.first) {
                return Some(piece);
            }
        }
        None
    }

    /// Takes the trials up to the end of the block of the first one that is left. It is all of them of the share, or
    /// none.
    fn take_block(&mut self) -> Piece
        requires { 1 ≤ self.old.rest.count }
        ensures plan { self.new.plan.now ≡ self.old.plan.now }
        ensures share { self.new.share ≡ self.old.share }
        ensures later { self.new.later.now ≡ self.old.later.now }
        ensures first { result.first ≡ self.old.rest.first }
        ensures piece { IsTrue (is_piece self.old.plan.now result) }
        ensures alike { (t : ℕ) → is_in result t ≡ true →
            is_in_share self.old.share self.old.plan.now t
            ≡ is_in_share self.old.share self.old.plan.now result.first }
        ensures parts { (t : ℕ) →
            one_if (is_in result t) + one_if (is_in self.new.rest t) ≡ one_if (is_in self.old.rest t) }
        ensures fewer { self.new.rest.count < self.old.rest.count }
    {
        let piece = self.share.block_at(self.plan, self.rest);
        let rest = Piece {
            first: self.rest.first + piece.count,
            count: self.rest.count - piece.count,
        };
        *self = SharePieces {
            plan: self.plan,
            share: self.share,
            rest,
            later: self.later,
        };
        piece
    }
}
