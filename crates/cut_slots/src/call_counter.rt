ghost use Rattle.std.specs.Prelude.{◌≡◌, ◌+◌, ◌<◌, true, ⊤, MatchResult, IfErr};

use crate::{CallLedger, Full};
use std::sync::ledger::Share;

/// What counts the calls of a slot's book: the accounts of its hall, in which other threads count, too. Each call
/// counts once as made and once as kept.
pub trait CallCounter<M: CallLedger, K: CallLedger> {
    /// That it may have no room for another call: without this fact it never refuses one. It holds of accounts that
    /// other threads change, of which nothing is known.
    ghost may_be_full: { Self → Type 0 } = { λ _. ⊤ };

    /// Whether no further call can be counted.
    fn is_full(&self) -> bool
        ensures { result ≡ true → may_be_full self.now };

    /// Counts one more call, which one share made and the other keeps.
    fn count(&self, made: &mut Share<M>, kept: &mut Share<K>) -> Result<(), Full>
        requires made { 0 < made.old.parts }
        requires kept { 0 < kept.old.parts }
        ensures full { IfErr result (λ _. may_be_full self.now) }
        ensures made { MatchResult result
            (λ _. made.new.amount ≡ made.old.amount + 1) (λ _. made.new.amount ≡ made.old.amount) }
        ensures kept { MatchResult result
            (λ _. kept.new.amount ≡ kept.old.amount + 1) (λ _. kept.new.amount ≡ kept.old.amount) }
        ensures parts { (made.new.parts ≡ made.old.parts) × (kept.new.parts ≡ kept.old.parts) };

    /// Takes back the last call, which had no effect.
    fn take_back(&self, made: &mut Share<M>, kept: &mut Share<K>)
        requires made { 0 < made.old.amount }
        requires kept { 0 < kept.old.amount }
        ensures made { made.new.amount + 1 ≡ made.old.amount }
        ensures kept { kept.new.amount + 1 ≡ kept.old.amount }
        ensures parts { (made.new.parts ≡ made.old.parts) × (kept.new.parts ≡ kept.old.parts) };
}
