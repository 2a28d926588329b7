ghost use Rattle.std.specs.Prelude.{◌≡◌, ◌==◌, ◌+◌, ◌-◌, ◌^◌, ◌<◌, MatchResult};

use crate::{Blanks, CallLedger};
use std::sync::ledger::{Book, Share};

/// Both ledgers have counted 2^64 - 1 calls and are full.
#[derive(Clone, Copy)]
pub struct Full;

/// How many calls all books of a hall had: as the passes count those that they made, and as the slots count those that
/// they keep. Both are the same number.
#[derive(Drop)]
pub struct Accounts<M: CallLedger, K: CallLedger> {
    count: u64,
    made: Book<M>,
    kept: Book<K>,
    ghost made_is: { made.total ≡ count },
    ghost kept_is: { kept.total ≡ count },
}

impl<M: CallLedger, K: CallLedger> Accounts<M, K> {
    /// No calls yet, with a share that has all parts of the one ledger, and one that has all of the other.
    pub fn open(blanks: Blanks) -> (Accounts<M, K>, Share<M>, Share<K>)
        requires made { (blanks.made.name ≡ M.name) × (blanks.made.parts ≡ M.parts) }
        requires kept { (blanks.kept.name ≡ K.name) × (blanks.kept.parts ≡ K.parts) }
        ensures none { result.0.count ≡ 0 }
        ensures made { (result.1.parts ≡ M.parts) × (result.1.amount ≡ 0) }
        ensures kept { (result.2.parts ≡ K.parts) × (result.2.amount ≡ 0) }
    {
        let Blanks { made, kept } = blanks;
        let (made, passes) = made.open::<M>();
        let (kept, slots) = kept.open::<K>();
        let accounts = Accounts {
            count: 0,
            made,
            kept,
        };
        (accounts, passes, slots)
    }

    /// Whether no further call can be counted.
    pub fn is_full(&self) -> bool
        ensures { result ≡ (self.now.count == 2 ^ 64 - 1) }
    {
        self.count == u64::MAX
    }

    /// Counts one more call, which one share made and the other keeps.
    pub fn enter(&mut self, made: &mut Share<M>, kept: &mut Share<K>) -> Result<(), Full>
        requires made { 0 < made.old.parts }
        requires kept { 0 < kept.old.parts }
        ensures count { MatchResult result
            (λ _. self.new.count ≡ self.old.count + 1)
            (λ _. (self.old.count ≡ 2 ^ 64 - 1) × (self.new.count ≡ self.old.count)) }
        ensures made { MatchResult result
            (λ _. made.new.amount ≡ made.old.amount + 1) (λ _. made.new.amount ≡ made.old.amount) }
        ensures kept { MatchResult result
            (λ _. kept.new.amount ≡ kept.old.amount + 1) (λ _. kept.new.amount ≡ kept.old.amount) }
        ensures parts { (made.new.parts ≡ made.old.parts) × (kept.new.parts ≡ kept.old.parts) }
    {
        if self.is_full() {
            return Err(Full);
        }
        let Accounts {
            count,
            made: passes,
            kept: slots,
        } = self;
        passes.add(made, 1);
        slots.add(kept, 1);
        *count += 1;
        Ok(())
    }

    /// Takes back the last call, which had no effect.
    pub fn take_back(&mut self, made: &mut Share<M>, kept: &mut Share<K>)
        requires made { 0 < made.old.amount }
        requires kept { 0 < kept.old.amount }
        ensures count { self.new.count + 1 ≡ self.old.count }
        ensures made { made.new.amount + 1 ≡ made.old.amount }
        ensures kept { kept.new.amount + 1 ≡ kept.old.amount }
        ensures parts { (made.new.parts ≡ made.old.parts) × (kept.new.parts ≡ kept.old.parts) }
    {
        let Accounts {
            count,
            made: passes,
            kept: slots,
        } = self;
        passes.audit(made);
        passes.sub(made, 1);
        slots.sub(kept, 1);
        *count -= 1;
    }

    /// With all parts of both ledgers: what the passes made is what the slots keep.
    pub fn compare(&mut self, made: &mut Share<M>, kept: &mut Share<K>)
        requires made { made.old.parts ≡ M.parts }
        requires kept { kept.old.parts ≡ K.parts }
        ensures { made.old.amount ≡ kept.old.amount }
    {
        self.made.audit(made);
        self.kept.audit(kept);
    }
}
