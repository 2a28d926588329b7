ghost use Rattle.std.specs.Prelude.{◌≡◌, ◌+◌, ◌<◌, MatchResult};

use crate::CallLedger;
use cut_slots::{Accounts, CallCounter, Full};
use std::sync::ledger::Share;
use std::sync::{Mutex, Wait};

/// A hall's accounts as its slots count in them: each call takes their lock for as long as one count.
#[derive(Drop)]
pub(crate) struct LockedAccounts<'a, M: CallLedger, K: CallLedger, R> {
    pub(crate) rt: &'a R,
    pub(crate) accounts: &'a Mutex<Accounts<M, K>>,
}

impl<M: CallLedger, K: CallLedger, R: Wait> CallCounter<M, K> for LockedAccounts<'_, M, K, R> {
    fn is_full(&self) -> bool {
        self.accounts.lock(self.rt).is_full()
    }

    fn count(&self, made: &mut Share<M>, kept: &mut Share<K>) -> Result<(), Full> {
        self.accounts.lock(self.rt).enter(made, kept)
    }

    fn take_back(&self, made: &mut Share<M>, kept: &mut Share<K>) {
        self.accounts.lock(self.rt).take_back(made, kept);
    }
}
