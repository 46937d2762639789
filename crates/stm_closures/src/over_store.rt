//! A store, as transactions of its only user use it.
use crate::store_access::{Commit, CommitOutcome, Fetch};
use crate::store_commit::commit_to_store;
use std::alloc::Global;
use stm_attempt::{Level, ReadAnswer, ReadSet, WriteBuffer};
use stm_hall::{FetchRefusal, Refusal, Store};
use stm_journal::read;

impl Fetch for Store {
    fn fetch_key(&self, alloc: Global, key: &str, at: u64) -> Result<ReadAnswer, FetchRefusal> {
        // (a store's revision is never below 1)
        let _keys = self.keys();
        match read(alloc, self, key, at) {
            Ok(answer) => Ok(answer),
            Err(refusal) => Err(FetchRefusal::Store(refusal)),
        }
    }
}

/// A commit is one transaction of the store.
impl Commit for Store {
    ghost use Rattle.std.specs.Prelude.{◌≡◌, refl};
    ghost use mathlib.Core.Path.{◌∙◌};
    ghost use Rattle.stm_closures.specs.Committing.{IsCommitted};
    ghost use Rattle.stm_closures.specs.Staying.{from_before};

    ghost holds = { λ before level reads writes after. IsCommitted before.standing level reads writes after.standing };

    ghost is_left = { λ before after. after.standing ≡ before.standing };

    ghost sent = { λ store. 0 };

    fn commit(
        &mut self,
        alloc: Global,
        level: Level,
        reads: &ReadSet,
        writes: &WriteBuffer,
    ) -> Result<CommitOutcome, Refusal> {
        commit_to_store(alloc, self, level, reads, writes)
    }

    ghost left_at_first = { λ a. refl };

    ghost left_again = { λ a b c first second. second ∙ first };

    ghost holds_from_before = { λ a b c level reads writes left done. from_before (λ standing. IsCommitted standing level reads writes c.standing) a.standing b.standing left done };
}
