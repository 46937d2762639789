//! A hall, as transactions use it.
use crate::hall_commit::commit_to_hall;
use crate::store_access::{Commit, CommitOutcome, Fetch};
use std::alloc::Global;
use stm_attempt::{Level, ReadAnswer, ReadSet, WriteBuffer};
use stm_hall::{FetchRefusal, Hall, Refusal};

impl Fetch for Hall {
    fn fetch_key(&self, _alloc: Global, key: &str, at: u64) -> Result<ReadAnswer, FetchRefusal> {
        // (a store's revision is never below 1)
        self.fetch_one(1, key, at)
    }
}

/// A commit is one transaction of another client's kind, and an entry where it changed something.
impl Commit for Hall {
    ghost use Rattle.std.specs.Prelude.{◌≡◌, refl};
    ghost use mathlib.Core.Path.{◌∙◌};
    ghost use Rattle.stm_closures.specs.Committing.{IsCommittedInHall};
    ghost use Rattle.stm_closures.specs.Staying.{from_before};

    ghost holds = { IsCommittedInHall };

    ghost is_left = { λ before after. after ≡ before };

    ghost sent = { λ hall. 0 };

    fn commit(
        &mut self,
        alloc: Global,
        level: Level,
        reads: &ReadSet,
        writes: &WriteBuffer,
    ) -> Result<CommitOutcome, Refusal> {
        commit_to_hall(alloc, self, level, reads, writes)
    }

    ghost left_at_first = { λ a. refl };

    ghost left_again = { λ a b c first second. second ∙ first };

    ghost holds_from_before = { λ a b c level reads writes left done. from_before (λ hall. IsCommittedInHall hall level reads writes c) a b left done };
}
