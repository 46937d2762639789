//! What a transaction fetches from, and what it is committed to.
ghost use Rattle.std.specs.Prelude.{◌≡◌, ◌+◌, ◌≤◌, ℕ, List, IfOk};
ghost use Rattle.stm_history.specs.declared.key_state.ReadAnswer.{ReadAnswer as Answer};
ghost use Rattle.stm_program.specs.declared.level.Level.{Level as LevelOf};
ghost use Rattle.stm_history.specs.declared.change.Change.{Change as ChangeOf};
ghost use Rattle.stm_outcome.specs.Numbers.{ReadFits};
ghost use Rattle.stm_closures.specs.Transactions.{IsFetched};
ghost use Rattle.stm_closures.specs.Outcomes.{CommitReturns};

use std::alloc::Global;
use stm_attempt::{Level, ReadAnswer, ReadSet, WriteBuffer};
use stm_hall::{FetchRefusal, Refusal};

/// Where a transaction fetches keys.
pub trait Fetch {
    /// Fetches a key at a revision, 0 for the current one. The answer carries the store's revision, which is not 0.
    fn fetch_key(&self, alloc: Global, key: &str, at: u64) -> Result<ReadAnswer, FetchRefusal>
        ensures answer { IfOk result (IsFetched key.now at) }
        ensures in_range { IfOk result ReadFits };
}

/// What a commit came to that was not refused.
#[derive(Debug, Drop)]
pub enum CommitOutcome {
    /// No compare failed, and the writes are applied.
    Committed,
    /// A compare failed, and nothing has changed.
    Conflict {
        /// What was read again of the keys, for the next attempt.
        again: ReadSet,
    },
    /// An answer is not one of this store's, and nothing has changed.
    Exchanged,
}

/// Where a transaction is committed.
pub trait Commit {
    /// A commit that was made of these reads and writes at this level, from a first state to a second one.
    ghost holds: { Self → LevelOf → List Answer → List ChangeOf → Self → Type 0 };

    /// Nothing was committed between two states.
    ghost is_left: { Self → Self → Type 0 };

    /// No more commits than this were sent.
    ghost sent: { Self → ℕ };

    /// Commits what a transaction read and wrote, by one transaction of the store.
    fn commit(
        &mut self,
        alloc: Global,
        level: Level,
        reads: &ReadSet,
        writes: &WriteBuffer,
    ) -> Result<CommitOutcome, Refusal>
        ensures outcome { CommitReturns (Self.holds self.old level reads.now writes.now self.new) (Self.is_left self.old self.new) result }
        ensures sent { Self.sent self.new ≤ Self.sent self.old + 1 };

    ghost left_at_first: { (a : Self) → is_left a a };

    ghost left_again: { (a b c : Self) → is_left a b → is_left b c → is_left a c };

    ghost holds_from_before: { (a b c : Self) (level : LevelOf) (reads : List Answer) (writes : List ChangeOf) → is_left a b → holds b level reads writes c → holds a level reads writes c };
}
