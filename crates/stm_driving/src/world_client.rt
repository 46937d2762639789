//! A world, as transactions as closures use it.
use crate::world_commit::commit_to_world;
use std::alloc::Global;
use stm_attempt::{ReadAnswer, ReadSet, WriteBuffer};
use stm_closures::{Commit, CommitOutcome, Fetch, FetchRefusal};
use stm_program::Level;
use stm_retry::World;
use stm_txn::Refusal;

/// A world with a client beside the programs that it runs: `atomically` commits to it by transactions of that client.
pub struct WorldClient {
    /// The world.
    pub world: World,
}

impl Drop for WorldClient {
    fn drop(self) {
        let WorldClient { world: _ } = self;
    }
}

impl Fetch for WorldClient {
    fn fetch_key(&self, alloc: Global, key: &str, at: u64) -> Result<ReadAnswer, FetchRefusal> {
        self.world.store().fetch_key(alloc, key, at)
    }
}

/// A commit is one event of the world, and an entry where it changed something.
impl Commit for WorldClient {
    ghost use Rattle.std.specs.Prelude.{◌≡◌, refl};
    ghost use mathlib.Core.Path.{◌∙◌};
    ghost use Rattle.stm_closures.specs.Staying.{from_before};
    ghost use Rattle.stm_driving.specs.WorldCommits.{IsCommittedInWorld};

    ghost holds = { λ before level reads writes after. IsCommittedInWorld before.world level reads writes after.world };

    ghost is_left = { λ before after. after.world ≡ before.world };

    ghost sent = { λ client. 0 };

    fn commit(
        &mut self,
        alloc: Global,
        level: Level,
        reads: &ReadSet,
        writes: &WriteBuffer,
    ) -> Result<CommitOutcome, Refusal> {
        commit_to_world(alloc, &mut self.world, level, reads, writes)
    }

    ghost left_at_first = { λ a. refl };

    ghost left_again = { λ a b c first second. second ∙ first };

    ghost holds_from_before = { λ a b c level reads writes left done. from_before (λ world. IsCommittedInWorld world level reads writes c.world) a.world b.world left done };
}
