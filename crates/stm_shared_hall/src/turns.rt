//! What a thread fetches from and commits to.
ghost use Rattle.std.specs.Prelude.{◌≡◌, ◌+◌, ◌≤◌, IfOk};
ghost use Rattle.stm_closures.specs.Outcomes.{CommitReturns};
ghost use Rattle.stm_shared_hall.specs.Sharing.{IsCommittedThere};

use std::alloc::Global;
use std::sync::{Mutex, Wait};
use stm_closures::{
    Commit, CommitOutcome, Fetch, FetchRefusal, Hall, Level, ReadAnswer, ReadSet, Refusal,
    WriteBuffer,
};

/// A hall under the lock that threads share.
#[derive(Drop)]
pub struct SharedHall {
    hall: Mutex<Hall>,
}

impl SharedHall {
    /// This hall, under a lock.
    pub fn new(hall: Hall) -> SharedHall {
        SharedHall {
            hall: Mutex::new(hall),
        }
    }

    /// The hall, once nobody shares it.
    pub fn into_hall(self) -> Hall {
        let SharedHall { hall } = self;
        hall.into_inner()
    }
}

/// A thread's way to a hall that others use too: it takes the lock for one fetch or one commit, and lets it go.
///
/// `made` counts the commits that were made through it, and `sent` those that were sent, up to the greatest `u64`.
#[derive(Drop)]
pub struct Turns<'a, W: Wait> {
    rt: &'a W,
    shared: &'a SharedHall,
    /// How many commits were made.
    pub made: u64,
    /// How many were sent.
    pub sent: u64,
}

/// Commits to a hall as the lock gave it.
fn commit_locked(
    alloc: Global,
    hall: &mut Hall,
    level: Level,
    reads: &ReadSet,
    writes: &WriteBuffer,
) -> Result<CommitOutcome, Refusal>
    ensures { CommitReturns (IsCommittedThere level reads.now writes.now) (hall.new ≡ hall.old) result }
{
    // (what a hall's type keeps)
    let _entries = hall.entries();
    Commit::commit(hall, alloc, level, reads, writes)
}

impl<'a, W: Wait> Turns<'a, W> {
    /// A way to the hall under this lock, through which nothing was sent yet.
    pub fn new(rt: &'a W, shared: &'a SharedHall) -> Turns<'a, W>
        ensures { (result.made ≡ 0) × (result.sent ≡ 0) }
    {
        Turns {
            rt,
            shared,
            made: 0,
            sent: 0,
        }
    }
}

impl<'a, W: Wait> Fetch for Turns<'a, W> {
    fn fetch_key(&self, alloc: Global, key: &str, at: u64) -> Result<ReadAnswer, FetchRefusal> {
        self.shared.hall.lock(self.rt).fetch_key(alloc, key, at)
    }
}

impl<'a, W: Wait> Commit for Turns<'a, W> {
    ghost use Rattle.std.specs.Prelude.{◌≡◌, refl};
    ghost use mathlib.Core.Path.{◌∙◌};
    ghost use Rattle.stm_closures.specs.Staying.{from_before};
    ghost use Rattle.stm_shared_hall.specs.Sharing.{IsCommittedInSomeHall};

    ghost holds = { λ before level reads writes after. IsCommittedInSomeHall before.made level reads writes after.made };

    ghost is_left = { λ before after. after.made ≡ before.made };

    ghost sent = { λ turns. turns.sent };

    fn commit(
        &mut self,
        alloc: Global,
        level: Level,
        reads: &ReadSet,
        writes: &WriteBuffer,
    ) -> Result<CommitOutcome, Refusal> {
        self.sent = self.sent.saturating_add(1);
        let outcome = commit_locked(
            alloc,
            &mut self.shared.hall.lock(self.rt),
            level,
            reads,
            writes,
        )?;
        match &outcome {
            CommitOutcome::Committed => self.made = self.made.saturating_add(1),
            CommitOutcome::Conflict { .. } => {}
            CommitOutcome::Exchanged => {}
        }
        Ok(outcome)
    }

    ghost left_at_first = { λ a. refl };

    ghost left_again = { λ a b c first second. second ∙ first };

    ghost holds_from_before = { λ a b c level reads writes left done. from_before (λ made. IsCommittedInSomeHall made level reads writes c.made) a.made b.made left done };
}
