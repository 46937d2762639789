//! A store in which another client puts a key before each of the first commits.
use std::alloc::{AllocError, Global};
use stm_closures::{
    Commit, CommitOutcome, Fetch, FetchRefusal, Hall, Level, ReadAnswer, ReadSet, Refusal,
    WriteBuffer,
};
use stm_requests::{Request, put};

/// A hall, and how many commits another client comes before.
pub(crate) struct BusyStore {
    pub hall: Hall,
    pub disturbed: u64,
}

impl Drop for BusyStore {
    fn drop(self) {
        let BusyStore {
            hall: _,
            disturbed: _,
        } = self;
    }
}

/// The other client puts the key "x".
fn disturb(alloc: Global, hall: &mut Hall) -> Result<(), AllocError> {
    let built = Request::new(alloc).then(put(alloc, "x", "theirs", 0)?)?;
    let txn = built.into_txn();
    drop(hall.foreign(&txn));
    drop(txn);
    Ok(())
}

impl Fetch for BusyStore {
    fn fetch_key(&self, alloc: Global, key: &str, at: u64) -> Result<ReadAnswer, FetchRefusal> {
        self.hall.fetch_key(alloc, key, at)
    }
}

impl Commit for BusyStore {
    ghost holds = { λ before level reads writes after. Unit {0} };

    ghost is_left = { λ before after. Unit {0} };

    ghost sent = { λ store. 0 };

    fn commit(
        &mut self,
        alloc: Global,
        level: Level,
        reads: &ReadSet,
        writes: &WriteBuffer,
    ) -> Result<CommitOutcome, Refusal> {
        if 0 < self.disturbed {
            self.disturbed -= 1;
            disturb(alloc, &mut self.hall)?;
        }
        Commit::commit(&mut self.hall, alloc, level, reads, writes)
    }

    ghost left_at_first = { λ a. tt };

    ghost left_again = { λ a b c first second. tt };

    ghost holds_from_before = { λ a b c level reads writes left done. tt };
}
