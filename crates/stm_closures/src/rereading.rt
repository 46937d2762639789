//! What a commit that failed reads again, for the next attempt.
use crate::store_access::Fetch;
use std::alloc::Global;
use stm_attempt::{Level, ReadSet};

/// Reads a key again, and adds its answer where the key has none. It is a hint: where memory runs out there is none.
fn read_again<D: Fetch>(alloc: Global, store: &D, key: &str, again: &mut ReadSet) {
    if let Ok(answer) = store.fetch_key(alloc, key, 0) {
        if again.get(answer.key.as_str()).is_none() {
            drop(again.add(answer));
        }
    }
}

/// What the keys that were read are now, at a level at which the next attempt can use that: what a `Commit` of your own hands back of a commit of which a
/// compare failed.
pub fn read_all_again<D: Fetch>(
    alloc: Global,
    store: &D,
    level: Level,
    reads: &ReadSet,
) -> ReadSet {
    let mut again = ReadSet::new(alloc);
    if level.is_serializable() {
        for answer in reads.as_slice() {
            read_again(alloc, store, answer.key.as_str(), &mut again);
        }
    }
    again
}
