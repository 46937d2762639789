//! Which watcher of a store is ready, which no command asks. What is expected comes from the rules of watches, and never from a run.

mod player;

use crate::stores::player::{Step, are_reported};
use crate::transactions::Change;
use std::test::Fail;

const PUT_A: &[Change] = &[Change::Put("a", 0)];

const PUT_B: &[Change] = &[Change::Put("b", 0)];

const PUT_C: &[Change] = &[Change::Put("c", 0)];

const PUT_THREE: &[Change] = &[
    Change::Put("c", 0),
    Change::Put("a", 0),
    Change::Put("b", 0),
];

const DELETE_A: &[Change] = &[Change::Delete("a")];

/// Which watcher is ready.
const READY: [(&[Step], &str); 7] = [
    // A watcher that starts below the counter is ready at once, until it was notified of all.
    (
        &[
            Step::Change(PUT_A),
            Step::Change(DELETE_A),
            Step::Watch("a", 2),
            Step::Next,
            Step::Poll(1, 1),
            Step::Poll(1, 1),
            Step::Next,
        ],
        "2; 3; 1; 1; upto 2; upto 3; none; ",
    ),
    // A watcher of a range is ready once a key of it is put, and one of an empty range never is.
    (
        &[
            Step::WatchRange("a", "c", 0),
            Step::Next,
            Step::Change(PUT_THREE),
            Step::Change(PUT_C),
            Step::Next,
            Step::Poll(1, 0),
            Step::Poll(1, 1),
            Step::Next,
            Step::WatchRange("b", "b", 1),
            Step::Next,
            Step::Poll(2, 0),
        ],
        "1; none; 2; 3; 1; upto 1; upto 3; none; 2; none; upto 3; ",
    ),
    // A start above the counter waits for that revision; a watcher that was cancelled is not ready.
    (
        &[
            Step::Watch("a", 3),
            Step::Change(PUT_A),
            Step::Next,
            Step::Change(PUT_A),
            Step::Next,
            Step::Cancel(1),
            Step::Cancel(1),
            Step::Poll(1, 1),
            Step::Next,
        ],
        "1; 2; none; 3; 1; done; NoWatcher; NoWatcher; none; ",
    ),
    // Of three watchers two are ready, and one of them is notified.
    (
        &[
            Step::Watch("a", 0),
            Step::WatchRange("a", "c", 0),
            Step::Watch("b", 1),
            Step::Next,
            Step::Change(PUT_B),
            Step::NextIsOneOf(2, 3),
            Step::Cancel(2),
            Step::Next,
            Step::Poll(3, 0),
            Step::Next,
            Step::Poll(3, 1),
            Step::Next,
        ],
        "1; 2; 3; none; 2; true; done; 3; upto 0; 3; upto 2; none; ",
    ),
    // A watcher is ready once the lease of a key expires.
    (
        &[
            Step::Grant(1, 5),
            Step::Grant(2, 10),
            Step::Change(&[Change::Put("b", 2), Change::Put("a", 1)]),
            Step::Change(&[Change::Put("a", 2)]),
            Step::Advance(5),
            Step::WatchRange("a", "c", 0),
            Step::Advance(10),
            Step::Next,
            Step::Poll(1, 10),
            Step::Next,
        ],
        "done; done; 2; 3; expired 1@3; 1; expired 2@4; 1; upto 4; none; ",
    ),
    // The delete of an absent key makes no watcher ready; a put and a revocation do.
    (
        &[
            Step::Grant(1, 5),
            Step::Watch("a", 0),
            Step::Change(DELETE_A),
            Step::Next,
            Step::Change(&[Change::Put("a", 1)]),
            Step::Revoke(1),
            Step::Next,
            Step::Poll(1, 1),
            Step::Poll(1, 1),
            Step::Next,
        ],
        "done; 1; 1; none; 2; at 3; 1; upto 2; upto 3; none; ",
    ),
    // A watcher that a compaction lost is ready, so that its next poll says so.
    (
        &[
            Step::Watch("a", 0),
            Step::Watch("c", 0),
            Step::Change(PUT_A),
            Step::Change(PUT_B),
            Step::Compact(3),
            Step::Next,
            Step::Poll(1, 9),
            Step::Poll(1, 9),
            Step::Next,
            Step::Poll(2, 9),
            Step::Watch("a", 2),
            Step::Next,
            Step::Poll(3, 9),
        ],
        "1; 2; 2; 3; done; 1; Compacted; NoWatcher; none; upto 3; 3; 3; Compacted; ",
    ),
];

#[test]
fn a_store_reports_who_is_ready(rt: HostRuntime) -> Result<(), Fail> {
    are_reported(&rt, rt.alloc(), &READY)
}
