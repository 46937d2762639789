//! A hall over a store with two leases, whose keys are put and whose leases expire in the hall. What is expected comes from
//! the rules of leases and of entries, and never from a run.

use crate::halls::player::{Step, is_reported};
use crate::transactions::Change;
use std::test::Fail;

/// Keys on lease 1 and lease 2, one of which moves from the first to the second.
const STEPS: [Step; 7] = [
    Step::Foreign(&[Change::Put("b", 2), Change::Put("a", 1)]),
    Step::Foreign(&[Change::Put("a", 2)]),
    Step::Advance(5),
    Step::Advance(10),
    Step::Fetch("a", 0),
    Step::State,
    Step::Entries,
];

// "a" moves from lease 1 to lease 2 before lease 1 expires, so both keys go with lease 2, in one revision.
#[test]
fn a_moved_key_goes_with_its_last_lease(rt: HostRuntime) -> Result<(), Fail> {
    let expected =
        "2; 3; expired 1@3; expired 2@4; 4: a absent at 4 of 4; 0 keys; entries foreign foreign expire 1 expire 2; ";
    is_reported(&rt, rt.alloc(), &[], &STEPS, expected)
}
