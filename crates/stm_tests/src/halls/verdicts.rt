//! What a hall says to a fetch of a caller that has seen more, and to attempts that read what it has or has not. What is
//! expected comes from the rules of fetches and commits, and never from a run.

use crate::halls::player::{Step, is_reported};
use crate::transactions::Change;
use std::test::Fail;

/// A store that put "a" as "1" at revision 2.
const A_AT_TWO: &[Change] = &[Change::Put("a", 0)];

/// Steps on a hall over a store that put "a" as "1" at revision 2, and what they show.
const EXAMPLES: [(&[Step], &str); 8] = [
    // A hall is behind what was seen elsewhere.
    (&[Step::Fetch("a", 3)], "Behind 3 2; "),
    // A hall answers a caller that has seen its counter.
    (&[Step::Fetch("a", 2)], "2: a 1@2 at 2 of 2; "),
    // A key is shown at the revision that is named, 0 for the store's own. What is wrong with a fetch is reported in this order: the
    // hall is behind, the key is empty, the revision is above the store's.
    (
        &[
            Step::FetchAt("a", 0, 2),
            Step::FetchAt("a", 1, 2),
            Step::FetchAt("a", 3, 2),
            Step::FetchAt("", 3, 2),
            Step::FetchAt("", 3, 3),
        ],
        "2: a 1@2 at 2 of 2; 2: a absent at 1 of 2; FutureRevision; EmptyKey; Behind 3 2; ",
    ),
    // A value that the store has not is unvouched.
    (
        &[Step::Emit("9", 2)],
        "Unvouched a; Unvouched a; 0 entries; ",
    ),
    // An older modification revision fails.
    (
        &[Step::Emit("9", 1)],
        "Failed a seen 1 now 2: a 1@2 at 2 of 2; Failed a seen 1 now 2: a 1@2 at 2 of 2; 0 entries; ",
    ),
    // What the store has commits.
    (
        &[Step::Emit("1", 2)],
        "Committed 0 2; Committed 1 2; 2 entries; ",
    ),
    // A key is changed above the revisions before its change: "a" was put at 2, and no other key was changed.
    (
        &[
            Step::IsChangedAbove("a", 0),
            Step::IsChangedAbove("a", 1),
            Step::IsChangedAbove("a", 2),
            Step::IsChangedAbove("a", 3),
            Step::IsChangedAbove("b", 0),
        ],
        "true; true; false; false; false; ",
    ),
    // A deletion is a change of its key: "a" was put at 2 and is deleted at 3.
    (
        &[
            Step::Foreign(&[Change::Delete("a")]),
            Step::IsChangedAbove("a", 2),
            Step::IsChangedAbove("a", 3),
        ],
        "3; true; false; ",
    ),
];

#[test]
fn a_hall_answers_by_what_its_store_has(rt: HostRuntime) -> Result<(), Fail> {
    for (steps, expected) in EXAMPLES {
        is_reported(&rt, rt.alloc(), A_AT_TWO, steps, expected)?;
    }
    Ok(())
}
