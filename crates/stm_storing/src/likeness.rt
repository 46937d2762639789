//! Whether the same has happened in two stores.
ghost use Rattle.std.specs.Prelude.{◌≡◌, ◌↔◌, ◌<◌, ◌≤◌, ℕ, true, IsTrue};
ghost use Rattle.stm_history.specs.History.{now};
ghost use Rattle.stm_keys.specs.Events.{events_of};
ghost use Rattle.stm_storing.specs.Jobs.{AreAlikeSince};

use stm_keys::{Event, Keys};
use stm_txn::Store;

/// Whether these are the same events.
fn are_same_events(left: &[Event], right: &[Event]) -> bool
    ensures { IsTrue result ↔ left.now ≡ right.now }
{
    left == right
}

/// Whether two histories that come to the same revision have the same events above this one.
fn have_same_events(left: &Keys, right: &Keys, since: u64) -> bool
    requires { now left.now.history ≡ now right.now.history }
    ensures { result ≡ true → (r : ℕ) → since < r → r ≤ now left.now.history → events_of left.now.history r ≡ events_of right.now.history r }
{
    for revision in since..left.revision() {
        if !are_same_events(left.events_at(revision + 1), right.events_at(revision + 1)) {
            return false;
        }
    }
    true
}

/// Whether two histories come to the same revision.
fn are_at_one_revision(left: &Keys, right: &Keys) -> bool
    ensures { result ≡ true → now left.now.history ≡ now right.now.history }
{
    left.revision() == right.revision()
}

/// Whether two stores are at the same moment.
fn are_at_one_moment(left: &Store, right: &Store) -> bool
    ensures { result ≡ true → left.now.standing.moment ≡ right.now.standing.moment }
{
    left.moment() == right.moment()
}

/// Whether two stores are alike that were the same at a revision.
pub(crate) fn are_alike_since(left: &Store, right: &Store, since: u64) -> bool
    ensures { result ≡ true → AreAlikeSince since left.now.standing right.now.standing }
{
    let keys = left.keys();
    let keys_there = right.keys();
    if !are_at_one_revision(keys, keys_there) {
        return false;
    }
    if !are_at_one_moment(left, right) {
        return false;
    }
    have_same_events(keys, keys_there, since)
}
