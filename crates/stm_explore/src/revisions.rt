//! Whether stores have had the same revisions.
ghost use Rattle.std.specs.Prelude.{◌≡◌, ◌↔◌, IsTrue, true};

use stm_keys::{Event, Keys};

/// Whether these events are those.
fn are_same_events(left: &[Event], right: &[Event]) -> bool
    ensures { IsTrue result ↔ left.now ≡ right.now }
{
    left == right
}

/// Whether two stores open at the same revision, and have had the same revisions since where they open with the same keys.
pub(crate) fn have_same_revisions(left: &Keys, right: &Keys) -> bool
    ensures opening { result ≡ true → left.now.history.opening.number ≡ right.now.history.opening.number }
    ensures revisions { result ≡ true → left.now.history.opening ≡ right.now.history.opening → left.now.history.revisions ≡ right.now.history.revisions }
{
    let below = left.below();
    if below != right.below() {
        return false;
    }
    let last = left.revision();
    if last != right.revision() {
        return false;
    }
    for number in below..last {
        if !are_same_events(left.events_at(number + 1), right.events_at(number + 1)) {
            return false;
        }
    }
    true
}
