//! Which event changed a key, and how.
ghost use Rattle.std.specs.Prelude.{◌≡◌, ◌≤◌, ◌-◌, Some, option_copied, slice_get};
ghost use Rattle.stm_reasons.specs.Causes.{state_by, first_change, maker, ends_leases, lease_of, deed, cause_at, cause};

use crate::counting::counter_at;
use crate::reason::{Cause, Deed};
use stm_events::{Denied, Reply};
use stm_history::KeyState;
use stm_keys::Keys;

/// What a key was at a revision, and at one that is yet to come what it is now. At one below those that are kept it is what it was before these.
pub fn state_by<'a>(keys: &'a Keys, key: &str, revision: u64) -> Option<&'a KeyState>
    ensures { option_copied result ≡ state_by keys.now.history key.now revision }
{
    keys.look_back(key, revision.min(keys.revision()))
}

/// The first revision above one, and up to another, that changes a key. Where the revisions above the first are no longer kept there is none.
fn first_change(keys: &Keys, key: &str, above: u64, last: u64) -> Option<u64>
    ensures { result ≡ first_change keys.now.history key.now above last }
{
    if above < keys.below() {
        return None;
    }
    match keys.next_change(key, above) {
        None => None,
        Some(revision) => {
            if revision <= last {
                Some(revision)
            } else {
                None
            }
        }
    }
}

/// The event that made a revision, among so many, by the store's revision after each.
fn maker(counters: &[u64], revision: u64, events: usize) -> usize
    ensures number { result ≡ maker counters.now revision events }
    ensures within { result ≤ events }
{
    let mut left = events;
    while left > 0 {
        if counter_at(counters, left - 1) < revision {
            return left;
        }
        left -= 1;
    }
    0
}

/// Whether the event with this reply ends leases, and does nothing else.
fn ends_leases(reply: &Result<Reply, Denied>) -> bool
    ensures { result ≡ ends_leases (Some reply.now) }
{
    match reply {
        Ok(Reply::Revoked { .. }) => true,
        Ok(Reply::Advanced { .. }) => true,
        Ok(_) => false,
        Err(_) => true,
    }
}

/// Whether the event with this number ends leases.
fn ends_leases_at(replies: &[Result<Reply, Denied>], number: usize) -> bool
    ensures { result ≡ ends_leases (slice_get replies.now (number - 1)) }
{
    let index = number.saturating_sub(1);
    if index < replies.len() {
        ends_leases(&replies[index])
    } else {
        false
    }
}

/// The lease of a key that was looked up, 0 where it is absent or has none.
fn lease_of(found: Option<&KeyState>) -> u64
    ensures { result ≡ lease_of (option_copied found.entry) }
{
    match found {
        None => 0,
        Some(state) => state.lease,
    }
}

/// What the event with this number did to a key at this revision.
fn deed(
    keys: &Keys,
    key: &str,
    replies: &[Result<Reply, Denied>],
    number: usize,
    revision: u64,
) -> Deed
    ensures { result ≡ deed (slice_get replies.now (number - 1)) (state_by keys.now.history key.now (revision - 1)) (state_by keys.now.history key.now revision) }
{
    if state_by(keys, key, revision).is_some() {
        return Deed::Put;
    }
    if !ends_leases_at(replies, number) {
        return Deed::Deleted;
    }
    Deed::Ended {
        lease: lease_of(state_by(keys, key, revision.saturating_sub(1))),
    }
}

/// The first change of a key since a revision, among so many events, by the store's revision after each: the event that made it, its revision, and what it
/// did. It takes no memory.
pub(crate) fn cause(
    keys: &Keys,
    key: &str,
    counters: &[u64],
    replies: &[Result<Reply, Denied>],
    since: u64,
    events: usize,
) -> Option<Cause>
    ensures { result ≡ cause keys.now.history key.now counters.now replies.now since events }
{
    match first_change(keys, key, since, counter_at(counters, events)) {
        None => None,
        Some(revision) => {
            let number = maker(counters, revision, events);
            Some(Cause {
                event: number as u64,
                revision,
                deed: deed(keys, key, replies, number, revision),
            })
        }
    }
}
