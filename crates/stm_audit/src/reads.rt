//! What the reads of a commit say of their keys.
ghost use Rattle.std.specs.Prelude.{◌≡◌, ◌↔◌, ◌≤◌, IsTrue, not, find, bytes_eq, option_copied, option_map};
ghost use Rattle.std.specs.List.{list_any};
ghost use Rattle.stm_history.specs.History.{key_now, mod_of, key_of};
ghost use Rattle.stm_audit.specs.Reads.{is_value, is_lost, is_possible, is_so, is_untrue, is_stale, changed_at, is_at_most, shows_from, is_among};

use stm_events::{CommittedRead, KeyState, Text};
use stm_history::found_mod_rev;
use stm_keys::Keys;
use stm_program::Write;

/// Whether a value is the one that a key had, and none where the key was absent.
fn is_value(value: &Option<Text>, state: Option<&KeyState>) -> bool
    ensures { result ≡ is_value value.now (option_copied state.entry) }
{
    match state {
        None => value.is_none(),
        Some(state) => match value {
            None => false,
            Some(value) => value.as_str() == state.value.as_str(),
        },
    }
}

/// Whether a key that was in this state later may have been otherwise at a revision.
pub(crate) fn is_lost(revision: u64, state: Option<&KeyState>) -> bool
    ensures { result ≡ is_lost revision (option_copied state.entry) }
{
    match state {
        None => true,
        Some(state) => revision < state.mod_rev,
    }
}

/// Whether a key can be present with this value and modification revision, or absent with none and 0.
fn is_possible(value: &Option<Text>, mod_rev: u64) -> bool
    ensures { result ≡ is_possible value.now mod_rev }
{
    match value {
        None => mod_rev == 0,
        Some(_) => 0 < mod_rev,
    }
}

/// Whether a read says what its key was, where that is known from a revision on.
fn is_so(keys: &Keys, known: u64, read: &CommittedRead) -> bool
    ensures { result ≡ is_so keys.now.history known read.now }
{
    if keys.revision() < read.of_rev {
        return false;
    }
    let state = keys.look_back(read.key.as_str(), read.of_rev);
    if read.of_rev < known && is_lost(read.of_rev, state) {
        is_possible(&read.value, read.mod_rev) && read.mod_rev <= read.of_rev
    } else {
        is_value(&read.value, state) && read.mod_rev == found_mod_rev(state)
    }
}

/// Whether a read says what its key was not.
pub(crate) fn is_untrue(keys: &Keys, known: u64, read: &CommittedRead) -> bool
    ensures { result ≡ is_untrue keys.now.history known read.now }
{
    !is_so(keys, known, read)
}

/// The first of these reads that says what was not so.
pub(crate) fn find_untrue<'a>(
    keys: &Keys,
    known: u64,
    reads: &'a [CommittedRead],
) -> Option<&'a CommittedRead>
    ensures { option_copied result ≡ find (is_untrue keys.now.history known) reads.now }
{
    reads.iter().find(|read| is_untrue(keys, known, read))
}

/// The modification revision of a key, 0 where it is absent.
pub(crate) fn mod_rev_now(keys: &Keys, key: &str) -> u64
    ensures { result ≡ mod_of (key_now keys.now.history key.now) }
{
    found_mod_rev(keys.get(key))
}

/// Whether a read's key is not as it was read.
pub(crate) fn is_stale(keys: &Keys, read: &CommittedRead) -> bool
    ensures { result ≡ is_stale keys.now.history read.now }
{
    read.mod_rev != mod_rev_now(keys, read.key.as_str())
}

/// The first of these reads whose key is not as it was read.
pub(crate) fn find_stale<'a>(keys: &Keys, reads: &'a [CommittedRead]) -> Option<&'a CommittedRead>
    ensures { option_copied result ≡ find (is_stale keys.now.history) reads.now }
{
    reads.iter().find(|read| is_stale(keys, read))
}

/// The first revision after a read that is known to have changed its key: a change before the opening is not.
pub(crate) fn changed_at(keys: &Keys, read: &CommittedRead) -> Option<u64>
    ensures { result ≡ changed_at keys.now.history read.now }
{
    keys.next_change(read.key.as_str(), read.of_rev)
}

/// Whether there is a number, and it is not above a limit.
fn is_at_most(limit: u64, number: Option<u64>) -> bool
    ensures { result ≡ is_at_most limit number }
{
    match number {
        None => false,
        Some(number) => number <= limit,
    }
}

/// Whether a read shows a change of its key that was made at a revision or later.
fn shows_from(keys: &Keys, revision: u64, read: &CommittedRead) -> bool
    ensures { result ≡ shows_from keys.now.history revision read.now }
{
    is_at_most(
        read.of_rev,
        keys.next_change(read.key.as_str(), revision.saturating_sub(1)),
    )
}

/// Whether one of these reads does.
pub(crate) fn any_shows_from(keys: &Keys, revision: u64, reads: &[CommittedRead]) -> bool
    ensures { result ≡ list_any (shows_from keys.now.history revision) reads.now }
{
    reads.iter().any(|read| shows_from(keys, revision, read))
}

/// Whether one of these writes is of a key.
pub(crate) fn is_among(writes: &[Write], key: &str) -> bool
    ensures { result ≡ is_among writes.now key.now }
{
    writes.iter().any(|write| write.key() == key)
}

/// Whether one of these reads is of a key that these writes are of.
pub(crate) fn any_is_among(writes: &[Write], reads: &[CommittedRead]) -> bool
    ensures { result ≡ list_any (λ a. is_among writes.now a.key) reads.now }
{
    reads.iter().any(|read| is_among(writes, read.key.as_str()))
}
