//! Whether entries leave the same live leases.
ghost use Rattle.std.specs.Prelude.{◌≡◌, ◌<◌, ◌≤◌, true, [], ◌∷◌, ◌++◌, length, drop, slice_get, Some, IfSome};
ghost use Rattle.stm_entries.specs.declared.entry.Entry.{Entry as EntryValue};
ghost use Rattle.stm_entries.specs.Replayed.{Replayed};
ghost use Rattle.stm_entries.specs.Replay.{replay};
ghost use Rattle.stm_alike.specs.Leases.{is_about_lease, leases_of};

use crate::entries::is_same_entry;
use stm_entries::Entry;

/// Whether an entry is about a lease.
fn is_about_lease(entry: &Entry) -> bool
    ensures { result ≡ is_about_lease entry.now }
{
    match entry {
        Entry::Program { .. } => false,
        Entry::Foreign { .. } => false,
        _ => true,
    }
}

/// The index of the first entry from there on that is about a lease, the number of entries where there is none.
fn find_lease(entries: &[Entry], from: usize) -> usize
    requires { from ≤ length entries.now }
    ensures skipped { leases_of (drop from entries.now) ≡ leases_of (drop result entries.now) }
    ensures within { result ≤ length entries.now }
{
    for index in from..entries.len() {
        if is_about_lease(&entries[index]) {
            return index;
        }
    }
    entries.len()
}

/// Where other entries go on after this one, if their next one about a lease is the same. After an entry that is about no lease they go on where they
/// stand.
fn after_same(entry: &Entry, others: &[Entry], from: usize) -> Option<usize>
    requires { from ≤ length others.now }
    ensures same { IfSome result (λ next. leases_of (entry.now ∷ []) ++ leases_of (drop next others.now) ≡ leases_of (drop from others.now)) }
    ensures within { IfSome result (λ next. next ≤ length others.now) }
{
    if !is_about_lease(entry) {
        return Some(from);
    }
    let index = find_lease(others, from);
    if index < others.len() && is_same_entry(entry, &others[index]) {
        return Some(index + 1);
    }
    None
}

/// Whether no entry from there on is about a lease.
fn has_no_lease(entries: &[Entry], from: usize) -> bool
    requires { from ≤ length entries.now }
    ensures { result ≡ true → leases_of (drop from entries.now) ≡ [] }
{
    find_lease(entries, from) == entries.len()
}

/// Whether these entries leave the same live leases as those, wherever they are replayed.
pub fn leave_same_leases(left: &[Entry], right: &[Entry]) -> bool
    ensures { result ≡ true → (r : Replayed) → (replay left.now r).live ≡ (replay right.now r).live }
{
    let mut next = 0;
    for entry in left {
        match after_same(entry, right, next) {
            Some(after) => next = after,
            None => return false,
        }
    }
    has_no_lease(right, next)
}
