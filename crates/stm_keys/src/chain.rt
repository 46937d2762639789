//! The version chain of a key: what the key was before the revisions that are kept, and which of these changed it.
ghost use Rattle.std.specs.VecDeque.{deque_len};
ghost use Rattle.std.specs.Prelude.{◌≡◌, ◌==◌, ◌↔◌, ◌<◌, ◌≤◌, IsTrue, if◌then◌else◌, true, None, Some, [], IfOk, OnOk, reverse, slice_get, option_map, option_copied};
ghost use Rattle.std.specs.List.Sorted.{IsNonDecreasing};

use std::alloc::{AllocError, Global};
use std::collections::VecDeque;
use std::marker::Model;
use stm_history::KeyState;

/// For how many versions a new chain has room: most keys that change do so more than once, and a list of one would grow at each of their first puts.
const FIRST_ROOM: usize = 4;

/// One version of a key: which revision changed it, and where its event is looked for first.
#[derive(Debug, Drop, Clone, Copy)]
pub(crate) struct Version {
    /// The number of the revision that changed the key.
    pub(crate) number: u64,
    /// Where the key's event stands among those of the revision. No contract says so: a wrong one costs a walk over them.
    pub(crate) spot: usize,
}

/// What one key was before the revisions that are kept, its versions since, their numbers rising, and the newest of them once more: what a
/// key is now is found without a look at the list.
///
/// Contracts see the numbers with the newest first, and for how many more there is room.
#[derive(Debug, Drop)]
pub(crate) struct Chain {
    before: Option<KeyState>,
    versions: VecDeque<Version>,
    newest: Option<Version>,
}

impl Model for Chain {
    ghost use Rattle.std.specs.Prelude.{◌≡◌, ◌-◌, reverse, map, slice_get, option_map};
    ghost use Rattle.std.specs.VecDeque.{deque_len, deque_capacity};
    ghost use Rattle.stm_keys.specs.Chains.{Chain as Kept, number_of};

    ghost Value = { Kept };

    ghost view = { λ c. record {
      versions = record { before = c.before; numbers = reverse (map number_of c.versions.items) };
      room = deque_capacity c.versions - deque_len c.versions;
    } };

    ghost invariant = { λ c. option_map number_of c.newest ≡ slice_get (reverse (map number_of c.versions.items)) 0 };
}

/// The newest version once the oldest was dropped: it stays unless it was the only one.
fn still_newest(versions: &VecDeque<Version>, newest: Option<Version>) -> Option<Version>
    ensures { result ≡ (if deque_len versions.now == 0 then None else newest) }
{
    if versions.is_empty() {
        return None;
    }
    newest
}

/// A copy of the versions.
fn copy_versions(versions: &VecDeque<Version>) -> Result<VecDeque<Version>, AllocError>
    ensures { IfOk result (λ copy. copy.items ≡ versions.now.items) }
{
    let copy = versions.clone()?;
    Ok(copy)
}

/// A copy of what a key was.
fn copy_before(before: &Option<KeyState>) -> Result<Option<KeyState>, AllocError>
    ensures { IfOk result (λ copy. copy ≡ before.now) }
{
    match before {
        None => Ok(None),
        Some(state) => {
            let copy = state.clone()?;
            Ok(Some(copy))
        }
    }
}

/// The copy has the same versions. How much room it has is left open.
impl Clone for Chain {
    ghost is_clone = { λ chain copy. copy.versions ≡ chain.versions };

    fn clone(&self) -> Result<Chain, AllocError> {
        let before = copy_before(&self.before)?;
        let versions = copy_versions(&self.versions)?;
        Ok(Chain {
            before,
            versions,
            newest: self.newest,
        })
    }
}

impl Chain {
    ghost use Rattle.stm_keys.specs.Chains.{no_versions, with_version, without_oldest, newest_below, oldest_from, number_of};

    /// A chain of no version, and room for a few. Its key was absent before.
    pub(crate) fn with_room(alloc: Global) -> Result<Chain, AllocError>
        ensures empty { IfOk result (λ chain. chain.versions ≡ no_versions) }
        ensures room { IfOk result (λ chain. 0 < chain.room) }
    {
        let versions = VecDeque::with_capacity(alloc, FIRST_ROOM)?;
        Ok(Chain {
            before: None,
            versions,
            newest: None,
        })
    }

    /// A chain of no version, whose key was in this state before. It takes no memory.
    pub(crate) fn opened(alloc: Global, state: KeyState) -> Chain
        ensures { result.versions ≡ record { before = Some state; numbers = [] } }
    {
        Chain {
            before: Some(state),
            versions: VecDeque::new(alloc),
            newest: None,
        }
    }

    /// Makes room for one more.
    pub(crate) fn make_room(&mut self) -> Result<(), AllocError>
        ensures versions { self.new.versions ≡ self.old.versions }
        ensures more { self.old.room ≤ self.new.room }
        ensures room { OnOk result (0 < self.new.room) }
    {
        self.versions.reserve(1)?;
        Ok(())
    }

    /// Adds the newest version, for which there is room.
    pub(crate) fn push(&mut self, version: Version)
        requires { 0 < self.old.room }
        ensures { self.new.versions ≡ with_version true (number_of version) self.old.versions }
    {
        self.versions.push_back_reserved(version);
        self.newest = Some(version);
    }

    /// Forgets the oldest version, after which the key was `before`. It takes no memory.
    pub(crate) fn forget_oldest(&mut self, before: Option<KeyState>)
        ensures { self.new.versions ≡ record { before = before; numbers = without_oldest self.old.versions.numbers } }
    {
        let _oldest = self.versions.pop_front();
        self.newest = still_newest(&self.versions, self.newest);
        self.before = before;
    }

    /// Whether the key was absent before the revisions that are kept and has no version.
    pub(crate) fn is_gone(&self) -> bool
        ensures { IsTrue result ↔ (self.now.versions ≡ no_versions) }
    {
        self.before.is_none() && self.newest.is_none()
    }

    /// What the key was before the revisions that are kept.
    pub(crate) fn before(&self) -> Option<&KeyState>
        ensures { option_copied result ≡ self.now.versions.before }
    {
        match &self.before {
            None => None,
            Some(state) => Some(state),
        }
    }

    /// The newest version.
    pub(crate) fn newest(&self) -> Option<Version>
        ensures { option_map number_of result ≡ slice_get self.now.versions.numbers 0 }
    {
        self.newest
    }

    /// The newest version whose number is below a bound, found by halves.
    pub(crate) fn newest_below(&self, bound: u64) -> Option<Version>
        requires { IsNonDecreasing (reverse self.now.versions.numbers) }
        ensures { option_map number_of result ≡ newest_below bound self.now.versions.numbers }
    {
        let older = self
            .versions
            .partition_point(|version| version.number < bound);
        if older == 0 {
            return None;
        }
        Some(self.versions[older - 1])
    }

    /// The oldest number that is not below a bound, found by halves.
    pub(crate) fn oldest_from(&self, bound: u64) -> Option<u64>
        requires { IsNonDecreasing (reverse self.now.versions.numbers) }
        ensures { result ≡ oldest_from bound self.now.versions.numbers }
    {
        let older = self
            .versions
            .partition_point(|version| version.number < bound);
        if older >= self.versions.len() {
            return None;
        }
        Some(self.versions[older].number)
    }
}
