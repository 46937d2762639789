//! What a store has under a key, and what a read answers.
ghost use Rattle.std.specs.Prelude.{◌≡◌, ◌↔◌, IsTrue, IfOk, option_copied};
ghost use Rattle.stm_history.specs.History.{mod_of, value_of};

use crate::text::Text;
use std::alloc::AllocError;

/// What a store has under a present key: etcd's `KeyValue` without the key itself.
///
/// The revisions are those of the store's one counter. `lease` is 0 where the key is attached to none.
#[derive(Debug, Drop, Clone, PartialEq, Eq)]
pub struct KeyState {
    /// The value of the last put.
    pub value: Text,
    /// The revision of the first put since the key was last absent.
    pub create_rev: u64,
    /// The revision of the last put.
    pub mod_rev: u64,
    /// The number of puts since the key was last absent, from 1.
    pub version: u64,
    /// The lease of the last put, 0 for none.
    pub lease: u64,
}

/// The answer to a read of one key.
#[derive(Debug, Drop, Clone)]
pub struct ReadAnswer {
    /// The key that was read.
    pub key: Text,
    /// What the key had at `of_rev`, `None` where it was absent.
    pub kv: Option<KeyState>,
    /// The revision that the answer shows.
    pub of_rev: u64,
    /// The store's revision that the answer carries, as the header of etcd's response does.
    pub revision: u64,
}

/// The value of a key's state, "" where the key is absent.
pub fn value_of(kv: &Option<KeyState>) -> &str
    ensures { result.now ≡ value_of kv.now }
{
    match kv {
        None => "",
        Some(state) => state.value.as_str(),
    }
}

/// The modification revision of a key's state, 0 where the key is absent.
pub fn mod_rev_of(kv: &Option<KeyState>) -> u64
    ensures { result ≡ mod_of kv.now }
{
    match kv {
        None => 0,
        Some(state) => state.mod_rev,
    }
}

/// The modification revision of a key that was looked up, 0 where it is absent.
pub fn found_mod_rev(found: Option<&KeyState>) -> u64
    ensures { result ≡ mod_of (option_copied found.entry) }
{
    match found {
        None => 0,
        Some(state) => state.mod_rev,
    }
}

/// A copy of what a key that was looked up has, where it is present. Out of memory is its only refusal.
pub fn copy_found(found: Option<&KeyState>) -> Result<Option<KeyState>, AllocError>
    ensures { IfOk result (λ copy. copy ≡ option_copied found.entry) }
{
    match found {
        None => Ok(None),
        Some(state) => {
            let copy = state.clone()?;
            Ok(Some(copy))
        }
    }
}

/// Whether two states of a key are the same.
pub fn are_same_states(left: &KeyState, right: &KeyState) -> bool
    ensures { IsTrue result ↔ left.now ≡ right.now }
{
    left == right
}
