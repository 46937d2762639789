//! A state that programs run on.
ghost use Rattle.std.specs.Prelude.{◌≡◌, ◌<◌, ◌≤◌, ℕ, List, [], length, bytes_eq, if◌then◌else◌, slice_get, Some, IfSome, IfOk, IfErr, OnOk, OnErr};
ghost use Rattle.std.specs.Option.{option_copied};
ghost use Rattle.stm_history.specs.declared.revisions.TheConstants.{HIGHEST_NUMBER};

use crate::lookup::Lookup;
use std::alloc::{AllocError, Global};
use std::marker::Model;
use stm_history::Text;

/// A present key of a state.
#[derive(Debug, PartialEq, Eq, Drop)]
pub struct StateEntry {
    /// The key.
    pub key: Text,
    /// Its value.
    pub value: Text,
    /// Its modification revision, at most `HIGHEST_NUMBER`.
    pub mod_rev: u64,
}

/// A state: the present keys with their values and modification revisions, ascending by the keys' bytes.
#[derive(Debug, Drop)]
pub struct State {
    entries: Vec<StateEntry>,
}

impl Model for State {
    ghost use Rattle.std.specs.Prelude.{List};
    ghost use Rattle.stm_steps.specs.declared.state.StateEntry.{StateEntry};

    ghost Value = { List StateEntry };

    ghost view = { λ s. s.entries.items };

    ghost use Rattle.stm_steps.specs.States.{IsAscending, AreInRange};

    ghost invariant = { λ s. IsAscending s.entries.items × AreInRange s.entries.items };
}

impl State {
    ghost use Rattle.stm_steps.specs.States.{find_entry, with_entry, IsAscending};
    ghost use Rattle.stm_steps.specs.Places.{IsAt, IsGapFor};

    /// The state without a key. It allocates nothing.
    pub fn new(alloc: Global) -> State
        ensures { result ≡ [] }
    {
        State {
            entries: Vec::new(alloc),
        }
    }

    /// The number of keys.
    pub fn len(&self) -> usize
        ensures { result ≡ length self.now }
    {
        self.entries.len()
    }

    /// The key with this index, counted from 0, ascending by bytes.
    pub fn at(&self, i: usize) -> &StateEntry
        requires { i < length self.now }
        ensures entry { slice_get self.now i ≡ Some result.now }
        ensures ascending { IsAscending self.now }
    {
        &self.entries[i]
    }

    /// What the state has under a key.
    pub fn get(&self, key: &str) -> Option<&StateEntry>
        ensures entry { option_copied result ≡ find_entry key.now self.now }
        ensures in_range { IfSome result (λ entry. entry.now.mod_rev ≤ HIGHEST_NUMBER) }
    {
        match self.search(key) {
            Ok(at) => Some(&self.entries[at]),
            Err(_) => None,
        }
    }

    /// Puts a key with a value and a modification revision, in place of what the state had under the key. Every
    /// other key stays as it is. An allocation failure leaves the state as it was.
    pub fn insert(&mut self, key: Text, value: Text, mod_rev: u64) -> Result<(), AllocError>
        requires { mod_rev ≤ HIGHEST_NUMBER }
        ensures ok { OnOk result (self.new ≡ with_entry (record { key = key; value = value; mod_rev = mod_rev }) self.old) }
        ensures entry { OnOk result ((other : List ℕ) → find_entry other self.new
            ≡ (if bytes_eq key other then Some (record { key = key; value = value; mod_rev = mod_rev }) else find_entry other self.old)) }
        ensures err { OnErr result (self.new ≡ self.old) }
    {
        let place = self.search(key.as_str());
        let entry = StateEntry {
            key,
            value,
            mod_rev,
        };
        match place {
            Ok(at) => {
                self.entries[at] = entry;
                Ok(())
            }
            Err(at) => Ok(self.entries.insert(at, entry)?),
        }
    }

    // where the key is, or where it would go
    fn search(&self, key: &str) -> Result<usize, usize>
        ensures found { IfOk result (IsAt self.now key.now) }
        ensures absent { IfErr result (IsGapFor self.now key.now) }
    {
        self.entries
            .binary_search_by(|entry| entry.key.as_str().cmp(key))
    }
}

impl Lookup for State {
    ghost use Rattle.stm_steps.specs.States.{state_answers};

    ghost answers = { state_answers };

    fn value(&self, key: &str) -> Option<&str> {
        match self.get(key) {
            Some(entry) => Some(entry.value.as_str()),
            None => Some(""),
        }
    }

    fn mod_rev(&self, key: &str) -> Option<u64> {
        match self.get(key) {
            Some(entry) => Some(entry.mod_rev),
            None => Some(0),
        }
    }
}
