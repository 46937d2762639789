//! Keys in the order in which they came.
ghost use Rattle.std.specs.Prelude.{◌≡◌, ◌<◌, ◌≤◌, [], false, length, bytes_eq, OnOk, OnErr};
ghost use Rattle.std.specs.List.{list_any};
ghost use Rattle.stm_steps.specs.Session.{with_key};
ghost use Rattle.stm_steps.specs.declared.searched.TheConstants.{MOST_SEARCHED};

use crate::searched::MOST_SEARCHED;
use indexmap::IndexSet;
use std::alloc::{AllocError, Global};
use std::marker::Model;
use stm_history::Text;

/// Keys, each once, in the order in which they came first. Contracts see the list of them.
///
/// Those after the first sixteen are in a table, too: whether a key is among them is found without a long search.
#[derive(Debug)]
pub struct KeySet {
    keys: Vec<Text>,
    indexed: IndexSet<Text>,
}

impl Drop for KeySet {
    #[inline(always)]
    fn drop(self) {
        let KeySet {
            keys: _,
            indexed: _,
        } = self;
    }
}

impl Model for KeySet {
    ghost use Rattle.std.specs.Prelude.{◌≡◌, List, ℕ, drop};
    ghost use Rattle.stm_steps.specs.declared.searched.TheConstants.{MOST_SEARCHED};

    ghost Value = { List (List ℕ) };

    ghost view = { λ s. s.keys.items };

    ghost invariant = { λ s. s.indexed.keys ≡ drop MOST_SEARCHED s.keys.items };
}

/// Whether a key is one of these.
#[inline(always)]
fn is_among(keys: &[Text], key: &Text) -> bool
    ensures { result ≡ list_any (bytes_eq key.now) keys.now }
{
    keys.contains(key)
}

impl KeySet {
    /// No keys. It allocates nothing.
    pub fn new(alloc: Global) -> KeySet
        ensures { result ≡ [] }
    {
        KeySet {
            keys: Vec::new(alloc),
            indexed: IndexSet::new(alloc),
        }
    }

    /// Whether a key is among them, where there are more than are searched.
    fn is_among_many(&self, key: &Text) -> bool
        requires { MOST_SEARCHED ≤ length self.now }
        ensures { result ≡ list_any (bytes_eq key.now) self.now }
    {
        let (searched, _) = self.keys.as_slice().split_at(MOST_SEARCHED);
        if is_among(searched, key) {
            return true;
        }
        self.indexed.contains(key)
    }

    /// Whether a key is among them.
    fn contains(&self, key: &Text) -> bool
        ensures { result ≡ list_any (bytes_eq key.now) self.now }
    {
        if self.keys.len() <= MOST_SEARCHED {
            is_among(self.keys.as_slice(), key)
        } else {
            self.is_among_many(key)
        }
    }

    /// Adds a new key after those that are searched, and to the table.
    fn push_indexed(&mut self, key: &Text) -> Result<(), AllocError>
        requires place { MOST_SEARCHED ≤ length self.old }
        requires new_key { list_any (bytes_eq key.now) self.old ≡ false }
        ensures ok { OnOk result (self.new ≡ with_key key.now self.old) }
        ensures err { OnErr result (self.new ≡ self.old) }
    {
        let copy = key.clone()?;
        let indexed = key.clone()?;
        self.keys.reserve(1)?;
        self.indexed.insert(indexed)?;
        self.keys.push_reserved(copy);
        Ok(())
    }

    /// Adds a new key to those that are searched.
    fn push_searched(&mut self, key: &Text) -> Result<(), AllocError>
        requires place { length self.old < MOST_SEARCHED }
        requires new_key { list_any (bytes_eq key.now) self.old ≡ false }
        ensures ok { OnOk result (self.new ≡ with_key key.now self.old) }
        ensures err { OnErr result (self.new ≡ self.old) }
    {
        let copy = key.clone()?;
        self.keys.push(copy)?;
        Ok(())
    }

    /// Adds a key at the end, unless it is there already. An allocation failure leaves the keys as they were.
    #[inline(always)]
    pub fn insert(&mut self, key: &Text) -> Result<(), AllocError>
        ensures ok { OnOk result (self.new ≡ with_key key.now self.old) }
        ensures err { OnErr result (self.new ≡ self.old) }
    {
        if self.contains(key) {
            return Ok(());
        }
        if self.keys.len() < MOST_SEARCHED {
            self.push_searched(key)
        } else {
            self.push_indexed(key)
        }
    }

    /// The number of keys.
    pub fn len(&self) -> usize
        ensures { result ≡ length self.now }
    {
        self.keys.len()
    }

    /// The keys in order.
    pub fn as_slice(&self) -> &[Text]
        ensures { result.now ≡ self.now }
    {
        self.keys.as_slice()
    }
}
