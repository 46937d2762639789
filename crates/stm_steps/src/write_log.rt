//! The writes of a run, in which the last one of a key is found without a long search.
ghost use Rattle.std.specs.Prelude.{◌≡◌, ◌<◌, ◌≤◌, [], ◌∷◌, ◌++◌, Some, length, drop, slice_get, OnOk, OnErr};
ghost use Rattle.std.specs.Option.{option_copied};
ghost use Rattle.std.specs.Map;
ghost use Rattle.stm_program.specs.Writes.{last_write as last_of_key};
ghost use Rattle.stm_steps.specs.declared.searched.TheConstants.{MOST_SEARCHED};

use crate::searched::MOST_SEARCHED;
use indexmap::IndexMap;
use std::alloc::{AllocError, Global};
use std::marker::Model;
use stm_history::Sequence;
use stm_program::{Write, last_write};

/// Writes in order. Contracts see the list of them.
///
/// An index leads from each key to the place of its last write, among the writes after the first sixteen, so that a run's work grows only
/// with its steps.
#[derive(Debug)]
pub(crate) struct WriteLog {
    writes: Vec<Write>,
    // of the writes after those that are searched, counted from there
    last_places: IndexMap<String, usize>,
}

impl Drop for WriteLog {
    fn drop(self) {
        let WriteLog {
            writes: _,
            last_places: _,
        } = self;
    }
}

impl Model for WriteLog {
    ghost use Rattle.std.specs.Prelude.{List, drop};
    ghost use Rattle.std.specs.Map;
    ghost use Rattle.indexmap.specs.IndexMap.{get_by_text};
    ghost use Rattle.stm_history.specs.declared.change.Change.{Change};
    ghost use Rattle.stm_steps.specs.declared.searched.TheConstants.{MOST_SEARCHED};
    ghost use Rattle.stm_steps.specs.LastPlaces.{AreLastPlaces};

    ghost Value = { List Change };

    ghost view = { λ s. s.writes.items };

    ghost invariant = { λ s. AreLastPlaces (drop MOST_SEARCHED s.writes.items) (get_by_text s.last_places) };
}

/// The write at a place.
fn write_at(writes: &[Write], place: usize) -> &Write
    requires { place < length writes.now }
    ensures { slice_get writes.now place ≡ Some result.now }
{
    &writes[place]
}

impl WriteLog {
    /// No writes. It allocates nothing.
    pub fn new(alloc: Global) -> WriteLog
        ensures { result ≡ [] }
    {
        WriteLog {
            writes: Vec::new(alloc),
            last_places: IndexMap::new(alloc),
        }
    }

    /// Adds a write after those that are searched, and its place to the index.
    fn push_indexed(&mut self, write: Write) -> Result<(), AllocError>
        requires { MOST_SEARCHED ≤ length self.old }
        ensures ok { OnOk result (self.new ≡ self.old ++ write ∷ []) }
        ensures err { OnErr result (self.new ≡ self.old) }
    {
        let key = String::from_str(*self.writes.allocator(), write.key())?;
        self.writes.reserve(1)?;
        self.last_places
            .insert(key, self.writes.len() - MOST_SEARCHED)?;
        self.writes.push_reserved(write);
        Ok(())
    }

    /// Adds a write to those that are searched.
    fn push_searched(&mut self, write: Write) -> Result<(), AllocError>
        requires { length self.old < MOST_SEARCHED }
        ensures ok { OnOk result (self.new ≡ self.old ++ write ∷ []) }
        ensures err { OnErr result (self.new ≡ self.old) }
    {
        self.writes.push(write)?;
        Ok(())
    }

    /// Adds a write at the end. An allocation failure leaves the writes as they were.
    #[inline(always)]
    pub fn push(&mut self, write: Write) -> Result<(), AllocError>
        ensures ok { OnOk result (self.new ≡ self.old ++ write ∷ []) }
        ensures err { OnErr result (self.new ≡ self.old) }
    {
        if self.writes.len() < MOST_SEARCHED {
            self.push_searched(write)
        } else {
            self.push_indexed(write)
        }
    }

    /// The last write of a key among those that are not searched.
    fn last_indexed(&self, key: &str) -> Option<&Write>
        requires { MOST_SEARCHED ≤ length self.now }
        ensures { option_copied result ≡ last_of_key key.now (drop MOST_SEARCHED self.now) }
    {
        let (_, indexed) = self.writes.as_slice().split_at(MOST_SEARCHED);
        let place = *self.last_places.get(key)?;
        Some(write_at(indexed, place))
    }

    /// The last write of a key, where there are more than are searched.
    fn last_of_many(&self, key: &str) -> Option<&Write>
        requires { MOST_SEARCHED ≤ length self.now }
        ensures { option_copied result ≡ last_of_key key.now self.now }
    {
        match self.last_indexed(key) {
            Some(write) => Some(write),
            None => {
                let (searched, _) = self.writes.as_slice().split_at(MOST_SEARCHED);
                last_write(searched, key)
            }
        }
    }

    /// The last write of a key.
    pub fn last(&self, key: &str) -> Option<&Write>
        ensures { option_copied result ≡ last_of_key key.now self.now }
    {
        if self.writes.len() <= MOST_SEARCHED {
            last_write(self.writes.as_slice(), key)
        } else {
            self.last_of_many(key)
        }
    }

    /// The writes in order. It allocates nothing.
    pub fn into_sequence(self) -> Sequence<Write>
        ensures { result ≡ self }
    {
        let WriteLog {
            writes,
            last_places: _,
        } = self;
        Sequence::of(writes)
    }
}
