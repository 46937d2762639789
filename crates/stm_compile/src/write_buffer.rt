//! What an attempt has written.
ghost use Rattle.std.specs.Prelude.{◌≡◌, ◌<◌, [], ◌∷◌, ◌++◌, None, Some, true, map, bytes_eq, length, slice_get, option_copied, OnOk, OnErr, IfOk};
ghost use Rattle.std.specs.List.{position, IsDistinct};
ghost use Rattle.stm_history.specs.History.{key_of};
ghost use Rattle.stm_program.specs.Writes.{last_write as last_of_key, latest_writes as latest_of_each};

use crate::read_set::MOST_SEARCHED;
use std::alloc::{AllocError, Global};
use std::marker::Model;
use stm_history::{Change, Sequence};
use stm_program::{Write, last_write, latest_writes};

/// The last write of each key, in the order of first writes. Contracts see the list of them.
///
/// (The write set of the Go package `clientv3/concurrency`, which keeps no order.)
#[derive(Debug)]
pub struct WriteBuffer {
    writes: Vec<Write>,
}

impl Drop for WriteBuffer {
    fn drop(self) {
        let WriteBuffer { writes: _ } = self;
    }
}

impl Model for WriteBuffer {
    ghost use Rattle.std.specs.Prelude.{List, bytes_eq, map};
    ghost use Rattle.std.specs.List.{IsDistinct};
    ghost use Rattle.stm_history.specs.declared.change.Change.{Change};
    ghost use Rattle.stm_history.specs.History.{key_of};

    ghost Value = { List Change };

    ghost view = { λ s. s.writes.items };

    ghost invariant = { λ s. IsDistinct bytes_eq (map key_of s.writes.items) };
}

/// The place of the first of these writes that is of a key.
fn place_of(writes: &[Write], key: &str) -> Option<usize>
    ensures { result ≡ position (λ w. bytes_eq (key_of w) key.now) writes.now }
{
    writes.iter().position(|write| write.key() == key)
}

/// Whether no two of these writes are of one key.
fn are_apart(writes: &[Write]) -> bool
    ensures { result ≡ true → IsDistinct bytes_eq (map key_of writes.now) }
{
    match writes {
        [] => true,
        [first, rest @ ..] => place_of(rest, first.key()).is_none() && are_apart(rest),
    }
}

/// The last write of each key, for writes that are few: each is searched for.
fn search_latest(alloc: Global, writes: &[Write]) -> Result<WriteBuffer, AllocError>
    ensures { IfOk result (λ buffer. buffer ≡ latest_of_each writes.now) }
{
    let mut buffer = WriteBuffer::with_room(alloc, writes.len())?;
    for write in writes {
        buffer.write(write.clone()?)?;
    }
    Ok(buffer)
}

/// The last write of each key, by a table.
fn tabulate_latest(alloc: Global, writes: &[Write]) -> Result<WriteBuffer, AllocError>
    ensures { IfOk result (λ buffer. buffer ≡ latest_of_each writes.now) }
{
    let latest = latest_writes(alloc, writes)?;
    Ok(WriteBuffer {
        writes: latest.into_vec(),
    })
}

impl WriteBuffer {
    /// Nothing written. It takes no memory.
    pub fn new(alloc: Global) -> WriteBuffer
        ensures { result ≡ [] }
    {
        WriteBuffer {
            writes: Vec::new(alloc),
        }
    }

    /// Nothing written, and room for the writes of this many keys.
    fn with_room(alloc: Global, count: usize) -> Result<WriteBuffer, AllocError>
        ensures { IfOk result (λ buffer. buffer ≡ []) }
    {
        let writes = Vec::with_capacity(alloc, count)?;
        Ok(WriteBuffer { writes })
    }

    /// The last write of each key of a run, in the order of first writes. Out of memory is its only refusal.
    pub fn of(alloc: Global, writes: &[Write]) -> Result<WriteBuffer, AllocError>
        ensures { IfOk result (λ buffer. buffer ≡ latest_of_each writes.now) }
    {
        if writes.len() <= MOST_SEARCHED {
            search_latest(alloc, writes)
        } else {
            tabulate_latest(alloc, writes)
        }
    }

    /// Whether each of these writes of a run is the last of its key. They are searched: where they are too many for that, the answer is no.
    pub fn are_latest(writes: &[Write]) -> bool
        ensures { result ≡ true → latest_of_each writes.now ≡ writes.now }
    {
        writes.len() <= MOST_SEARCHED && are_apart(writes)
    }

    /// The writes of a run, of which each is the last of its key. It takes no memory.
    pub fn of_latest(writes: Sequence<Write>) -> WriteBuffer
        requires { latest_of_each writes ≡ writes }
        ensures { result ≡ writes }
    {
        WriteBuffer {
            writes: writes.into_vec(),
        }
    }

    /// Writes a key in the place of its earlier write.
    fn replace(&mut self, place: usize, write: Write)
        requires { position (λ w. bytes_eq (key_of w) (key_of write)) self.old ≡ Some place }
        ensures { self.new ≡ latest_of_each (self.old ++ write ∷ []) }
    {
        self.writes[place] = write;
    }

    /// Writes a key that was not written yet.
    fn add(&mut self, write: Write) -> Result<(), AllocError>
        requires { position (λ w. bytes_eq (key_of w) (key_of write)) self.old ≡ None }
        ensures ok { OnOk result (self.new ≡ latest_of_each (self.old ++ write ∷ [])) }
        ensures err { OnErr result (self.new ≡ self.old) }
    {
        self.writes.push(write)?;
        Ok(())
    }

    /// Writes a key: in the place of its earlier write, or at the end. It searches the writes.
    ///
    /// Out of memory is its only refusal, and leaves the writes as they were.
    pub fn write(&mut self, write: Write) -> Result<(), AllocError>
        ensures ok { OnOk result (self.new ≡ latest_of_each (self.old ++ write ∷ [])) }
        ensures err { OnErr result (self.new ≡ self.old) }
    {
        match place_of(self.writes.as_slice(), write.key()) {
            Some(place) => {
                self.replace(place, write);
                Ok(())
            }
            None => self.add(write),
        }
    }

    /// The number of keys written.
    pub fn len(&self) -> usize
        ensures { result ≡ length self.now }
    {
        self.writes.len()
    }

    /// The write at a place, which is below `len()`.
    pub fn at(&self, place: usize) -> &Write
        requires { place < length self.now }
        ensures { slice_get self.now place ≡ Some result.now }
    {
        &self.writes[place]
    }

    /// The last write of a key, `None` where it was not written. It searches the writes.
    pub fn get(&self, key: &str) -> Option<&Write>
        ensures { option_copied result ≡ last_of_key key.now self.now }
    {
        last_write(self.writes.as_slice(), key)
    }

    /// The writes in order, as the changes that they ask for. It takes no memory.
    pub fn into_changes(self) -> Vec<Change>
        ensures { result.items ≡ self }
    {
        let WriteBuffer { writes } = self;
        writes
    }

    /// The writes in order.
    pub(crate) fn as_slice(&self) -> &[Write]
        ensures { result.now ≡ self.now }
    {
        self.writes.as_slice()
    }
}
