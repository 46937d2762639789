//! A transaction, as its closure sees it.
ghost use Rattle.std.specs.Prelude.{◌≡◌, ◌≤◌, true, None as NoneOf, IfOk, IfSome, OnOk, OnErr};
ghost use Rattle.stm_program.specs.Levels.{is_serializable};
ghost use Rattle.stm_history.specs.declared.change.Change.TheVariants.{Put, Del};
ghost use Rattle.stm_compile.specs.Answers.{answer_in};
ghost use Rattle.stm_outcome.specs.Numbers.{ReadFits};
ghost use Rattle.stm_attempt.specs.Fetches.{HaveOneBase};
ghost use Rattle.stm_closures.specs.Transactions.{begun_after, with_read, with_write, IsOfBase, IsAnswered, HasRead, HasGot, HasTold, MayHaveRead, IsFetchedBy, kept_at, value_answered};

use crate::serving::{copy_serving, fetch_revision};
use crate::store_access::Fetch;
use crate::transaction_error::TransactionError;
use std::alloc::{AllocError, Global};
use std::marker::Model;
use stm_attempt::{Level, ReadAnswer, ReadSet, Write, WriteBuffer};
use stm_hall::{FetchRefusal, Text};
use stm_history::{mod_rev_of, value_of};

/// A transaction that is under way: what it has read and written.
///
/// Contracts see its level, its answers in the order of first reads, the answers that a failed commit read again for it, and the last write of each
/// key. At the two serializable levels all that it has read is of one revision.
pub struct Transaction<'a, D: Fetch> {
    alloc: Global,
    store: &'a D,
    level: Level,
    reads: ReadSet,
    again: ReadSet,
    writes: WriteBuffer,
}

impl<'a, D: Fetch> Drop for Transaction<'a, D> {
    fn drop(self) {
        let Transaction {
            alloc: _,
            store: _,
            level: _,
            reads: _,
            again: _,
            writes: _,
        } = self;
    }
}

impl<'a, D: Fetch> Model for Transaction<'a, D> {
    ghost use Rattle.std.specs.Prelude.{◌≡◌, true};
    ghost use Rattle.stm_program.specs.Levels.{is_serializable};
    ghost use Rattle.stm_attempt.specs.Fetches.{HaveOneBase};
    ghost use Rattle.stm_closures.specs.TransactionState.{TransactionState};

    ghost Value = { TransactionState };

    ghost view = { λ t. record { level = t.level; reads = t.reads; again = t.again; writes = t.writes } };

    ghost invariant = { λ t. is_serializable t.level ≡ true → HaveOneBase t.reads };
}

impl<'a, D: Fetch> Transaction<'a, D> {
    /// A transaction that begins. What was read again by a failed commit serves it at the serializable levels. It takes no memory.
    pub(crate) fn begin(
        alloc: Global,
        store: &'a D,
        level: Level,
        again: ReadSet,
    ) -> Transaction<'a, D>
        ensures { result ≡ begun_after level again }
    {
        Transaction {
            alloc,
            store,
            level,
            reads: ReadSet::new(alloc),
            again: kept_at(alloc, level, again),
            writes: WriteBuffer::new(alloc),
        }
    }

    /// Fetches a key, at the base revision where the level has one.
    fn fetch(&self, key: &str) -> Result<ReadAnswer, FetchRefusal>
        ensures answer { IfOk result (IsFetchedBy self.now key.now) }
        ensures in_range { IfOk result ReadFits }
    {
        let at = fetch_revision(self.level, &self.reads);
        self.store.fetch_key(self.alloc, key, at)
    }

    /// The answer for a key that was not read: one that was read again and serves, or else a fetched one.
    fn answer(&self, key: &str) -> Result<ReadAnswer, TransactionError>
        requires { answer_in key.now self.now.reads ≡ NoneOf }
        ensures answer { IfOk result (IsAnswered self.now key.now) }
        ensures in_range { IfOk result ReadFits }
    {
        if let Some(answer) = copy_serving(&self.reads, &self.again, key)? {
            return Ok(answer);
        }
        let answer = self.fetch(key)?;
        Ok(answer)
    }

    /// Records an answer.
    fn record(&mut self, answer: ReadAnswer) -> Result<(), AllocError>
        requires new_key { answer_in answer.key self.old.reads ≡ NoneOf }
        requires in_range { ReadFits answer }
        requires of_base { is_serializable self.old.level ≡ true → IsOfBase self.old.reads answer }
        ensures ok { OnOk result (self.new ≡ with_read self.old answer) }
        ensures err { OnErr result (self.new ≡ self.old) }
    {
        self.reads.add(answer)?;
        Ok(())
    }

    /// Reads a key, unless it was read.
    fn read(&mut self, key: &str) -> Result<(), TransactionError>
        ensures ok { OnOk result (HasRead key.now self.old self.new) }
        ensures err { OnErr result (self.new ≡ self.old) }
    {
        if self.reads.get(key).is_some() {
            return Ok(());
        }
        let answer = self.answer(key)?;
        self.record(answer)?;
        Ok(())
    }

    /// A copy of the value that was read of a key, "" where it is absent.
    fn value_read(&self, key: &str) -> Result<Text, AllocError>
        ensures { IfOk result (λ value. value ≡ value_answered (answer_in key.now self.now.reads)) }
    {
        match self.reads.get(key) {
            None => Text::copy_of(self.alloc, ""),
            Some(answer) => Text::copy_of(self.alloc, value_of(&answer.kv)),
        }
    }

    /// The value of a key, as the transaction sees it: what it wrote last, or else what it read, "" where the key is absent. A key that it neither wrote
    /// nor read is fetched, and recorded: at the two serializable levels as it was at the revision of the first read, and at the others as it is now.
    ///
    /// It is refused as a fetch is (`EmptyKey`, `Compacted`), and the transaction is then as it was, or for want of memory, which may come after the key
    /// was read. (The Go package `clientv3/concurrency`, "STM": `Get`.)
    pub fn get(&mut self, key: &str) -> Result<Text, TransactionError>
        ensures value { IfOk result (λ value. HasGot key.now self.old self.new value) }
        ensures err { OnErr result (MayHaveRead key.now self.old self.new) }
    {
        if let Some(write) = self.writes.get(key) {
            let value = Text::copy_of(self.alloc, write.value())?;
            return Ok(value);
        }
        self.read(key)?;
        let value = self.value_read(key)?;
        Ok(value)
    }

    /// The modification revision of what was read of a key, 0 where it is absent. A key that was not read is read as `get` reads it, also where it was
    /// written. (The Go package `clientv3/concurrency`, "STM": `Rev`.)
    pub fn rev(&mut self, key: &str) -> Result<u64, TransactionError>
        ensures told { IfOk result (λ revision. HasTold key.now self.old self.new revision) }
        ensures err { OnErr result (self.new ≡ self.old) }
    {
        self.read(key)?;
        match self.reads.get(key) {
            None => Ok(0),
            Some(answer) => Ok(mod_rev_of(&answer.kv)),
        }
    }

    /// Writes a key.
    fn write(&mut self, write: Write) -> Result<(), AllocError>
        ensures ok { OnOk result (self.new ≡ with_write self.old write) }
        ensures err { OnErr result (self.new ≡ self.old) }
    {
        self.writes.write(write)?;
        Ok(())
    }

    /// Puts a value under a key, on a lease, 0 for none. The store sees it at the commit.
    pub fn put(&mut self, key: &str, value: &str, lease: u64) -> Result<(), TransactionError>
        ensures ok { OnOk result (self.new ≡ with_write self.old (Put key.now value.now lease)) }
        ensures err { OnErr result (self.new ≡ self.old) }
    {
        let key = Text::copy_of(self.alloc, key)?;
        let value = Text::copy_of(self.alloc, value)?;
        self.write(Write::Put { key, value, lease })?;
        Ok(())
    }

    /// Deletes a key. The store sees it at the commit.
    pub fn del(&mut self, key: &str) -> Result<(), TransactionError>
        ensures ok { OnOk result (self.new ≡ with_write self.old (Del key.now)) }
        ensures err { OnErr result (self.new ≡ self.old) }
    {
        let key = Text::copy_of(self.alloc, key)?;
        self.write(Write::Del { key })?;
        Ok(())
    }

    /// All that was read, in the order of first reads: at the two serializable levels of one revision.
    pub fn reads(&self) -> &[ReadAnswer]
        ensures reads { result.now ≡ self.now.reads }
        ensures one_revision { is_serializable self.now.level ≡ true → HaveOneBase self.now.reads }
    {
        self.reads.as_slice()
    }

    /// Ends it, with what was read and written at this level.
    pub(crate) fn into_parts(self) -> (Level, ReadSet, WriteBuffer)
        ensures parts { (result.0 ≡ self.entry.level) × (result.1 ≡ self.entry.reads) × (result.2 ≡ self.entry.writes) }
        ensures one_revision { is_serializable self.entry.level ≡ true → HaveOneBase self.entry.reads }
    {
        let Transaction {
            alloc: _,
            store: _,
            level,
            reads,
            again: _,
            writes,
        } = self;
        (level, reads, writes)
    }
}

/// What a failed commit read again, at a level at which it may serve.
fn kept_at(alloc: Global, level: Level, again: ReadSet) -> ReadSet
    ensures { result ≡ kept_at level again }
{
    if level.is_serializable() {
        again
    } else {
        ReadSet::new(alloc)
    }
}
