//! A program that is run over a store at once.
ghost use Rattle.std.specs.Prelude.{◌≡◌, All, IfOk, OnErr, OnOk};
ghost use Rattle.stm_driving.specs.AtOnce.{HasRunAtOnce, IsCommittedAtOnce, IsReadNow};

use std::alloc::Global;
use stm_attempt::{ReadSet, WriteBuffer, compile};
use stm_history::Text;
use stm_journal::read;
use stm_meaning::{End, Run};
use stm_program::{Level, Program};
use stm_retry::run_now;
use stm_txn::{Refusal, Store};

/// Adds a key as it is now to what is read, unless it is there.
fn read_key(alloc: Global, store: &Store, key: &Text, reads: &mut ReadSet) -> Result<(), Refusal>
    requires { All (IsReadNow store.now.standing.history) reads.old }
    ensures { OnOk result (All (IsReadNow store.now.standing.history) reads.new) }
{
    if reads.get(key.as_str()).is_some() {
        return Ok(());
    }
    let answer = read(alloc, store, key.as_str(), 0)?;
    if reads.get(answer.key.as_str()).is_none() {
        reads.add(answer)?;
    }
    Ok(())
}

/// These keys as they are now.
fn read_keys(alloc: Global, store: &Store, keys: &[Text]) -> Result<ReadSet, Refusal>
    ensures { IfOk result (All (IsReadNow store.now.standing.history)) }
{
    let mut reads = ReadSet::new(alloc);
    for key in keys {
        read_key(alloc, store, key, &mut reads)?;
    }
    Ok(reads)
}

/// Commits what a run on the store as it is has read and written.
fn commit_run(alloc: Global, store: &mut Store, level: Level, run: &Run) -> Result<(), Refusal>
    ensures ok { OnOk result (IsCommittedAtOnce level run.now store.old.standing store.new.standing) }
    ensures err { OnErr result (store.new.standing ≡ store.old.standing) }
{
    // (a store's counter is not above the highest revision)
    let _counter = store.keys().revision();
    let reads = read_keys(alloc, store, run.reads.as_slice())?;
    let writes = WriteBuffer::of(alloc, run.writes.as_slice())?;
    let txn = compile(alloc, level, &reads, &writes)?;
    store.txn(&txn)?;
    Ok(())
}

/// Runs a program over a store at once, while nobody comes between, and commits what it wrote by one transaction, as its level has it.
///
/// The run is that of the program on the store as it is. Where it comes to its last statement, the store makes the commit, of which no compare can fail; where
/// it aborts or comes to a fault, nothing is changed.
///
/// Refused, the store is as it was. `TooManyOps`: it has read or written more keys than the store takes operations. `LeaseNotFound`: a put names a lease that
/// is not live. `RevisionsUsedUp`: something would change at the highest revision. `OutOfMemory`: an allocation failed.
pub fn run_at_once(
    alloc: Global,
    store: &mut Store,
    program: &Program,
    level: Level,
) -> Result<Run, Refusal>
    ensures ok { IfOk result (λ run. HasRunAtOnce program.now level run store.old.standing store.new.standing) }
    ensures err { OnErr result (store.new.standing ≡ store.old.standing) }
{
    let run = run_now(alloc, program, store.keys())?;
    if run.end == End::Done {
        commit_run(alloc, store, level, &run)?;
    }
    Ok(run)
}
