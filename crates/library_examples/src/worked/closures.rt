//! What a closure sees, and what comes of it.
use crate::worked::busy_store::BusyStore;
use anyhow::Result;
use std::alloc::Global;
use stm_closures::{Hall, Level, NotCommitted, Store, Text, TransactionError, atomically};

/// What a transaction sees of a key after its own writes: the value, and the modification revision that it read.
fn write_and_look(
    alloc: Global,
    hall: &mut Hall,
) -> Result<(Text, Text, u64), NotCommitted<TransactionError>> {
    atomically(alloc, hall, Level::Serializable, 1, |tx| {
        tx.put("a", "1", 0)?;
        let put = tx.get("a")?;
        tx.del("a")?;
        let deleted = tx.get("a")?;
        tx.put("a", "2", 0)?;
        tx.put("b", "3", 0)?;
        let revision = tx.rev("a")?;
        Ok((put, deleted, revision))
    })
}

/// A closure that writes, and returns an error of its own.
fn write_and_refuse(alloc: Global, hall: &mut Hall) -> Result<(), NotCommitted<TransactionError>> {
    atomically(alloc, hall, Level::Serializable, 1, |tx| {
        tx.put("a", "9", 0)?;
        Err(TransactionError::OutOfMemory)
    })
}

/// A transaction that puts on a lease that nobody granted.
fn put_on_no_lease(alloc: Global, hall: &mut Hall) -> Result<(), NotCommitted<TransactionError>> {
    atomically(
        alloc,
        hall,
        Level::Serializable,
        1,
        |tx| tx.put("a", "9", 7),
    )
}

/// The value of a key, and its modification revision.
fn look(
    alloc: Global,
    hall: &mut Hall,
    key: &str,
) -> Result<(Text, u64), NotCommitted<TransactionError>> {
    atomically(alloc, hall, Level::RepeatableReads, 1, |tx| {
        let value = tx.get(key)?;
        let revision = tx.rev(key)?;
        Ok((value, revision))
    })
}

fn say(
    rt: &impl Print,
    what: &str,
    done: Result<(), NotCommitted<TransactionError>>,
) -> Result<()> {
    match done {
        Ok(()) => println!(rt; "{what}: committed")?,
        Err(reason) => println!(rt; "{what}: {reason}")?,
    }
    Ok(())
}

fn play_in_a_hall(rt: &impl Print, alloc: Global, hall: &mut Hall) -> Result<()> {
    let (put, deleted, revision) = write_and_look(alloc, hall)?;
    println!(rt; "own writes: \"{put}\", \"{deleted}\", read at {revision}")?;
    let (value, revision) = look(alloc, hall, "a")?;
    println!(rt;
        "a = \"{value}\" @{revision}, entries {}",
        hall.entries().len()
    )?;
    say(rt, "own error", write_and_refuse(alloc, hall))?;
    say(rt, "no lease", put_on_no_lease(alloc, hall))?;
    let (value, revision) = look(alloc, hall, "a")?;
    println!(rt;
        "a = \"{value}\" @{revision}, entries {}",
        hall.entries().len()
    )?;
    Ok(())
}

/// Own writes come first, all of them are one revision and one entry, and a refusal changes nothing.
pub(crate) fn in_a_hall(rt: &impl Print, alloc: Global) -> Result<()> {
    let store = Store::new(alloc)?;
    let mut hall = Hall::new(alloc, store);
    let played = play_in_a_hall(rt, alloc, &mut hall);
    drop(hall);
    played
}

/// Copies "x" to "y".
fn copy_x(
    alloc: Global,
    store: &mut BusyStore,
    level: Level,
    attempts: u64,
) -> Result<(), NotCommitted<TransactionError>> {
    atomically(alloc, store, level, attempts, |tx| {
        let value = tx.get("x")?;
        tx.put("y", value.as_str(), 0)
    })
}

fn play_among_others(rt: &impl Print, alloc: Global, store: &mut BusyStore) -> Result<()> {
    store.disturbed = 2;
    say(
        rt,
        "two attempts",
        copy_x(alloc, store, Level::Serializable, 2),
    )?;
    store.disturbed = 2;
    say(
        rt,
        "three attempts",
        copy_x(alloc, store, Level::Serializable, 3),
    )?;
    let (value, _) = look(alloc, &mut store.hall, "y")?;
    println!(rt; "y = \"{value}\"")?;
    store.disturbed = 1;
    say(
        rt,
        "nothing compared",
        copy_x(alloc, store, Level::ReadCommitted, 1),
    )?;
    Ok(())
}

/// Another client comes before the first commits: they fail at a level that compares, and the closure is called again.
pub(crate) fn among_others(rt: &impl Print, alloc: Global) -> Result<()> {
    let store = Store::new(alloc)?;
    let mut busy = BusyStore {
        hall: Hall::new(alloc, store),
        disturbed: 0,
    };
    let played = play_among_others(rt, alloc, &mut busy);
    drop(busy);
    played
}
