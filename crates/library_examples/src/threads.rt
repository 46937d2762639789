//! Two transactions as closures, under threads: some threads move coins from "a" to "b", and others from "b" to "a". Whichever goes first, no coin is
//! lost.
use anyhow::Result;
use std::alloc::Global;
use std::sync::Wait;
use std::thread::Threads;
use stm_closures::{Commit, Fetch, NotCommitted, atomically};
use stm_shared_hall::{Hall, Level, Store, TransactionError, Turns, run_on_threads};

/// How many threads there are.
const THREADS: usize = 4;

/// How many coins each of them moves, one after another.
const COINS: u32 = 10;

/// How often one move may be tried.
const ATTEMPTS: u64 = 1_000_000;

pub(crate) fn run<T: Threads + Wait + Sync>(
    rt: &impl Print,
    threads: &T,
    alloc: Global,
) -> Result<()> {
    let store = Store::new(alloc)?;
    let mut hall = Hall::new(alloc, store);
    open(alloc, &mut hall)?;
    let (moved, mut hall) = run_on_threads(
        threads,
        alloc,
        hall,
        THREADS,
        &|number, turns| { move_coins(alloc, turns, number % 2 == 0) },
    );
    let reported = report(rt, alloc, &mut hall);
    drop(hall);
    for moved in moved? {
        moved?;
    }
    reported
}

/// Both accounts begin with 50 coins.
fn open(alloc: Global, hall: &mut Hall) -> Result<(), NotCommitted<TransactionError>> {
    atomically(alloc, hall, Level::Serializable, 1, |tx| {
        tx.put("a", "50", 0)?;
        tx.put("b", "50", 0)
    })
}

/// Moves a coin.
fn move_coin<D: Fetch + Commit>(
    alloc: Global,
    store: &mut D,
    from: &str,
    to: &str,
) -> Result<(), NotCommitted<TransactionError>> {
    atomically(alloc, store, Level::Serializable, ATTEMPTS, |tx| {
        let had = coins(tx.get(from)?.as_str());
        let has = coins(tx.get(to)?.as_str());
        tx.put(
            from,
            format!(in alloc; "{}", had.saturating_sub(1))?.as_str(),
            0,
        )?;
        tx.put(
            to,
            format!(in alloc; "{}", has.saturating_add(1))?.as_str(),
            0,
        )
    })
}

/// How many coins a value says.
fn coins(value: &str) -> u64 {
    value.parse().unwrap_or(0)
}

/// What one thread does.
fn move_coins<W: Wait>(
    alloc: Global,
    turns: &mut Turns<W>,
    forth: bool,
) -> Result<(), NotCommitted<TransactionError>> {
    for _coin in 0..COINS {
        if forth {
            move_coin(alloc, turns, "a", "b")?;
        } else {
            move_coin(alloc, turns, "b", "a")?;
        }
    }
    Ok(())
}

/// Prints what both hold.
fn report(rt: &impl Print, alloc: Global, hall: &mut Hall) -> Result<()> {
    let (a, b) = atomically(
        alloc,
        hall,
        Level::Serializable,
        1,
        |tx| -> Result<(u64, u64), TransactionError> {
            let a = coins(tx.get("a")?.as_str());
            let b = coins(tx.get("b")?.as_str());
            Ok((a, b))
        },
    )?;
    println!(rt; "a {a}, b {b}, commits {}", hall.entries().len())?;
    Ok(())
}
