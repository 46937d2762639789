//! What built transactions come to.
use anyhow::Result;
use std::alloc::{AllocError, Global};
use stm_hall::Store;
use stm_requests::{
    Compare, Op, Request, absent, create_rev, del, get, get_at, lease, mod_rev, present, put,
    value_is, version,
};

/// Whether a transaction with this one compare succeeds.
fn holds(alloc: Global, store: &mut Store, compare: Compare) -> Result<bool> {
    let txn = Request::new(alloc).when(compare)?.into_txn();
    let answer = store.txn(&txn);
    drop(txn);
    Ok(answer?.succeeded)
}

fn do_all(alloc: Global, store: &mut Store, op: Op) -> Result<()> {
    let txn = Request::new(alloc).then(op)?.into_txn();
    let answer = store.txn(&txn);
    drop(txn);
    drop(answer?);
    Ok(())
}

/// The key "k" was put twice, at revisions 2 and 3, on lease 5.
fn fill(alloc: Global, store: &mut Store) -> Result<()> {
    store.grant(5, 60)?;
    do_all(alloc, store, put(alloc, "k", "1", 0)?)?;
    do_all(alloc, store, put(alloc, "k", "2", 5)?)
}

fn show(rt: &impl Print, what: &str, holds: bool) -> Result<()> {
    println!(rt; "{what}: {holds}")?;
    Ok(())
}

fn compare_numbers(rt: &impl Print, alloc: Global, store: &mut Store) -> Result<()> {
    show(
        rt,
        "version 2",
        holds(alloc, store, version(alloc, "k")?.equals(2))?,
    )?;
    show(
        rt,
        "made at 2",
        holds(alloc, store, create_rev(alloc, "k")?.equals(2))?,
    )?;
    show(
        rt,
        "put at 2",
        holds(alloc, store, mod_rev(alloc, "k")?.equals(2))?,
    )?;
    show(
        rt,
        "put above 2",
        holds(alloc, store, mod_rev(alloc, "k")?.is_above(2))?,
    )?;
    show(
        rt,
        "put below 4",
        holds(alloc, store, mod_rev(alloc, "k")?.is_below(4))?,
    )?;
    show(
        rt,
        "on another lease",
        holds(alloc, store, lease(alloc, "k")?.differs_from(5))?,
    )
}

fn compare_others(rt: &impl Print, alloc: Global, store: &mut Store) -> Result<()> {
    show(
        rt,
        "value 2",
        holds(alloc, store, value_is(alloc, "k", "2")?)?,
    )?;
    show(rt, "present", holds(alloc, store, present(alloc, "k")?)?)?;
    show(rt, "absent", holds(alloc, store, absent(alloc, "k")?)?)?;
    show(
        rt,
        "another absent",
        holds(alloc, store, absent(alloc, "other")?)?,
    )
}

fn compare_all(rt: &impl Print, alloc: Global, store: &mut Store) -> Result<()> {
    fill(alloc, store)?;
    compare_numbers(rt, alloc, store)?;
    compare_others(rt, alloc, store)
}

/// Each compare, of a key that was put twice.
pub(crate) fn show_compares(rt: &impl Print, alloc: Global) -> Result<()> {
    let mut store = Store::new(alloc)?;
    let shown = compare_all(rt, alloc, &mut store);
    drop(store);
    shown
}

/// Where "k" is absent, deletes it and reads it as it is; or else reads it as it was at revision 2.
fn branches(alloc: Global) -> Result<stm_requests::Txn, AllocError> {
    let built = Request::new(alloc).when(absent(alloc, "k")?)?;
    let built = built.then(del(alloc, "k")?)?;
    let built = built.then(get(alloc, "k")?)?;
    let built = built.otherwise(get_at(alloc, "k", 2)?)?;
    Ok(built.into_txn())
}

fn run_branches(rt: &impl Print, alloc: Global, store: &mut Store) -> Result<()> {
    let txn = branches(alloc)?;
    let first = store.txn(&txn);
    let filled = fill(alloc, store);
    let second = store.txn(&txn);
    drop(txn);
    filled?;
    println!(rt;
        "branches: {} answers, then {}",
        first?.answers.len(),
        second?.answers.len()
    )?;
    Ok(())
}

/// The success list where the compare holds, else the failure list.
pub(crate) fn show_branches(rt: &impl Print, alloc: Global) -> Result<()> {
    let mut store = Store::new(alloc)?;
    let shown = run_branches(rt, alloc, &mut store);
    drop(store);
    shown
}
