//! A registry of services over a store. A service registers an address under a name that is free, on a lease; where the lease is not renewed in time,
//! the name is free again.
use anyhow::Result;
use std::alloc::Global;
use stm_requests::{Request, absent, get, put};
use stm_txn::{Refusal, Store, Txn};

pub(crate) fn run(rt: &impl Print, alloc: Global) -> Result<()> {
    let mut store = Store::new(alloc)?;
    let done = register_both(rt, alloc, &mut store);
    drop(store);
    done
}

/// Two services want one name, and the second gets it once the first has been silent for too long.
fn register_both(rt: &impl Print, alloc: Global, store: &mut Store) -> Result<()> {
    store.grant(1, 10)?;
    store.grant(2, 60)?;
    register(rt, alloc, store, "10.0.0.1", 1)?;
    register(rt, alloc, store, "10.0.0.2", 2)?;
    let expired = store.advance(30)?;
    println!(rt; "{} lease has expired", expired.len())?;
    drop(expired);
    register(rt, alloc, store, "10.0.0.2", 2)?;
    Ok(())
}

/// "Where the name is free it is this address; or else, whose is it?"
fn registration(alloc: Global, address: &str, lease: u64) -> Result<Txn> {
    let built = Request::new(alloc).when(absent(alloc, "service/mail")?)?;
    let built = built.then(put(alloc, "service/mail", address, lease)?)?;
    let built = built.otherwise(get(alloc, "service/mail")?)?;
    Ok(built.into_txn())
}

/// Sends a transaction, and says whether its compares held.
fn send(store: &mut Store, txn: &Txn) -> Result<bool, Refusal> {
    let answer = store.txn(txn)?;
    Ok(answer.succeeded)
}

fn register(
    rt: &impl Print,
    alloc: Global,
    store: &mut Store,
    address: &str,
    lease: u64,
) -> Result<()> {
    let txn = registration(alloc, address, lease)?;
    let sent = send(store, &txn);
    drop(txn);
    if sent? {
        println!(rt; "{address} is the mail service")?;
    } else {
        println!(rt; "{address} has to wait for {}", holder(store))?;
    }
    Ok(())
}

/// The address of the service now.
fn holder(store: &Store) -> &str {
    match store.keys().get("service/mail") {
        Some(state) => state.value.as_str(),
        None => "nobody",
    }
}
