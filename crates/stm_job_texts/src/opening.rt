//! The store that the jobs are run on.
ghost use Rattle.std.specs.Prelude.{◌≡◌, ◌≢◌, Some, IfOk, OnOk};
ghost use Rattle.stm_outcome.specs.declared.refusal.Refusal.TheVariants.{OutOfMemory};
ghost use Rattle.stm_txn.specs.Standing.{transacted, granted, kept_alive, revoked, advanced};
ghost use Rattle.stm_events.specs.Replies.{store_after_call};
ghost use Rattle.stm_job_texts.specs.StoreAfter.{after_call, after_calls, store_after};

use crate::store_call::StoreCall;
use std::alloc::{AllocError, Global};
use stm_texts::Opening;
use stm_txn::{Refusal, Store, Txn};

/// Passes over a refusal of the store, unless an allocation failed.
fn pass_over(cause: Refusal) -> Result<(), AllocError>
    ensures { OnOk result (cause ≢ OutOfMemory) }
{
    if cause == Refusal::OutOfMemory {
        return Err(AllocError);
    }
    Ok(())
}

/// Makes a transaction, which changes nothing where it is refused.
fn make_txn(store: &mut Store, txn: &Txn) -> Result<(), AllocError>
    ensures { OnOk result (store.new.standing ≡ store_after_call store.old.standing (transacted store.old.standing txn.now)) }
{
    match store.txn(txn) {
        Ok(answer) => {
            drop(answer);
            Ok(())
        }
        Err(cause) => pass_over(cause),
    }
}

/// Grants a lease, which changes nothing where it is refused.
fn grant(store: &mut Store, id: u64, ttl: u64) -> Result<(), AllocError>
    ensures { OnOk result (store.new.standing ≡ store_after_call store.old.standing (granted store.old.standing id ttl)) }
{
    match store.grant(id, ttl) {
        Ok(()) => Ok(()),
        Err(cause) => pass_over(cause),
    }
}

/// Renews a lease, which changes nothing where it is refused.
fn keep(store: &mut Store, id: u64) -> Result<(), AllocError>
    ensures { OnOk result (store.new.standing ≡ store_after_call store.old.standing (kept_alive store.old.standing id)) }
{
    match store.keep_alive(id) {
        Ok(()) => Ok(()),
        Err(cause) => pass_over(cause),
    }
}

/// Revokes a lease, which changes nothing where it is refused.
fn revoke(store: &mut Store, id: u64) -> Result<(), AllocError>
    ensures { OnOk result (store.new.standing ≡ store_after_call store.old.standing (revoked store.old.standing id)) }
{
    match store.revoke(id) {
        Ok(_) => Ok(()),
        Err(cause) => pass_over(cause),
    }
}

/// Sets the moment, and ends what is due then. Where it is refused on its way, what has expired stays so.
fn advance(store: &mut Store, moment: u64) -> Result<(), AllocError>
    ensures { OnOk result (store.new.standing ≡ (advanced store.old.standing moment).leaves) }
{
    match store.advance(moment) {
        Ok(expired) => {
            drop(expired);
            Ok(())
        }
        Err(refused) => {
            let cause = refused.cause;
            drop(refused);
            pass_over(cause)
        }
    }
}

/// Makes a call of the store.
fn make_call(store: &mut Store, call: &StoreCall) -> Result<(), AllocError>
    ensures { OnOk result (store.new.standing ≡ after_call call.now store.old.standing) }
{
    match call {
        StoreCall::Txn { txn } => make_txn(store, txn),
        StoreCall::Grant { id, ttl } => grant(store, *id, *ttl),
        StoreCall::Keep { id } => keep(store, *id),
        StoreCall::Revoke { id } => revoke(store, *id),
        StoreCall::Advance { now } => advance(store, *now),
    }
}

/// Makes these calls of the store, in their order.
fn make_calls(store: &mut Store, calls: &[StoreCall]) -> Result<(), AllocError>
    ensures { OnOk result (store.new.standing ≡ after_calls calls.now store.old.standing) }
{
    for call in calls {
        make_call(store, call)?;
    }
    Ok(())
}

/// A store that opens empty with this, after these calls were made in their order. A call that is refused changes nothing, but for an
/// advance that stopped on its way. It fails only where an allocation failed.
pub fn open_store(alloc: Global, opening: Opening, calls: &[StoreCall]) -> Result<Store, AllocError>
    ensures { IfOk result (λ store. store.standing ≡ store_after opening calls.now) }
{
    let mut store = Store::with_limits(alloc, opening.revision(), opening.operations())?;
    match make_calls(&mut store, calls) {
        Ok(()) => Ok(store),
        Err(error) => {
            drop(store);
            Err(error)
        }
    }
}
