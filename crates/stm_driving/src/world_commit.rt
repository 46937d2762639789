//! The commit of a transaction to a world.
ghost use Rattle.std.specs.Prelude.{◌≡◌, IfOk, OnErr};
ghost use Rattle.stm_closures.specs.Outcomes.{CommitReturns};
ghost use Rattle.stm_driving.specs.WorldCommits.{has_held, IsTaken, IsCommittedInWorld};

use std::alloc::Global;
use stm_attempt::{ReadSet, WriteBuffer, compile};
use stm_closures::{CommitOutcome, are_shown, read_all_again};
use stm_program::Level;
use stm_retry::{Reply, World, WorldEvent};
use stm_txn::{Refusal, Store, Txn};

/// Whether a reply says that the compares of a transaction held.
fn has_held(reply: &Reply) -> bool
    ensures { result ≡ has_held reply.now }
{
    match reply {
        Reply::Txn { succeeded, .. } => *succeeded,
        _ => false,
    }
}

/// Why a store refuses a transaction: for its cause, or for want of memory where it has none.
fn cause_of(store: &Store, event: &WorldEvent) -> Refusal {
    match event {
        WorldEvent::Txn { txn } => store.txn_refusal(txn).unwrap_or(Refusal::OutOfMemory),
        _ => Refusal::OutOfMemory,
    }
}

/// Makes a transaction of another client, and says whether its compares held.
fn make_txn(world: &mut World, txn: Txn) -> Result<bool, Refusal>
    ensures ok { IfOk result (λ held. IsTaken world.old txn held world.new) }
    ensures err { OnErr result (world.new ≡ world.old) }
{
    let event = WorldEvent::Txn { txn };
    match world.step(&event) {
        Ok(reply) => Ok(has_held(&reply)),
        Err(_) => Err(cause_of(world.store(), &event)),
    }
}

/// Commits what was read and written, by one transaction of another client.
pub(crate) fn commit_to_world(
    alloc: Global,
    world: &mut World,
    level: Level,
    reads: &ReadSet,
    writes: &WriteBuffer,
) -> Result<CommitOutcome, Refusal>
    ensures { CommitReturns (IsCommittedInWorld world.old level reads.now writes.now world.new) (world.new ≡ world.old) result }
{
    if !are_shown(world.store().keys(), reads.as_slice()) {
        return Ok(CommitOutcome::Exchanged);
    }
    let txn = compile(alloc, level, reads, writes)?;
    if make_txn(world, txn)? {
        return Ok(CommitOutcome::Committed);
    }
    let again = read_all_again(alloc, world.store(), level, reads);
    Ok(CommitOutcome::Conflict { again })
}
