//! Worlds that open with a checkpoint. What is expected comes from what a checkpoint holds, and never from a run.
use crate::worlds::value_of;
use std::alloc::{AllocError, Global};
use std::test::Fail;
use stm_retry::{Sequence, Text, World};
use stm_txn::{Checkpoint, KeptLease, KeyState};

/// "a" at revision 7, put twice, on this lease.
fn key_on(alloc: Global, lease: u64) -> Result<Sequence<(Text, KeyState)>, AllocError> {
    let key = Text::copy_of(alloc, "a")?;
    let state = KeyState {
        value: Text::copy_of(alloc, "1")?,
        create_rev: 3,
        mod_rev: 6,
        version: 2,
        lease,
    };
    let mut states = Sequence::new(alloc);
    states.push((key, state))?;
    Ok(states)
}

/// Lease 5 lives, and "a" is on this lease.
fn checkpoint(alloc: Global, lease: u64) -> Result<Checkpoint, AllocError> {
    let mut leases = Sequence::new(alloc);
    leases.push(KeptLease {
        id: 5,
        ttl: 60,
        renewed: 0,
    })?;
    let states = key_on(alloc, lease)?;
    Ok(Checkpoint {
        revision: 7,
        states,
        leases,
        operations: 128,
    })
}

fn report_key(reported: &mut String, world: &World) -> Result<(), AllocError> {
    let state = world.state()?;
    let done = write!(reported, "{}; ", value_of(&state, "a"));
    drop(state);
    done
}

/// What "a" is in the world that opens so, if one can.
fn report(alloc: Global, reported: &mut String, lease: u64) -> Result<(), AllocError> {
    let checkpoint = checkpoint(alloc, lease)?;
    match World::restored(alloc, checkpoint)? {
        Some(world) => report_key(reported, &world),
        None => reported.push_str("none; "),
    }
}

/// A key may be on no lease or on a live one.
#[test]
fn a_world_opens_with_a_checkpoint(rt: HostRuntime) -> Result<(), Fail> {
    let mut reported = String::new(rt.alloc());
    for lease in [0, 5, 6] {
        report(rt.alloc(), &mut reported, lease)?;
    }
    assert_eq!(rt; reported.as_str(), "1; 1; none; ");
    Ok(())
}
