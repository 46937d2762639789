//! The leases that entries leave live.
ghost use Rattle.std.specs.Prelude.{IfOk, OnOk};
ghost use Rattle.stm_history.specs.Opening.{Opening};
ghost use Rattle.stm_entries.specs.Replayed.{Replayed, opened_with};
ghost use Rattle.stm_entries.specs.LiveLeases.{HasLeases};
ghost use Rattle.stm_entries.specs.Replay.{replay, replay_entry};

use std::alloc::{AllocError, Global};
use std::collections::BTreeMap;
use stm_entries::{LiveLease, begin_lease, end_lease, renew_lease};
use stm_world::Entry;

/// Does to the live leases what an entry does.
fn take_entry(leases: &mut BTreeMap<u64, LiveLease>, entry: &Entry) -> Result<(), AllocError>
    ensures { OnOk result ((r : Replayed) → HasLeases leases.old r.live → HasLeases leases.new (replay_entry entry.now r).live) }
{
    match entry {
        Entry::Program { .. } | Entry::Foreign { .. } => Ok(()),
        Entry::Grant { id, ttl, at } => {
            let lease = LiveLease {
                ttl: *ttl,
                renewed: *at,
            };
            begin_lease(leases, *id, lease)
        }
        Entry::Renew { id, at } => renew_lease(leases, *id, *at),
        Entry::Revoke { id } | Entry::Expire { id } => {
            end_lease(leases, *id);
            Ok(())
        }
    }
}

/// The leases that are live after these entries, by id. It fails where a growth was refused.
pub fn live_leases(alloc: Global, entries: &[Entry]) -> Result<BTreeMap<u64, LiveLease>, AllocError>
    ensures { IfOk result (λ leases. (start : Opening) → HasLeases leases (replay entries.now (opened_with start)).live) }
{
    let mut leases = BTreeMap::new(alloc);
    for entry in entries {
        take_entry(&mut leases, entry)?;
    }
    Ok(leases)
}
