//! The live leases, as the replies to events say.
ghost use Rattle.std.specs.Prelude.{◌≡◌, List, OnOk};
ghost use Rattle.stm_txn.specs.Standing.{Standing};
ghost use Rattle.stm_entries.specs.Replayed.{Replayed, without_moment};
ghost use Rattle.stm_entries.specs.LiveLeases.{HasLeases};
ghost use Rattle.stm_entries.specs.Replay.{replay};
ghost use Rattle.stm_entries.specs.Entered.{expiries};
ghost use Rattle.stm_events.specs.Called.{expired_reported};
ghost use Rattle.stm_check.specs.declared.runner.Runner.{Runner as Run};
ghost use Rattle.stm_check.specs.Point.{entries_reported};

use std::alloc::AllocError;
use std::collections::BTreeMap;
use stm_entries::{LiveLease, begin_lease, end_lease, renew_lease};
use stm_events::{Denied, Reply, WorldEvent};
use stm_txn::Expired;

/// Leases expire.
fn expire(leases: &mut BTreeMap<u64, LiveLease>, expired: &[Expired])
    ensures { (r : Replayed) → HasLeases leases.old r.live → HasLeases leases.new (replay (expiries expired.now) r).live }
{
    for lease in expired {
        end_lease(leases, lease.id);
    }
}

/// Takes over what the reply to an advance reports of the live leases.
fn note_advance(leases: &mut BTreeMap<u64, LiveLease>, reply: &Result<Reply, Denied>)
    ensures { (r : Replayed) → HasLeases leases.old r.live → HasLeases leases.new (replay (expiries (expired_reported reply.now)) r).live }
{
    match reply {
        Ok(Reply::Advanced { expired, .. }) => expire(leases, expired.as_slice()),
        Err(denied) => expire(leases, denied.expired.as_slice()),
        _ => {}
    }
}

/// Takes over what the reply to an event reports of the live leases; the moment before it was this.
pub(crate) fn note_leases(
    leases: &mut BTreeMap<u64, LiveLease>,
    moment: u64,
    event: &WorldEvent,
    reply: &Result<Reply, Denied>,
) -> Result<(), AllocError>
    ensures { OnOk result ((s : Standing) (runners : List Run) → s.moment ≡ moment → HasLeases leases.old s.live
        → HasLeases leases.new (replay (entries_reported s runners event.now reply.now) (without_moment s)).live) }
{
    match event {
        WorldEvent::Grant { id, ttl } => match reply {
            Ok(_) => {
                let lease = LiveLease {
                    ttl: *ttl,
                    renewed: moment,
                };
                begin_lease(leases, *id, lease)
            }
            Err(_) => Ok(()),
        },
        WorldEvent::Keep { id } => match reply {
            Ok(_) => renew_lease(leases, *id, moment),
            Err(_) => Ok(()),
        },
        WorldEvent::Revoke { id } => match reply {
            Ok(_) => {
                end_lease(leases, *id);
                Ok(())
            }
            Err(_) => Ok(()),
        },
        WorldEvent::Advance { .. } => {
            note_advance(leases, reply);
            Ok(())
        }
        _ => Ok(()),
    }
}
