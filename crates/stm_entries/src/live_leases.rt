//! The live leases with their terms, as entries leave them.
ghost use Rattle.std.specs.Prelude.{OnOk};
ghost use Rattle.std.specs.FinMap as finmap;
ghost use Rattle.stm_leases.specs.Live.{Live};
ghost use Rattle.stm_entries.specs.LiveLeases.{term_of, HasLeases};
ghost use Rattle.stm_entries.specs.Replay.{renewed_at};

use std::alloc::{AllocError, Global};
use std::collections::BTreeMap;

/// A live lease: its time to live, and the moment of its grant or last renewal, in seconds.
#[derive(Clone, Copy, Debug, PartialEq, Eq)]
pub struct LiveLease {
    /// Its time to live.
    pub ttl: u64,
    /// The moment of its grant or last renewal.
    pub renewed: u64,
}

/// No leases.
pub fn no_leases(alloc: Global) -> BTreeMap<u64, LiveLease>
    ensures { HasLeases result finmap.empty }
{
    BTreeMap::new(alloc)
}

/// A lease is live from now on.
pub fn begin_lease(
    leases: &mut BTreeMap<u64, LiveLease>,
    id: u64,
    lease: LiveLease,
) -> Result<(), AllocError>
    ensures { OnOk result ((live : Live) → HasLeases leases.old live → HasLeases leases.new (finmap.insert live id (term_of lease))) }
{
    leases.insert(id, lease)?;
    Ok(())
}

/// A lease is renewed, if it is live.
pub fn renew_lease(
    leases: &mut BTreeMap<u64, LiveLease>,
    id: u64,
    moment: u64,
) -> Result<(), AllocError>
    ensures { OnOk result ((live : Live) → HasLeases leases.old live → HasLeases leases.new (renewed_at live id moment (finmap.get live id))) }
{
    let Some(lease) = leases.get(&id) else {
        return Ok(());
    };
    let lease = LiveLease {
        ttl: lease.ttl,
        renewed: moment,
    };
    leases.insert(id, lease)?;
    Ok(())
}

/// A lease is live no more.
pub fn end_lease(leases: &mut BTreeMap<u64, LiveLease>, id: u64)
    ensures { (live : Live) → HasLeases leases.old live → HasLeases leases.new (finmap.remove live id) }
{
    leases.remove(&id);
}
