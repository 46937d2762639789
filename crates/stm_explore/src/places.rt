//! The places that a search goes through.
ghost use Rattle.std.specs.Prelude.{◌≡◌, IfOk};

use crate::shared_ends::SharedEnds;
use std::alloc::{AllocError, Global};
use stm_retry::{SharedWorld, World};

/// A world, and how many of the others' events were taken.
#[derive(Drop)]
pub(crate) struct WorldPlace {
    pub(crate) world: SharedWorld,
    pub(crate) taken: usize,
}

/// A place, with what is known of the ends of its runners.
#[derive(Drop)]
pub(crate) struct ReportedPlace {
    pub(crate) at: WorldPlace,
    pub(crate) ends: SharedEnds,
}

/// A copy of a world, which others can share.
pub(crate) fn shared_copy(alloc: Global, world: &World) -> Result<SharedWorld, AllocError>
    ensures { IfOk result (λ copy. copy ≡ world.now) }
{
    let copy = world.copy()?;
    let shared = SharedWorld::of(alloc, copy)?;
    Ok(shared)
}
