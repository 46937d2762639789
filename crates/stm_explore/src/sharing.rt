//! Places that share their store with others that have the same.
ghost use Rattle.std.specs.Prelude.{◌≡◌, true, [], IfOk};
ghost use Rattle.stm_retry.specs.WorldOf.{with_places};

use crate::alike::{have_same_entries, store_hint};
use crate::places::{ReportedPlace, WorldPlace};
use std::alloc::AllocError;
use stm_retry::SharedWorld;

/// Whether a world never had a watcher.
fn has_never_watched(world: &SharedWorld) -> bool
    ensures { result ≡ true → world.now.standing.watchers ≡ [] }
{
    let store = world.store();
    store.watcher_count() == 0
}

/// Whether two worlds are the same but for their runners. It says no where one had a watcher.
fn have_same_base(one: &SharedWorld, other: &SharedWorld) -> bool
    ensures { result ≡ true → with_places one.now.runners other.now ≡ one.now }
{
    if !one.opens_alike(other) {
        return false;
    }
    if !has_never_watched(one) {
        return false;
    }
    if !has_never_watched(other) {
        return false;
    }
    have_same_entries(one, other)
}

/// A number that worlds with the same store have in common, and others mostly do not. No contract says so.
pub(crate) fn held_hint(world: &SharedWorld) -> u64 {
    store_hint(world.store()) ^ world.history().len() as u64
}

/// A world that shares its store with another one, where that has the same.
pub(crate) fn sharing_store(
    world: SharedWorld,
    other: &SharedWorld,
) -> Result<SharedWorld, AllocError>
    ensures { IfOk result (λ shared. shared ≡ world) }
{
    if world.shares_store() {
        return Ok(world);
    }
    if !have_same_base(&world, other) {
        return Ok(world);
    }
    world.know_sound();
    let shared = other.with_runners_of(world)?;
    Ok(shared)
}

/// The same of the world of a place.
pub(crate) fn sharing_world(place: WorldPlace, other: &WorldPlace) -> Result<WorldPlace, AllocError>
    ensures { IfOk result (λ shared. shared ≡ place) }
{
    let WorldPlace { world, taken } = place;
    let world = sharing_store(world, &other.world)?;
    Ok(WorldPlace { world, taken })
}

/// The same of a place at which ends are known.
pub(crate) fn sharing_reported(
    place: ReportedPlace,
    other: &ReportedPlace,
) -> Result<ReportedPlace, AllocError>
    ensures { IfOk result (λ shared. shared ≡ place) }
{
    let ReportedPlace { at, ends } = place;
    let at = sharing_world(at, &other.at)?;
    Ok(ReportedPlace { at, ends })
}
