//! What a schedule comes to.
ghost use Rattle.std.specs.Prelude.{◌≡◌, IfOk};
ghost use Rattle.stm_schedules.specs.Outcomes.{outcome_after, shown};
ghost use Rattle.stm_explore.specs.Spots.{place_of};

use crate::gathering::Gathered;
use crate::places::{ReportedPlace, WorldPlace, shared_copy};
use crate::shared_ends::SharedEnds;
use crate::shown::outcome_of;
use std::alloc::{AllocError, Global};
use stm_retry::World;
use stm_schedules::{Move, Outcome, RunnerEnd};
use stm_visited::System;
use stm_world::WorldEvent;

/// The place that moves lead to.
fn make_moves(
    gathered: &Gathered,
    start: ReportedPlace,
    moves: &[Move],
) -> Result<ReportedPlace, AllocError>
    ensures { IfOk result (λ place. shown place.at.world place.ends ≡ outcome_after moves.now (place_of gathered.now.others.now start.at) start.ends) }
{
    let mut place = start;
    for chosen in moves {
        let next = gathered.moved(&place, *chosen)?;
        place = next;
    }
    Ok(place)
}

/// What these moves of a world's runners come to, and of others that have these events yet to bring: the state that they leave, and how the runners have ended
/// that have.
///
/// `ends` has what is known of the runners' ends before, by the runners' numbers, as `ends_reported` returns it. It fails only when out of memory. The world is
/// left as it was.
pub fn outcome_after(
    alloc: Global,
    world: &World,
    others: &[WorldEvent],
    ends: &[Option<RunnerEnd>],
    moves: &[Move],
) -> Result<Outcome, AllocError>
    ensures { IfOk result (λ it. it ≡ outcome_after moves.now (record { world = world.now; others = others.now }) ends.now) }
{
    let ends = SharedEnds::copy_of(alloc, ends)?;
    let world = shared_copy(alloc, world)?;
    let start = ReportedPlace {
        at: WorldPlace { world, taken: 0 },
        ends,
    };
    let gathered = Gathered { alloc, others };
    let place = make_moves(&gathered, start, moves)?;
    let it = outcome_of(alloc, &place.at.world, place.ends.as_slice())?;
    Ok(it)
}
