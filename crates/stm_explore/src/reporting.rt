//! Moves, with what they say of the ends of runners.
ghost use Rattle.std.specs.Prelude.{◌≡◌, IfOk};
ghost use Rattle.stm_events.specs.declared.event.WorldEvent.TheVariants.{Step};
ghost use Rattle.stm_world.specs.World.{step, world_after, replies_to};
ghost use Rattle.stm_schedules.specs.declared.moves.Move.TheVariants.{Other};
ghost use Rattle.stm_schedules.specs.Outcomes.{after_reported, after_replies};
ghost use Rattle.stm_schedules.specs.Places.{event_of};

use crate::moving::after_step;
use crate::shared_ends::SharedEnds;
use std::alloc::{AllocError, Global};
use stm_retry::SharedWorld;
use stm_schedules::Move;
use stm_world::WorldEvent;

/// The world after a step of a runner, and what is known of the ends then.
fn describe_step(
    alloc: Global,
    world: &SharedWorld,
    runner: u64,
    ends: &SharedEnds,
) -> Result<(SharedWorld, SharedEnds), AllocError>
    ensures next { IfOk result (λ p. p.0 ≡ (step (Step runner) world.now).next) }
    ensures ends { IfOk result (λ p. p.1 ≡ after_reported (step (Step runner) world.now).reply ends.now) }
{
    let (next, reply) = after_step(alloc, world, runner)?;
    let known = ends.after(alloc, &reply)?;
    Ok((next, known))
}

/// The world after the next event of the others, if they have one, and what is known of the ends then.
fn report_other(
    alloc: Global,
    world: &SharedWorld,
    others: &[WorldEvent],
    ends: &SharedEnds,
) -> Result<(SharedWorld, SharedEnds), AllocError>
    ensures next { IfOk result (λ p. p.0 ≡ world_after (event_of Other others.now) world.now) }
    ensures ends { IfOk result (λ p. p.1 ≡ after_replies (replies_to (event_of Other others.now) world.now) ends.now) }
{
    if others.is_empty() {
        let next = world.share()?;
        let known = ends.share()?;
        return Ok((next, known));
    }
    let (next, reply) = world.after(alloc, &others[0])?;
    let known = ends.after(alloc, &reply)?;
    Ok((next, known))
}

/// The world after a move, and what is known of the ends then.
pub(crate) fn describe_move(
    alloc: Global,
    world: &SharedWorld,
    others: &[WorldEvent],
    chosen: Move,
    ends: &SharedEnds,
) -> Result<(SharedWorld, SharedEnds), AllocError>
    ensures next { IfOk result (λ p. p.0 ≡ world_after (event_of chosen others.now) world.now) }
    ensures ends { IfOk result (λ p. p.1 ≡ after_replies (replies_to (event_of chosen others.now) world.now) ends.now) }
{
    match chosen {
        Move::Step { runner } => describe_step(alloc, world, runner, ends),
        Move::Other => report_other(alloc, world, others, ends),
    }
}
