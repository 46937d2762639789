//! Moves from a place: which can be made, and where each leads to.
ghost use Rattle.std.specs.Prelude.{◌≡◌, true, drop, IfOk, IfSome};
ghost use Rattle.std.specs.List.{list_any};
ghost use Rattle.stm_events.specs.declared.event.WorldEvent.TheVariants.{Step};
ghost use Rattle.stm_world.specs.World.{step, world_after};
ghost use Rattle.stm_schedules.specs.declared.moves.Move.TheVariants.{Other};
ghost use Rattle.stm_schedules.specs.Places.{moves, event_of};
ghost use Rattle.stm_retry.specs.Returns.{IsStep};
ghost use Rattle.stm_retry.specs.AtBase.{NextIsAtBase};
ghost use Rattle.stm_explore.specs.Spots.{taken_after};

use std::alloc::{AllocError, Global};
use stm_retry::SharedWorld;
use stm_schedules::Move;
use stm_world::{Denied, Reply, WorldEvent};

/// The moves that can be made at a place, in their order.
pub(crate) fn moves_at(
    alloc: Global,
    world: &SharedWorld,
    others: &[WorldEvent],
) -> Result<Vec<Move>, AllocError>
    ensures { IfOk result (λ left. left.items ≡ moves (record { world = world.now; others = others.now })) }
{
    let mut left = Vec::new(alloc);
    for index in 0..world.runner_count() {
        let runner = index as u64 + 1;
        if world.is_running(runner) {
            left.push(Move::Step { runner })?;
        }
    }
    if !others.is_empty() {
        left.push(Move::Other)?;
    }
    Ok(left)
}

/// A runner whose next step fetches a key at the base of its attempt, if one is known.
pub(crate) fn find_at_base(world: &SharedWorld) -> Option<u64>
    ensures { IfSome result (λ id. NextIsAtBase id world.now) }
{
    for index in 0..world.runner_count() {
        let runner = index as u64 + 1;
        if world.fetches_at_base(runner) {
            return Some(runner);
        }
    }
    None
}

/// Whether there is a move among these.
fn has_some(moves: &[Move]) -> bool
    ensures { result ≡ list_any (λ m. true) moves.now }
{
    !moves.is_empty()
}

/// Whether a move can be made at a place.
pub(crate) fn can_move(
    alloc: Global,
    world: &SharedWorld,
    others: &[WorldEvent],
) -> Result<bool, AllocError>
    ensures { IfOk result (λ more. more ≡ list_any (λ m. true) (moves (record { world = world.now; others = others.now }))) }
{
    let left = moves_at(alloc, world, others)?;
    Ok(has_some(left.as_slice()))
}

/// The world after a step of a runner, and the reply to it.
pub(crate) fn after_step(
    alloc: Global,
    world: &SharedWorld,
    runner: u64,
) -> Result<(SharedWorld, Result<Reply, Denied>), AllocError>
    ensures { IfOk result (λ p. IsStep (step (Step runner) world.now) p.1 p.0) }
{
    let event = WorldEvent::Step { runner };
    let after = world.after(alloc, &event);
    drop(event);
    after
}

/// The world after a step of a runner.
fn stepped(alloc: Global, world: &SharedWorld, runner: u64) -> Result<SharedWorld, AllocError>
    ensures { IfOk result (λ next. next ≡ (step (Step runner) world.now).next) }
{
    let (next, _reply) = after_step(alloc, world, runner)?;
    Ok(next)
}

/// The world after the next event of the others, if they have one.
fn after_other(
    alloc: Global,
    world: &SharedWorld,
    others: &[WorldEvent],
) -> Result<SharedWorld, AllocError>
    ensures { IfOk result (λ next. next ≡ world_after (event_of Other others.now) world.now) }
{
    if others.is_empty() {
        return world.share();
    }
    let (next, _reply) = world.after(alloc, &others[0])?;
    Ok(next)
}

/// The world after a move.
pub(crate) fn moved(
    alloc: Global,
    world: &SharedWorld,
    others: &[WorldEvent],
    chosen: Move,
) -> Result<SharedWorld, AllocError>
    ensures { IfOk result (λ next. next ≡ world_after (event_of chosen others.now) world.now) }
{
    match chosen {
        Move::Step { runner } => stepped(alloc, world, runner),
        Move::Other => after_other(alloc, world, others),
    }
}

/// What the others have yet to bring.
pub(crate) fn rest_of(others: &[WorldEvent], taken: usize) -> &[WorldEvent]
    ensures { result.now ≡ drop taken others.now }
{
    if taken < others.len() {
        return &others[taken..];
    }
    &others[others.len()..]
}

/// How many of the others' events were taken after a move.
pub(crate) fn taken_after(others: &[WorldEvent], taken: usize, chosen: Move) -> usize
    ensures { result ≡ taken_after chosen (drop taken others.now) taken }
{
    match chosen {
        Move::Step { .. } => taken,
        Move::Other => {
            if taken < others.len() {
                return taken + 1;
            }
            taken
        }
    }
}
