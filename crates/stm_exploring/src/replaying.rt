//! What a search in a small world has found, as it is in the whole one: each schedule is made there.
ghost use Rattle.std.specs.Prelude.{◌≡◌, IfOk};
ghost use Rattle.stm_exploring.specs.Replaying.{answer_there, outcomes_after, outcomes_there};

use std::alloc::{AllocError, Global};
use stm_explore::{Move, Outcome, Outcomes, RunnerEnd, Sequence, SerialAnswer, outcome_after};
use stm_retry::World;
use stm_texts::WorldEvent;

/// What these schedules come to.
fn outcomes_after(
    alloc: Global,
    world: &World,
    others: &[WorldEvent],
    ends: &[Option<RunnerEnd>],
    schedules: &[Sequence<Move>],
) -> Result<Vec<Outcome>, AllocError>
    ensures { IfOk result (λ all. all.items ≡ outcomes_after (record { world = world.now; others = others.now }) ends.now schedules.now) }
{
    let mut all = Vec::with_capacity(alloc, schedules.len())?;
    for schedule in schedules {
        let it = outcome_after(alloc, world, others, ends, schedule.as_slice())?;
        all.push(it)?;
    }
    Ok(all)
}

/// What was found of outcomes, as the schedules come to them from this world.
pub(crate) fn outcomes_there(
    alloc: Global,
    world: &World,
    others: &[WorldEvent],
    ends: &[Option<RunnerEnd>],
    found: Outcomes,
) -> Result<Outcomes, AllocError>
    ensures { IfOk result (λ there. there ≡ outcomes_there (record { world = world.now; others = others.now }) ends.now found) }
{
    match found {
        Outcomes::Found { schedules, .. } => {
            let all = outcomes_after(alloc, world, others, ends, schedules.as_slice())?;
            Ok(Outcomes::Found {
                outcomes: Sequence::of(all),
                schedules,
            })
        }
        Outcomes::Open {
            gone_through,
            schedules,
            ..
        } => {
            let all = outcomes_after(alloc, world, others, ends, schedules.as_slice())?;
            Ok(Outcomes::Open {
                gone_through,
                outcomes: Sequence::of(all),
                schedules,
            })
        }
    }
}

/// An answer about serial orders, as its schedule comes to the outcome from this world.
pub(crate) fn answer_there(
    alloc: Global,
    world: &World,
    others: &[WorldEvent],
    ends: &[Option<RunnerEnd>],
    answer: SerialAnswer,
) -> Result<SerialAnswer, AllocError>
    ensures { IfOk result (λ there. there ≡ answer_there (record { world = world.now; others = others.now }) ends.now answer) }
{
    match answer {
        SerialAnswer::Serial { outcomes } => Ok(SerialAnswer::Serial { outcomes }),
        SerialAnswer::Anomaly { moves, .. } => {
            let outcome = outcome_after(alloc, world, others, ends, moves.as_slice())?;
            Ok(SerialAnswer::Anomaly { outcome, moves })
        }
        SerialAnswer::Open { gone_through } => Ok(SerialAnswer::Open { gone_through }),
        SerialAnswer::Undecided { moves, .. } => {
            let outcome = outcome_after(alloc, world, others, ends, moves.as_slice())?;
            Ok(SerialAnswer::Undecided { outcome, moves })
        }
    }
}
