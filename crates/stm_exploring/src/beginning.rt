//! Where the schedules of a scenario begin.
ghost use Rattle.std.specs.Prelude.{◌≡◌, [], IfOk, OnOk};
ghost use Rattle.stm_schedules.specs.Outcomes.{after_replies};
ghost use Rattle.stm_serial_search.specs.Started.{HaveNoStep};
ghost use Rattle.stm_world.specs.World.{opened, replies_to, world_after};
ghost use Rattle.stm_exploring.specs.Asking.{opening_of};
ghost use Rattle.stm_exploring.specs.Beginnings.{HasBegun};

use crate::audience::{Audience, tell_parts};
use crate::narrowing::narrowed;
use crate::rules::Rule;
use crate::setup::setup_and_others;
use std::alloc::{AllocError, Global};
use stm_explore::ends_reported;
use stm_program::Program;
use stm_retry::World;
use stm_schedules::RunnerEnd;
use stm_serial_search::{are_orderly, programs_started};
use stm_texts::{Scenario, WorldEvent, opens_with};

/// Where the schedules of a scenario begin, once its set-up was run.
#[derive(Drop)]
pub(crate) struct Begun<'a> {
    /// The world.
    pub(crate) world: World,
    /// A small world that stands for it in a search, where there is one.
    pub(crate) small: Option<World>,
    /// What the others have yet to bring.
    pub(crate) others: &'a [WorldEvent],
    /// What is known of the runners' ends.
    pub(crate) ends: Vec<Option<RunnerEnd>>,
    /// The runners' programs.
    pub(crate) programs: Vec<Program>,
    /// Whether it is known that they all commit at levels that compare their reads.
    pub(crate) comparing: bool,
}

/// The world of a scenario before its first event.
pub(crate) fn world_of(alloc: Global, scenario: &Scenario) -> Result<World, AllocError>
    ensures { IfOk result (λ world. world ≡ opened (opening_of scenario.now)) }
{
    let opening = opens_with(scenario.opening);
    let world = World::with_limits(alloc, opening.revision(), opening.operations())?;
    Ok(world)
}

/// Runs these events in a world, and returns what is known then of the runners' ends. Out of memory is the only refusal.
pub(crate) fn run_setup(
    alloc: Global,
    world: &mut World,
    events: &[WorldEvent],
) -> Result<Vec<Option<RunnerEnd>>, AllocError>
    ensures ends { IfOk result (λ ends. ends.items ≡ after_replies (replies_to events.now world.old) []) }
    ensures world { OnOk result (world.new ≡ world_after events.now world.old) }
{
    match world.run(events) {
        Ok(replies) => ends_reported(alloc, replies.as_slice()),
        Err(_) => Err(AllocError),
    }
}

/// Runs the set-up of a scenario, and returns where its schedules begin, with a small world in which these rules may be searched for.
pub(crate) fn begin<'a, O: Audience>(
    alloc: Global,
    scenario: &'a Scenario,
    rules: &[Rule],
    audience: &mut O,
) -> Result<Begun<'a>, AllocError>
    requires { HaveNoStep scenario.now.events }
    ensures { IfOk result (HasBegun scenario.now rules.now) }
{
    let events = scenario.events.as_slice();
    let (setup, others) = setup_and_others(events);
    let programs = programs_started(alloc, setup)?;
    let mut world = world_of(alloc, scenario)?;
    let ends = run_setup(alloc, &mut world, setup)?;
    tell_parts(alloc, setup.len(), others.len(), audience);
    let small = narrowed(alloc, &world, setup, others, programs.as_slice(), rules)?;
    Ok(Begun {
        world,
        small,
        others,
        ends,
        programs,
        comparing: are_orderly(events),
    })
}
