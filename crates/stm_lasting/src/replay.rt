//! The world that records lead to.
ghost use Rattle.std.specs.Prelude.{◌≡◌, ℕ, None, Some, Ok as OkOf, take, drop, IfOk, IfErr, OnOk};
ghost use Rattle.stm_frames.specs.Frame.{at_places};
ghost use Rattle.stm_texts.specs.Opens.{setup_of, IsOpening};
ghost use Rattle.stm_texts.specs.Reading.{scenario_in};
ghost use Rattle.stm_world.specs.World.{World as WorldOf, opened, world_after};
ghost use Rattle.stm_lasting.specs.CheckpointText.{checkpoint_in};
ghost use Rattle.stm_lasting.specs.Kept.{taken, led, begun, begun_with, resumed, world_in};

use crate::checkpoint_text::read_checkpoint;
use std::alloc::{AllocError, Global};
use stm_retry::World;
use stm_texts::{ReadError, Scenario, opens_with, read_scenario};
use stm_txn::Checkpoint;

/// Why records could not be run again.
#[derive(Clone, Copy, Debug, PartialEq, Eq)]
pub(crate) enum ReplayFault {
    /// An allocation failed.
    OutOfMemory,
    /// The record that stands at this offset spells no scenario.
    NoScenario(usize),
}

impl From<AllocError> for ReplayFault {
    ghost use Rattle.std.specs.Prelude.{◌≡◌};
    ghost use Rattle.stm_lasting.specs.declared.replay.ReplayFault.TheVariants.{OutOfMemory};

    ghost from_gives = { λ _ e. e ≡ OutOfMemory };

    fn from(_error: AllocError) -> ReplayFault {
        ReplayFault::OutOfMemory
    }
}

/// The bytes from an offset on: none, where it is past the end.
fn bytes_from(bytes: &[u8], at: usize) -> &[u8]
    ensures { result.now ≡ drop at bytes.now }
{
    if at > bytes.len() {
        return &[];
    }
    &bytes[at..]
}

/// The first so many bytes: all, where there are fewer.
fn first_bytes(bytes: &[u8], len: usize) -> &[u8]
    ensures { result.now ≡ take len bytes.now }
{
    if len > bytes.len() {
        return bytes;
    }
    &bytes[..len]
}

/// The record that stands at a place, a start and a length.
fn record_at<'a>(bytes: &'a [u8], place: &(usize, usize)) -> &'a [u8]
    ensures { result.now ≡ take place.now.1 (drop place.now.0 bytes.now) }
{
    first_bytes(bytes_from(bytes, place.0), place.1)
}

/// A world with the empty store that a scenario opens with. Out of memory is its only refusal.
pub fn empty_world(alloc: Global, scenario: &Scenario) -> Result<World, AllocError>
    requires { IsOpening scenario.now.opening }
    ensures { IfOk result (λ w. w ≡ opened (setup_of scenario.now.opening)) }
{
    let opening = opens_with(scenario.opening);
    let world = World::with_limits(alloc, opening.revision(), opening.operations())?;
    Ok(world)
}

/// The scenario of the record that stands at an offset. `NoScenario`: it spells none.
fn read(alloc: Global, text: &[u8], at: usize) -> Result<Scenario, ReplayFault>
    ensures read { IfOk result (λ s. scenario_in text.now ≡ OkOf s) }
    ensures none { IfErr result (λ e. (offset : ℕ) → e ≡ ReplayFault.NoScenario offset → (w : WorldOf) → taken w (scenario_in text.now) ≡ None) }
{
    match read_scenario(alloc, text) {
        Ok(scenario) => Ok(scenario),
        Err(ReadError::OutOfMemory) => Err(ReplayFault::OutOfMemory),
        Err(ReadError::Bad(_)) => Err(ReplayFault::NoScenario(at)),
    }
}

/// Runs a scenario, whose replies are of no use any more.
fn run_again(world: &mut World, scenario: &Scenario) -> Result<(), AllocError>
    ensures { OnOk result (world.new ≡ world_after scenario.now.events world.old) }
{
    match world.run(scenario.events.as_slice()) {
        Ok(_) => Ok(()),
        Err(_) => Err(AllocError),
    }
}

/// Takes the record of a place. `NoScenario`: it spells none.
fn take_record(
    alloc: Global,
    world: &mut World,
    bytes: &[u8],
    place: &(usize, usize),
) -> Result<(), ReplayFault>
    ensures taken { OnOk result (taken world.old (scenario_in (take place.now.1 (drop place.now.0 bytes.now))) ≡ Some world.new) }
    ensures none { IfErr result (λ e. (at : ℕ) → e ≡ ReplayFault.NoScenario at
        → taken world.old (scenario_in (take place.now.1 (drop place.now.0 bytes.now))) ≡ None) }
{
    let scenario = read(alloc, record_at(bytes, place), place.0)?;
    run_again(world, &scenario)?;
    Ok(())
}

/// The world after a scenario with which a file begins.
fn begun_world(alloc: Global, scenario: &Scenario) -> Result<World, AllocError>
    requires { IsOpening scenario.now.opening }
    ensures { IfOk result (λ w. begun (OkOf scenario.now) ≡ Some w) }
{
    let mut world = empty_world(alloc, scenario)?;
    run_again(&mut world, scenario)?;
    Ok(world)
}

/// The world that a checkpoint leads to, and then its scenario; none where no store can open with it.
#[tactic(auto, using(crate::proofs::Resuming::resumes, crate::proofs::Resuming::resumes_nowhere))]
fn restored_world(
    alloc: Global,
    checkpoint: Checkpoint,
    scenario: &Scenario,
) -> Result<Option<World>, AllocError>
    ensures { IfOk result (λ o. o ≡ resumed (Some (checkpoint, scenario.now))) }
{
    let Some(mut world) = World::restored(alloc, checkpoint)? else {
        return Ok(None);
    };
    run_again(&mut world, scenario)?;
    Ok(Some(world))
}

/// The world that the text of a checkpoint leads to; none where it is no checkpoint, or no store can open with it.
fn resumed_world(alloc: Global, text: &[u8]) -> Result<Option<World>, AllocError>
    ensures { IfOk result (λ o. o ≡ resumed (checkpoint_in text.now)) }
{
    let Some((checkpoint, scenario)) = read_checkpoint(alloc, text)? else {
        return Ok(None);
    };
    let world = restored_world(alloc, checkpoint, &scenario)?;
    Ok(world)
}

/// The world that a text leads to with which a file begins: a scenario, or a checkpoint. None where it is neither.
pub(crate) fn world_begun(alloc: Global, text: &[u8]) -> Result<Option<World>, AllocError>
    ensures { IfOk result (λ o. o ≡ begun_with (scenario_in text.now) text.now) }
{
    match read_scenario(alloc, text) {
        Ok(scenario) => {
            let world = begun_world(alloc, &scenario)?;
            Ok(Some(world))
        }
        Err(ReadError::OutOfMemory) => Err(AllocError),
        Err(ReadError::Bad(_)) => {
            let world = resumed_world(alloc, text)?;
            Ok(world)
        }
    }
}

/// The world after the first record, which stands at this place. `NoScenario`: it spells neither a scenario nor a checkpoint.
fn first_world(alloc: Global, bytes: &[u8], place: &(usize, usize)) -> Result<World, ReplayFault>
    ensures world { IfOk result (λ w. begun_with (scenario_in (take place.now.1 (drop place.now.0 bytes.now))) (take place.now.1 (drop place.now.0 bytes.now))
        ≡ Some w) }
    ensures none { IfErr result (λ e. (at : ℕ) → e ≡ ReplayFault.NoScenario at
        → begun_with (scenario_in (take place.now.1 (drop place.now.0 bytes.now))) (take place.now.1 (drop place.now.0 bytes.now)) ≡ None) }
{
    match world_begun(alloc, record_at(bytes, place))? {
        Some(world) => Ok(world),
        None => Err(ReplayFault::NoScenario(place.0)),
    }
}

/// Takes the records of these places, one after another. `NoScenario`: one of them spells none.
fn take_records(
    alloc: Global,
    world: &mut World,
    bytes: &[u8],
    places: &[(usize, usize)],
) -> Result<(), ReplayFault>
    ensures taken { OnOk result (led (at_places bytes.now places.now) world.old ≡ Some world.new) }
    ensures none { IfErr result (λ e. (at : ℕ) → e ≡ ReplayFault.NoScenario at → led (at_places bytes.now places.now) world.old ≡ None) }
{
    for place in places {
        take_record(alloc, world, bytes, place)?;
    }
    Ok(())
}

/// The world that the records of these places lead to. `NoScenario`: one of them spells no scenario, so they lead to none.
pub(crate) fn world_of(
    alloc: Global,
    bytes: &[u8],
    places: &[(usize, usize)],
) -> Result<World, ReplayFault>
    ensures world { IfOk result (λ w. world_in (at_places bytes.now places.now) ≡ Some w) }
    ensures none { IfErr result (λ e. (at : ℕ) → e ≡ ReplayFault.NoScenario at → world_in (at_places bytes.now places.now) ≡ None) }
{
    let Some((first, rest)) = places.split_first() else {
        let world = World::new(alloc)?;
        return Ok(world);
    };
    let mut world = first_world(alloc, bytes, first)?;
    take_records(alloc, &mut world, bytes, rest)?;
    Ok(world)
}
