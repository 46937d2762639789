//! Worlds that share their store.
ghost use Rattle.std.specs.Prelude.{true, map, ◌≡◌, ◌≤◌, length, is_some, Ok, IfOk, IfSome};
ghost use Rattle.stm_history.specs.History.{now};
ghost use Rattle.stm_alike.specs.Seen.{seen_slot};
ghost use Rattle.stm_txn.specs.Standing.{kept};
ghost use Rattle.stm_entries.specs.Replayed.{opened_with, without_moment};
ghost use Rattle.stm_entries.specs.Replay.{replay};
ghost use Rattle.stm_compile.specs.Answers.{state_now};
ghost use Rattle.stm_meaning.specs.Meaning.{run_over};
ghost use Rattle.stm_steps.specs.declared.run.Answered.TheVariants.{Ended};
ghost use Rattle.stm_journal.specs.StateOf.{IsStateOf};
ghost use Rattle.stm_events.specs.declared.event.WorldEvent.TheVariants.{Step};
ghost use Rattle.stm_world.specs.Sound.{IsSound};
ghost use Rattle.stm_world.specs.World.{runner_at, step};
ghost use Rattle.stm_retry.specs.Returns.{IsStep};
ghost use Rattle.stm_retry.specs.WorldOf.{with_places};
ghost use Rattle.stm_retry.specs.AtBase.{NextIsAtBase};
ghost use Rattle.stm_retry.specs.Quiet.{is_commit};

use crate::alike::{are_slots_alike, hint_of};
use crate::kept_world::copy_runners;
use crate::slots::{Slot, fetches_at_base, is_running, seems_to_commit};
use crate::world::{World, is_out_of_memory};
use std::alloc::{AllocError, Global};
use std::marker::Model;
use std::sync::Arc;
use stm_entries::Entry;
use stm_events::{Denied, Reply, WorldEvent};
use stm_meaning::{Run, State};
use stm_program::Program;
use stm_txn::Store;

/// A world that shares its store with the worlds after it, as long as runners only read: an event makes another world, and leaves this one as it is.
///
/// Contracts see the world.
#[derive(Drop)]
pub struct SharedWorld {
    /// The world whose store and entries it has.
    base: Arc<World>,
    /// The runners, in place of those that stand in that world.
    runners: Vec<Slot>,
}

impl Model for SharedWorld {
    ghost use Rattle.std.specs.Coded.{codes};
    ghost use Rattle.stm_program.specs.Coding.{coded_program};
    ghost use Rattle.stm_entries.specs.Codes.{coded_live};
    ghost use Rattle.stm_world.specs.World.{World as WorldState};
    ghost use Rattle.stm_world.specs.Sound.{IsSound};
    ghost use Rattle.stm_retry.specs.WorldOf.{with_places};

    ghost Value = { WorldState };

    ghost coded = { Prim.hlevel (codes, coded_program, coded_live) };

    ghost view = { λ s. with_places s.runners.items s.base.value };

    ghost invariant = { λ s. IsSound (with_places s.runners.items s.base.value) };
}

/// A world with the store of this one, and these runners.
fn over(base: Arc<World>, runners: Vec<Slot>) -> SharedWorld
    requires { IsSound (with_places runners.items base.value) }
    ensures { result ≡ with_places runners.items base.value }
{
    SharedWorld { base, runners }
}

/// Whether a reply says that a runner committed.
fn has_committed(reply: &Result<Reply, Denied>) -> bool
    ensures { result ≡ is_commit reply.now }
{
    match reply {
        Ok(Reply::Committed { .. }) => true,
        _ => false,
    }
}

impl SharedWorld {
    /// A world that can be shared. It fails only when out of memory.
    pub fn of(alloc: Global, world: World) -> Result<SharedWorld, AllocError>
        ensures { IfOk result (λ shared. shared ≡ world) }
    {
        let runners = world.copy_places()?;
        let base = Arc::new(alloc, world)?;
        Ok(over(base, runners))
    }

    /// The same world once more. It takes memory for the places of the runners alone, and out of memory is its only refusal.
    pub fn share(&self) -> Result<SharedWorld, AllocError>
        ensures { IfOk result (λ copy. copy ≡ self.now) }
    {
        let runners = copy_runners(&self.runners)?;
        let base = self.base.clone()?;
        Ok(over(base, runners))
    }

    /// The world after a step of a runner that changes nothing in the store and fetches no list, and the reply.
    fn after_quiet_step(&self, id: u64) -> Result<Option<(SharedWorld, Reply)>, AllocError>
        ensures { IfOk result (λ o. IfSome o (λ p. IsStep (step (Step id) self.now) (Ok p.1) p.0)) }
    {
        let mut runners = copy_runners(&self.runners)?;
        match self.base.step_quietly(&mut runners, id)? {
            None => Ok(None),
            Some(reply) => {
                let base = self.base.clone()?;
                Ok(Some((over(base, runners), reply)))
            }
        }
    }

    /// The world after an event that is taken in a copy of this one, and the reply.
    fn after_in_copy(
        &self,
        alloc: Global,
        event: &WorldEvent,
    ) -> Result<(SharedWorld, Result<Reply, Denied>), AllocError>
        ensures { IfOk result (λ p. IsStep (step event.now self.now) p.1 p.0) }
    {
        let mut world = self.base.copy_with(&self.runners)?;
        let reply = world.step(event);
        if is_out_of_memory(&reply) {
            return Err(AllocError);
        }
        let after = SharedWorld::of(alloc, world)?;
        Ok((after, reply))
    }

    /// The world after a step of a runner that is taken in a copy of this one, and the reply. Unless it committed, the store is still shared.
    fn after_loud_step(
        &self,
        alloc: Global,
        event: &WorldEvent,
        id: u64,
    ) -> Result<(SharedWorld, Result<Reply, Denied>), AllocError>
        requires { event.now ≡ Step id }
        ensures { IfOk result (λ p. IsStep (step event.now self.now) p.1 p.0) }
    {
        self.know_sound();
        let (after, reply) = self.after_in_copy(alloc, event)?;
        if has_committed(&reply) {
            return Ok((after, reply));
        }
        let shared = self.with_runners_of(after)?;
        Ok((shared, reply))
    }

    /// Whether it shares its store with some world. No contract says so.
    pub fn shares_store(&self) -> bool {
        Arc::strong_count(&self.base) > 1
    }

    /// A world that shares this one's store, with the runners of another. It takes no memory.
    pub fn with_runners_of(&self, other: SharedWorld) -> Result<SharedWorld, AllocError>
        requires { IsSound (with_places other.runners self.now) }
        ensures { IfOk result (λ shared. shared ≡ with_places other.runners self.now) }
    {
        let base = self.base.clone()?;
        let SharedWorld {
            base: others,
            runners,
        } = other;
        drop(others);
        Ok(over(base, runners))
    }

    /// The world after a step of a runner, and the reply. Where the step seems to commit, it is taken in a copy at once.
    fn after_step(
        &self,
        alloc: Global,
        event: &WorldEvent,
        id: u64,
    ) -> Result<(SharedWorld, Result<Reply, Denied>), AllocError>
        requires { event.now ≡ Step id }
        ensures { IfOk result (λ p. IsStep (step event.now self.now) p.1 p.0) }
    {
        if seems_to_commit(self.runners.as_slice(), self.store().keys(), id) {
            return self.after_loud_step(alloc, event, id);
        }
        match self.after_quiet_step(id)? {
            Some((after, reply)) => Ok((after, Ok(reply))),
            None => self.after_loud_step(alloc, event, id),
        }
    }

    /// The world after an event, and the reply.
    ///
    /// After a step of a runner that does not commit the worlds share their store; any other event is taken in a copy of the world. It fails only when out
    /// of memory.
    pub fn after(
        &self,
        alloc: Global,
        event: &WorldEvent,
    ) -> Result<(SharedWorld, Result<Reply, Denied>), AllocError>
        ensures { IfOk result (λ p. IsStep (step event.now self.now) p.1 p.0) }
    {
        match event {
            WorldEvent::Step { runner } => self.after_step(alloc, event, *runner),
            _ => self.after_in_copy(alloc, event),
        }
    }
}

// ---- what a world has, as `World` tells it

impl SharedWorld {
    /// What changed the store, in the order of the steps: `World::history`.
    pub fn history(&self) -> &[Entry]
        ensures entries { result.now ≡ self.now.entries }
        ensures replays { replay self.now.entries (opened_with self.now.standing.history.opening) ≡ without_moment self.now.standing }
    {
        self.base.history()
    }

    /// The store: `World::store`.
    pub fn store(&self) -> &Store
        ensures standing { result.now.standing ≡ kept self.now.standing }
        ensures reached { self.now.standing.floor ≤ now self.now.standing.history }
    {
        self.base.store()
    }

    /// The state of the store now: `World::state`. Out of memory is its only refusal.
    pub fn state(&self) -> Result<State, AllocError>
        ensures { IfOk result (λ state. IsStateOf self.now.standing.history state) }
    {
        self.base.state()
    }

    /// The run of a program alone on the store now: `World::run_alone`. Out of memory is its only refusal.
    pub fn run_alone(&self, program: &Program) -> Result<Run, AllocError>
        ensures { IfOk result (λ run. run_over (state_now self.now.standing.history) program.now.statements ≡ Ended run) }
    {
        self.base.run_alone(program)
    }

    /// Whether the store of another world opened with the same: `World::opens_alike`.
    pub fn opens_alike(&self, other: &SharedWorld) -> bool
        ensures { result ≡ true → self.now.standing.history.opening ≡ other.now.standing.history.opening }
    {
        self.base.opens_alike(&other.base)
    }

    /// Whether the runners of another world are alike: `World::has_alike_runners`.
    pub fn has_alike_runners(&self, other: &SharedWorld) -> bool
        ensures { result ≡ true → map seen_slot self.now.runners ≡ map seen_slot other.now.runners }
    {
        are_slots_alike(self.runners.as_slice(), other.runners.as_slice())
    }

    /// A number that worlds with alike runners have in common, and others mostly do not. No contract says so.
    pub fn runners_hint(&self) -> u64 {
        hint_of(self.runners.as_slice())
    }

    /// The number of runners that were started. They have the numbers from 1 up to this one.
    pub fn runner_count(&self) -> usize
        ensures { result ≡ length self.now.runners }
    {
        self.runners.len()
    }

    /// True only where the next step of the runner with this number fetches a key at the base of its attempt, and the store was never compacted: then what the
    /// step shows does not depend on when it is made. It may be false where that is so.
    pub fn fetches_at_base(&self, runner: u64) -> bool
        ensures { result ≡ true → NextIsAtBase runner self.now }
    {
        self.know_sound();
        let floor = self.store().floor();
        if floor != 0 {
            return false;
        }
        fetches_at_base(self.runners.as_slice(), runner)
    }

    /// Does nothing: each world is sound.
    pub fn know_sound(&self)
        ensures { IsSound self.now }
    {
        // (the world's type says so)
        let _runners = &self.runners;
    }

    /// Whether the runner with this number was started and has not ended.
    pub fn is_running(&self, runner: u64) -> bool
        ensures { result ≡ is_some (runner_at runner self.now.runners) }
    {
        is_running(self.runners.as_slice(), runner)
    }
}
