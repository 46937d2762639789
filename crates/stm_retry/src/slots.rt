//! The places of runners: runner 1 stands first.
ghost use Rattle.stm_alike.specs.Seen.{seen_slot};
ghost use Rattle.std.specs.Prelude.{true, ◌≡◌, ◌-◌, ◌<◌, ◌≤◌, ◌^◌, None, Some, is_some, option_map, slice_get, IfNone, OnSome, vec_len};
ghost use Rattle.stm_world.specs.World.{live_in, runner_at, with_slot, Over as Left, Live as Stands};
ghost use Rattle.stm_retry.specs.RunnerView.{RunnerView, slot_of};
ghost use Rattle.stm_retry.specs.AtBase.{FetchesIn};

use crate::shared_runner::SharedRunner;
use std::alloc::AllocError;
use std::marker::Model;
use std::mem;
use stm_keys::Keys;

/// The place of a runner. It is kept when the run has ended, and then no runner stands there.
#[derive(Drop)]
pub(crate) struct Slot {
    runner: Option<SharedRunner>,
}

impl Model for Slot {
    ghost use Rattle.std.specs.Coded.{codes};
    ghost use Rattle.stm_program.specs.Coding.{coded_program};
    ghost use Rattle.stm_world.specs.World.{Slot as Place};
    ghost use Rattle.stm_retry.specs.RunnerView.{slot_of};

    ghost Value = { Place };

    ghost coded = { Prim.hlevel (codes, coded_program) };

    ghost view = { λ s. slot_of s.runner };
}

impl Slot {
    pub(crate) fn hint(&self) -> u64 {
        match &self.runner {
            None => 1,
            Some(runner) => runner.hint(),
        }
    }

    /// Whether what stands at another place is alike.
    pub(crate) fn is_alike(&self, other: &Slot) -> bool
        ensures { result ≡ true → seen_slot self.now ≡ seen_slot other.now }
    {
        match &self.runner {
            None => other.runner.is_none(),
            Some(runner) => match &other.runner {
                None => false,
                Some(another) => runner.is_alike(another),
            },
        }
    }

    /// The place of a run that is over.
    pub(crate) fn over() -> Slot
        ensures { result ≡ Left }
    {
        Slot { runner: None }
    }

    /// The place of a run that goes on.
    pub(crate) fn live(runner: SharedRunner) -> Slot
        ensures { result ≡ Stands runner.runner }
    {
        Slot {
            runner: Some(runner),
        }
    }

    /// Whether a runner stands here.
    fn is_live(&self) -> bool
        ensures { result ≡ is_some (live_in (Some self.now)) }
    {
        self.runner.is_some()
    }

    /// Whether the next step of the runner that stands here is known to fetch a key at the base of its attempt.
    fn fetches_at_base(&self) -> bool
        ensures { result ≡ true → FetchesIn (live_in (Some self.now)) }
    {
        match &self.runner {
            None => false,
            Some(runner) => runner.fetches_at_base(),
        }
    }

    /// Whether its next step seems to commit, on these keys. No contract says so.
    fn seems_to_commit(&self, keys: &Keys) -> bool {
        match &self.runner {
            None => false,
            Some(runner) => runner.seems_to_commit(keys),
        }
    }

    /// Takes the runner away, if one stands here.
    fn take(&mut self) -> Option<SharedRunner>
        ensures taken { slot_of result ≡ self.old }
        ensures left { self.new ≡ Left }
    {
        self.runner.take()
    }

    /// Puts what stands here from now on.
    fn put(&mut self, slot: Slot)
        ensures { self.new ≡ slot }
    {
        drop(mem::replace(self, slot));
    }
}

/// Takes what stands at the place of this number, which there is.
fn take_at(slots: &mut Vec<Slot>, id: u64) -> Option<SharedRunner>
    requires { (0 < id) × (id ≤ vec_len slots.old) }
    ensures was { slice_get slots.old.items (id - 1) ≡ Some (slot_of result) }
    ensures left { slots.new.items ≡ with_slot id Left slots.old.items }
{
    slots[(id - 1) as usize].take()
}

/// Takes the runner with this number from its place, if there is one that has not ended.
pub(crate) fn take_runner(slots: &mut Vec<Slot>, id: u64) -> Option<SharedRunner>
    ensures found { option_map (λ (v : RunnerView). v.runner) result ≡ runner_at id slots.old.items }
    ensures there { OnSome result ((0 < id) × (id ≤ vec_len slots.old)) }
    ensures taken { OnSome result (slots.new.items ≡ with_slot id Left slots.old.items) }
    ensures none { IfNone result (slots.new.items ≡ slots.old.items) }
{
    if id == 0 || id > slots.len() as u64 {
        return None;
    }
    take_at(slots, id)
}

/// Puts what stands at the place of this number.
pub(crate) fn put_slot(slots: &mut Vec<Slot>, id: u64, slot: Slot)
    requires { (0 < id) × (id ≤ vec_len slots.old) }
    ensures { slots.new.items ≡ with_slot id slot slots.old.items }
{
    slots[(id - 1) as usize].put(slot);
}

/// The copy has the same runner, or none. It takes no memory.
impl Clone for Slot {
    ghost is_clone = { λ slot copy. copy ≡ slot };

    fn clone(&self) -> Result<Slot, AllocError> {
        match &self.runner {
            None => Ok(Slot::over()),
            Some(runner) => Ok(Slot::live(runner.clone()?)),
        }
    }
}

/// Whether the next step of the runner with this number is known to fetch a key at the base of its attempt.
pub(crate) fn fetches_at_base(slots: &[Slot], id: u64) -> bool
    ensures { result ≡ true → FetchesIn (runner_at id slots.now) }
{
    if 1 <= id && id <= slots.len() as u64 {
        slots[(id - 1) as usize].fetches_at_base()
    } else {
        false
    }
}

/// Whether the next step of the runner with this number seems to commit, on these keys. No contract says so.
pub(crate) fn seems_to_commit(slots: &[Slot], keys: &Keys, id: u64) -> bool {
    if 1 <= id && id <= slots.len() as u64 {
        slots[(id - 1) as usize].seems_to_commit(keys)
    } else {
        false
    }
}

/// Whether a runner that has not ended stands at the place of this number.
pub(crate) fn is_running(slots: &[Slot], id: u64) -> bool
    ensures { result ≡ is_some (runner_at id slots.now) }
{
    if id == 0 || id > slots.len() as u64 {
        return false;
    }
    slots[(id - 1) as usize].is_live()
}
