//! The world.
ghost use Rattle.stm_alike.specs.Seen.{seen_slot};
ghost use Rattle.std.specs.Prelude.{true, map, ◌≡◌, ◌≢◌, ◌≤◌, false, List, [], ◌∷◌, ◌++◌, length, is_some, Result, Ok, Err, IfOk, IfErr, IfSome, OnOk, OnErr};
ghost use Rattle.stm_history.specs.declared.revisions.TheConstants.{HIGHEST_REVISION};
ghost use Rattle.stm_history.specs.History.{now, AreRevisions};
ghost use Rattle.stm_outcome.specs.Terms.{most_operations};
ghost use Rattle.stm_txn.specs.Standing.{Setup, at_revision, kept};
ghost use Rattle.stm_entries.specs.Replayed.{opened_with, without_moment};
ghost use Rattle.stm_entries.specs.Replay.{replay};
ghost use Rattle.stm_entries.specs.Legal.{AreLegal};
ghost use Rattle.stm_compile.specs.Answers.{state_now};
ghost use Rattle.stm_meaning.specs.Meaning.{run_over};
ghost use Rattle.stm_steps.specs.declared.run.Answered.TheVariants.{Ended};
ghost use Rattle.stm_journal.specs.StateOf.{IsStateOf};
ghost use Rattle.stm_events.specs.declared.event.WorldEvent.{WorldEvent};
ghost use Rattle.stm_events.specs.declared.event.WorldEvent.TheVariants.{Start, Step};
ghost use Rattle.stm_events.specs.declared.refusal.Denied.{Denied};
ghost use Rattle.stm_events.specs.declared.refusal.EventRefusal.TheVariants.{OutOfMemory, BadLimit};
ghost use Rattle.stm_events.specs.declared.reply.Reply.{Reply};
ghost use Rattle.stm_events.specs.declared.reply.Reply.TheVariants.{Started};
ghost use Rattle.stm_world.specs.Appended.{HasAppended};
ghost use Rattle.stm_world.specs.Headline.{Holds};
ghost use Rattle.stm_world.specs.ReadsNow.{ReadsAreNow};
ghost use Rattle.stm_world.specs.Sound.{IsSound};
ghost use Rattle.stm_txn.specs.Restored.{can_restore};
ghost use Rattle.stm_world.specs.Restored.{restored_world};
ghost use Rattle.stm_world.specs.World.{opened, runner_at, start_runner, step, world_after, replies_to};
ghost use Rattle.stm_retry.specs.Returns.{IsStep, Returns, ran_out, expired_of, IsRunStop};
ghost use Rattle.stm_retry.specs.Stops.{GoesOnAlike};
ghost use Rattle.stm_retry.specs.Kept.{whole_store};
ghost use Rattle.stm_retry.specs.WorldOf.{with_places};

use crate::alike::{are_slots_alike, hint_of};
use crate::alone::run_now;
use crate::kept_world::{KeptWorld, copy_runners};
use crate::opened::Opened;
use crate::slots::{Slot, is_running};
use std::alloc::{AllocError, Global};
use std::marker::Model;
use stm_entries::Entry;
use stm_events::{Denied, EventRefusal, Reply, WorldEvent};
use stm_history::{HIGHEST_REVISION, Sequence};
use stm_journal::state_of;
use stm_meaning::{Run, State};
use stm_program::{Level, Program};
use stm_txn::{Checkpoint, Expired, MOST_OPERATIONS, Store};

/// Runners of programs over one store.
///
/// Contracts see the store, the places of the runners and the entries; the history is the whole one, to which the
/// entries lead, also where a compaction has dropped revisions of the store. In every world the entries replay from
/// the opening store to the history and the live leases, each is legal at its point, what a runner knows is true of
/// the history, and the store stands for it: it has the revisions from its floor on.
pub struct World {
    alloc: Global,
    /// What the store opened with, where the entries begin. The journal has the revision too, but contracts of `KeptWorld` see the world that they are,
    /// without it.
    opened: Opened,
    kept: KeptWorld,
}

impl Drop for World {
    fn drop(self) {
        let World {
            alloc: _,
            opened: _,
            kept: _,
        } = self;
    }
}

impl Model for World {
    ghost use Rattle.std.specs.Coded.{codes};
    ghost use Rattle.stm_program.specs.Coding.{coded_program};
    ghost use Rattle.stm_entries.specs.Codes.{coded_live};
    ghost use Rattle.stm_world.specs.World.{World as WorldState};
    ghost use Rattle.stm_retry.specs.Kept.{whole_world, IsKeptBy};

    ghost Value = { WorldState };

    ghost coded = { Prim.hlevel (codes, coded_program, coded_live) };

    ghost view = { λ w. whole_world w.opened w.kept };

    ghost invariant = { λ w. IsKeptBy w.kept.standing (whole_world w.opened w.kept) };
}

/// Where a run of events stopped because memory ran out.
#[derive(Debug, Drop)]
pub struct RunStop {
    /// How many events were taken before.
    pub done: usize,
    /// The leases that the stopped event had expired, in their order: none for every event but an advance.
    pub expired: Sequence<Expired>,
}

/// Whether an event was refused as out of memory.
pub fn is_out_of_memory(reply: &Result<Reply, Denied>) -> bool
    ensures { result ≡ ran_out reply.now }
{
    match reply {
        Ok(_) => false,
        Err(denied) => denied.is_out_of_memory(),
    }
}

/// The leases that had expired before a refusal.
fn expired_of(alloc: Global, reply: Result<Reply, Denied>) -> Sequence<Expired>
    ensures { result ≡ expired_of reply }
{
    match reply {
        Ok(reply) => {
            drop(reply);
            Sequence::new(alloc)
        }
        Err(denied) => denied.expired,
    }
}

impl World {
    /// A world with an empty store at revision 1 and moment 0, which takes up to `MOST_OPERATIONS` operations. Out of memory is its only
    /// refusal.
    pub fn new(alloc: Global) -> Result<World, AllocError>
        ensures { IfOk result (λ w. w ≡ opened (at_revision 1)) }
    {
        World::with_revision(alloc, 1)
    }

    /// A world with an empty store at this revision and moment 0, which takes up to `MOST_OPERATIONS` operations. Out of memory is its only
    /// refusal.
    pub fn with_revision(alloc: Global, start: u64) -> Result<World, AllocError>
        requires { (1 ≤ start) × (start ≤ HIGHEST_REVISION) }
        ensures { IfOk result (λ w. w ≡ opened (at_revision start)) }
    {
        World::with_limits(alloc, start, MOST_OPERATIONS)
    }

    /// A world with an empty store at this revision and moment 0, which takes at most `operations` elements in each of a transaction's three
    /// lists: a fetch, a commit or another client's transaction with more is refused as `TooManyOps`. Out of memory is its only refusal.
    pub fn with_limits(alloc: Global, start: u64, operations: usize) -> Result<World, AllocError>
        requires revision { (1 ≤ start) × (start ≤ HIGHEST_REVISION) }
        requires operations { (1 ≤ operations) × (operations ≤ most_operations) }
        ensures { IfOk result (λ w. w ≡ opened (record { revision = start; limit = operations })) }
    {
        let kept = KeptWorld::new(alloc, start, operations)?;
        let opened = Opened::empty(start);
        Ok(World {
            alloc,
            opened,
            kept,
        })
    }

    /// A world whose store opens with what a checkpoint has, and without runners; none where no store can (`can_restore`). Out of memory is its only
    /// refusal.
    pub fn restored(alloc: Global, checkpoint: Checkpoint) -> Result<Option<World>, AllocError>
        ensures world { IfOk result (λ o. IfSome o (λ w. w ≡ restored_world checkpoint)) }
        ensures some { IfOk result (λ o. is_some o ≡ can_restore checkpoint) }
    {
        let Some(kept) = KeptWorld::restored(alloc, &checkpoint)? else {
            return Ok(None);
        };
        let opened = Opened::with_states(alloc, checkpoint.revision, checkpoint.states)?;
        Ok(Some(World {
            alloc,
            opened,
            kept,
        }))
    }

    /// Starts a run of a program, which may send at most `limit` commits, and returns the runner's number.
    ///
    /// It is refused as `BadLimit` where the limit is 0, and as `OutOfMemory` where an allocation failed.
    /// A refused start takes no number and leaves the world as it was; the program is dropped.
    ///
    /// Where the headline holds of what the world was asked and has replied so far, it holds with this start and its reply added.
    pub fn start(&mut self, program: Program, level: Level, limit: u32) -> Result<u64, EventRefusal>
        ensures number { IfOk result (λ id. (start_runner (record { program = program; level = level; limit = limit }) self.old).reply ≡ Ok (Started id)) }
        ensures ok { OnOk result (self.new ≡ (start_runner (record { program = program; level = level; limit = limit }) self.old).next) }
        ensures bad_limit { limit ≡ 0 → result ≡ Err BadLimit }
        ensures memory_alone { limit ≢ 0 → IfErr result (λ e. e ≡ OutOfMemory) }
        ensures err { OnErr result (self.new ≡ self.old) }
        ensures headline { IfOk result (λ id. (setup : Setup) (before : List WorldEvent) (earlier : List (Result Reply Denied))
            → Holds setup before earlier self.old → Holds setup (before ++ Start program level limit ∷ []) (earlier ++ Ok (Started id) ∷ []) self.new) }
    {
        if limit == 0 {
            return Err(EventRefusal::BadLimit);
        }
        match self.kept.add_runner(self.alloc, program, level, limit) {
            Ok(id) => Ok(id),
            Err(AllocError) => Err(EventRefusal::OutOfMemory),
        }
    }

    /// Takes one event, and returns its reply.
    ///
    /// A runner's step evaluates its program on the answers that it has recorded and on the prefetched ones that
    /// serve. Then it makes at most one transaction of the store: the fetch of the key that the program wants,
    /// or its commit. A program that aborts or faults ends its run with that reply, and so does a commit that
    /// the store refuses, and a fetch at a revision that is compacted. A commit that fails begins a new attempt, or ends
    /// the run where it may send no more. Every other event is one call of the store.
    ///
    /// An event about a watcher is no entry, and leaves history, leases and moment as they are. So does a compaction:
    /// below its revision nothing can be read any more, and watchers that were still to be notified of something there are
    /// lost. A poll of a lost watcher returns `Lost`, and the watcher is given up.
    ///
    /// An event is refused as `BadLimit` (a start with limit 0), as `NoRunner` (a step of a runner that is not
    /// there or has ended), or for the store's cause. A refused event leaves the world as it was, but for an
    /// advance that stopped on its way (`RevisionsUsedUp`, `OutOfMemory`): the moment is set, the leases that
    /// expired before stay expired, are reported and are entries, and the rest stays due.
    ///
    /// `OutOfMemory` is returned only for an event that is taken where memory suffices, and for an advance that
    /// does not go back. Such an advance leaves the world as it was, or was cut short in that way. A compaction takes no memory.
    ///
    /// A commit at a level that compares, of which no compare fails, has read what the store has just before it, each
    /// value too; the same is true of one that the store refuses.
    ///
    /// Where the headline holds of what the world was asked and has replied so far, it holds with this event and its reply
    /// added, unless that reply is `OutOfMemory`.
    pub fn step(&mut self, event: &WorldEvent) -> Result<Reply, Denied>
        ensures reported { Returns event.now result self.old self.new }
        ensures reads { ReadsAreNow event.now self.old }
        ensures headline { ran_out result ≡ false → (start : Setup) (before : List WorldEvent) (earlier : List (Result Reply Denied))
            → Holds start before earlier self.old → Holds start (before ++ event.now ∷ []) (earlier ++ result ∷ []) self.new }
    {
        self.kept.step(self.alloc, event)
    }

    /// Takes these events in their order, and returns their replies.
    fn take_all(&mut self, events: &[WorldEvent]) -> Result<Vec<Result<Reply, Denied>>, RunStop>
        ensures replies { IfOk result (λ replies. replies.items ≡ replies_to events.now self.old) }
        ensures ok { OnOk result (self.new ≡ world_after events.now self.old) }
        ensures stopped { IfErr result (λ stop. IsRunStop events.now stop.done stop.expired self.old self.new) }
    {
        let Ok(mut replies) = Vec::with_capacity(self.alloc, events.len()) else {
            return Err(RunStop {
                done: 0,
                expired: Sequence::new(self.alloc),
            });
        };
        let mut done = 0;
        for event in events {
            let reply = self.step(event);
            if is_out_of_memory(&reply) {
                return Err(RunStop {
                    done,
                    expired: expired_of(self.alloc, reply),
                });
            }
            replies.push_reserved(reply);
            done += 1;
        }
        Ok(replies)
    }

    /// Does nothing: each world is sound.
    fn know_sound(&self)
        ensures { IsSound self.now }
    {
        // (the world's type says so)
        let _kept = &self.kept;
    }

    /// Takes these events in their order, and returns their replies.
    ///
    /// Room for all replies is made first. The run stops at the first event that is refused as `OutOfMemory`,
    /// before the first one where that room was refused: `done` events were taken, and the world is as it was
    /// before the stopped event, or that is an advance that was cut short after the leases in `expired`.
    ///
    /// The replies to those `done` events are dropped. The events from `done` on can be run from the world as it is then. They are
    /// answered as a run of all events would have answered them, but that an advance which was cut short reports only the leases that had
    /// not expired by then; and the world after is the same.
    ///
    /// Where the headline holds of what the world was asked and has replied so far, and the run is not stopped, it holds with these
    /// events and their replies added. It holds of a new world, with no events and no replies (`stm_world::laws::headline`). After an
    /// advance that was cut short no list of events leads to the world, unless that advance is made again next: the headline says
    /// nothing of it then, but its replies are still those of the step, and its entries replay.
    ///
    /// In any world a run that is not stopped only adds entries after those that are there: they are legal, each at its
    /// point, from the store as it was, and replay to the store as it is.
    pub fn run(&mut self, events: &[WorldEvent]) -> Result<Vec<Result<Reply, Denied>>, RunStop>
        ensures replies { IfOk result (λ replies. replies.items ≡ replies_to events.now self.old) }
        ensures ok { OnOk result (self.new ≡ world_after events.now self.old) }
        ensures stopped { IfErr result (λ stop. IsRunStop events.now stop.done stop.expired self.old self.new) }
        ensures goes_on { IfErr result (λ stop. GoesOnAlike events.now stop.done stop.expired self.old self.new) }
        ensures headline { IfOk result (λ replies. (start : Setup) (before : List WorldEvent) (earlier : List (Result Reply Denied))
            → Holds start before earlier self.old → Holds start (before ++ events.now) (earlier ++ replies.items) self.new) }
        ensures appended { OnOk result (HasAppended self.old self.new) }
    {
        self.know_sound();
        let replies = self.take_all(events)?;
        Ok(replies)
    }

    /// What changed the store, in the order of the steps.
    ///
    /// The entries replay to the history, for which the store stands (`store`), and to its live leases, and each is
    /// legal at its point. Each revision of that history changes something, and no key twice.
    pub fn history(&self) -> &[Entry]
        ensures entries { result.now ≡ self.now.entries }
        ensures replays { replay self.now.entries (opened_with self.now.standing.history.opening) ≡ without_moment self.now.standing }
        ensures legal { AreLegal self.now.entries (opened_with self.now.standing.history.opening) }
        ensures revisions { AreRevisions self.now.standing.history.revisions }
    {
        self.kept.journal.entries()
    }

    /// The store: its keys at every revision from the floor on, its leases, its moment and its watchers.
    ///
    /// It stands for the history that the entries replay to: it is that store without the revisions below the floor. One that was never
    /// compacted has them all.
    pub fn store(&self) -> &Store
        ensures standing { result.now.standing ≡ kept self.now.standing }
        ensures replays { result.now.standing ≡
            kept (whole_store self.now.standing.history.opening self.now.entries result.now.standing) }
        ensures reached { self.now.standing.floor ≤ now self.now.standing.history }
    {
        self.kept.journal.store()
    }

    /// The state of the store now: the present keys with their values and modification revisions.
    ///
    /// Out of memory is its only refusal.
    pub fn state(&self) -> Result<State, AllocError>
        ensures { IfOk result (λ state. IsStateOf self.now.standing.history state) }
    {
        state_of(self.alloc, self.kept.journal.store().keys())
    }

    /// The run of a program alone on the store now. It looks up the keys that it reads, and no others.
    ///
    /// Out of memory is its only refusal.
    pub fn run_alone(&self, program: &Program) -> Result<Run, AllocError>
        ensures { IfOk result (λ run. run_over (state_now self.now.standing.history) program.now.statements ≡ Ended run) }
    {
        run_now(self.alloc, program, self.store().keys())
    }
}

impl World {
    /// A separate world that is equal to this one: what is done to one of them changes nothing of the other.
    ///
    /// No event is taken again. It takes a step for each revision, lease, watcher, runner and entry; runners, the inner blocks of
    /// programs and the texts of keys are shared, a runner until one of the worlds makes a step of it. Out of memory is its only
    /// refusal.
    pub fn copy(&self) -> Result<World, AllocError>
        ensures { IfOk result (λ copy. copy ≡ self.now) }
    {
        let kept = self.kept.copy()?;
        let opened = self.opened.share()?;
        Ok(World {
            alloc: self.alloc,
            opened,
            kept,
        })
    }

    /// Whether the store of another world opened with the same. `false` says nothing.
    pub fn opens_alike(&self, other: &World) -> bool
        ensures { result ≡ true → self.now.standing.history.opening ≡ other.now.standing.history.opening }
    {
        self.opened.is_same(&other.opened)
    }

    /// Whether the runners of another world are alike: the steps from both can see the same of them. The revisions that later answers of an
    /// attempt carry may differ.
    pub fn has_alike_runners(&self, other: &World) -> bool
        ensures { result ≡ true → map seen_slot self.now.runners ≡ map seen_slot other.now.runners }
    {
        are_slots_alike(self.kept.runners.as_slice(), other.kept.runners.as_slice())
    }

    /// A number that worlds with alike runners have in common, and others mostly do not. No contract says so: `has_alike_runners` tells.
    pub fn runners_hint(&self) -> u64 {
        hint_of(self.kept.runners.as_slice())
    }

    /// The number of runners that were started. They have the numbers from 1 up to this one.
    pub fn runner_count(&self) -> usize
        ensures { result ≡ length self.now.runners }
    {
        self.kept.runners.len()
    }

    /// Whether the runner with this number was started and has not ended.
    pub fn is_running(&self, runner: u64) -> bool
        ensures { result ≡ is_some (runner_at runner self.now.runners) }
    {
        is_running(self.kept.runners.as_slice(), runner)
    }
}

// ---- what worlds that share their store are made of

impl World {
    /// A copy of the places of the runners.
    pub(crate) fn copy_places(&self) -> Result<Vec<Slot>, AllocError>
        ensures places { IfOk result (λ copy. copy.items ≡ self.now.runners) }
        ensures sound { IsSound self.now }
    {
        self.know_sound();
        copy_runners(&self.kept.runners)
    }

    /// A separate world with this one's store and entries, and these runners.
    pub(crate) fn copy_with(&self, runners: &Vec<Slot>) -> Result<World, AllocError>
        requires { IsSound (with_places runners.now.items self.now) }
        ensures { IfOk result (λ copy. copy ≡ with_places runners.now.items self.now) }
    {
        let kept = self.kept.copy_with(runners)?;
        let opened = self.opened.share()?;
        Ok(World {
            alloc: self.alloc,
            opened,
            kept,
        })
    }

    /// Makes one step of the runner with this number among these, if it changes nothing in the store and fetches no list. Where it does not,
    /// nothing is said of the runners.
    pub(crate) fn step_quietly(
        &self,
        runners: &mut Vec<Slot>,
        id: u64,
    ) -> Result<Option<Reply>, AllocError>
        requires { IsSound (with_places runners.old.items self.now) }
        ensures { IfOk result (λ o. IfSome o (λ reply. IsStep (step (Step id) (with_places runners.old.items self.now)) (Ok reply)
            (with_places runners.new.items self.now))) }
    {
        self.kept.step_quietly(self.alloc, runners, id)
    }
}
