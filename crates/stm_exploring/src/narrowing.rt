//! A small world in the place of a whole one: with the keys and leases alone that programs, rules and the others' transactions name. A commit copies the store,
//! so that each move of a search is dear beside many other keys.
//!
//! The steps of runners are told the same in both, transactions change the same, and rules end the same there. What the small one is to show is looked up in both
//! once it is made.
ghost use Rattle.std.specs.Prelude.{◌≡◌, ◌∷◌, ℕ, List, true, false, [], filter, if◌then◌else◌, option_copied, IfOk, IfSome, OnOk};
ghost use Rattle.std.specs.BTreeSet.{contains};
ghost use Rattle.std.specs.Cmp.Lexicographic.{slice_cmp};
ghost use Rattle.std.specs.List.{list_any};
ghost use Rattle.std.specs.Ordering.{nat_cmp};
ghost use Rattle.stm_history.specs.History.{key_now, now};
ghost use Rattle.stm_leases.specs.Live.{is_live_in};
ghost use Rattle.stm_narrow.specs.Beginning.{is_step};
ghost use Rattle.stm_schedules.specs.Scenarios.{is_start};
ghost use Rattle.stm_serial_search.specs.Search.{AreProgramsOf};
ghost use Rattle.stm_world.specs.World.{world_after};
ghost use Rattle.stm_exploring.specs.Narrowing.{HasRun, IsNew, IsSmall, Narrows, ShowTheSame, StandsFor, name_alone};

use crate::grouping::asked_by;
use crate::rules::Rule;
use crate::setup::is_start;
use crate::touched::{Touched, bring_within, keep_to, touched_by};
use std::alloc::{AllocError, Global};
use std::collections::BTreeSet;
use std::slice;
use stm_history::{KeyState, Sequence, Text, are_same_states};
use stm_keys::Keys;
use stm_program::Program;
use stm_retry::World;
use stm_texts::WorldEvent;
use stm_txn::{Checkpoint, KeptLease, Store};

/// The time to live of each lease of a small world, all of which are granted at moment 0. No event that is left there looks at that.
const TTL: u64 = 1;

/// What those of these keys are now that are present.
fn states_of(
    alloc: Global,
    keys: &BTreeSet<Text>,
    store: &Keys,
) -> Result<Sequence<(Text, KeyState)>, AllocError> {
    let mut states = Sequence::new(alloc);
    for key in keys {
        if let Some(state) = store.get(key.as_str()) {
            let state = state.clone()?;
            let key = key.clone()?;
            states.push((key, state))?;
        }
    }
    Ok(states)
}

/// Those of these leases that are live.
fn leases_of(
    alloc: Global,
    ids: &BTreeSet<u64>,
    store: &Store,
) -> Result<Sequence<KeptLease>, AllocError> {
    let mut leases = Sequence::new(alloc);
    for id in ids {
        if store.is_live(*id) {
            leases.push(KeptLease {
                id: *id,
                ttl: TTL,
                renewed: 0,
            })?;
        }
    }
    Ok(leases)
}

/// What a store opens with that shows what this one shows now of these keys and leases.
fn checkpoint_of(
    alloc: Global,
    touched: &Touched,
    store: &Store,
) -> Result<Checkpoint, AllocError> {
    let states = states_of(alloc, &touched.keys, store.keys())?;
    let leases = leases_of(alloc, &touched.leases, store)?;
    Ok(Checkpoint {
        revision: store.keys().revision(),
        states,
        leases,
        operations: store.limit(),
    })
}

/// Takes an event, if it is a start.
fn start_one(world: &mut World, event: &WorldEvent) -> Result<(), AllocError>
    ensures { OnOk result (world.new ≡ world_after (if is_start event.now then event.now ∷ [] else []) world.old) }
{
    if !is_start(event) {
        return Ok(());
    }
    match world.run(slice::from_ref(event)) {
        Ok(replies) => {
            drop(replies);
            Ok(())
        }
        Err(_) => Err(AllocError),
    }
}

/// Takes the starts among these events.
fn start_each(world: &mut World, events: &[WorldEvent]) -> Result<(), AllocError>
    ensures { OnOk result (world.new ≡ world_after (filter is_start events.now) world.old) }
{
    for event in events {
        start_one(world, event)?;
    }
    Ok(())
}

/// Whether an event is a step.
fn is_step(event: &WorldEvent) -> bool
    ensures { result ≡ is_step event.now }
{
    matches!(event, WorldEvent::Step { .. })
}

/// Whether one of these events is a step.
fn has_step(events: &[WorldEvent]) -> bool
    ensures { result ≡ list_any is_step events.now }
{
    events.iter().any(is_step)
}

// ---- whether a small world shows what the whole one shows

/// Whether a key is in the same state in both.
fn is_same(one: Option<&KeyState>, other: Option<&KeyState>) -> bool
    ensures { result ≡ true → option_copied one.entry ≡ option_copied other.entry }
{
    match (one, other) {
        (None, None) => true,
        (Some(one), Some(other)) => are_same_states(one, other),
        _ => false,
    }
}

/// Whether both stores have come to the same revision, and take as many operations.
fn have_same_terms(one: &Store, other: &Store) -> bool
    ensures reached { result ≡ true → now one.now.standing.history ≡ now other.now.standing.history }
    ensures limit { result ≡ true → one.now.standing.limit ≡ other.now.standing.limit }
{
    one.limit() == other.limit() && one.keys().revision() == other.keys().revision()
}

/// Whether each of these keys is in the same state in both.
fn have_same_keys(keys: &BTreeSet<Text>, one: &Keys, other: &Keys) -> bool
    ensures { result ≡ true → (key : List ℕ) → contains (slice_cmp nat_cmp) keys.now key ≡ true → key_now one.now.history key ≡ key_now other.now.history key }
{
    for key in keys {
        if !is_same(one.get(key.as_str()), other.get(key.as_str())) {
            return false;
        }
    }
    true
}

/// Whether the same of these leases are live in both.
fn have_same_leases(ids: &BTreeSet<u64>, one: &Store, other: &Store) -> bool
    ensures { result ≡ true → (id : ℕ) → contains nat_cmp ids.now id ≡ true → is_live_in one.now.standing.live id ≡ is_live_in other.now.standing.live id }
{
    for id in ids {
        if one.is_live(*id) != other.is_live(*id) {
            return false;
        }
    }
    true
}

/// Whether two stores show the same of these keys and leases from now on.
fn show_the_same(touched: &Touched, one: &Store, other: &Store) -> bool
    ensures { result ≡ true → ShowTheSame touched.now one.now.standing other.now.standing }
{
    have_same_terms(one, other)
        && have_same_keys(&touched.keys, one.keys(), other.keys())
        && have_same_leases(&touched.leases, one, other)
}

/// A world without runners, whose store is to show the same of these keys and leases as another; none where no store opens so.
fn small_store(alloc: Global, touched: &Touched, store: &Store) -> Result<Option<World>, AllocError>
    ensures { IfOk result (λ o. IfSome o IsNew) }
{
    let checkpoint = checkpoint_of(alloc, touched, store)?;
    World::restored(alloc, checkpoint)
}

/// This world with the runners that these events start, where it shows the same of these keys and leases as a store, and else none.
fn with_runners(
    small: World,
    touched: &Touched,
    store: &Store,
    setup: &[WorldEvent],
) -> Result<Option<World>, AllocError>
    ensures world { IfOk result (λ o. IfSome o (λ w. w ≡ world_after (filter is_start setup.now) small)) }
    ensures shows { IfOk result (λ o. IfSome o (λ w. ShowTheSame touched.now w.standing store.now.standing)) }
{
    let mut small = small;
    start_each(&mut small, setup)?;
    if show_the_same(touched, small.store(), store) {
        return Ok(Some(small));
    }
    drop(small);
    Ok(None)
}

/// A world that shows the same of these keys and leases as a store, with the runners that these events start; none where there is none.
fn small_world(
    alloc: Global,
    touched: &Touched,
    store: &Store,
    setup: &[WorldEvent],
) -> Result<Option<World>, AllocError>
    ensures { IfOk result (λ o. IfSome o (IsSmall touched.now setup.now store.now.standing)) }
{
    match small_store(alloc, touched, store)? {
        None => Ok(None),
        Some(small) => with_runners(small, touched, store, setup),
    }
}

/// Whether the others, programs and rules name these keys and leases alone.
fn name_alone(
    alloc: Global,
    touched: &Touched,
    others: &[WorldEvent],
    programs: &[Program],
    rules: &[Program],
) -> Result<bool, AllocError>
    ensures { IfOk result (λ alone. alone ≡ name_alone touched.now others.now programs.now rules.now) }
{
    let first = keep_to(alloc, touched, programs)?;
    let second = keep_to(alloc, touched, rules)?;
    Ok(bring_within(touched, others) && first && second)
}

/// The small world in which these rules are searched for in the place of a whole one: none where a program or a rule makes a key of variables, or where the
/// others bring something that is no transaction.
fn narrowed_to(
    alloc: Global,
    world: &World,
    setup: &[WorldEvent],
    others: &[WorldEvent],
    programs: &[Program],
    rules: &[Program],
) -> Result<Option<World>, AllocError>
    requires programs { AreProgramsOf programs.now world.now.runners }
    requires ran { HasRun setup.now world.now }
    requires stepless { list_any is_step setup.now ≡ false }
    ensures { IfOk result (λ o. IfSome o (λ small. Narrows rules.now (record { world = small; others = others.now }) (record { world = world.now; others = others.now }))) }
{
    let store = world.store();
    let touched = touched_by(alloc, others, programs, rules, store.keys())?;
    if !name_alone(alloc, &touched, others, programs, rules)? {
        return Ok(None);
    }
    small_world(alloc, &touched, store, setup)
}

/// The small world in which these rules are searched for in the place of this one: none where a program or a rule makes a key of variables, where the others
/// bring something else than transactions of the current state, or where the search would come to other places. These events were run in this one, which had no
/// runner before.
pub(crate) fn narrowed(
    alloc: Global,
    world: &World,
    setup: &[WorldEvent],
    others: &[WorldEvent],
    programs: &[Program],
    rules: &[Rule],
) -> Result<Option<World>, AllocError>
    requires programs { AreProgramsOf programs.now world.now.runners }
    requires ran { HasRun setup.now world.now }
    ensures { IfOk result (λ o. IfSome o (λ small. StandsFor rules.now (record { world = small; others = others.now }) (record { world = world.now; others = others.now }))) }
{
    if has_step(setup) {
        return Ok(None);
    }
    let asked = asked_by(alloc, rules)?;
    narrowed_to(alloc, world, setup, others, programs, asked.as_slice())
}
