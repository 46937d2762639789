//! Recipes in a world, and what their readers return for its state. What is expected comes from the description of the recipes, and never from
//! a run.
use std::alloc::{AllocError, Global};
use std::test::Fail;
use stm_program::Program;
use stm_recipes::{deposit, enqueue, held, queue_items, reserve_slot, total, transfer};
use stm_retry::{Level, State, World, WorldEvent};

/// Runs a program to its end. No recipe here reads more than three keys before its commit.
fn run(world: &mut World, program: Program) -> bool {
    let Ok(runner) = world.start(program, Level::Serializable, 1) else {
        return false;
    };
    for _ in 0..4 {
        let reply = world.step(&WorldEvent::Step { runner });
        drop(reply);
    }
    !world.is_running(runner)
}

/// 100 is paid into "a0" and into "a1", and 30 of "a0" into "a1".
fn pay(alloc: Global, world: &mut World) -> Result<bool, AllocError> {
    let first = run(world, deposit(alloc, "a0", 100)?);
    let second = run(world, deposit(alloc, "a1", 100)?);
    let paid = run(world, transfer(alloc, "a0", "a1", 30)?);
    Ok(first && second && paid)
}

/// "i1" is put into the queue "q", and the slot "s" is reserved for "h" on lease 7.
fn queue_and_reserve(alloc: Global, world: &mut World) -> Result<bool, AllocError> {
    let granted = world.step(&WorldEvent::Grant { id: 7, ttl: 60 });
    drop(granted);
    let queued = run(world, enqueue(alloc, "q", "i1")?);
    let reserved = run(world, reserve_slot(alloc, "s", "h", 7)?);
    Ok(queued && reserved)
}

pub(crate) fn value_of<'a>(state: &'a State, key: &str) -> &'a str {
    match state.get(key) {
        Some(entry) => entry.value.as_str(),
        None => "absent",
    }
}

fn total_of(state: &State) -> &'static str {
    match total(state, &["a0", "a1"]) {
        Some(200) => "200",
        Some(_) => "another number",
        None => "none",
    }
}

fn holder_of(state: &State) -> &str {
    match held(state, "s") {
        Some(holder) => holder,
        None => "none",
    }
}

fn count_items(alloc: Global, state: &State) -> Result<usize, AllocError> {
    match queue_items(alloc, state, "q")? {
        Some(items) => {
            let count = items.len();
            drop(items);
            Ok(count)
        }
        None => Ok(0),
    }
}

/// What the readers return for a state.
fn report_state(alloc: Global, reported: &mut String, state: &State) -> Result<(), AllocError> {
    let queued = count_items(alloc, state)?;
    write!(
        reported,
        "a0 {}, a1 {}, total {}, held {}, queued {}",
        value_of(state, "a0"),
        value_of(state, "a1"),
        total_of(state),
        holder_of(state),
        queued
    )
}

/// Runs the recipes in a world, and reports its state.
fn report_world(alloc: Global, reported: &mut String, world: &mut World) -> Result<(), AllocError> {
    if !pay(alloc, world)? || !queue_and_reserve(alloc, world)? {
        return reported.push_str("a recipe did not end");
    }
    let state = world.state()?;
    let done = report_state(alloc, reported, &state);
    drop(state);
    done
}

#[test]
fn readers_take_the_state_of_a_world(rt: HostRuntime) -> Result<(), Fail> {
    let mut reported = String::new(rt.alloc());
    let mut world = World::new(rt.alloc())?;
    let done = report_world(rt.alloc(), &mut reported, &mut world);
    drop(world);
    done?;
    assert_eq!(rt;
        reported.as_str(),
        "a0 70, a1 130, total 200, held h, queued 1"
    );
    Ok(())
}
