//! What is under way in a store, which keeps it from being compacted.

use std::alloc::{AllocError, Global};
use stm_file_disk::open_to_read;
use stm_lasting::{World, open};

/// So many numbers are named at most.
const MOST_NAMED: usize = 20;

/// The numbers of the runners of a world that run.
fn running(alloc: Global, world: &World) -> Result<Vec<u64>, AllocError> {
    let mut numbers = Vec::new(alloc);
    for runner in 0..world.runner_count() as u64 {
        if world.is_running(runner + 1) {
            numbers.push(runner + 1)?;
        }
    }
    Ok(numbers)
}

/// The numbers of the watchers of a world that are open: those that can be cancelled, in a copy of its store.
fn watching(alloc: Global, world: &World) -> Result<Vec<u64>, AllocError> {
    let mut store = world.store().copy()?;
    let mut numbers = Vec::new(alloc);
    let count = store.watcher_count() as u64;
    for watcher in 0..count {
        if store.cancel(watcher + 1).is_ok() {
            numbers.push(watcher + 1)?;
        }
    }
    Ok(numbers)
}

/// Says of the store of a file which runners or watchers these are.
fn say_numbers(
    rt: &HostRuntime,
    store: &str,
    what: &str,
    numbers: &[u64],
) -> Result<(), AllocError> {
    if numbers.is_empty() {
        return Ok(());
    }
    let mut text = String::new(rt.alloc());
    for number in numbers.iter().take(MOST_NAMED) {
        let one = format!(in rt.alloc(); " {number}")?;
        text.push_str(one.as_str())?;
    }
    let more = if numbers.len() > MOST_NAMED {
        " .."
    } else {
        ""
    };
    let text = text.as_str();
    let _ = eprintln!(rt; "stmrun: {store}: {what}:{text}{more}");
    Ok(())
}

/// Says which runners of a world run and which watchers are open, or that none is.
fn say_of(rt: &HostRuntime, store: &str, world: &World) -> Result<(), AllocError> {
    let running = running(rt.alloc(), world)?;
    let watching = watching(rt.alloc(), world)?;
    if running.is_empty() && watching.is_empty() {
        let _ = eprintln!(rt; "stmrun: {store}: no runner runs, and no watcher is open");
    }
    say_numbers(rt, store, "runners that run", &running)?;
    say_numbers(rt, store, "watchers that are open", &watching)
}

/// Says which runners of the store of a file run, and which watchers are open; nothing, where it cannot be read.
pub(crate) fn say_under_way(rt: &HostRuntime, store: &str) {
    let Ok((mut disk, bytes)) = open_to_read(rt, store) else {
        return;
    };
    if let Ok(kept) = open(rt.alloc(), &mut disk, bytes) {
        let _ = say_of(rt, store, &kept.world);
        drop(kept);
    }
}
