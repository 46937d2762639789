//! Leases on which runs put that the store refused since no such lease was live: which they are, and when they are live.

use crate::accounts::{Account, is_said};
use crate::audience::Audience;
use std::alloc::{AllocError, Global};
use stm_named_keys::keys_written;
use stm_program::Program;
use stm_retry::World;
use stm_texts::WorldEvent;

/// Whether an event grants a lease.
fn grants(event: &WorldEvent, lease: u64) -> bool {
    match event {
        WorldEvent::Grant { id, .. } => *id == lease,
        _ => false,
    }
}

/// Whether an event may end a lease.
fn may_end(event: &WorldEvent, lease: u64) -> bool {
    match event {
        WorldEvent::Revoke { id } => *id == lease,
        WorldEvent::Advance { .. } => true,
        _ => false,
    }
}

/// When a lease is not live, which is live or not where the schedules begin, among these events behind the last start; nothing, where it is always live.
fn lost_words(is_live: bool, others: &[WorldEvent], lease: u64) -> &'static str {
    if is_live {
        if others.iter().any(|event| may_end(event, lease)) {
            return "which an event behind the last start may end";
        }
        return "";
    }
    if others.iter().any(|event| grants(event, lease)) {
        return "which is granted behind the last start alone, and so may come too late";
    }
    "which is not live behind the last start, and which no event grants there"
}

/// The leases on which a program puts by its spelling, each once.
fn leases_of(alloc: Global, program: &Program) -> Result<Vec<u64>, AllocError> {
    let all = keys_written(alloc, program)?;
    let mut leases = Vec::new(alloc);
    for written in all.as_slice() {
        let lease = written.lease;
        if lease != 0 && !leases.as_slice().contains(&lease) {
            leases.push(lease)?;
        }
    }
    Ok(leases)
}

/// Says of the leases on which a runner's program puts when they are not live.
fn tell_leases<O: Audience>(
    alloc: Global,
    runner: usize,
    program: &Program,
    world: &World,
    others: &[WorldEvent],
    audience: &mut O,
) -> Result<(), AllocError> {
    let leases = leases_of(alloc, program)?;
    for lease in leases.as_slice() {
        let words = lost_words(world.store().is_live(*lease), others, *lease);
        if !words.is_empty() {
            let lease = *lease;
            let line = format!(in alloc; "runner {runner} puts on lease {lease}, {words}")?;
            audience.hear(line.as_str());
        }
    }
    Ok(())
}

/// Says of each runner of which it is said how its runs ended, and of which the store refused one since a lease was not live, on which leases its program puts and
/// when they are not live. The schedules begin in this world, and the others have these events.
pub(crate) fn tell_lost_leases<O: Audience>(
    account: &Account<'_>,
    world: &World,
    others: &[WorldEvent],
    audience: &mut O,
) -> Result<(), AllocError> {
    for index in 0..account.runners.len() {
        let runs = &account.runners[index];
        if runs.has_lost_lease && is_said(runs, account.told) && index < account.programs.len() {
            let program = &account.programs[index];
            let runner = index + 1;
            tell_leases(account.alloc, runner, program, world, others, audience)?;
        }
    }
    Ok(())
}
