//! What is wrong with a commit.
ghost use Rattle.std.specs.Prelude.{◌≡◌, ◌-◌, map, find, slice_get, option_copied, option_map, IfOk};
ghost use Rattle.stm_audit.specs.Anomalies.{is_fractured, maker, has_read, is_skewed, is_lost_update, is_fractured_read, is_write_skew, came_of};
ghost use Rattle.stm_audit.specs.Anomalies.{of_read, untrue_in, stale_in, compares_writes, first_read};
ghost use Rattle.stm_audit.specs.Anomalies.{is_put_above, of_write, overwritten_in, found_in};

use crate::anomaly::Anomaly;
use crate::commit::Commit;
use crate::finding::Finding;
use crate::reads::{
    any_is_among, any_shows_from, changed_at, find_stale, find_untrue, is_among, is_stale,
    mod_rev_now,
};
use std::alloc::{AllocError, Global};
use stm_events::{CommittedRead, Level, Text};
use stm_history::HIGHEST_REVISION;
use stm_keys::Keys;
use stm_program::Write;

/// Whether one of these reads shows a change that was made with or after that of a stale one's key.
fn is_fractured(keys: &Keys, changed: Option<u64>, reads: &[CommittedRead]) -> bool
    ensures { result ≡ is_fractured keys.now.history changed reads.now }
{
    match changed {
        None => false,
        Some(changed) => any_shows_from(keys, changed, reads),
    }
}

/// How many commits had changed something since the opening, before the one that made a revision.
fn makers_before(opened: u64, revision: u64) -> usize
    ensures { result ≡ revision - opened - 1 }
{
    revision.saturating_sub(opened).saturating_sub(1) as usize
}

/// The commit that made a revision, among those that changed something since the opening.
fn maker<'a>(opened: u64, made: &[&'a Commit], revision: u64) -> Option<&'a Commit>
    ensures { option_copied result ≡ maker opened (map (λ c. c.now) made.now) revision }
{
    let index = makers_before(opened, revision);
    if index < made.len() {
        Some(made[index])
    } else {
        None
    }
}

/// Whether a commit had read a key that these writes are of.
fn has_read(writes: &[Write], commit: Option<&Commit>) -> bool
    ensures { result ≡ has_read writes.now (option_copied commit.entry) }
{
    match commit {
        None => false,
        Some(commit) => any_is_among(writes, commit.reads.as_slice()),
    }
}

/// Whether the commit that changed a stale read's key had read what these writes are of.
fn is_skewed(opened: u64, made: &[&Commit], changed: Option<u64>, writes: &[Write]) -> bool
    ensures { result ≡ is_skewed opened (map (λ c. c.now) made.now) changed writes.now }
{
    match changed {
        None => false,
        Some(changed) => has_read(writes, maker(opened, made, changed)),
    }
}

/// Whether a read is stale, and the commit writes its key.
fn is_lost_update(keys: &Keys, commit: &Commit, read: &CommittedRead) -> bool
    ensures { result ≡ is_lost_update keys.now.history commit.now read.now }
{
    is_stale(keys, read) && is_among(commit.writes.as_slice(), read.key.as_str())
}

/// Whether a read is stale, and another of the commit's reads does not go with it.
fn is_fractured_read(keys: &Keys, commit: &Commit, read: &CommittedRead) -> bool
    ensures { result ≡ is_fractured_read keys.now.history commit.now read.now }
{
    is_stale(keys, read) && is_fractured(keys, changed_at(keys, read), commit.reads.as_slice())
}

/// Whether a read is stale, and what made it so had read what the commit writes.
fn is_write_skew(keys: &Keys, made: &[&Commit], commit: &Commit, read: &CommittedRead) -> bool
    ensures { result ≡ is_write_skew keys.now.history (map (λ c. c.now) made.now) commit.now read.now }
{
    is_stale(keys, read)
        && is_skewed(
            keys.below(),
            made,
            changed_at(keys, read),
            commit.writes.as_slice(),
        )
}

// The first read of a commit of which each of these is so.

fn find_lost_update<'a>(keys: &Keys, commit: &'a Commit) -> Option<&'a CommittedRead>
    ensures { option_copied result ≡ find (is_lost_update keys.now.history commit.now) commit.now.reads }
{
    commit
        .reads
        .as_slice()
        .iter()
        .find(|read| is_lost_update(keys, commit, read))
}

fn find_fractured_read<'a>(keys: &Keys, commit: &'a Commit) -> Option<&'a CommittedRead>
    ensures { option_copied result ≡ find (is_fractured_read keys.now.history commit.now) commit.now.reads }
{
    commit
        .reads
        .as_slice()
        .iter()
        .find(|read| is_fractured_read(keys, commit, read))
}

fn find_write_skew<'a>(
    keys: &Keys,
    made: &[&Commit],
    commit: &'a Commit,
) -> Option<&'a CommittedRead>
    ensures { option_copied result ≡ find (is_write_skew keys.now.history (map (λ c. c.now) made.now) commit.now) commit.now.reads }
{
    commit
        .reads
        .as_slice()
        .iter()
        .find(|read| is_write_skew(keys, made, commit, read))
}

/// What came of the stale reads of a commit, and the first read that shows it. This is the first of them.
fn came_of<'a>(
    keys: &Keys,
    made: &[&Commit],
    commit: &'a Commit,
    first: &'a CommittedRead,
) -> (Anomaly, &'a CommittedRead)
    ensures { (result.0, result.1.now) ≡ came_of keys.now.history (map (λ c. c.now) made.now) commit.now first.now }
{
    if let Some(read) = find_lost_update(keys, commit) {
        (Anomaly::LostUpdate, read)
    } else if let Some(read) = find_fractured_read(keys, commit) {
        (Anomaly::FracturedRead, read)
    } else if let Some(read) = find_write_skew(keys, made, commit) {
        (Anomaly::WriteSkew, read)
    } else {
        (Anomaly::StaleRead, first)
    }
}

/// What is found of a read.
fn of_read(
    keys: &Keys,
    number: u64,
    anomaly: Anomaly,
    is_broken: bool,
    read: &CommittedRead,
) -> Result<Finding, AllocError>
    ensures { IfOk result (λ found. found ≡ of_read keys.now.history number anomaly is_broken read.now) }
{
    let held = mod_rev_now(keys, read.key.as_str());
    let key = read.key.clone()?;
    Ok(Finding {
        commit: number,
        anomaly,
        is_broken,
        key,
        seen: read.mod_rev,
        held,
    })
}

/// The first read of a commit that says what was not so.
fn untrue_in(
    keys: &Keys,
    known: u64,
    number: u64,
    commit: &Commit,
) -> Result<Option<Finding>, AllocError>
    ensures { IfOk result (λ found. found ≡ untrue_in keys.now.history known number commit.now) }
{
    match find_untrue(keys, known, commit.reads.as_slice()) {
        None => Ok(None),
        Some(read) => {
            let found = of_read(keys, number, Anomaly::DirtyRead, true, read)?;
            Ok(Some(found))
        }
    }
}

/// What came of the stale reads of a commit.
fn stale_in(
    keys: &Keys,
    made: &[&Commit],
    number: u64,
    commit: &Commit,
) -> Result<Option<Finding>, AllocError>
    ensures { IfOk result (λ found. found ≡ stale_in keys.now.history (map (λ c. c.now) made.now) number commit.now) }
{
    match find_stale(keys, commit.reads.as_slice()) {
        None => Ok(None),
        Some(first) => {
            let (anomaly, read) = came_of(keys, made, commit, first);
            let found = of_read(keys, number, anomaly, commit.level.is_comparing(), read)?;
            Ok(Some(found))
        }
    }
}

/// Whether a commit at a level compares what was written.
fn compares_writes(level: Level) -> bool
    ensures { result ≡ compares_writes level }
{
    match level {
        Level::SerializableSnapshot => true,
        Level::Serializable => false,
        Level::RepeatableReads => false,
        Level::ReadCommitted => false,
    }
}

/// The least revision that one of these reads is of, and the highest one where there is none.
#[tactic(auto, unfolding(crate::specs::Anomalies::first_read))]
fn first_read(reads: &[CommittedRead]) -> u64
    ensures { result ≡ first_read reads.now }
{
    let mut first = HIGHEST_REVISION;
    for read in reads {
        first = first.min(read.of_rev);
    }
    first
}

/// Whether a written key was put above a revision.
fn is_put_above(keys: &Keys, revision: u64, write: &Write) -> bool
    ensures { result ≡ is_put_above keys.now.history revision write.now }
{
    revision < mod_rev_now(keys, write.key())
}

/// The first of these writes whose key was put above a revision.
fn find_put_above<'a>(keys: &Keys, revision: u64, writes: &'a [Write]) -> Option<&'a Write>
    ensures { option_copied result ≡ find (is_put_above keys.now.history revision) writes.now }
{
    writes
        .iter()
        .find(|write| is_put_above(keys, revision, write))
}

/// What is found of a write.
fn of_write(
    alloc: Global,
    keys: &Keys,
    number: u64,
    first: u64,
    write: &Write,
) -> Result<Finding, AllocError>
    ensures { IfOk result (λ found. found ≡ of_write keys.now.history number first write.now) }
{
    let held = mod_rev_now(keys, write.key());
    let key = Text::copy_of(alloc, write.key())?;
    Ok(Finding {
        commit: number,
        anomaly: Anomaly::BlindWrite,
        is_broken: true,
        key,
        seen: first,
        held,
    })
}

/// The first key that a commit wrote and that was put above the revision of its first read, at a level that compares the keys written.
fn overwritten_in(
    alloc: Global,
    keys: &Keys,
    number: u64,
    commit: &Commit,
) -> Result<Option<Finding>, AllocError>
    ensures { IfOk result (λ found. found ≡ overwritten_in keys.now.history number commit.now) }
{
    if !compares_writes(commit.level) {
        return Ok(None);
    }
    let first = first_read(commit.reads.as_slice());
    match find_put_above(keys, first, commit.writes.as_slice()) {
        None => Ok(None),
        Some(write) => {
            let found = of_write(alloc, keys, number, first, write)?;
            Ok(Some(found))
        }
    }
}

/// What is wrong with a commit, if anything is, where it is known from a revision on what each key was.
pub(crate) fn found_in(
    alloc: Global,
    keys: &Keys,
    known: u64,
    made: &[&Commit],
    number: u64,
    commit: &Commit,
) -> Result<Option<Finding>, AllocError>
    ensures { IfOk result (λ found. found ≡ found_in keys.now.history known (map (λ c. c.now) made.now) number commit.now) }
{
    if let Some(found) = untrue_in(keys, known, number, commit)? {
        return Ok(Some(found));
    }
    if let Some(found) = stale_in(keys, made, number, commit)? {
        return Ok(Some(found));
    }
    overwritten_in(alloc, keys, number, commit)
}
