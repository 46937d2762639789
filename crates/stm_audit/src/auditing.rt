//! The audit of a trace.
ghost use Rattle.std.specs.Prelude.{◌≡◌, ◌+◌, ◌≤◌, [], ◌++◌, true, false, map, nat_lt, min, max, option_map, IfOk, OnOk};
ghost use Rattle.std.specs.List.{list_any};
ghost use Rattle.stm_history.specs.History.{now};
ghost use Rattle.stm_program.specs.Writes.{latest_writes};
ghost use Rattle.stm_audit.specs.Anomalies.{found_in};
ghost use Rattle.stm_audit.specs.Audit.{after, left_by, revision_of, is_reached, with_found, with_maker, is_put, before_first, opened};
ghost use Rattle.stm_audit.specs.Audit.{restoring, beginning, known_from, audit_from, audited};

use crate::commit::Commit;
use crate::finding::Finding;
use crate::stale::found_in;
use crate::store_after::comes_to;
use crate::trace::Trace;
use std::alloc::{AllocError, Global};
use stm_events::Sequence;
use stm_history::HIGHEST_REVISION;
use stm_program::{Write, latest_writes};
use stm_txn::{Checkpoint, Store};

/// What an audit comes to.
#[derive(Debug, Drop)]
pub struct Audited {
    /// The anomalies, at most one for each commit, in the order of the commits.
    pub findings: Sequence<Finding>,
    /// The first commit whose revision is not the one that the store then has, where there is one: what comes behind it was not looked at.
    pub off: Option<u64>,
}

/// Adds what was found, if anything was.
fn add_found(findings: &mut Vec<Finding>, found: Option<Finding>) -> Result<(), AllocError>
    ensures { OnOk result (findings.new.items ≡ findings.old.items ++ with_found found []) }
{
    match found {
        None => Ok(()),
        Some(found) => Ok(findings.push(found)?),
    }
}

/// Adds a commit to those that changed something, where it has.
fn add_maker<'a>(
    made: &mut Vec<&'a Commit>,
    has_changed: bool,
    commit: &'a Commit,
) -> Result<(), AllocError>
    ensures { OnOk result (map (λ c. c.now) made.new.items ≡ with_maker has_changed (map (λ c. c.now) made.old.items) commit.now) }
{
    if has_changed {
        made.push(commit)?;
    }
    Ok(())
}

/// Takes a commit, and returns whether its revision is the store's after it.
fn take<'a>(
    alloc: Global,
    store: &mut Store,
    known: u64,
    made: &mut Vec<&'a Commit>,
    findings: &mut Vec<Finding>,
    number: u64,
    commit: &'a Commit,
) -> Result<bool, AllocError>
    ensures reached { IfOk result (λ b. b ≡ is_reached commit.now.revision (revision_of (after store.old.standing commit.now.writes))) }
    ensures store { IfOk result (λ b. b ≡ true → store.new.standing ≡ left_by store.old.standing (after store.old.standing commit.now.writes)) }
    ensures made { IfOk result (λ b. b ≡ true → map (λ c. c.now) made.new.items
        ≡ with_maker (nat_lt (now store.old.standing.history) commit.now.revision) (map (λ c. c.now) made.old.items) commit.now) }
    ensures found { IfOk result (λ b. b ≡ true → findings.new.items
        ≡ findings.old.items ++ with_found (found_in store.old.standing.history known (map (λ c. c.now) made.old.items) number commit.now) []) }
    ensures off { IfOk result (λ b. b ≡ false → findings.new.items ≡ findings.old.items) }
{
    let found = found_in(alloc, store.keys(), known, made.as_slice(), number, commit)?;
    let before = store.keys().revision();
    if !comes_to(alloc, store, commit.writes.as_slice(), commit.revision)? {
        return Ok(false);
    }
    add_maker(made, before < commit.revision, commit)?;
    add_found(findings, found)?;
    Ok(true)
}

/// Takes these commits, one after another, over a store of which it is known from a revision on what each key was.
pub(crate) fn audit_each(
    alloc: Global,
    store: &mut Store,
    known: u64,
    commits: &[Commit],
) -> Result<Audited, AllocError>
    ensures { IfOk result (λ a. a ≡ audit_from known store.old.standing [] 1 commits.now) }
{
    let mut made = Vec::new(alloc);
    let mut findings = Vec::new(alloc);
    for (index, commit) in commits.iter().enumerate() {
        let number = index as u64 + 1;
        let fits = take(
            alloc,
            store,
            known,
            &mut made,
            &mut findings,
            number,
            commit,
        )?;
        if !fits {
            return Ok(Audited {
                findings: Sequence::of(findings),
                off: Some(number),
            });
        }
    }
    Ok(Audited {
        findings: Sequence::of(findings),
        off: None,
    })
}

/// Whether a write puts its key.
fn is_put(write: &Write) -> bool
    ensures { result ≡ is_put write.now }
{
    match write {
        Write::Put { .. } => true,
        Write::Del { .. } => false,
    }
}

/// Whether one of these writes does.
fn any_is_put(writes: &[Write]) -> bool
    ensures { result ≡ list_any is_put writes.now }
{
    writes.iter().any(|write| is_put(write))
}

/// Whether the last write of a key does.
pub(crate) fn leaves_a_key(alloc: Global, writes: &[Write]) -> Result<bool, AllocError>
    ensures { IfOk result (λ b. b ≡ list_any is_put (latest_writes writes.now)) }
{
    let latest = latest_writes(alloc, writes)?;
    Ok(any_is_put(latest.as_slice()))
}

/// The revision before the first commit.
fn before_first(alloc: Global, commits: &[Commit]) -> Result<u64, AllocError>
    ensures { IfOk result (λ revision. revision ≡ before_first commits.now) }
{
    match commits {
        [] => Ok(1),
        [first, ..] => {
            if leaves_a_key(alloc, first.writes.as_slice())? {
                Ok(first.revision.saturating_sub(1))
            } else {
                Ok(first.revision)
            }
        }
    }
}

/// A revision, where a store can open at it, else the nearest one at which it can.
fn within_bounds(revision: u64) -> u64
    ensures value { result ≡ min HIGHEST_REVISION (max 1 revision) }
    ensures range { (1 ≤ result) × (result ≤ HIGHEST_REVISION) }
{
    revision.max(1).min(HIGHEST_REVISION)
}

/// The revision at which the store opens.
pub(crate) fn opened(alloc: Global, commits: &[Commit]) -> Result<u64, AllocError>
    ensures value { IfOk result (λ revision. revision ≡ opened commits.now) }
    ensures range { IfOk result (λ revision. (1 ≤ revision) × (revision ≤ HIGHEST_REVISION)) }
{
    let before = before_first(alloc, commits)?;
    Ok(within_bounds(before))
}

/// The store that a trace says it begins with; none where no store can be so.
#[tactic(auto, using(crate::proofs::AuditLemmas::restored_as))]
fn restored(alloc: Global, checkpoint: &Checkpoint) -> Result<Option<Store>, AllocError>
    ensures { IfOk result (λ o. option_map (λ s. s.standing) o ≡ restoring checkpoint.now) }
{
    let store = Store::restored(alloc, checkpoint)?;
    Ok(store)
}

/// The store before a trace; none where no store can be as the trace says.
pub(crate) fn beginning(alloc: Global, trace: &Trace) -> Result<Option<Store>, AllocError>
    ensures { IfOk result (λ o. option_map (λ s. s.standing) o ≡ beginning trace.now.opening trace.now.commits) }
{
    match &trace.opening {
        None => {
            let revision = opened(alloc, trace.commits.as_slice())?;
            let store = Store::with_revision(alloc, revision)?;
            Ok(Some(store))
        }
        Some(checkpoint) => {
            let store = restored(alloc, checkpoint)?;
            Ok(store)
        }
    }
}

/// The revision from which on it is known what each key was.
pub(crate) fn known_from(opening: &Option<Checkpoint>) -> u64
    ensures { result ≡ known_from opening.now }
{
    match opening {
        None => 0,
        Some(checkpoint) => checkpoint.revision,
    }
}

/// Audits a trace; none where no store can be as it says that its own was (`can_restore`): its keys do not ascend, or a revision is above the store's.
///
/// A read has to say what its key was at the revision that it is of. At a level that compares the keys read, each of
/// these has to be at the commit as it was read; at `SerializableSnapshot` no key that is written may have been put above the least revision that a read is of. What
/// breaks one of these is a broken promise; a read whose key has been changed is a finding at ReadCommitted, too. Of a commit the first of these is found: of
/// several reads whose keys have been changed, the first anomaly in the order of `Anomaly` that one of them shows.
///
/// It takes a step for each read and each write, and for each of these a search by halves in its key's revisions. Of a read whose key has been changed it also
/// looks at the commit's other reads and its writes. It fails only where an allocation does.
pub fn audit(alloc: Global, trace: &Trace) -> Result<Option<Audited>, AllocError>
    ensures { IfOk result (λ a. a ≡ audited trace.now) }
{
    let Some(mut store) = beginning(alloc, trace)? else {
        return Ok(None);
    };
    let known = known_from(&trace.opening);
    let audited = audit_each(alloc, &mut store, known, trace.commits.as_slice());
    drop(store);
    Ok(Some(audited?))
}
