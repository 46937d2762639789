//! The store after the writes of a commit.
ghost use Rattle.std.specs.Prelude.{◌≡◌, ◌≢◌, None, IfOk, OnOk};
ghost use Rattle.stm_outcome.specs.declared.refusal.Refusal.TheVariants.{OutOfMemory};
ghost use Rattle.stm_audit.specs.Audit.{after, left_by, revision_of, is_reached};

use std::alloc::{AllocError, Global};
use stm_compile::WriteBuffer;
use stm_program::Write;
use stm_txn::{Refusal, Store};

/// No revision, where the store refused writes, though it did not run out of memory.
fn refused(cause: Refusal) -> Result<Option<u64>, AllocError>
    ensures none { IfOk result (λ revision. revision ≡ None) }
    ensures memory { OnOk result (cause ≢ OutOfMemory) }
{
    if cause == Refusal::OutOfMemory {
        return Err(AllocError);
    }
    Ok(None)
}

/// Makes the last write of each key, with nothing compared, and gives the revision that the store has come to; none where it refuses them.
fn make(alloc: Global, store: &mut Store, writes: &[Write]) -> Result<Option<u64>, AllocError>
    ensures revision { IfOk result (λ revision. revision ≡ revision_of (after store.old.standing writes.now)) }
    ensures store { OnOk result (store.new.standing ≡ left_by store.old.standing (after store.old.standing writes.now)) }
{
    let latest = WriteBuffer::of(alloc, writes)?;
    match store.write(latest.into_changes()) {
        Ok(revision) => Ok(Some(revision)),
        Err(cause) => refused(cause),
    }
}

/// Whether there is a revision, and it is this one.
fn is_reached(revision: u64, reached: Option<u64>) -> bool
    ensures { result ≡ is_reached revision reached }
{
    match reached {
        None => false,
        Some(reached) => reached == revision,
    }
}

/// Makes the last write of each key, and returns whether the store then is at a revision.
pub(crate) fn comes_to(
    alloc: Global,
    store: &mut Store,
    writes: &[Write],
    revision: u64,
) -> Result<bool, AllocError>
    ensures reached { IfOk result (λ b. b ≡ is_reached revision (revision_of (after store.old.standing writes.now))) }
    ensures store { OnOk result (store.new.standing ≡ left_by store.old.standing (after store.old.standing writes.now)) }
{
    let reached = make(alloc, store, writes)?;
    Ok(is_reached(revision, reached))
}
