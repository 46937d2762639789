//! Stores that open with keys and leases.
ghost use Rattle.std.specs.Prelude.{◌≡◌, ◌||◌, ℕ, List, nat_eq, bytes_eq, true, None, IfOk, IfSome, is_none, is_some, Some, option_copied, if◌then◌else◌};
ghost use Rattle.std.specs.Cmp.Lexicographic.{slice_cmp};
ghost use Rattle.std.specs.Ordering.{nat_cmp};
ghost use Rattle.std.specs.FinMap as finmap;
ghost use Rattle.std.specs.FinMap.{find, is_sorted};
ghost use Rattle.stm_history.specs.Opening.{is_reached};
ghost use Rattle.stm_keys.specs.CanOpen.{can_open};
ghost use Rattle.stm_leases.specs.Live.{grant_refusal, is_live_in};
ghost use Rattle.stm_leases.specs.Leases.{lease_of};
ghost use Rattle.stm_outcome.specs.Numbers.{LeasesFit};
ghost use Rattle.stm_txn.specs.Leasing.{attaching, lease_named, AttachedAsStored};
ghost use Rattle.stm_txn.specs.Restored.{term_kept, stands_behind, granted_all, are_granted, live_of, restored, are_attached_in, is_in_range, can_restore};

use crate::store::Store;
use std::alloc::{AllocError, Global};
use stm_history::{KeyState, Sequence, Text};
use stm_keys::{HIGHEST_REVISION, Keys};
use stm_leases::Leases;
use stm_outcome::{MOST_OPERATIONS, OperationLimit};
use stm_watch::Watchers;

/// A live lease, as it is kept.
#[derive(Debug, Clone, Copy, PartialEq, Eq)]
pub struct KeptLease {
    /// Its id.
    pub id: u64,
    /// Its time to live, in seconds.
    pub ttl: u64,
    /// The moment of its grant or last renewal, in seconds.
    pub renewed: u64,
}

/// What a store opens with that has dropped all its revisions up to one.
#[derive(Debug, Drop)]
pub struct Checkpoint {
    /// The revision.
    pub revision: u64,
    /// What each key was there that was present, ascending by the keys' bytes.
    pub states: Sequence<(Text, KeyState)>,
    /// The live leases, ascending by id.
    pub leases: Sequence<KeptLease>,
    /// The most operations that the store takes in each list of a transaction.
    pub operations: usize,
}

/// Grants a lease at its own moment: whether it was granted.
fn grant_one(leases: &mut Leases, lease: KeptLease) -> Result<bool, AllocError>
    ensures same { IfOk result (λ b. b ≡ is_none (grant_refusal leases.old.live lease.id lease.ttl)) }
    ensures granted { IfOk result (λ b. b ≡ true → leases.new.live ≡ finmap.insert leases.old.live lease.id (term_kept lease)) }
    ensures loose { leases.new.attached ≡ leases.old.attached }
{
    if leases.grant_refusal(lease.id, lease.ttl).is_some() {
        return Ok(false);
    }
    match leases.grant(lease.id, lease.ttl, lease.renewed) {
        Ok(()) => Ok(true),
        Err(_) => Err(AllocError),
    }
}

/// Grants these leases, one after another: whether all were granted.
fn grant_all(leases: &mut Leases, kept: &[KeptLease]) -> Result<bool, AllocError>
    ensures same { IfOk result (λ b. b ≡ are_granted kept.now leases.old.live) }
    ensures granted { IfOk result (λ b. b ≡ true → leases.new.live ≡ granted_all kept.now leases.old.live) }
    ensures loose { leases.new.attached ≡ leases.old.attached }
{
    for lease in kept {
        if !grant_one(leases, *lease)? {
            return Ok(false);
        }
    }
    Ok(true)
}

/// Attaches a key to a live lease.
fn attach_live(alloc: Global, leases: &mut Leases, key: &Text, lease: u64) -> Result<(), AllocError>
    requires live { is_live_in leases.old.live lease ≡ true }
    requires loose { lease_of leases.old key.now ≡ None }
    ensures attached { IfOk result (λ done. (k : List ℕ) → lease_of leases.new k ≡ (if bytes_eq key.now k then Some lease else lease_of leases.old k)) }
    ensures live { leases.new.live ≡ leases.old.live }
{
    let copy = String::from_str(alloc, key.as_str())?;
    let name = String::from_str(alloc, key.as_str())?;
    leases.reserve_attach(1)?;
    leases.attach(name, copy, lease);
    Ok(())
}

/// Attaches a key to the lease of its state, if it has one: whether that lease is live.
fn attach_one(
    alloc: Global,
    leases: &mut Leases,
    key: &Text,
    lease: u64,
) -> Result<bool, AllocError>
    requires loose { lease_of leases.old key.now ≡ None }
    ensures same { IfOk result (λ b. b ≡ (nat_eq lease 0 || is_live_in leases.old.live lease)) }
    ensures attached { IfOk result (λ b. b ≡ true → (k : List ℕ) →
        lease_of leases.new k ≡ (if bytes_eq key.now k then lease_named lease else lease_of leases.old k)) }
    ensures live { leases.new.live ≡ leases.old.live }
{
    if lease == 0 {
        return Ok(true);
    }
    if !leases.is_live(lease) {
        return Ok(false);
    }
    attach_live(alloc, leases, key, lease)?;
    Ok(true)
}

/// Attaches each key to the lease of its state: whether all of these leases are live.
fn attach_all(
    alloc: Global,
    leases: &mut Leases,
    states: &[(Text, KeyState)],
) -> Result<bool, AllocError>
    requires sorted { is_sorted (slice_cmp nat_cmp) states.now ≡ true }
    requires loose { leases.old.attached ≡ finmap.empty }
    ensures same { IfOk result (λ b. b ≡ are_attached_in leases.old.live states.now) }
    ensures attached { IfOk result (λ b. b ≡ true → (key : List ℕ) → lease_of leases.new key ≡ attaching (find (slice_cmp nat_cmp) key states.now)) }
    ensures live { leases.new.live ≡ leases.old.live }
{
    for entry in states {
        if !attach_one(alloc, leases, &entry.0, entry.1.lease)? {
            return Ok(false);
        }
    }
    Ok(true)
}

/// Whether a key can be in this state in a store that has come to a revision.
fn is_reached(revision: u64, state: &KeyState) -> bool
    ensures { result ≡ is_reached revision state.now }
{
    1 <= state.create_rev
        && state.create_rev <= state.mod_rev
        && state.mod_rev <= revision
        && 1 <= state.version
        && state.version <= revision
}

/// Whether a key stands behind the one before it, if there is one.
fn follows(before: Option<&Text>, key: &Text) -> bool
    ensures { result ≡ stands_behind (option_copied before.entry) key.now }
{
    match before {
        None => true,
        Some(earlier) => earlier < key,
    }
}

/// Whether a store can open with these states at a revision: the keys ascend, and each state can be there.
fn can_open(revision: u64, states: &[(Text, KeyState)]) -> bool
    ensures { result ≡ can_open revision states.now }
{
    let mut before: Option<&Text> = None;
    for entry in states {
        if !follows(before, &entry.0) || !is_reached(revision, &entry.1) {
            return false;
        }
        before = Some(&entry.0);
    }
    true
}

impl Checkpoint {
    /// Whether the numbers of it, its keys and their states are those of a store. Its leases are looked at when they are granted.
    fn is_in_range(&self) -> bool
        ensures { result ≡ is_in_range self.now }
    {
        1 <= self.revision
            && self.revision <= HIGHEST_REVISION
            && 1 <= self.operations
            && self.operations <= MOST_OPERATIONS
            && can_open(self.revision, self.states.as_slice())
    }
}

/// The leases of a checkpoint, with the keys that are attached to them; none where it is none of a store.
fn leases_of(alloc: Global, checkpoint: &Checkpoint) -> Result<Option<Leases>, AllocError>
    requires { is_in_range checkpoint.now ≡ true }
    ensures same { IfOk result (λ o. is_some o ≡ can_restore checkpoint.now) }
    ensures live { IfOk result (λ o. IfSome o (λ leases. leases.live ≡ live_of checkpoint.now)) }
    ensures attached { IfOk result (λ o. IfSome o (λ leases. AttachedAsStored (lease_of leases) (restored checkpoint.now).history)) }
    ensures fits { IfOk result (λ o. IfSome o (λ leases. LeasesFit (restored checkpoint.now).history)) }
{
    let mut leases = Leases::new(alloc);
    if !grant_all(&mut leases, checkpoint.leases.as_slice())? {
        return Ok(None);
    }
    if !attach_all(alloc, &mut leases, checkpoint.states.as_slice())? {
        return Ok(None);
    }
    let _live = leases.is_live(0);
    Ok(Some(leases))
}

impl Store {
    /// A store that opens with what a checkpoint has; none where no store can (`can_restore`). It has no watchers. Out of memory is its only refusal.
    pub fn restored(alloc: Global, checkpoint: &Checkpoint) -> Result<Option<Store>, AllocError>
        ensures standing { IfOk result (λ o. IfSome o (λ s. s.standing ≡ restored checkpoint.now)) }
        ensures some { IfOk result (λ o. is_some o ≡ can_restore checkpoint.now) }
    {
        if !checkpoint.is_in_range() {
            return Ok(None);
        }
        let Some(leases) = leases_of(alloc, checkpoint)? else {
            return Ok(None);
        };
        let keys = Keys::restored(alloc, checkpoint.revision, checkpoint.states.as_slice())?;
        let watchers = Watchers::new(alloc)?;
        let limit = OperationLimit::new(checkpoint.operations);
        Ok(Some(Store::with_parts(alloc, keys, leases, 0, watchers, limit)))
    }
}
