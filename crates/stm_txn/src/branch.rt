//! One branch of a transaction.
ghost use Rattle.std.specs.Prelude.{◌≡◌, ◌+◌, ◌≤◌, ◌++◌, ◌∷◌, IfOk, OnOk, IsTrue, [], is_some, Some};
ghost use Rattle.stm_history.specs.History.{now};
ghost use Rattle.stm_history.specs.declared.change.Change.TheVariants.{Put, Del};
ghost use Rattle.stm_outcome.specs.Branches.{carried, is_readable, are_readable, has_changes};
ghost use Rattle.stm_outcome.specs.Outcome.{is_used_up, chosen, would_change};
ghost use Rattle.stm_outcome.specs.LookUps.{copy, read_copied, change_copied, with_copied, answer_copied, changes_copied, answers_copied};

use std::alloc::{AllocError, Global};
use stm_history::{Change, KeyState, ReadAnswer, Text, copy_found, find_change};
use stm_keys::{HIGHEST_REVISION, Keys};
use stm_outcome::{FailedCompare, Op, OpAnswer, ShortList, Txn, find_failed};

/// What a branch answers, and what it changes.
#[derive(Drop)]
pub(crate) struct Branch {
    pub answers: ShortList<OpAnswer>,
    pub changes: Vec<Change>,
}

/// What a key is in the branch's copy of the current state.
fn copied(keys: &Keys, changes: &[Change], key: &str) -> Result<Option<KeyState>, AllocError>
    ensures { IfOk result (λ s. s ≡ copy keys.now.history changes.now key.now) }
{
    match find_change(changes, key) {
        None => copy_found(keys.get(key)),
        Some(Change::Del { .. }) => Ok(None),
        Some(Change::Put { value, lease, .. }) => Ok(Some(keys.after_put(key, value, *lease)?)),
    }
}

/// Whether a key is present in the branch's copy of the current state.
fn is_copied(keys: &Keys, changes: &[Change], key: &str) -> bool
    ensures { result ≡ is_some (copy keys.now.history changes.now key.now) }
{
    match find_change(changes, key) {
        None => keys.get(key).is_some(),
        Some(Change::Del { .. }) => false,
        Some(Change::Put { .. }) => true,
    }
}

/// The revision that an answer carries.
fn carried_revision(keys: &Keys, changes: &[Change]) -> u64
    ensures { result ≡ carried keys.now.history changes.now }
{
    match changes {
        [] => keys.revision(),
        [_, ..] => keys.revision() + 1,
    }
}

/// What a read answers.
fn read(keys: &Keys, changes: &[Change], key: &Text, rev: u64) -> Result<ReadAnswer, AllocError>
    requires { rev ≤ now keys.now.history }
    ensures { IfOk result (λ a. a ≡ read_copied keys.now.history changes.now key.now rev) }
{
    let revision = carried_revision(keys, changes);
    let (kv, of_rev) = if rev == 0 {
        (copied(keys, changes, key.as_str())?, revision)
    } else {
        (copy_found(keys.look_back(key.as_str(), rev))?, rev)
    };
    Ok(ReadAnswer {
        key: key.clone()?,
        kv,
        of_rev,
        revision,
    })
}

/// What an operation answers.
fn answer(keys: &Keys, changes: &[Change], op: &Op) -> Result<OpAnswer, AllocError>
    requires { IsTrue (is_readable (now keys.now.history) op.now) }
    ensures { IfOk result (λ a. a ≡ answer_copied keys.now.history changes.now op.now) }
{
    match op {
        Op::Get { key, rev } => Ok(OpAnswer::Get(read(keys, changes, key, *rev)?)),
        Op::Put { .. } => Ok(OpAnswer::Put),
        Op::Del { key } => Ok(OpAnswer::Del(u64::from(is_copied(keys, changes, key.as_str())))),
    }
}

/// The change of a put.
#[inline(always)]
pub(crate) fn put_of(key: &Text, value: &Text, lease: u64) -> Result<Change, AllocError>
    ensures { IfOk result (λ c. c ≡ Put key.now value.now lease) }
{
    let key = key.clone()?;
    let value = value.clone()?;
    Ok(Change::Put { key, value, lease })
}

/// The change of a delete.
fn deletion_of(key: &Text) -> Result<Option<Change>, AllocError>
    ensures { IfOk result (λ c. c ≡ Some (Del key.now)) }
{
    let key = key.clone()?;
    Ok(Some(Change::Del { key }))
}

/// The change that an operation makes, if it makes one.
fn change(keys: &Keys, changes: &[Change], op: &Op) -> Result<Option<Change>, AllocError>
    ensures { IfOk result (λ c. c ≡ change_copied keys.now.history changes.now op.now) }
{
    match op {
        Op::Get { .. } => Ok(None),
        Op::Put { key, value, lease } => Ok(Some(put_of(key, value, *lease)?)),
        Op::Del { key } => {
            if is_copied(keys, changes, key.as_str()) {
                deletion_of(key)
            } else {
                Ok(None)
            }
        }
    }
}

/// Puts the change that an operation makes, if it makes one, after those so far.
fn add_change(keys: &Keys, changes: &mut Vec<Change>, op: &Op) -> Result<(), AllocError>
    ensures { OnOk result (changes.new.items ≡ with_copied changes.old.items (change_copied keys.now.history changes.old.items op.now)) }
{
    match change(keys, changes.as_slice(), op)? {
        None => Ok(()),
        Some(change) => {
            changes.push(change)?;
            Ok(())
        }
    }
}

/// Runs one operation, over what those before it changed.
fn run_op(keys: &Keys, branch: &mut Branch, op: &Op) -> Result<(), AllocError>
    requires { IsTrue (is_readable (now keys.now.history) op.now) }
    ensures answers { OnOk result (branch.new.answers ≡ branch.old.answers ++ answer_copied keys.now.history branch.old.changes.items op.now ∷ []) }
    ensures changes { OnOk result (branch.new.changes.items ≡ with_copied branch.old.changes.items (change_copied keys.now.history branch.old.changes.items op.now)) }
{
    let answer = answer(keys, branch.changes.as_slice(), op)?;
    branch.answers.push(answer)?;
    add_change(keys, &mut branch.changes, op)?;
    Ok(())
}

/// Runs operations, over what those before them changed. Room for their answers is made first.
fn run_ops(keys: &Keys, branch: &mut Branch, ops: &[Op]) -> Result<(), AllocError>
    requires { IsTrue (are_readable (now keys.now.history) ops.now) }
    ensures answers { OnOk result (branch.new.answers ≡ branch.old.answers ++ answers_copied keys.now.history branch.old.changes.items ops.now) }
    ensures changes { OnOk result (branch.new.changes.items ≡ changes_copied keys.now.history branch.old.changes.items ops.now) }
{
    branch.answers.reserve(ops.len())?;
    for op in ops {
        run_op(keys, branch, op)?;
    }
    Ok(())
}

/// Runs a branch over the current state, which it leaves as it is.
pub(crate) fn run_branch(alloc: Global, keys: &Keys, ops: &[Op]) -> Result<Branch, AllocError>
    requires { IsTrue (are_readable (now keys.now.history) ops.now) }
    ensures answers { IfOk result (λ b. b.answers ≡ answers_copied keys.now.history [] ops.now) }
    ensures changes { IfOk result (λ b. b.changes.items ≡ changes_copied keys.now.history [] ops.now) }
{
    let mut branch = Branch {
        answers: ShortList::new(alloc),
        changes: Vec::new(alloc),
    };
    match run_ops(keys, &mut branch, ops) {
        Ok(()) => Ok(branch),
        Err(error) => {
            drop(branch);
            Err(error)
        }
    }
}

/// Whether an operation would change something, were it the first.
fn makes_change(keys: &Keys, op: &Op) -> bool
    ensures { result ≡ is_some (change_copied keys.now.history [] op.now) }
{
    match op {
        Op::Get { .. } => false,
        Op::Put { .. } => true,
        Op::Del { key } => keys.get(key.as_str()).is_some(),
    }
}

/// Whether a branch would change something.
pub(crate) fn makes_changes(keys: &Keys, ops: &[Op]) -> bool
    ensures { result ≡ has_changes (changes_copied keys.now.history [] ops.now) }
{
    for op in ops {
        if makes_change(keys, op) {
            return true;
        }
    }
    false
}

/// Whether a branch is to change something at the highest revision.
pub(crate) fn uses_up(keys: &Keys, ops: &[Op]) -> bool
    ensures { result ≡ is_used_up keys.now.history (changes_copied keys.now.history [] ops.now) }
{
    let is_highest = keys.revision() == HIGHEST_REVISION;
    is_highest && makes_changes(keys, ops)
}

/// The operations of the branch that runs.
pub(crate) fn choose(txn: &Txn, failed: Option<FailedCompare>) -> &[Op]
    ensures { result.now ≡ chosen failed txn.now }
{
    match failed {
        None => txn.success.as_slice(),
        Some(_) => txn.failure.as_slice(),
    }
}

/// Whether the branch that the compares pick would change something.
pub(crate) fn would_change(keys: &Keys, txn: &Txn) -> bool
    ensures { result ≡ would_change keys.now.history txn.now }
{
    let failed = find_failed(txn.compares.as_slice(), keys);
    makes_changes(keys, choose(txn, failed))
}
