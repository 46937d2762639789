//! Why a call would be refused, found without changing anything.
ghost use Rattle.std.specs.Prelude.{◌≡◌, ℕ, Option, None, [], false};
ghost use Rattle.stm_outcome.specs.Branches.{branch_refusal};
ghost use Rattle.stm_outcome.specs.Terms.{terms_at, terms_above};
ghost use Rattle.stm_outcome.specs.declared.answer.FailedCompare.{FailedCompare as AFailedCompare};
ghost use Rattle.stm_outcome.specs.Checks.{fault_of};
ghost use Rattle.stm_outcome.specs.LookUps.{changes_copied, outcome_copied};
ghost use Rattle.stm_outcome.specs.Outcome.{outcome, is_used_up};
ghost use Rattle.stm_txn.specs.Standing.{refusal_of};

use crate::branch::{choose, uses_up};
use crate::refuse::find_refusal;
use stm_keys::Keys;
use stm_leases::Leases;
use stm_outcome::{Op, Refusal, Txn, find_failed, find_fault};

/// Why a branch would be refused, whose first failed compare does not matter for that.
pub(crate) fn find_run_refusal(keys: &Keys, leases: &Leases, ops: &[Op]) -> Option<Refusal>
    ensures allowed { result ≡ None → branch_refusal (terms_above keys.now.floor keys.now.history leases.now.live) ops.now ≡ None }
    ensures room { result ≡ None → is_used_up keys.now.history (changes_copied keys.now.history [] ops.now) ≡ false }
    ensures refusal { (failed : Option AFailedCompare) → result ≡ refusal_of (outcome_copied (terms_above keys.now.floor keys.now.history leases.now.live) failed ops.now) }
{
    if let Some(refusal) = find_refusal(ops, keys, leases) {
        return Some(refusal);
    }
    if uses_up(keys, ops) {
        Some(Refusal::RevisionsUsedUp)
    } else {
        None
    }
}

/// Why the branch that the compares pick would be refused, of a transaction that is right as a whole at a limit of operations.
fn find_chosen_refusal(keys: &Keys, leases: &Leases, txn: &Txn) -> Option<Refusal>
    ensures { (limit : ℕ) → fault_of limit txn.now ≡ None
        → result ≡ refusal_of (outcome (terms_at limit keys.now.floor keys.now.history leases.now.live) txn.now) }
{
    let failed = find_failed(txn.compares.as_slice(), keys);
    find_run_refusal(keys, leases, choose(txn, failed))
}

/// Why a transaction would be refused at a limit of operations.
pub(crate) fn find_txn_refusal(
    keys: &Keys,
    leases: &Leases,
    limit: usize,
    txn: &Txn,
) -> Option<Refusal>
    ensures { result ≡ refusal_of (outcome (terms_at limit keys.now.floor keys.now.history leases.now.live) txn.now) }
{
    match find_fault(txn, limit) {
        Some(refusal) => Some(refusal),
        None => find_chosen_refusal(keys, leases, txn),
    }
}
