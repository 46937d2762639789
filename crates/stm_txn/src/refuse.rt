//! Why an operation of a branch is refused.
ghost use Rattle.std.specs.Prelude.{◌≡◌};
ghost use Rattle.stm_history.specs.History.{now};
ghost use Rattle.stm_outcome.specs.Branches.{read_refusal, op_refusal, branch_refusal};
ghost use Rattle.stm_outcome.specs.Terms.{terms_above};

use stm_keys::Keys;
use stm_leases::Leases;
use stm_outcome::{Op, Refusal};

/// Why a read of a revision is refused, `None` where it is not.
fn find_read_refusal(keys: &Keys, rev: u64) -> Option<Refusal>
    ensures { result ≡ read_refusal (now keys.now.history) keys.now.floor rev }
{
    if rev > keys.revision() {
        Some(Refusal::FutureRevision)
    } else if rev > 0 && rev < keys.floor() {
        Some(Refusal::Compacted)
    } else {
        None
    }
}

/// Why an operation is refused, `None` where it is not.
fn find_op_refusal(op: &Op, keys: &Keys, leases: &Leases) -> Option<Refusal>
    ensures { result ≡ op_refusal (terms_above keys.now.floor keys.now.history leases.now.live) op.now }
{
    match op {
        Op::Get { rev, .. } => find_read_refusal(keys, *rev),
        Op::Put { lease, .. } => {
            if *lease == 0 || leases.is_live(*lease) {
                None
            } else {
                Some(Refusal::LeaseNotFound)
            }
        }
        Op::Del { .. } => None,
    }
}

/// The first refusal along a branch.
pub(crate) fn find_refusal(ops: &[Op], keys: &Keys, leases: &Leases) -> Option<Refusal>
    ensures { result ≡ branch_refusal (terms_above keys.now.floor keys.now.history leases.now.live) ops.now }
{
    for op in ops {
        if let Some(refusal) = find_op_refusal(op, keys, leases) {
            return Some(refusal);
        }
    }
    None
}
