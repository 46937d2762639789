//! The checks over a whole transaction.
ghost use Rattle.std.specs.Prelude.{◌≡◌, length, nat_lt};
ghost use Rattle.std.specs.List.{list_any};
ghost use Rattle.stm_outcome.specs.Operations.{key_of_op, clash};
ghost use Rattle.stm_outcome.specs.Checks.{has_too_many, has_empty_key, is_empty_key, has_clash, fault_of};

use crate::refusal::Refusal;
use crate::txn::{Compare, Op, Txn};

/// The most elements of each of a transaction's three lists that any store takes.
pub const MOST_OPERATIONS: usize = 128;

fn are_too_many(txn: &Txn, limit: usize) -> bool
    ensures { result ≡ has_too_many limit txn.now }
{
    txn.compares.len() > limit || txn.success.len() > limit || txn.failure.len() > limit
}

fn names_empty_key(ops: &[Op]) -> bool
    ensures { result ≡ list_any (λ op. is_empty_key (key_of_op op)) ops.now }
{
    ops.iter().any(|op| op.key().as_str().is_empty())
}

fn compares_empty_key(compares: &[Compare]) -> bool
    ensures { result ≡ list_any (λ c. is_empty_key c.key) compares.now }
{
    compares
        .iter()
        .any(|compare| compare.key.as_str().is_empty())
}

fn any_key_is_empty(txn: &Txn) -> bool
    ensures { result ≡ has_empty_key txn.now }
{
    compares_empty_key(txn.compares.as_slice())
        || names_empty_key(txn.success.as_slice())
        || names_empty_key(txn.failure.as_slice())
}

/// Whether two operations of one branch, the first of them earlier, clash: both put one key, or one puts it and the other deletes it.
fn do_clash(op: &Op, later: &Op) -> bool
    ensures { result ≡ clash op.now later.now }
{
    match op {
        Op::Get { .. } => false,
        Op::Put { key, .. } => match later {
            Op::Get { .. } => false,
            Op::Put { key: other, .. } => key == other,
            Op::Del { key: other } => key == other,
        },
        Op::Del { key } => match later {
            Op::Put { key: other, .. } => key == other,
            _ => false,
        },
    }
}

/// Whether an operation clashes with one of the later ones.
fn clashes_later(op: &Op, later: &[Op]) -> bool
    ensures { result ≡ list_any (clash op.now) later.now }
{
    later.iter().any(|other| do_clash(op, other))
}

/// Whether an operation of a branch clashes with a later one.
#[inline(always)]
fn branch_clashes(ops: &[Op]) -> bool
    ensures { result ≡ has_clash ops.now }
{
    for (index, op) in ops.iter().enumerate() {
        if clashes_later(op, &ops[index + 1..]) {
            return true;
        }
    }
    false
}

/// Why a transaction is refused as a whole at a limit of operations, whichever branch would run, if it is: `TooManyOps`, where one of its
/// three lists has more elements than the limit, else `EmptyKey`, else `DuplicateKey`.
pub fn find_fault(txn: &Txn, limit: usize) -> Option<Refusal>
    ensures { result ≡ fault_of limit txn.now }
{
    if are_too_many(txn, limit) {
        Some(Refusal::TooManyOps)
    } else if any_key_is_empty(txn) {
        Some(Refusal::EmptyKey)
    } else if branch_clashes(txn.success.as_slice()) || branch_clashes(txn.failure.as_slice()) {
        Some(Refusal::DuplicateKey)
    } else {
        None
    }
}
