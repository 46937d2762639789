//! Whether transactions are the same.
ghost use Rattle.std.specs.Prelude.{◌≡◌, true};

use stm_history::Text;
use stm_outcome::{Compare, Op, Order, Target, Txn};

/// Whether two texts are the same.
pub(crate) fn is_same_text(left: &Text, right: &Text) -> bool
    ensures { result ≡ true → left.now ≡ right.now }
{
    left == right
}

/// Whether two orders are the same.
fn is_same_order(left: Order, right: Order) -> bool
    ensures { result ≡ true → left ≡ right }
{
    left == right
}

/// Whether two targets are the same.
fn is_same_target(left: &Target, right: &Target) -> bool
    ensures { result ≡ true → left.now ≡ right.now }
{
    match left {
        Target::Version(n) => match right {
            Target::Version(other) => *n == *other,
            _ => false,
        },
        Target::Create(n) => match right {
            Target::Create(other) => *n == *other,
            _ => false,
        },
        Target::Mod(n) => match right {
            Target::Mod(other) => *n == *other,
            _ => false,
        },
        Target::Lease(n) => match right {
            Target::Lease(other) => *n == *other,
            _ => false,
        },
        Target::Value(text) => match right {
            Target::Value(other) => is_same_text(text, other),
            _ => false,
        },
    }
}

/// Whether two compares are the same.
fn is_same_compare(left: &Compare, right: &Compare) -> bool
    ensures { result ≡ true → left.now ≡ right.now }
{
    if !is_same_order(left.order, right.order) {
        return false;
    }
    if !is_same_text(&left.key, &right.key) {
        return false;
    }
    is_same_target(&left.target, &right.target)
}

/// Whether two operations are the same.
fn is_same_op(left: &Op, right: &Op) -> bool
    ensures { result ≡ true → left.now ≡ right.now }
{
    match left {
        Op::Get { key, rev } => match right {
            Op::Get {
                key: other_key,
                rev: other_rev,
            } => *rev == *other_rev && is_same_text(key, other_key),
            _ => false,
        },
        Op::Put { key, value, lease } => match right {
            Op::Put {
                key: other_key,
                value: other_value,
                lease: other_lease,
            } => {
                *lease == *other_lease
                    && is_same_text(key, other_key)
                    && is_same_text(value, other_value)
            }
            _ => false,
        },
        Op::Del { key } => match right {
            Op::Del { key: other_key } => is_same_text(key, other_key),
            _ => false,
        },
    }
}

/// Whether these compares are those.
fn are_same_compares(left: &[Compare], right: &[Compare]) -> bool
    ensures { result ≡ true → left.now ≡ right.now }
{
    if left.len() != right.len() {
        return false;
    }
    for i in 0..left.len() {
        if !is_same_compare(&left[i], &right[i]) {
            return false;
        }
    }
    true
}

/// Whether these operations are those.
fn are_same_ops(left: &[Op], right: &[Op]) -> bool
    ensures { result ≡ true → left.now ≡ right.now }
{
    if left.len() != right.len() {
        return false;
    }
    for i in 0..left.len() {
        if !is_same_op(&left[i], &right[i]) {
            return false;
        }
    }
    true
}

/// Whether two transactions are the same.
pub(crate) fn is_same_txn(left: &Txn, right: &Txn) -> bool
    ensures { result ≡ true → left.now ≡ right.now }
{
    if !are_same_compares(left.compares.as_slice(), right.compares.as_slice()) {
        return false;
    }
    if !are_same_ops(left.success.as_slice(), right.success.as_slice()) {
        return false;
    }
    are_same_ops(left.failure.as_slice(), right.failure.as_slice())
}
