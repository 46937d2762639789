//! Writing transactions.
ghost use Rattle.std.specs.Prelude.{◌≡◌, IfOk};
ghost use Rattle.serde_json.specs.Data.{string};
ghost use Rattle.serde_json.specs.View.{view};
ghost use Rattle.stm_txn_json.specs.Grammar.{order_text};
ghost use Rattle.stm_texts.specs.Writing.{target_text, written_side, written_compare, written_operation, written_txn};

use crate::written_lists::{Written, worded_json};
use serde_json::Value as Json;
use std::alloc::{AllocError, Global};
use stm_outcome::{Compare, Op, Order, Target, Txn};

/// The word of what a compare looks at.
fn target_word(target: &Target) -> &'static str
    ensures { result.now ≡ target_text target.now }
{
    match target {
        Target::Version(_) => "version",
        Target::Create(_) => "create",
        Target::Mod(_) => "mod",
        Target::Lease(_) => "lease",
        Target::Value(_) => "value",
    }
}

impl Written for Target {
    ghost written = { written_side };

    fn to_json(&self, alloc: Global) -> Result<Json, AllocError> {
        match self {
            Target::Version(n) | Target::Create(n) | Target::Mod(n) | Target::Lease(n) => {
                n.to_json(alloc)
            }
            Target::Value(text) => text.to_json(alloc),
        }
    }
}

/// The word of an order.
fn order_word(order: Order) -> &'static str
    ensures { result.now ≡ order_text order }
{
    match order {
        Order::Equal => "=",
        Order::NotEqual => "!=",
        Order::Greater => ">",
        Order::Less => "<",
    }
}

impl Written for Order {
    ghost written = { λ order. string (order_text order) };

    fn to_json(&self, alloc: Global) -> Result<Json, AllocError> {
        Json::try_from_str(alloc, order_word(*self))
    }
}

impl Written for Compare {
    ghost written = { written_compare };

    fn to_json(&self, alloc: Global) -> Result<Json, AllocError> {
        let word = target_word(&self.target);
        worded_json(alloc, word, &[&self.key, &self.order, &self.target])
    }
}

impl Written for Op {
    ghost written = { written_operation };

    fn to_json(&self, alloc: Global) -> Result<Json, AllocError> {
        match self {
            Op::Get { key, rev } => worded_json(alloc, "get", &[key, rev]),
            Op::Put { key, value, lease } => worded_json(alloc, "put", &[key, value, lease]),
            Op::Del { key } => worded_json(alloc, "del", &[key]),
        }
    }
}

/// A transaction, as an event.
pub(crate) fn txn_json(alloc: Global, txn: &Txn) -> Result<Json, AllocError>
    ensures { IfOk result (λ v. view v ≡ written_txn txn.now) }
{
    worded_json(alloc, "txn", &[&txn.compares, &txn.success, &txn.failure])
}
