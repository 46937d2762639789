//! Reading transactions.
ghost use Rattle.std.specs.Prelude.{◌≡◌, Ok as OkOf, None, IfOk, MatchResult};
ghost use Rattle.serde_json.specs.View.{view, items_view};
ghost use Rattle.stm_json.specs.Elements.{three_of};
ghost use Rattle.stm_json.specs.Returns.{Returns};
ghost use Rattle.stm_txn_json.specs.FirstFault.{first_fault};
ghost use Rattle.stm_json.specs.Faults.{IsFirstFault};
ghost use Rattle.stm_txn_json.specs.Grammar.{SpellsTxn};
ghost use Rattle.stm_txn_json.specs.Reading.{txn_parts as txn_parts_of, txn_of};

use crate::compares::compares;
use crate::operations::operations;
use serde_json::Value;
use std::alloc::Global;
use stm_json::{Cause, ReadError, fault, three, within, worded_array};
use stm_outcome::Txn;

/// A transaction, from the elements after its word.
fn txn_parts(alloc: Global, elements: &[Value]) -> Result<Txn, ReadError>
    ensures { Returns (λ t. t) result (txn_parts_of (three_of (items_view elements.now))) }
{
    let Some((first, second, third)) = three(elements) else {
        return Err(fault(alloc, Cause::Shape));
    };
    let compares = within(alloc, 1, compares(alloc, first))?;
    let success = within(alloc, 2, operations(alloc, second))?;
    let failure = within(alloc, 3, operations(alloc, third))?;
    Ok(Txn {
        compares,
        success,
        failure,
    })
}

#[tactic(auto, unfolding(crate::specs::Reading::txn_of))]
fn txn(alloc: Global, value: &Value) -> Result<Txn, ReadError>
    ensures { Returns (λ t. t) result (txn_of (view value.now)) }
{
    let Some((word, elements)) = worded_array(value) else {
        return Err(fault(alloc, Cause::Shape));
    };
    if word == "txn" {
        txn_parts(alloc, elements)
    } else {
        Err(fault(alloc, Cause::Shape))
    }
}

/// The transaction that a JSON value spells, or the first fault.
///
/// A transaction is `["txn",[COMPARE,..],[OPERATION,..],[OPERATION,..]]`: the compares, the success list and
/// the failure list. A compare is `[TARGET,KEY,ORDER,SIDE]`: the target `"version"`, `"create"`, `"mod"`,
/// `"lease"` or `"value"`, the order `"="`, `"!="`, `">"` or `"<"`, the side a text for `"value"` and a number
/// otherwise. An operation is `["get",KEY,REVISION]`, `["put",KEY,VALUE,LEASE]` or `["del",KEY]`. Numbers run
/// from 0 to 9223372036854775807; texts and lists have any length.
///
/// The value is read in order, a value before its elements and these from the first to the last. `Bad` is
/// the first fault, with its place in the value: `Shape` at an array that does not begin with a known word or
/// has another length than the word's, and at a value of another kind than expected; `Range` at a
/// whole number outside its range. `OutOfMemory` may come in place of any other answer, where an allocation
/// failed.
pub fn read_txn(alloc: Global, value: &Value) -> Result<Txn, ReadError>
    ensures exact { Returns (λ t. t) result (txn_of (view value.now)) }
    // What is read is spelled so.
    ensures spelled { IfOk result (SpellsTxn (view value.now)) }
    // A transaction that is spelled so is read.
    ensures accepts { (t : _) → SpellsTxn (view value.now) t → Returns (λ x. x) result (OkOf t) }
    // Which fault it is.
    ensures faults { MatchResult result (λ t. first_fault (view value.now) ≡ None) (IsFirstFault (first_fault (view value.now))) }
{
    txn(alloc, value)
}
