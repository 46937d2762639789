//! Reading operations.
ghost use Rattle.serde_json.specs.View.{view, items_view};
ghost use Rattle.stm_json.specs.Elements.{one_of, two_of, three_of};
ghost use Rattle.stm_json.specs.Outcome.{within as within_list};
ghost use Rattle.stm_json.specs.Returns.{Returns};
ghost use Rattle.stm_json.specs.Parts.{each_from};
ghost use Rattle.stm_txn_json.specs.Reading.{get_of, put_of, del_of, operation_of, operations_of};

use serde_json::Value;
use std::alloc::Global;
use stm_json::{
    Cause, ReadError, fault, number_part, one, text_part, three, two, within, worded_array,
};
use stm_outcome::{Op, ShortList};

fn get(alloc: Global, elements: &[Value]) -> Result<Op, ReadError>
    ensures { Returns (λ o. o) result (get_of (two_of (items_view elements.now))) }
{
    let Some((first, second)) = two(elements) else {
        return Err(fault(alloc, Cause::Shape));
    };
    let key = text_part(alloc, 1, first)?;
    let rev = number_part(alloc, 2, second)?;
    Ok(Op::Get { key, rev })
}

fn put(alloc: Global, elements: &[Value]) -> Result<Op, ReadError>
    ensures { Returns (λ o. o) result (put_of (three_of (items_view elements.now))) }
{
    let Some((first, second, third)) = three(elements) else {
        return Err(fault(alloc, Cause::Shape));
    };
    let key = text_part(alloc, 1, first)?;
    let value = text_part(alloc, 2, second)?;
    let lease = number_part(alloc, 3, third)?;
    Ok(Op::Put { key, value, lease })
}

fn del(alloc: Global, elements: &[Value]) -> Result<Op, ReadError>
    ensures { Returns (λ o. o) result (del_of (one_of (items_view elements.now))) }
{
    let Some(first) = one(elements) else {
        return Err(fault(alloc, Cause::Shape));
    };
    let key = text_part(alloc, 1, first)?;
    Ok(Op::Del { key })
}

#[tactic(auto, unfolding(crate::specs::Reading::operation_of))]
fn operation(alloc: Global, value: &Value) -> Result<Op, ReadError>
    ensures { Returns (λ o. o) result (operation_of (view value.now)) }
{
    let Some((word, elements)) = worded_array(value) else {
        return Err(fault(alloc, Cause::Shape));
    };
    match word {
        "get" => get(alloc, elements),
        "put" => put(alloc, elements),
        "del" => del(alloc, elements),
        _ => Err(fault(alloc, Cause::Shape)),
    }
}

/// An operation that is an element of a list. A fault's place is that in the list.
fn operation_at(alloc: Global, index: usize, value: &Value) -> Result<Op, ReadError>
    ensures { Returns (λ o. o) result (within_list index (operation_of (view value.now))) }
{
    within(alloc, index, operation(alloc, value))
}

fn each_operation(alloc: Global, values: &[Value]) -> Result<Vec<Op>, ReadError>
    ensures { Returns (λ v. v.items) result (each_from operation_of 0 (items_view values.now)) }
{
    let mut operations = Vec::with_capacity(alloc, values.len())?;
    for (index, value) in values.iter().enumerate() {
        let operation = operation_at(alloc, index, value)?;
        operations.push(operation)?;
    }
    Ok(operations)
}

/// A list of operations.
#[tactic(auto, unfolding(crate::specs::Reading::operations_of))]
pub(crate) fn operations(alloc: Global, value: &Value) -> Result<ShortList<Op>, ReadError>
    ensures { Returns (λ os. os) result (operations_of (view value.now)) }
{
    match value.as_array() {
        Some(values) => {
            let operations = each_operation(alloc, values.as_slice())?;
            Ok(ShortList::of(operations))
        }
        None => Err(fault(alloc, Cause::Shape)),
    }
}
