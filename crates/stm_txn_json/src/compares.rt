//! Reading compares.
ghost use Rattle.serde_json.specs.View.{view, items_view};
ghost use Rattle.stm_json.specs.Elements.{three_of};
ghost use Rattle.stm_json.specs.Outcome.{within as within_list};
ghost use Rattle.stm_json.specs.Returns.{Returns};
ghost use Rattle.stm_json.specs.Parts.{each_from};
ghost use Rattle.stm_txn_json.specs.Reading.{order_of, target_of, compare_parts as compare_parts_of, compare_of, compares_of};

use crate::words::{TargetWord, order_word, target_word};
use serde_json::Value;
use std::alloc::Global;
use stm_history::HIGHEST_NUMBER;
use stm_json::{
    Cause, ReadError, fault, number_within, text, text_part, three, within, worded_array,
};
use stm_outcome::{Compare, Order, ShortList, Target};

#[tactic(auto, unfolding(crate::specs::Reading::order_of))]
fn order(alloc: Global, value: &Value) -> Result<Order, ReadError>
    ensures { Returns (λ o. o) result (order_of (view value.now)) }
{
    match value.as_str() {
        Some(word) => order_word(alloc, word),
        None => Err(fault(alloc, Cause::Shape)),
    }
}

/// What a compare looks at, with the compare's side.
fn target(alloc: Global, word: TargetWord, value: &Value) -> Result<Target, ReadError>
    ensures { Returns (λ t. t) result (target_of word (view value.now)) }
{
    match word {
        TargetWord::Version => Ok(Target::Version(number_within(alloc, HIGHEST_NUMBER, value)?)),
        TargetWord::Create => Ok(Target::Create(number_within(alloc, HIGHEST_NUMBER, value)?)),
        TargetWord::Mod => Ok(Target::Mod(number_within(alloc, HIGHEST_NUMBER, value)?)),
        TargetWord::Lease => Ok(Target::Lease(number_within(alloc, HIGHEST_NUMBER, value)?)),
        TargetWord::Value => Ok(Target::Value(text(alloc, value)?)),
    }
}

/// The compare of a word, from the elements after it.
fn compare_parts(alloc: Global, word: TargetWord, elements: &[Value]) -> Result<Compare, ReadError>
    ensures { Returns (λ c. c) result (compare_parts_of word (three_of (items_view elements.now))) }
{
    let Some((first, second, third)) = three(elements) else {
        return Err(fault(alloc, Cause::Shape));
    };
    let key = text_part(alloc, 1, first)?;
    let order = within(alloc, 2, order(alloc, second))?;
    let target = within(alloc, 3, target(alloc, word, third))?;
    Ok(Compare { key, target, order })
}

#[tactic(auto, unfolding(crate::specs::Reading::compare_of))]
fn compare(alloc: Global, value: &Value) -> Result<Compare, ReadError>
    ensures { Returns (λ c. c) result (compare_of (view value.now)) }
{
    let Some((word, elements)) = worded_array(value) else {
        return Err(fault(alloc, Cause::Shape));
    };
    let word = target_word(alloc, word)?;
    compare_parts(alloc, word, elements)
}

/// A compare that is an element of a list. A fault's place is that in the list.
fn compare_at(alloc: Global, index: usize, value: &Value) -> Result<Compare, ReadError>
    ensures { Returns (λ c. c) result (within_list index (compare_of (view value.now))) }
{
    within(alloc, index, compare(alloc, value))
}

fn each_compare(alloc: Global, values: &[Value]) -> Result<Vec<Compare>, ReadError>
    ensures { Returns (λ v. v.items) result (each_from compare_of 0 (items_view values.now)) }
{
    let mut compares = Vec::with_capacity(alloc, values.len())?;
    for (index, value) in values.iter().enumerate() {
        let compare = compare_at(alloc, index, value)?;
        compares.push(compare)?;
    }
    Ok(compares)
}

/// A list of compares.
#[tactic(auto, unfolding(crate::specs::Reading::compares_of))]
pub(crate) fn compares(alloc: Global, value: &Value) -> Result<ShortList<Compare>, ReadError>
    ensures { Returns (λ cs. cs) result (compares_of (view value.now)) }
{
    match value.as_array() {
        Some(values) => {
            let compares = each_compare(alloc, values.as_slice())?;
            Ok(ShortList::of(compares))
        }
        None => Err(fault(alloc, Cause::Shape)),
    }
}
