//! Looking into JSON values.
ghost use Rattle.std.specs.Prelude.{◌≡◌, ◌≤◌, option_map, IfOk};
ghost use Rattle.serde_json.specs.View.{view, items_view};
ghost use Rattle.stm_json.specs.Elements.{worded, one_of, two_of, three_of, four_of, number_up_to, number_in, whole_number};
ghost use Rattle.stm_json.specs.Returns.{Returns};

use crate::cause::Cause;
use crate::place::fault;
use crate::read_error::ReadError;
use serde_json::Value;
use std::alloc::Global;

/// The first word of an array, and the elements after it; `None` where the value is no such array.
pub fn worded_array(value: &Value) -> Option<(&str, &[Value])>
    ensures { option_map (λ p. (p.0.now, items_view p.1.now)) result ≡ worded (view value.now) }
{
    let items = value.as_array()?;
    let (first, rest) = items.split_first()?;
    let word = first.as_str()?;
    Some((word, rest))
}

/// The element of a list of exactly one; `None` of any other list.
pub fn one(elements: &[Value]) -> Option<&Value>
    ensures { option_map (λ v. view v.now) result ≡ one_of (items_view elements.now) }
{
    if elements.len() == 1 {
        Some(&elements[0])
    } else {
        None
    }
}

/// The elements of a list of exactly two; `None` of any other list.
pub fn two(elements: &[Value]) -> Option<(&Value, &Value)>
    ensures { option_map (λ p. (view p.0.now, view p.1.now)) result ≡ two_of (items_view elements.now) }
{
    let (first, rest) = elements.split_first()?;
    let second = one(rest)?;
    Some((first, second))
}

/// The elements of a list of exactly three; `None` of any other list.
pub fn three(elements: &[Value]) -> Option<(&Value, &Value, &Value)>
    ensures { option_map (λ p. (view p.0.now, view p.1.now, view p.2.now)) result ≡ three_of (items_view elements.now) }
{
    let (first, rest) = elements.split_first()?;
    let (second, third) = two(rest)?;
    Some((first, second, third))
}

/// The elements of a list of exactly four; `None` of any other list.
pub fn four(elements: &[Value]) -> Option<(&Value, &Value, &Value, &Value)>
    ensures { option_map (λ p. (view p.0.now, view p.1.now, view p.2.now, view p.3.now)) result ≡ four_of (items_view elements.now) }
{
    let (first, rest) = elements.split_first()?;
    let (second, third, fourth) = three(rest)?;
    Some((first, second, third, fourth))
}

/// A whole number of 64 bits with a sign. `Range` for any other whole number of 64 bits, `Shape` for
/// anything else.
#[tactic(auto, unfolding(crate::specs::Elements::whole_number))]
pub fn whole(alloc: Global, value: &Value) -> Result<i64, ReadError>
    ensures { Returns (λ z. z) result (whole_number (view value.now)) }
{
    match value.as_i64() {
        Some(number) => Ok(number),
        None => {
            if value.is_u64() {
                Err(fault(alloc, Cause::Range))
            } else {
                Err(fault(alloc, Cause::Shape))
            }
        }
    }
}

/// A whole number from 0 to a limit, which is itself of 64 bits with a sign. `Range` for any other whole
/// number of 64 bits, `Shape` for anything else.
#[tactic(auto, unfolding(crate::specs::Elements::number_up_to))]
pub fn number_within(alloc: Global, limit: u64, value: &Value) -> Result<u64, ReadError>
    ensures exact { Returns (λ n. n) result (number_up_to limit (view value.now)) }
    ensures bounded { IfOk result (λ n. n ≤ limit) }
{
    let number = whole(alloc, value)?;
    if number < 0 {
        return Err(fault(alloc, Cause::Range));
    }
    let number = number as u64;
    if number > limit {
        return Err(fault(alloc, Cause::Range));
    }
    Ok(number)
}

/// A whole number from a least to a most, which is itself of 64 bits with a sign. `Range` for any other
/// whole number of 64 bits, `Shape` for anything else.
#[tactic(auto, unfolding(crate::specs::Elements::number_in))]
pub fn number_between(alloc: Global, least: u64, most: u64, value: &Value) -> Result<u64, ReadError>
    ensures exact { Returns (λ n. n) result (number_in least most (view value.now)) }
    ensures bounded { IfOk result (λ n. (least ≤ n) × (n ≤ most)) }
{
    let number = number_within(alloc, most, value)?;
    if number < least {
        return Err(fault(alloc, Cause::Range));
    }
    Ok(number)
}
