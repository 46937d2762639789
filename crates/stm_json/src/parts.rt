//! Reading texts and numbers, and elements of arrays that are one.
ghost use Rattle.serde_json.specs.View.{view};
ghost use Rattle.stm_json.specs.Elements.{number_up_to};
ghost use Rattle.stm_json.specs.Outcome.{within as within_list};
ghost use Rattle.stm_json.specs.Returns.{Returns};
ghost use Rattle.stm_json.specs.Parts.{text_of};

use crate::cause::Cause;
use crate::elements::number_within;
use crate::place::{fault, within};
use crate::read_error::ReadError;
use serde_json::Value;
use std::alloc::Global;
use stm_history::{HIGHEST_NUMBER, Text};

/// A text, of any length. Anything else is `Shape`. `OutOfMemory` is answered where an allocation failed.
#[tactic(auto, unfolding(crate::specs::Parts::text_of))]
pub fn text(alloc: Global, value: &Value) -> Result<Text, ReadError>
    ensures { Returns (λ t. t) result (text_of (view value.now)) }
{
    match value.as_str() {
        Some(text) => {
            let text = Text::copy_of(alloc, text)?;
            Ok(text)
        }
        None => Err(fault(alloc, Cause::Shape)),
    }
}

/// A text that is an element of an array, of any length. Anything else is `Shape`.
///
/// A fault's place is that in the array. `OutOfMemory` is answered where an allocation failed.
pub fn text_part(alloc: Global, index: usize, value: &Value) -> Result<Text, ReadError>
    ensures { Returns (λ t. t) result (within_list index (text_of (view value.now))) }
{
    within(alloc, index, text(alloc, value))
}

/// A whole number from 0 to 9223372036854775807 that is an element of an array. Another whole number of 64 bits is
/// `Range`, anything else `Shape`.
///
/// A fault's place is that in the array. `OutOfMemory` is answered where an allocation failed.
pub fn number_part(alloc: Global, index: usize, value: &Value) -> Result<u64, ReadError>
    ensures { Returns (λ n. n) result (within_list index (number_up_to HIGHEST_NUMBER (view value.now))) }
{
    within(alloc, index, number_within(alloc, HIGHEST_NUMBER, value))
}
