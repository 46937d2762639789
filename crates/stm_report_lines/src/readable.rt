//! What a value is read as: an array of so many parts, and the part at an index.
ghost use Rattle.std.specs.Prelude.{◌≡◌, option_map};
ghost use Rattle.serde_json.specs.Data.{Data};
ghost use Rattle.serde_json.specs.View.{view};
ghost use Rattle.stm_json.specs.Outcome.{Outcome, within as within_list};
ghost use Rattle.stm_json.specs.Returns.{Returns};
ghost use Rattle.stm_report_lines.specs.Parts.{exactly, part_at, word_at};

use serde_json::Value as Json;
use std::alloc::Global;
use stm_json::{Cause, ReadError, fault, within};

/// A type that a part of a line is read as.
pub(crate) trait Readable {
    /// What data spell, or their first fault.
    ghost reading: { Data → Outcome Self };

    /// What a value spells, or its first fault, with a place inside the value.
    fn read(alloc: Global, value: &Json) -> Result<Self, ReadError>
        ensures { Returns (λ x. x) result (reading (view value.now)) };
}

/// What is read of the element of an array at an index. A fault's place is that in the array.
pub(crate) fn read_within<T: Readable>(
    alloc: Global,
    index: usize,
    element: &Json,
) -> Result<T, ReadError>
    ensures { Returns (λ x. x) result (within_list index (T.reading (view element.now))) }
{
    within(alloc, index, T::read(alloc, element))
}

/// The part of an array at an index; `Shape` where there is none.
#[tactic(auto, unfolding(crate::specs::Parts::part_at))]
pub(crate) fn part<T: Readable>(alloc: Global, array: &Json, index: usize) -> Result<T, ReadError>
    ensures { Returns (λ x. x) result (part_at index T.reading (view array.now)) }
{
    match array.get(index) {
        Some(element) => read_within(alloc, index, element),
        None => Err(fault(alloc, Cause::Shape)),
    }
}

/// The text at an index of an array, if there is one.
pub(crate) fn word_at(array: &Json, index: usize) -> Option<&str>
    ensures { option_map (λ w. w.now) result ≡ word_at index (view array.now) }
{
    array.get(index)?.as_str()
}

/// Nothing, or `Shape` where a value is no array of so many elements.
#[tactic(auto, using(crate::proofs::ArrayLemmas::length_view))]
pub(crate) fn exactly(alloc: Global, value: &Json, length: usize) -> Result<(), ReadError>
    ensures { Returns (λ u. u) result (exactly length (view value.now)) }
{
    match value.as_array() {
        Some(elements) if elements.len() == length => Ok(()),
        _ => Err(fault(alloc, Cause::Shape)),
    }
}
