//! The faults of a text beside its first one, by the tables of words.

use crate::allowed::form_of;
use crate::forms::{Input, Part};
use crate::walking::{Found, part_within, whole_of};
use serde_json::Value;
use std::alloc::{AllocError, Global};
use stm_json::{Cause, worded_array};

/// So many faults of a text are explained beside its first one, at most.
const MOST_OTHERS: usize = 9;

/// How many levels a value has at most: JSON's reader takes no more than 127 arrays in each other.
const MOST_LEVELS: usize = 128;

/// A place in a text whose value does not fit there.
#[derive(Drop)]
pub(crate) struct Fault {
    /// The indices that lead to it.
    pub(crate) steps: Vec<usize>,
    /// Why the value does not fit.
    pub(crate) cause: Cause,
}

/// What is found on a way through an input.
#[derive(Drop)]
struct Faults<'a> {
    input: Input,
    /// The indices that lead to the first fault, which is not found again.
    first: &'a [usize],
    /// The indices that lead to where the way is.
    steps: Vec<usize>,
    /// What was found.
    found: Vec<Fault>,
}

/// The least and the greatest number that may stand in such a place.
fn range_of(part: Part) -> (u64, u64) {
    match part {
        Part::Opening => (1, 9223372036854775806),
        Part::MostOperations => (1, 128),
        Part::Limit => (0, 4294967295),
        Part::JobLimit => (1, 4294967295),
        Part::Variable => (0, 15),
        Part::Turns => (0, 1000),
        _ => (0, 9223372036854775807),
    }
}

/// Why a value is no number of such a place.
fn cause_of_number(part: Part, value: &Value) -> Option<Cause> {
    if value.is_i64() || value.is_u64() {
        let (least, most) = range_of(part);
        return match value.as_u64() {
            Some(number) if number >= least && number <= most => None,
            _ => Some(Cause::Range),
        };
    }
    Some(Cause::Shape)
}

/// The event has a place in this input.
fn is_placed(input: Input, word: &str) -> bool {
    match input {
        Input::Search => word != "step",
        Input::Jobs => ["start", "txn", "grant", "keep", "revoke", "advance"].contains(&word),
        _ => true,
    }
}

/// Why a value is no array that begins with a word of such a place and has the elements that follow it.
fn cause_of_array(input: Input, part: Part, value: &Value) -> Option<Cause> {
    let Some((word, elements)) = worded_array(value) else {
        return Some(Cause::Shape);
    };
    let Some(form) = form_of(part, word) else {
        return Some(Cause::Shape);
    };
    if part == Part::Event && !is_placed(input, word) || !form.parts.are_so_many(elements.len()) {
        return Some(Cause::Shape);
    }
    None
}

/// Whether two places are the same.
fn is_same(left: &[usize], right: &[usize]) -> bool {
    left == right
}

/// That a value does not fit, unless it does.
fn unless(fits: bool) -> Option<Cause> {
    if fits { None } else { Some(Cause::Shape) }
}

/// Whether a value is a word of such a place.
fn is_word(part: Part, value: &Value) -> bool {
    match value.as_str() {
        Some(word) => form_of(part, word).is_some(),
        None => false,
    }
}

/// Why a value does not fit, where it does not; what stands in it is not looked at.
fn cause_of(input: Input, found: Found<'_>) -> Option<Cause> {
    let Found { part, value } = found;
    match part {
        Part::Scenario
        | Part::Program
        | Part::Block
        | Part::Keys
        | Part::Compares
        | Part::Operations => unless(value.is_array()),
        Part::Text | Part::ListedKey => unless(value.is_string()),
        Part::Level | Part::Order => unless(is_word(part, value)),
        Part::Expression if value.is_string() => None,
        Part::Expression if value.is_number() => unless(value.is_i64()),
        Part::Event
        | Part::Beginning
        | Part::FirstElement
        | Part::Statement
        | Part::Expression
        | Part::Condition
        | Part::Compare
        | Part::Operation => cause_of_array(input, part, value),
        Part::Line | Part::OfLine => None,
        _ => cause_of_number(part, value),
    }
}

/// What one array in the place of a list of arrays is, where it begins with a word of those.
fn alone_of(found: Found<'_>) -> Option<Part> {
    let part = match found.part {
        Part::Scenario => Part::Event,
        Part::Program | Part::Block => Part::Statement,
        Part::Compares => Part::Compare,
        Part::Operations => Part::Operation,
        _ => return None,
    };
    let (word, _) = worded_array(found.value)?;
    match form_of(part, word) {
        Some(_) => Some(part),
        None => None,
    }
}

impl Faults<'_> {
    /// Adds a fault at where the way is.
    fn add(&mut self, cause: Cause) -> Result<(), AllocError> {
        if is_same(self.steps.as_slice(), self.first) {
            return Ok(());
        }
        let steps = self.steps.clone()?;
        self.found.push(Fault { steps, cause })?;
        Ok(())
    }

    /// Adds a fault at the first element of where the way is.
    fn add_at_first(&mut self) -> Result<(), AllocError> {
        self.steps.push(0)?;
        let added = self.add(Cause::Shape);
        let _ = self.steps.pop();
        added
    }

    /// Adds what is wrong with a value itself, and says as what its elements are to be looked at.
    fn add_of(&mut self, found: Found<'_>) -> Result<Part, AllocError> {
        if let Some(part) = alone_of(found) {
            self.add_at_first()?;
            return Ok(part);
        }
        if let Some(cause) = cause_of(self.input, found) {
            self.add(cause)?;
        }
        Ok(found.part)
    }

    /// Adds what is wrong with a value and in it, in reading order, up to so many levels deep and until there are as many faults as are explained.
    fn look(&mut self, found: Found<'_>, levels: usize) -> Result<(), AllocError> {
        if levels == 0 || self.found.len() >= MOST_OTHERS {
            return Ok(());
        }
        let part = self.add_of(found)?;
        let Some(elements) = found.value.as_array() else {
            return Ok(());
        };
        for (index, value) in elements.iter().enumerate() {
            if let Some(part) = part_within(self.input, part, found.value, index, value) {
                self.steps.push(index)?;
                let looked = self.look(Found { part, value }, levels - 1);
                let _ = self.steps.pop();
                looked?;
            }
        }
        Ok(())
    }
}

/// The faults of an input that is read to this value, in reading order, without the one at the place that these indices lead to.
///
/// A number or a text is looked at by itself: that a program is too large, or a key stands in a list twice, is not found.
pub(crate) fn other_faults(
    alloc: Global,
    input: Input,
    value: &Value,
    first: &[usize],
) -> Result<Vec<Fault>, AllocError> {
    let mut faults = Faults {
        input,
        first,
        steps: Vec::new(alloc),
        found: Vec::new(alloc),
    };
    let part = whole_of(input);
    faults.look(Found { part, value }, MOST_LEVELS)?;
    Ok(faults.found)
}
