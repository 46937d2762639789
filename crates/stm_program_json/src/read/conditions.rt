//! Reading conditions.
ghost use Rattle.std.specs.Prelude.{◌≡◌};
ghost use Rattle.serde_json.specs.View.{view, items_view};
ghost use Rattle.stm_json.specs.Elements.{one_of, two_of, worded};
ghost use Rattle.stm_json.specs.Outcome.{within as within_lem};
ghost use Rattle.stm_json.specs.Returns.{Returns};
ghost use Rattle.stm_program_json.specs.Reading.{expression_at, condition_at, condition_array as condition_array_lem, condition_named as condition_named_lem};
ghost use Rattle.stm_program_json.specs.Reading.{one_part, two_parts, comparison_of, connective_of};
ghost use Rattle.stm_program.specs.Syntax.{Not};
ghost use Rattle.stm_program_json.specs.Words.{condition_word};

use crate::read::expressions::expression_part;
use crate::words::{Comparison, CondWord, Connective, condition_word_of};
use serde_json::Value;
use std::alloc::Global;
use std::sync::Arc;
use stm_json::{Cause, ReadError, fault, one, two, within, worded_array};
use stm_program::{Cond, CondNode, Expr};

/// A condition.
#[cycle(read_conditions)]
pub(crate) fn condition(
    alloc: Global,
    value: &Value,
    levels: usize,
    room: usize,
) -> Result<(Cond, usize), ReadError>
    ensures { Returns (λ x. x) result (condition_at levels room (view value.now)) }
{
    if levels == 0 {
        return Err(fault(alloc, Cause::TooDeep));
    }
    if room == 0 {
        return Err(fault(alloc, Cause::TooManyNodes));
    }
    condition_array(alloc, value, levels - 1, room - 1)
}

/// A condition that is an element of an array, in an `Arc`. A fault's place is that in the array.
#[cycle(read_conditions)]
pub(crate) fn condition_part(
    alloc: Global,
    index: usize,
    value: &Value,
    levels: usize,
    room: usize,
) -> Result<(Arc<Cond>, usize), ReadError>
    ensures { Returns (λ x. (x.0.value, x.1)) result (within_lem index (condition_at levels room (view value.now))) }
{
    let outcome = condition(alloc, value, levels, room);
    let (condition, room) = within(alloc, index, outcome)?;
    let condition = Arc::new(alloc, condition)?;
    Ok((condition, room))
}

#[cycle(read_conditions)]
fn condition_array(
    alloc: Global,
    value: &Value,
    levels: usize,
    room: usize,
) -> Result<(Cond, usize), ReadError>
    ensures { Returns (λ x. x) result (condition_array_lem (expression_at levels) (condition_at levels) room (worded (view value.now))) }
{
    match worded_array(value) {
        Some((word, elements)) => condition_named(alloc, word, elements, levels, room),
        None => Err(fault(alloc, Cause::Shape)),
    }
}

#[cycle(read_conditions)]
fn condition_named(
    alloc: Global,
    word: &str,
    elements: &[Value],
    levels: usize,
    room: usize,
) -> Result<(Cond, usize), ReadError>
    ensures { Returns (λ x. x) result (condition_named_lem (expression_at levels) (condition_at levels) room (condition_word word.now) (items_view elements.now)) }
{
    match condition_word_of(word) {
        None => Err(fault(alloc, Cause::Shape)),
        Some(CondWord::Comparison(comparison)) => {
            comparison_condition(alloc, comparison, elements, levels, room)
        }
        Some(CondWord::Not) => negation(alloc, elements, levels, room),
        Some(CondWord::Connective(connective)) => {
            connective_condition(alloc, connective, elements, levels, room)
        }
    }
}

#[cycle(read_conditions)]
fn negation(
    alloc: Global,
    elements: &[Value],
    levels: usize,
    room: usize,
) -> Result<(Cond, usize), ReadError>
    ensures { Returns (λ x. x) result (one_part (condition_at levels) Not room (one_of (items_view elements.now))) }
{
    match one(elements) {
        None => Err(fault(alloc, Cause::Shape)),
        Some(part) => {
            let (part, room) = condition_part(alloc, 1, part, levels, room)?;
            let node = CondNode::Not(part);
            Ok((Cond { node }, room))
        }
    }
}

#[cycle(read_conditions)]
fn connective_condition(
    alloc: Global,
    connective: Connective,
    elements: &[Value],
    levels: usize,
    room: usize,
) -> Result<(Cond, usize), ReadError>
    ensures { Returns (λ x. x) result (two_parts (condition_at levels) (connective_of connective) room (two_of (items_view elements.now))) }
{
    match two(elements) {
        None => Err(fault(alloc, Cause::Shape)),
        Some((left, right)) => {
            let (left, room) = condition_part(alloc, 1, left, levels, room)?;
            let (right, room) = condition_part(alloc, 2, right, levels, room)?;
            Ok((connective_node(connective, left, right), room))
        }
    }
}

fn comparison_condition(
    alloc: Global,
    comparison: Comparison,
    elements: &[Value],
    levels: usize,
    room: usize,
) -> Result<(Cond, usize), ReadError>
    ensures { Returns (λ x. x) result (two_parts (expression_at levels) (comparison_of comparison) room (two_of (items_view elements.now))) }
{
    match two(elements) {
        None => Err(fault(alloc, Cause::Shape)),
        Some((left, right)) => {
            let (left, room) = expression_part(alloc, 1, left, levels, room)?;
            let (right, room) = expression_part(alloc, 2, right, levels, room)?;
            Ok((comparison_node(comparison, left, right), room))
        }
    }
}

fn comparison_node(comparison: Comparison, left: Arc<Expr>, right: Arc<Expr>) -> Cond
    ensures { result ≡ comparison_of comparison left.value right.value }
{
    let node = match comparison {
        Comparison::Equal => CondNode::Equal(left, right),
        Comparison::Less => CondNode::Less(left, right),
    };
    Cond { node }
}

fn connective_node(connective: Connective, left: Arc<Cond>, right: Arc<Cond>) -> Cond
    ensures { result ≡ connective_of connective left.value right.value }
{
    let node = match connective {
        Connective::And => CondNode::And(left, right),
        Connective::Or => CondNode::Or(left, right),
    };
    Cond { node }
}
