//! Reading expressions.
ghost use Rattle.std.specs.Prelude.{◌≡◌, ◌≤◌, IfOk};
ghost use Rattle.serde_json.specs.View.{view, items_view};
ghost use Rattle.stm_json.specs.Elements.{one_of, two_of, number_up_to};
ghost use Rattle.stm_json.specs.Outcome.{within as within_lem};
ghost use Rattle.stm_json.specs.Returns.{Returns};
ghost use Rattle.stm_program_json.specs.Reading.{expression_at, expression_body as expression_body_lem, expression_named as expression_named_lem};
ghost use Rattle.stm_program_json.specs.Reading.{literal as literal_lem, variable as variable_lem, one_part, two_parts, unary_of, binary_of};
ghost use Rattle.stm_program_json.specs.Words.{expression_word};

use crate::words::{Binary, ExprWord, Unary, expression_word_of};
use serde_json::Value;
use std::alloc::Global;
use std::sync::Arc;
use stm_history::Text;
use stm_json::{Cause, ReadError, fault, number_within, one, two, whole, within, worded_array};
use stm_program::{Expr, ExprNode, MAX_TEXT, MAX_VARIABLE, Variable};

// Each reader is given how many levels and how many nodes are left for its value, and answers how many
// nodes are left after it.

/// An expression.
#[cycle(read_expressions)]
pub(crate) fn expression(
    alloc: Global,
    value: &Value,
    levels: usize,
    room: usize,
) -> Result<(Expr, usize), ReadError>
    ensures { Returns (λ x. x) result (expression_at levels room (view value.now)) }
{
    if levels == 0 {
        return Err(fault(alloc, Cause::TooDeep));
    }
    if room == 0 {
        return Err(fault(alloc, Cause::TooManyNodes));
    }
    expression_body(alloc, value, levels - 1, room - 1)
}

/// An expression that is an element of an array, in an `Arc`. A fault's place is that in the array.
#[cycle(read_expressions)]
pub(crate) fn expression_part(
    alloc: Global,
    index: usize,
    value: &Value,
    levels: usize,
    room: usize,
) -> Result<(Arc<Expr>, usize), ReadError>
    ensures { Returns (λ x. (x.0.value, x.1)) result (within_lem index (expression_at levels room (view value.now))) }
{
    let outcome = expression(alloc, value, levels, room);
    let (expression, room) = within(alloc, index, outcome)?;
    let expression = Arc::new(alloc, expression)?;
    Ok((expression, room))
}

#[cycle(read_expressions)]
#[tactic(auto, unfolding(crate::specs::Reading::expression_body))]
fn expression_body(
    alloc: Global,
    value: &Value,
    levels: usize,
    room: usize,
) -> Result<(Expr, usize), ReadError>
    ensures { Returns (λ x. x) result (expression_body_lem (expression_at levels) room (view value.now)) }
{
    if let Some(text) = value.as_str() {
        return literal(alloc, text, room);
    }
    if value.is_number() {
        let number = whole(alloc, value)?;
        let node = ExprNode::Number(number);
        return Ok((Expr { node }, room));
    }
    match worded_array(value) {
        Some((word, elements)) => expression_named(alloc, word, elements, levels, room),
        None => Err(fault(alloc, Cause::Shape)),
    }
}

#[cycle(read_expressions)]
fn expression_named(
    alloc: Global,
    word: &str,
    elements: &[Value],
    levels: usize,
    room: usize,
) -> Result<(Expr, usize), ReadError>
    ensures { Returns (λ x. x) result (expression_named_lem (expression_at levels) room (expression_word word.now) (items_view elements.now)) }
{
    match expression_word_of(word) {
        None => Err(fault(alloc, Cause::Shape)),
        Some(ExprWord::Var) => variable(alloc, elements, room),
        Some(ExprWord::Unary(unary)) => unary_expression(alloc, unary, elements, levels, room),
        Some(ExprWord::Binary(binary)) => binary_expression(alloc, binary, elements, levels, room),
    }
}

#[cycle(read_expressions)]
fn unary_expression(
    alloc: Global,
    unary: Unary,
    elements: &[Value],
    levels: usize,
    room: usize,
) -> Result<(Expr, usize), ReadError>
    ensures { Returns (λ x. x) result (one_part (expression_at levels) (unary_of unary) room (one_of (items_view elements.now))) }
{
    match one(elements) {
        None => Err(fault(alloc, Cause::Shape)),
        Some(part) => {
            let (part, room) = expression_part(alloc, 1, part, levels, room)?;
            Ok((unary_node(unary, part), room))
        }
    }
}

#[cycle(read_expressions)]
fn binary_expression(
    alloc: Global,
    binary: Binary,
    elements: &[Value],
    levels: usize,
    room: usize,
) -> Result<(Expr, usize), ReadError>
    ensures { Returns (λ x. x) result (two_parts (expression_at levels) (binary_of binary) room (two_of (items_view elements.now))) }
{
    match two(elements) {
        None => Err(fault(alloc, Cause::Shape)),
        Some((left, right)) => {
            let (left, room) = expression_part(alloc, 1, left, levels, room)?;
            let (right, room) = expression_part(alloc, 2, right, levels, room)?;
            Ok((binary_node(binary, left, right), room))
        }
    }
}

fn literal(alloc: Global, text: &str, room: usize) -> Result<(Expr, usize), ReadError>
    ensures { Returns (λ x. x) result (literal_lem room text.now) }
{
    if text.len() <= MAX_TEXT {
        let text = Text::copy_of(alloc, text)?;
        let node = ExprNode::Text(text);
        Ok((Expr { node }, room))
    } else {
        Err(fault(alloc, Cause::TooLong))
    }
}

fn variable(alloc: Global, elements: &[Value], room: usize) -> Result<(Expr, usize), ReadError>
    ensures { Returns (λ x. x) result (variable_lem room (one_of (items_view elements.now))) }
{
    match one(elements) {
        None => Err(fault(alloc, Cause::Shape)),
        Some(number) => {
            let variable = variable_part(alloc, 1, number)?;
            let node = ExprNode::Variable(variable);
            Ok((Expr { node }, room))
        }
    }
}

/// A number from 0 to a limit that is an element of an array.
pub(crate) fn number_part(
    alloc: Global,
    index: usize,
    limit: u64,
    value: &Value,
) -> Result<u64, ReadError>
    ensures exact { Returns (λ n. n) result (within_lem index (number_up_to limit (view value.now))) }
    ensures bounded { IfOk result (λ n. n ≤ limit) }
{
    let outcome = number_within(alloc, limit, value);
    let number = within(alloc, index, outcome)?;
    Ok(number)
}

/// A variable that is an element of an array.
pub(crate) fn variable_part(
    alloc: Global,
    index: usize,
    value: &Value,
) -> Result<Variable, ReadError>
    ensures { Returns (λ v. v) result (within_lem index (number_up_to MAX_VARIABLE (view value.now))) }
{
    let number = number_part(alloc, index, MAX_VARIABLE, value)?;
    Ok(Variable::new(number as u8))
}

fn unary_node(unary: Unary, part: Arc<Expr>) -> Expr
    ensures { result ≡ unary_of unary part.value }
{
    let node = match unary {
        Unary::Get => ExprNode::Get(part),
        Unary::Rev => ExprNode::Rev(part),
        Unary::TextOf => ExprNode::TextOf(part),
        Unary::NumOf => ExprNode::NumOf(part),
    };
    Expr { node }
}

fn binary_node(binary: Binary, left: Arc<Expr>, right: Arc<Expr>) -> Expr
    ensures { result ≡ binary_of binary left.value right.value }
{
    let node = match binary {
        Binary::Arithmetic(operator) => ExprNode::Arithmetic(operator, left, right),
        Binary::Cat => ExprNode::Cat(left, right),
    };
    Expr { node }
}
