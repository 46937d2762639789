//! Reading statements and blocks.
ghost use Rattle.std.specs.Prelude.{◌≡◌, ◌≤◌};
ghost use Rattle.serde_json.specs.View.{view, items_view};
ghost use Rattle.stm_program.specs.BlockView.{block_of};
ghost use Rattle.stm_json.specs.Elements.{one_of, two_of, three_of, four_of, worded};
ghost use Rattle.stm_json.specs.Outcome.{within as within_lem};
ghost use Rattle.stm_json.specs.Returns.{Returns};
ghost use Rattle.stm_program_json.specs.Reading.{expression_at, condition_at, statement_at, statement_array as statement_array_lem, statement_named as statement_named_lem};
ghost use Rattle.stm_program_json.specs.Reading.{one_part, simple_of, set_of, put_of, if_of, for_of, block_by, statements_from};
ghost use Rattle.stm_program_json.specs.Words.{statement_word};

use crate::read::conditions::condition_part;
use crate::read::expressions::{expression_part, number_part, variable_part};
use crate::words::{Simple, StmtWord, statement_word_of};
use serde_json::Value;
use std::alloc::Global;
use std::sync::Arc;
use stm_json::{Cause, ReadError, fault, four, one, three, two, within, worded_array};
use stm_program::{Block, Expr, MAX_LEASE, MAX_TURNS, Stmt, StmtNode};

/// A statement.
#[cycle(read_statements)]
pub(crate) fn statement(
    alloc: Global,
    value: &Value,
    levels: usize,
    room: usize,
) -> Result<(Stmt, usize), ReadError>
    ensures { Returns (λ x. x) result (statement_at levels room (view value.now)) }
{
    if levels == 0 {
        return Err(fault(alloc, Cause::TooDeep));
    }
    if room == 0 {
        return Err(fault(alloc, Cause::TooManyNodes));
    }
    statement_array(alloc, value, levels - 1, room - 1)
}

/// A statement that is an element of an array. A fault's place is that in the array.
#[cycle(read_statements)]
fn statement_part(
    alloc: Global,
    index: usize,
    value: &Value,
    levels: usize,
    room: usize,
) -> Result<(Stmt, usize), ReadError>
    ensures { Returns (λ x. x) result (within_lem index (statement_at levels room (view value.now))) }
{
    let outcome = statement(alloc, value, levels, room);
    let read = within(alloc, index, outcome)?;
    Ok(read)
}

/// The statements of an array, which are all at the same level.
#[cycle(read_statements)]
#[tactic(auto, unfolding(crate::specs::Reading::block_by))]
pub(crate) fn statements(
    alloc: Global,
    value: &Value,
    levels: usize,
    room: usize,
) -> Result<(Vec<Stmt>, usize), ReadError>
    ensures { Returns (λ x. (block_of x.0.items, x.1)) result (block_by (statement_at levels) room (view value.now)) }
{
    match value.as_array() {
        Some(values) => statement_list(alloc, values.as_slice(), 0, levels, room),
        None => Err(fault(alloc, Cause::Shape)),
    }
}

/// Statements, of which the first one is the element of an array at this index.
#[cycle(read_statements)]
pub(crate) fn statement_list(
    alloc: Global,
    values: &[Value],
    first: usize,
    levels: usize,
    room: usize,
) -> Result<(Vec<Stmt>, usize), ReadError>
    requires { first ≤ 1 }
    ensures { Returns (λ x. (block_of x.0.items, x.1)) result (statements_from (statement_at levels) first room (items_view values.now)) }
{
    let mut statements = Vec::new(alloc);
    let mut left = room;
    for (index, value) in values.iter().enumerate() {
        let (statement, rest) = statement_part(alloc, index + first, value, levels, left)?;
        statements.push(statement)?;
        left = rest;
    }
    Ok((statements, left))
}

/// A block that is an element of an array.
#[cycle(read_statements)]
fn block_part(
    alloc: Global,
    index: usize,
    value: &Value,
    levels: usize,
    room: usize,
) -> Result<(Block, usize), ReadError>
    ensures { Returns (λ x. x) result (within_lem index (block_by (statement_at levels) room (view value.now))) }
{
    let outcome = statements(alloc, value, levels, room);
    let (statements, room) = within(alloc, index, outcome)?;
    let statements = Arc::new(alloc, statements)?;
    Ok((Block { statements }, room))
}

#[cycle(read_statements)]
fn statement_array(
    alloc: Global,
    value: &Value,
    levels: usize,
    room: usize,
) -> Result<(Stmt, usize), ReadError>
    ensures { Returns (λ x. x) result (statement_array_lem (expression_at levels) (condition_at levels) (block_by (statement_at levels)) room (worded (view value.now))) }
{
    match worded_array(value) {
        Some((word, elements)) => statement_named(alloc, word, elements, levels, room),
        None => Err(fault(alloc, Cause::Shape)),
    }
}

#[cycle(read_statements)]
fn statement_named(
    alloc: Global,
    word: &str,
    elements: &[Value],
    levels: usize,
    room: usize,
) -> Result<(Stmt, usize), ReadError>
    ensures { Returns (λ x. x) result (statement_named_lem (expression_at levels) (condition_at levels) (block_by (statement_at levels)) room (statement_word word.now) (items_view elements.now)) }
{
    match statement_word_of(word) {
        None => Err(fault(alloc, Cause::Shape)),
        Some(StmtWord::Set) => set(alloc, elements, levels, room),
        Some(StmtWord::Put) => put(alloc, elements, levels, room),
        Some(StmtWord::If) => choice(alloc, elements, levels, room),
        Some(StmtWord::For) => repetition(alloc, elements, levels, room),
        Some(StmtWord::Simple(simple)) => {
            simple_statement(alloc, simple, elements, levels, room)
        }
    }
}

#[cycle(read_statements)]
fn choice(
    alloc: Global,
    elements: &[Value],
    levels: usize,
    room: usize,
) -> Result<(Stmt, usize), ReadError>
    ensures { Returns (λ x. x) result (if_of (condition_at levels) (block_by (statement_at levels)) room (three_of (items_view elements.now))) }
{
    match three(elements) {
        None => Err(fault(alloc, Cause::Shape)),
        Some((condition, yes, no)) => {
            let (condition, room) = condition_part(alloc, 1, condition, levels, room)?;
            let (yes, room) = block_part(alloc, 2, yes, levels, room)?;
            let (no, room) = block_part(alloc, 3, no, levels, room)?;
            let node = StmtNode::If(condition, yes, no);
            Ok((Stmt { node }, room))
        }
    }
}

#[cycle(read_statements)]
fn repetition(
    alloc: Global,
    elements: &[Value],
    levels: usize,
    room: usize,
) -> Result<(Stmt, usize), ReadError>
    ensures { Returns (λ x. x) result (for_of (expression_at levels) (block_by (statement_at levels)) room (four_of (items_view elements.now))) }
{
    match four(elements) {
        None => Err(fault(alloc, Cause::Shape)),
        Some((variable, count, limit, body)) => {
            let variable = variable_part(alloc, 1, variable)?;
            let (count, room) = expression_part(alloc, 2, count, levels, room)?;
            let limit = number_part(alloc, 3, MAX_TURNS, limit)?;
            let (body, room) = block_part(alloc, 4, body, levels, room)?;
            let node = StmtNode::For(variable, count, limit, body);
            Ok((Stmt { node }, room))
        }
    }
}

fn set(
    alloc: Global,
    elements: &[Value],
    levels: usize,
    room: usize,
) -> Result<(Stmt, usize), ReadError>
    ensures { Returns (λ x. x) result (set_of (expression_at levels) room (two_of (items_view elements.now))) }
{
    match two(elements) {
        None => Err(fault(alloc, Cause::Shape)),
        Some((variable, value)) => {
            let variable = variable_part(alloc, 1, variable)?;
            let (value, room) = expression_part(alloc, 2, value, levels, room)?;
            let node = StmtNode::Set(variable, value);
            Ok((Stmt { node }, room))
        }
    }
}

fn put(
    alloc: Global,
    elements: &[Value],
    levels: usize,
    room: usize,
) -> Result<(Stmt, usize), ReadError>
    ensures { Returns (λ x. x) result (put_of (expression_at levels) room (three_of (items_view elements.now))) }
{
    match three(elements) {
        None => Err(fault(alloc, Cause::Shape)),
        Some((key, value, lease)) => {
            let (key, room) = expression_part(alloc, 1, key, levels, room)?;
            let (value, room) = expression_part(alloc, 2, value, levels, room)?;
            let lease = number_part(alloc, 3, MAX_LEASE, lease)?;
            let node = StmtNode::Put(key, value, lease);
            Ok((Stmt { node }, room))
        }
    }
}

fn simple_statement(
    alloc: Global,
    simple: Simple,
    elements: &[Value],
    levels: usize,
    room: usize,
) -> Result<(Stmt, usize), ReadError>
    ensures { Returns (λ x. x) result (one_part (expression_at levels) (simple_of simple) room (one_of (items_view elements.now))) }
{
    match one(elements) {
        None => Err(fault(alloc, Cause::Shape)),
        Some(part) => {
            let (part, room) = expression_part(alloc, 1, part, levels, room)?;
            Ok((simple_node(simple, part), room))
        }
    }
}

fn simple_node(simple: Simple, part: Arc<Expr>) -> Stmt
    ensures { result ≡ simple_of simple part.value }
{
    let node = match simple {
        Simple::Del => StmtNode::Del(part),
        Simple::Emit => StmtNode::Emit(part),
        Simple::Abort => StmtNode::Abort(part),
    };
    Stmt { node }
}
