//! How much of a scenario programs and events take, and how much of a source what it defines.
ghost use Rattle.std.specs.Prelude.{◌≡◌, ◌-◌, ◌+◌, length, map, string_bytes};
ghost use Rattle.stm_program.specs.BlockView.{block_of};
ghost use Rattle.stm_source.specs.Bulk as spec;

use stm_events::WorldEvent;
use stm_outcome::{Compare, Op, Target, Txn};
use stm_program::{Block, Cond, CondNode, Expr, ExprNode, Program, Stmt, StmtNode};
use stm_terms::{Constant, LookUp, Other, Valued};

// Each function below answers how much of the room is left behind its argument: none, where that takes all of it or more.

fn expression_room(expression: &Expr, room: usize) -> usize
    ensures { result ≡ room - spec.expression_bulk expression.now }
{
    let room = room.saturating_sub(1);
    match &expression.node {
        ExprNode::Text(text) => room.saturating_sub(text.as_str().len()),
        ExprNode::Number(_) | ExprNode::Variable(_) => room,
        ExprNode::Get(part)
        | ExprNode::Rev(part)
        | ExprNode::TextOf(part)
        | ExprNode::NumOf(part) => expression_room(part, room),
        ExprNode::Arithmetic(_, left, right) | ExprNode::Cat(left, right) => {
            let room = expression_room(left, room);
            expression_room(right, room)
        }
    }
}

fn condition_room(condition: &Cond, room: usize) -> usize
    ensures { result ≡ room - spec.condition_bulk condition.now }
{
    let room = room.saturating_sub(1);
    match &condition.node {
        CondNode::Equal(left, right) | CondNode::Less(left, right) => {
            let room = expression_room(left, room);
            expression_room(right, room)
        }
        CondNode::Not(part) => condition_room(part, room),
        CondNode::And(left, right) | CondNode::Or(left, right) => {
            let room = condition_room(left, room);
            condition_room(right, room)
        }
    }
}

#[cycle(bulk)]
fn statement_room(statement: &Stmt, room: usize) -> usize
    ensures { result ≡ room - spec.statement_bulk statement.now }
{
    let room = room.saturating_sub(1);
    match &statement.node {
        StmtNode::Put(key, value, _) => {
            let room = expression_room(key, room);
            expression_room(value, room)
        }
        StmtNode::If(condition, yes, no) => {
            let room = condition_room(condition, room);
            let room = block_room(yes, room);
            block_room(no, room)
        }
        StmtNode::For(_, count, _, body) => {
            let room = expression_room(count, room);
            block_room(body, room)
        }
        StmtNode::Set(_, part)
        | StmtNode::Del(part)
        | StmtNode::Emit(part)
        | StmtNode::Abort(part) => expression_room(part, room),
    }
}

#[cycle(bulk)]
fn block_room(block: &Block, room: usize) -> usize
    ensures { result ≡ room - spec.block_bulk block.now }
{
    let statements: &Vec<Stmt> = &block.statements;
    statements_room(statements, room)
}

#[cycle(bulk)]
fn statements_room(statements: &[Stmt], room: usize) -> usize
    ensures { result ≡ room - spec.block_bulk (block_of statements.now) }
{
    match statements {
        [] => room,
        [first, rest @ ..] => {
            let room = statement_room(first, room);
            statements_room(rest, room)
        }
    }
}

fn keys_room(keys: &[String], room: usize) -> usize
    ensures { result ≡ room - spec.keys_bulk (map string_bytes keys.now) }
{
    match keys {
        [] => room,
        [first, rest @ ..] => {
            let room = room.saturating_sub(1).saturating_sub(first.len());
            keys_room(rest, room)
        }
    }
}

/// How much of the room is left behind a program.
pub(crate) fn program_room(program: &Program, room: usize) -> usize
    ensures { result ≡ room - spec.program_bulk program.now }
{
    let room = keys_room(program.prefetch(), room);
    statements_room(program.statements(), room)
}

fn other_room(other: &Option<Other>, room: usize) -> usize
    ensures { result ≡ room - spec.other_bulk other.now }
{
    match other {
        Some(other) => expression_room(&other.value, room),
        None => room,
    }
}

fn others_room(look_ups: &[LookUp], room: usize) -> usize
    ensures { result ≡ spec.others_left room look_ups.now }
{
    let mut left = room;
    for look_up in look_ups {
        left = other_room(&look_up.other, left);
    }
    left
}

fn value_room(value: &Valued, room: usize) -> usize
    ensures { result ≡ spec.value_left room value.now }
{
    let room = expression_room(&value.expression, room);
    others_room(value.look_ups.as_slice(), room)
}

/// How much of the room is left behind what a name is defined as.
pub(crate) fn constant_room(constant: &Constant, room: usize) -> usize
    ensures { result ≡ spec.constant_left room constant.now }
{
    match constant {
        Constant::Alone(_) | Constant::List(_) => room,
        Constant::Value(defined) => value_room(&defined.value, room),
    }
}

fn compare_room(compare: &Compare, room: usize) -> usize
    ensures { result ≡ room - (1 + length compare.now.key + spec.target_bulk compare.now.target) }
{
    let room = room
        .saturating_sub(1)
        .saturating_sub(compare.key.as_str().len());
    match &compare.target {
        Target::Value(text) => room.saturating_sub(text.as_str().len()),
        Target::Version(_) | Target::Create(_) | Target::Mod(_) | Target::Lease(_) => room,
    }
}

fn compares_room(compares: &[Compare], room: usize) -> usize
    ensures { result ≡ spec.compares_left room compares.now }
{
    let mut left = room;
    for compare in compares {
        left = compare_room(compare, left);
    }
    left
}

fn operation_room(operation: &Op, room: usize) -> usize
    ensures { result ≡ room - spec.op_bulk operation.now }
{
    let room = room
        .saturating_sub(1)
        .saturating_sub(operation.key().as_str().len());
    match operation {
        Op::Put { value, .. } => room.saturating_sub(value.as_str().len()),
        Op::Get { .. } | Op::Del { .. } => room,
    }
}

fn operations_room(operations: &[Op], room: usize) -> usize
    ensures { result ≡ spec.ops_left room operations.now }
{
    let mut left = room;
    for operation in operations {
        left = operation_room(operation, left);
    }
    left
}

fn txn_room(txn: &Txn, room: usize) -> usize
    ensures { result ≡ spec.txn_left room txn.now }
{
    let room = compares_room(txn.compares.as_slice(), room);
    let room = operations_room(txn.success.as_slice(), room);
    operations_room(txn.failure.as_slice(), room)
}

/// How much of the room is left behind an event of the store.
pub(crate) fn event_room(event: &WorldEvent, room: usize) -> usize
    ensures { result ≡ spec.event_left room event.now }
{
    match event {
        WorldEvent::Txn { txn } => txn_room(txn, room),
        WorldEvent::WatchKey { key, .. } => room.saturating_sub(key.as_str().len()),
        WorldEvent::WatchRange { first, end, .. } => room
            .saturating_sub(first.as_str().len())
            .saturating_sub(end.as_str().len()),
        _ => room,
    }
}
