//! Whether a program is too deep or has too many nodes.
ghost use Rattle.std.specs.Prelude.{◌≡◌, ◌-◌, IfOk};
ghost use Rattle.stm_program.specs.BlockView.{block_of};
ghost use Rattle.stm_program.specs.Limits.{ExpressionFits, ConditionFits, StatementFits, BlockFits};
ghost use Rattle.stm_program.specs.Size.{expression_nodes, condition_nodes, statement_nodes, block_nodes};
ghost use Rattle.stm_terms.specs.Room as spec;

use crate::faults::SourceCause;
use crate::kinds::Valued;
use crate::look_ups::{LookUp, Other};
use stm_program::{
    Block, Cond, CondNode, Expr, ExprNode, MAX_LEASE, MAX_TEXT, MAX_TURNS, Stmt, StmtNode,
};

// Each function below answers how many of the `room` nodes are left, or what is wrong: where its argument has more than `levels` levels, or more
// than `room` nodes. It looks at no more than `room` nodes.

#[tactic(auto, using(crate::proofs::RoomLemmas::expression_deep, crate::proofs::RoomLemmas::expression_full))]
pub(crate) fn expression_room(
    expression: &Expr,
    levels: usize,
    room: usize,
) -> Result<usize, SourceCause>
    ensures is { result ≡ spec.expression_room levels room expression.now }
    ensures fits { IfOk result (λ left. ExpressionFits levels room expression.now × (left ≡ room - expression_nodes expression.now)) }
{
    if levels == 0 {
        return Err(SourceCause::TooDeep);
    }
    if room == 0 {
        return Err(SourceCause::TooManyNodes);
    }
    let (levels, room) = (levels - 1, room - 1);
    match &expression.node {
        ExprNode::Text(text) => {
            if text.as_str().len() <= MAX_TEXT {
                Ok(room)
            } else {
                Err(SourceCause::TooLong)
            }
        }
        ExprNode::Number(number) => {
            let _in_range = *number;
            Ok(room)
        }
        ExprNode::Variable(variable) => {
            let _in_range = variable.number();
            Ok(room)
        }
        ExprNode::Get(part)
        | ExprNode::Rev(part)
        | ExprNode::TextOf(part)
        | ExprNode::NumOf(part) => expression_room(part, levels, room),
        ExprNode::Arithmetic(_, left, right) | ExprNode::Cat(left, right) => {
            let room = expression_room(left, levels, room)?;
            expression_room(right, levels, room)
        }
    }
}

/// The same of what stands behind an `else`.
fn other_room(other: &Option<Other>, levels: usize, room: usize) -> Result<usize, SourceCause>
    ensures { result ≡ spec.other_room levels room other.now }
{
    match other {
        Some(other) => expression_room(&other.value, levels, room),
        None => Ok(room),
    }
}

/// The same of what stands behind the `else`s of look-ups.
fn others_room(look_ups: &[LookUp], levels: usize, room: usize) -> Result<usize, SourceCause>
    ensures { result ≡ spec.others_room levels room look_ups.now }
{
    match look_ups {
        [] => Ok(room),
        [first, rest @ ..] => {
            let room = other_room(&first.other, levels, room)?;
            others_room(rest, levels, room)
        }
    }
}

/// The same of a value and of what stands behind its `else`s.
pub(crate) fn value_room(value: &Valued, levels: usize, room: usize) -> Result<usize, SourceCause>
    ensures { result ≡ spec.value_room levels room value.now }
{
    let room = expression_room(&value.expression, levels, room)?;
    others_room(value.look_ups.as_slice(), levels, room)
}

/// The same of several values.
pub(crate) fn values_room(
    values: &[Valued],
    levels: usize,
    room: usize,
) -> Result<usize, SourceCause>
    ensures { result ≡ spec.values_room levels room values.now }
{
    match values {
        [] => Ok(room),
        [first, rest @ ..] => {
            let room = value_room(first, levels, room)?;
            values_room(rest, levels, room)
        }
    }
}

/// How many of the `room` nodes are left behind a condition, which may have so many levels, or what is wrong with its first node that does not fit:
/// `TooDeep` or `TooManyNodes`, and `TooLong` where a text is longer than a program may have one.
#[tactic(auto, using(crate::proofs::RoomLemmas::condition_deep, crate::proofs::RoomLemmas::condition_full))]
pub fn condition_room(condition: &Cond, levels: usize, room: usize) -> Result<usize, SourceCause>
    ensures is { result ≡ spec.condition_room levels room condition.now }
    ensures fits { IfOk result (λ left. ConditionFits levels room condition.now × (left ≡ room - condition_nodes condition.now)) }
{
    if levels == 0 {
        return Err(SourceCause::TooDeep);
    }
    if room == 0 {
        return Err(SourceCause::TooManyNodes);
    }
    let (levels, room) = (levels - 1, room - 1);
    match &condition.node {
        CondNode::Equal(left, right) | CondNode::Less(left, right) => {
            let room = expression_room(left, levels, room)?;
            expression_room(right, levels, room)
        }
        CondNode::Not(part) => condition_room(part, levels, room),
        CondNode::And(left, right) | CondNode::Or(left, right) => {
            let room = condition_room(left, levels, room)?;
            condition_room(right, levels, room)
        }
    }
}

#[cycle(room)]
#[tactic(auto, using(crate::proofs::RoomLemmas::statement_deep, crate::proofs::RoomLemmas::statement_full))]
fn statement_room(statement: &Stmt, levels: usize, room: usize) -> Result<usize, SourceCause>
    ensures is { result ≡ spec.statement_room levels room statement.now }
    ensures fits { IfOk result (λ left. StatementFits levels room statement.now × (left ≡ room - statement_nodes statement.now)) }
{
    if levels == 0 {
        return Err(SourceCause::TooDeep);
    }
    if room == 0 {
        return Err(SourceCause::TooManyNodes);
    }
    let (levels, room) = (levels - 1, room - 1);
    match &statement.node {
        StmtNode::Set(variable, value) => {
            let _in_range = variable.number();
            expression_room(value, levels, room)
        }
        StmtNode::Put(key, value, lease) => {
            if *lease > MAX_LEASE {
                return Err(SourceCause::Range);
            }
            let room = expression_room(key, levels, room)?;
            expression_room(value, levels, room)
        }
        StmtNode::If(condition, yes, no) => {
            let room = condition_room(condition, levels, room)?;
            let room = block_room(yes, levels, room)?;
            block_room(no, levels, room)
        }
        StmtNode::For(variable, count, limit, body) => {
            let _in_range = variable.number();
            if *limit > MAX_TURNS {
                return Err(SourceCause::Range);
            }
            let room = expression_room(count, levels, room)?;
            block_room(body, levels, room)
        }
        StmtNode::Del(part) | StmtNode::Emit(part) | StmtNode::Abort(part) => {
            expression_room(part, levels, room)
        }
    }
}

#[cycle(room)]
fn block_room(block: &Block, levels: usize, room: usize) -> Result<usize, SourceCause>
    ensures is { result ≡ spec.block_room levels room block.now }
    ensures fits { IfOk result (λ left. BlockFits levels room block.now × (left ≡ room - block_nodes block.now)) }
{
    let statements: &Vec<Stmt> = &block.statements;
    statements_room(statements, levels, room)
}

/// How many of the `room` nodes are left behind these statements, of a program that may have so many levels, or what is wrong with the first node
/// that does not fit: `TooDeep` at another level, `TooManyNodes` where no room is left, and where a text, a limit of a loop or a lease is beyond what
/// a program may have, `TooLong` and `Range`.
#[cycle(room)]
pub fn statements_room(
    statements: &[Stmt],
    levels: usize,
    room: usize,
) -> Result<usize, SourceCause>
    ensures is { result ≡ spec.block_room levels room (block_of statements.now) }
    ensures fits { IfOk result (λ left. BlockFits levels room (block_of statements.now) × (left ≡ room - block_nodes (block_of statements.now))) }
{
    match statements {
        [] => Ok(room),
        [first, rest @ ..] => {
            let room = statement_room(first, levels, room)?;
            statements_room(rest, levels, room)
        }
    }
}
