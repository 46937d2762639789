//! The limits of programs.
ghost use Rattle.std.specs.Prelude.{◌≡◌, ◌-◌, ◌↔◌, IsTrue, SomeIff};
ghost use Rattle.stm_program.specs.BlockView.{block_of};
ghost use Rattle.stm_program.specs.Limits.{Fits, ExpressionFits, ConditionFits, StatementFits, BlockFits};
ghost use Rattle.stm_program.specs.Size.{expression_nodes, condition_nodes, statement_nodes, block_nodes};
ghost use Rattle.stm_program.specs.Syntax.{of_statements};

use crate::condition::{Cond, CondNode};
use crate::expression::{Expr, ExprNode};
use crate::statement::{Block, Stmt, StmtNode};
use stm_history::HIGHEST_NUMBER;

/// How deep the nodes of a program may be nested.
pub const MAX_DEPTH: usize = 32;

/// How many nodes a program may have.
pub const MAX_NODES: usize = 4096;

/// How many keys the list of a program may have.
pub const MAX_PREFETCH: usize = 128;

/// How many bytes a text of a program may have, and a key of its list.
pub const MAX_TEXT: usize = 65536;

/// The greatest limit of a loop.
pub const MAX_TURNS: u64 = 1000;

/// The greatest number of a variable. The least is 0.
pub const MAX_VARIABLE: u64 = 15;

/// The greatest id of a lease.
pub const MAX_LEASE: u64 = HIGHEST_NUMBER;

/// Whether statements are within the limits of a program. It allocates nothing.
pub fn fits(statements: &[Stmt]) -> bool
    ensures { IsTrue result ↔ Fits (of_statements (block_of statements.now)) }
{
    statements_left(statements, MAX_DEPTH, MAX_NODES).is_some()
}

// Each function below answers how many of the `room` nodes are left, if its argument is within
// the limits: at most `levels` deep, and at most `room` nodes. It looks at no more than `room` nodes.

fn expression_left(expression: &Expr, levels: usize, room: usize) -> Option<usize>
    ensures { SomeIff result (ExpressionFits levels room expression.now) (room - expression_nodes expression.now) }
{
    if levels == 0 {
        return None;
    }
    if room == 0 {
        return None;
    }
    let (levels, room) = (levels - 1, room - 1);
    match &expression.node {
        ExprNode::Text(text) => {
            if text.as_str().len() <= MAX_TEXT {
                Some(room)
            } else {
                None
            }
        }
        ExprNode::Number(number) => {
            let _in_range = *number;
            Some(room)
        }
        ExprNode::Variable(variable) => {
            let _in_range = variable.number();
            Some(room)
        }
        ExprNode::Get(part)
        | ExprNode::Rev(part)
        | ExprNode::TextOf(part)
        | ExprNode::NumOf(part) => expression_left(part, levels, room),
        ExprNode::Arithmetic(_, left, right) | ExprNode::Cat(left, right) => {
            let room = expression_left(left, levels, room)?;
            expression_left(right, levels, room)
        }
    }
}

fn condition_left(condition: &Cond, levels: usize, room: usize) -> Option<usize>
    ensures { SomeIff result (ConditionFits levels room condition.now) (room - condition_nodes condition.now) }
{
    if levels == 0 {
        return None;
    }
    if room == 0 {
        return None;
    }
    let (levels, room) = (levels - 1, room - 1);
    match &condition.node {
        CondNode::Equal(left, right) | CondNode::Less(left, right) => {
            let room = expression_left(left, levels, room)?;
            expression_left(right, levels, room)
        }
        CondNode::Not(part) => condition_left(part, levels, room),
        CondNode::And(left, right) | CondNode::Or(left, right) => {
            let room = condition_left(left, levels, room)?;
            condition_left(right, levels, room)
        }
    }
}

#[cycle(left)]
fn statement_left(statement: &Stmt, levels: usize, room: usize) -> Option<usize>
    ensures { SomeIff result (StatementFits levels room statement.now) (room - statement_nodes statement.now) }
{
    if levels == 0 {
        return None;
    }
    if room == 0 {
        return None;
    }
    let (levels, room) = (levels - 1, room - 1);
    match &statement.node {
        StmtNode::Set(variable, value) => {
            let _in_range = variable.number();
            expression_left(value, levels, room)
        }
        StmtNode::Put(key, value, lease) => {
            if *lease > MAX_LEASE {
                return None;
            }
            let room = expression_left(key, levels, room)?;
            expression_left(value, levels, room)
        }
        StmtNode::If(condition, yes, no) => {
            let room = condition_left(condition, levels, room)?;
            let room = block_left(yes, levels, room)?;
            block_left(no, levels, room)
        }
        StmtNode::For(variable, count, limit, body) => {
            let _in_range = variable.number();
            if *limit > MAX_TURNS {
                return None;
            }
            let room = expression_left(count, levels, room)?;
            block_left(body, levels, room)
        }
        StmtNode::Del(part) | StmtNode::Emit(part) | StmtNode::Abort(part) => {
            expression_left(part, levels, room)
        }
    }
}

#[cycle(left)]
fn block_left(block: &Block, levels: usize, room: usize) -> Option<usize>
    ensures { SomeIff result (BlockFits levels room block.now) (room - block_nodes block.now) }
{
    let statements: &Vec<Stmt> = &block.statements;
    statements_left(statements, levels, room)
}

#[cycle(left)]
fn statements_left(statements: &[Stmt], levels: usize, room: usize) -> Option<usize>
    ensures { SomeIff result (BlockFits levels room (block_of statements.now)) (room - block_nodes (block_of statements.now)) }
{
    match statements {
        [] => Some(room),
        [first, rest @ ..] => {
            let room = statement_left(first, levels, room)?;
            statements_left(rest, levels, room)
        }
    }
}
