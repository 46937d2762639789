//! Writing statements and blocks.
ghost use Rattle.std.specs.Prelude.{◌≡◌, codes, map, IfOk};
ghost use Rattle.serde_json.specs.Data.{array};
ghost use Rattle.serde_json.specs.View.{view};
ghost use Rattle.stm_program.specs.BlockView.{block_of};
ghost use Rattle.stm_program.specs.Syntax as tree;
ghost use Rattle.stm_program_json.specs.Writing.{items_after, written_statement, written_statements, written_block};

use crate::spell::arrays::{four_parts, one_part, three_parts, two_parts};
use crate::spell::expressions::{condition_value, expression_value};
use serde_json::Value;
use std::alloc::{AllocError, Global};
use stm_program::{Block, Cond, Expr, Stmt, StmtNode, Variable};

/// What a `set` is written as.
fn set_value(alloc: Global, variable: Variable, value: &Expr) -> Result<Value, AllocError>
    ensures { IfOk result (λ v. view v ≡ written_statement (tree.Set variable value.now)) }
{
    let value = expression_value(alloc, value)?;
    two_parts(alloc, "set", Value::from(variable.number()), value)
}

/// What a `put` is written as.
fn put_value(alloc: Global, key: &Expr, value: &Expr, lease: u64) -> Result<Value, AllocError>
    ensures { IfOk result (λ v. view v ≡ written_statement (tree.Put key.now value.now lease)) }
{
    let key = expression_value(alloc, key)?;
    let value = expression_value(alloc, value)?;
    three_parts(alloc, "put", key, value, Value::from(lease))
}

/// What an `if` is written as.
#[cycle(write_statements)]
fn choice_value(
    alloc: Global,
    condition: &Cond,
    yes: &Block,
    no: &Block,
) -> Result<Value, AllocError>
    ensures { IfOk result (λ v. view v ≡ written_statement (tree.If condition.now yes.now no.now)) }
{
    let condition = condition_value(alloc, condition)?;
    let yes = block_value(alloc, yes)?;
    let no = block_value(alloc, no)?;
    three_parts(alloc, "if", condition, yes, no)
}

/// What a `for` is written as.
#[cycle(write_statements)]
fn repetition_value(
    alloc: Global,
    variable: Variable,
    count: &Expr,
    limit: u64,
    body: &Block,
) -> Result<Value, AllocError>
    ensures { IfOk result (λ v. view v ≡ written_statement (tree.For variable count.now limit body.now)) }
{
    let count = expression_value(alloc, count)?;
    let body = block_value(alloc, body)?;
    let variable = Value::from(variable.number());
    four_parts(alloc, "for", variable, count, Value::from(limit), body)
}

/// What a statement is written as.
#[cycle(write_statements)]
fn statement_value(alloc: Global, statement: &Stmt) -> Result<Value, AllocError>
    ensures { IfOk result (λ v. view v ≡ written_statement statement.now) }
{
    match &statement.node {
        StmtNode::Set(variable, value) => set_value(alloc, *variable, value),
        StmtNode::Put(key, value, lease) => put_value(alloc, key, value, *lease),
        StmtNode::Del(key) => one_part(alloc, "del", expression_value(alloc, key)?),
        StmtNode::If(condition, yes, no) => choice_value(alloc, condition, yes, no),
        StmtNode::For(variable, count, limit, body) => {
            repetition_value(alloc, *variable, count, *limit, body)
        }
        StmtNode::Emit(value) => one_part(alloc, "emit", expression_value(alloc, value)?),
        StmtNode::Abort(text) => one_part(alloc, "abort", expression_value(alloc, text)?),
    }
}

#[cycle(write_statements)]
fn block_value(alloc: Global, block: &Block) -> Result<Value, AllocError>
    ensures { IfOk result (λ v. view v ≡ written_block block.now) }
{
    let statements: &Vec<Stmt> = &block.statements;
    statements_value(alloc, statements)
}

/// The array of statements.
#[cycle(write_statements)]
pub(crate) fn statements_value(alloc: Global, statements: &[Stmt]) -> Result<Value, AllocError>
    ensures { IfOk result (λ v. view v ≡ written_block (block_of statements.now)) }
{
    statements_after(alloc, Vec::new(alloc), statements)
}

/// The array of these values, and of statements after them.
#[cycle(write_statements)]
pub(crate) fn statements_after(
    alloc: Global,
    before: Vec<Value>,
    statements: &[Stmt],
) -> Result<Value, AllocError>
    ensures { IfOk result (λ v. view v ≡ array (items_after (map view before.items) (written_statements (block_of statements.now)))) }
{
    let mut values = before;
    for statement in statements {
        let value = statement_value(alloc, statement)?;
        values.push(value)?;
    }
    Ok(Value::Array(values))
}
