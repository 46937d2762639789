//! Statements and blocks.
ghost use Rattle.std.specs.Prelude.{◌≡◌, ◌++◌, ◌+◌, ◌≤◌, OnOk, string_bytes};
ghost use Rattle.stm_program.specs.BlockView.{block_of};
ghost use Rattle.stm_program.specs.Size.{statement_nodes, block_nodes};
ghost use Rattle.stm_program.specs.Syntax as tree;
ghost use Rattle.stm_program_source.specs.Texts.{lines, filled, braced};
ghost use Rattle.stm_program_source.specs.Statements.{is_choice, is_if, otherwise, shown_put, shown_set, shown_statement, shown_statements};

use crate::conditions::push_condition;
use crate::expressions::{push_call, push_expression, push_variable};
use crate::text::{push_last_number, push_next_line, push_number};
use std::alloc::{AllocError, Global};
use stm_program::{Block, Cond, Expr, Stmt, StmtNode, Variable};

/// Adds an assignment.
fn push_set(
    alloc: Global,
    out: &mut String,
    variable: Variable,
    value: &Expr,
) -> Result<(), AllocError>
    ensures { OnOk result (string_bytes out.new ≡ string_bytes out.old ++ shown_set variable value.now) }
{
    push_variable(out, variable)?;
    out.push_str(" = ")?;
    push_expression(alloc, out, value)
}

/// Adds a put.
fn push_put(
    alloc: Global,
    out: &mut String,
    key: &Expr,
    value: &Expr,
    lease: u64,
) -> Result<(), AllocError>
    ensures { OnOk result (string_bytes out.new ≡ string_bytes out.old ++ shown_put key.now value.now lease) }
{
    out.push_str("put(")?;
    push_expression(alloc, out, key)?;
    out.push_str(", ")?;
    push_expression(alloc, out, value)?;
    push_last_number(out, lease)?;
    out.push(')')
}

/// The statements of a block.
fn statements_of(block: &Block) -> &[Stmt]
    ensures { block_of result.now ≡ block.now }
{
    let statements: &Vec<Stmt> = &block.statements;
    statements.as_slice()
}

fn is_if(statement: &Stmt) -> bool
    ensures { result ≡ is_if statement.now }
{
    match &statement.node {
        StmtNode::If(_, _, _) => true,
        StmtNode::Set(_, _)
        | StmtNode::Put(_, _, _)
        | StmtNode::Del(_)
        | StmtNode::For(_, _, _, _)
        | StmtNode::Emit(_)
        | StmtNode::Abort(_) => false,
    }
}

/// Whether a block is exactly one `if`.
fn is_choice(statements: &[Stmt]) -> bool
    ensures { result ≡ is_choice (block_of statements.now) }
{
    match statements {
        [] => false,
        [first, rest @ ..] => is_if(first) && rest.is_empty(),
    }
}

/// Adds what follows the first block of an `if`.
#[cycle(push_statements)]
fn push_otherwise(
    alloc: Global,
    out: &mut String,
    blocks: usize,
    statements: &[Stmt],
) -> Result<(), AllocError>
    requires { blocks + 1 + block_nodes (block_of statements.now) ≤ usize.MAX }
    ensures { OnOk result (string_bytes out.new ≡ string_bytes out.old ++ otherwise blocks (block_of statements.now)
        (shown_statements blocks (block_of statements.now)) (shown_statements (blocks + 1) (block_of statements.now))) }
{
    let Some((first, _)) = statements.split_first() else {
        return Ok(());
    };
    out.push_str(" else ")?;
    if is_choice(statements) {
        return push_statement(alloc, out, blocks, first);
    }
    push_block(alloc, out, blocks, statements)
}

/// Adds an `if`.
#[cycle(push_statements)]
fn push_choice(
    alloc: Global,
    out: &mut String,
    blocks: usize,
    condition: &Cond,
    yes: &Block,
    no: &Block,
) -> Result<(), AllocError>
    requires { blocks + statement_nodes (tree.If condition.now yes.now no.now) ≤ usize.MAX }
    ensures { OnOk result (string_bytes out.new ≡ string_bytes out.old ++ shown_statement blocks (tree.If condition.now yes.now no.now)) }
{
    out.push_str("if ")?;
    push_condition(alloc, out, condition)?;
    out.push(' ')?;
    push_block(alloc, out, blocks, statements_of(yes))?;
    push_otherwise(alloc, out, blocks, statements_of(no))
}

/// Adds a `for`.
#[cycle(push_statements)]
fn push_repetition(
    alloc: Global,
    out: &mut String,
    blocks: usize,
    variable: Variable,
    count: &Expr,
    limit: u64,
    body: &Block,
) -> Result<(), AllocError>
    requires { blocks + statement_nodes (tree.For variable count.now limit body.now) ≤ usize.MAX }
    ensures { OnOk result (string_bytes out.new ≡ string_bytes out.old
        ++ shown_statement blocks (tree.For variable count.now limit body.now)) }
{
    out.push_str("for ")?;
    push_variable(out, variable)?;
    out.push_str(" in 0..")?;
    push_expression(alloc, out, count)?;
    out.push_str(" max ")?;
    push_number(out, limit)?;
    out.push(' ')?;
    push_block(alloc, out, blocks, statements_of(body))
}

/// Adds a statement.
#[cycle(push_statements)]
fn push_statement(
    alloc: Global,
    out: &mut String,
    blocks: usize,
    statement: &Stmt,
) -> Result<(), AllocError>
    requires { blocks + statement_nodes statement.now ≤ usize.MAX }
    ensures { OnOk result (string_bytes out.new ≡ string_bytes out.old ++ shown_statement blocks statement.now) }
{
    match &statement.node {
        StmtNode::Set(variable, value) => push_set(alloc, out, *variable, value),
        StmtNode::Put(key, value, lease) => push_put(alloc, out, key, value, *lease),
        StmtNode::Del(key) => push_call(alloc, out, "del", key),
        StmtNode::If(condition, yes, no) => push_choice(alloc, out, blocks, condition, yes, no),
        StmtNode::For(variable, count, limit, body) => {
            push_repetition(alloc, out, blocks, *variable, count, *limit, body)
        }
        StmtNode::Emit(value) => push_call(alloc, out, "emit", value),
        StmtNode::Abort(text) => push_call(alloc, out, "abort", text),
    }
}

/// Adds statements, each on a line of its own.
#[cycle(push_statements)]
pub(crate) fn push_lines(
    alloc: Global,
    out: &mut String,
    blocks: usize,
    statements: &[Stmt],
) -> Result<(), AllocError>
    requires { blocks + block_nodes (block_of statements.now) ≤ usize.MAX }
    ensures { OnOk result (string_bytes out.new ≡ string_bytes out.old ++ lines blocks (shown_statements blocks (block_of statements.now))) }
{
    for statement in statements {
        push_next_line(out, blocks)?;
        push_statement(alloc, out, blocks, statement)?;
    }
    Ok(())
}

/// Adds a block of some statements.
#[cycle(push_statements)]
fn push_filled(
    alloc: Global,
    out: &mut String,
    blocks: usize,
    statements: &[Stmt],
) -> Result<(), AllocError>
    requires { blocks + 1 + block_nodes (block_of statements.now) ≤ usize.MAX }
    ensures { OnOk result (string_bytes out.new ≡ string_bytes out.old ++ filled blocks (shown_statements (blocks + 1) (block_of statements.now))) }
{
    out.push('{')?;
    push_lines(alloc, out, blocks + 1, statements)?;
    push_next_line(out, blocks)?;
    out.push('}')
}

/// Adds a block of statements.
#[cycle(push_statements)]
pub(crate) fn push_block(
    alloc: Global,
    out: &mut String,
    blocks: usize,
    statements: &[Stmt],
) -> Result<(), AllocError>
    requires { blocks + 1 + block_nodes (block_of statements.now) ≤ usize.MAX }
    ensures { OnOk result (string_bytes out.new ≡ string_bytes out.old ++ braced blocks (shown_statements (blocks + 1) (block_of statements.now))) }
{
    match statements {
        [] => out.push_str("{}"),
        [_, ..] => push_filled(alloc, out, blocks, statements),
    }
}
