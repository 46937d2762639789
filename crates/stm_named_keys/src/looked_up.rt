//! The keys that programs look up.
ghost use Rattle.std.specs.Prelude.{◌≡◌, ◌++◌, ◌∷◌, [], map, string_bytes, IfOk, OnOk};
ghost use Rattle.stm_program.specs.BlockView.{block_of};
ghost use Rattle.stm_named_keys.specs.Named.{in_block, in_condition, in_expression, in_statement, looked_up, named, whole};

use crate::names::{Name, named, whole};
use std::alloc::{AllocError, Global};
use stm_history::Sequence;
use stm_program::{Block, Cond, CondNode, Expr, ExprNode, Program, Stmt, StmtNode};

/// Adds a key that is looked up.
fn add_key(alloc: Global, names: &mut Sequence<Name>, key: &Expr) -> Result<(), AllocError>
    ensures { OnOk result (names.new ≡ names.old ++ named key.now ∷ []) }
{
    let name = named(alloc, key)?;
    names.push(name)
}

/// Adds the keys that an expression looks up.
#[cycle(expressions)]
fn add_expression(
    alloc: Global,
    names: &mut Sequence<Name>,
    expression: &Expr,
) -> Result<(), AllocError>
    ensures { OnOk result (names.new ≡ names.old ++ in_expression expression.now) }
{
    match &expression.node {
        ExprNode::Text(_) | ExprNode::Number(_) | ExprNode::Variable(_) => Ok(()),
        ExprNode::Get(key) | ExprNode::Rev(key) => {
            add_expression(alloc, names, key)?;
            add_key(alloc, names, key)
        }
        ExprNode::Arithmetic(_, left, right) | ExprNode::Cat(left, right) => {
            add_expression(alloc, names, left)?;
            add_expression(alloc, names, right)
        }
        ExprNode::TextOf(part) | ExprNode::NumOf(part) => add_expression(alloc, names, part),
    }
}

/// Adds the keys that a condition looks up.
#[cycle(conditions)]
fn add_condition(
    alloc: Global,
    names: &mut Sequence<Name>,
    condition: &Cond,
) -> Result<(), AllocError>
    ensures { OnOk result (names.new ≡ names.old ++ in_condition condition.now) }
{
    match &condition.node {
        CondNode::Equal(left, right) | CondNode::Less(left, right) => {
            add_expression(alloc, names, left)?;
            add_expression(alloc, names, right)
        }
        CondNode::Not(part) => add_condition(alloc, names, part),
        CondNode::And(left, right) | CondNode::Or(left, right) => {
            add_condition(alloc, names, left)?;
            add_condition(alloc, names, right)
        }
    }
}

/// Adds the keys that a statement looks up.
#[cycle(statements)]
fn add_statement(
    alloc: Global,
    names: &mut Sequence<Name>,
    statement: &Stmt,
) -> Result<(), AllocError>
    ensures { OnOk result (names.new ≡ names.old ++ in_statement statement.now) }
{
    match &statement.node {
        StmtNode::Set(_, part)
        | StmtNode::Del(part)
        | StmtNode::Emit(part)
        | StmtNode::Abort(part) => add_expression(alloc, names, part),
        StmtNode::Put(key, value, _) => {
            add_expression(alloc, names, key)?;
            add_expression(alloc, names, value)
        }
        StmtNode::If(condition, yes, no) => {
            add_condition(alloc, names, condition)?;
            add_block(alloc, names, yes)?;
            add_block(alloc, names, no)
        }
        StmtNode::For(_, count, _, body) => {
            add_expression(alloc, names, count)?;
            add_block(alloc, names, body)
        }
    }
}

/// Adds the keys that a block looks up.
#[cycle(statements)]
fn add_block(alloc: Global, names: &mut Sequence<Name>, block: &Block) -> Result<(), AllocError>
    ensures { OnOk result (names.new ≡ names.old ++ in_block block.now) }
{
    let statements: &Vec<Stmt> = &block.statements;
    add_statements(alloc, names, statements.as_slice())
}

/// Adds the keys that statements look up.
#[cycle(statements)]
fn add_statements(
    alloc: Global,
    names: &mut Sequence<Name>,
    statements: &[Stmt],
) -> Result<(), AllocError>
    ensures { OnOk result (names.new ≡ names.old ++ in_block (block_of statements.now)) }
{
    match statements {
        [] => Ok(()),
        [first, rest @ ..] => {
            add_statement(alloc, names, first)?;
            add_statements(alloc, names, rest)
        }
    }
}

/// Adds these keys.
fn add_listed(alloc: Global, names: &mut Sequence<Name>, keys: &[String]) -> Result<(), AllocError>
    ensures { OnOk result (names.new ≡ names.old ++ map whole (map string_bytes keys.now)) }
{
    for key in keys {
        let name = whole(alloc, key.as_str())?;
        names.push(name)?;
    }
    Ok(())
}

/// The keys that a program looks up, as far as its spelling says them: those of its list, and then those of its statements, in the order in which they
/// are written, whether a run comes to them or not. It fails only when out of memory.
pub fn keys_looked_up(alloc: Global, program: &Program) -> Result<Sequence<Name>, AllocError>
    ensures { IfOk result (λ names. names ≡ looked_up program.now) }
{
    let mut names = Sequence::new(alloc);
    add_listed(alloc, &mut names, program.prefetch())?;
    add_statements(alloc, &mut names, program.statements())?;
    Ok(names)
}
