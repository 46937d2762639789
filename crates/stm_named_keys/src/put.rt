//! The keys that programs put.
ghost use Rattle.std.specs.Prelude.{◌≡◌, ◌++◌, ◌∷◌, [], IfOk, OnOk};
ghost use Rattle.stm_program.specs.BlockView.{block_of};
ghost use Rattle.stm_named_keys.specs.Named.{named, put, put_in_block, put_in_statement};

use crate::names::{Name, named};
use std::alloc::{AllocError, Global};
use stm_history::Sequence;
use stm_program::{Block, Expr, Program, Stmt, StmtNode};

/// Adds a key that is put.
fn add_key(alloc: Global, names: &mut Sequence<Name>, key: &Expr) -> Result<(), AllocError>
    ensures { OnOk result (names.new ≡ names.old ++ named key.now ∷ []) }
{
    let name = named(alloc, key)?;
    names.push(name)
}

/// Adds the keys that a statement puts.
#[cycle(statements)]
fn add_statement(
    alloc: Global,
    names: &mut Sequence<Name>,
    statement: &Stmt,
) -> Result<(), AllocError>
    ensures { OnOk result (names.new ≡ names.old ++ put_in_statement statement.now) }
{
    match &statement.node {
        StmtNode::Put(key, _, _) => add_key(alloc, names, key),
        StmtNode::If(_, yes, no) => {
            add_block(alloc, names, yes)?;
            add_block(alloc, names, no)
        }
        StmtNode::For(_, _, _, body) => add_block(alloc, names, body),
        StmtNode::Set(_, _) | StmtNode::Del(_) | StmtNode::Emit(_) | StmtNode::Abort(_) => Ok(()),
    }
}

/// Adds the keys that a block puts.
#[cycle(statements)]
fn add_block(alloc: Global, names: &mut Sequence<Name>, block: &Block) -> Result<(), AllocError>
    ensures { OnOk result (names.new ≡ names.old ++ put_in_block block.now) }
{
    let statements: &Vec<Stmt> = &block.statements;
    add_statements(alloc, names, statements.as_slice())
}

/// Adds the keys that statements put.
#[cycle(statements)]
fn add_statements(
    alloc: Global,
    names: &mut Sequence<Name>,
    statements: &[Stmt],
) -> Result<(), AllocError>
    ensures { OnOk result (names.new ≡ names.old ++ put_in_block (block_of statements.now)) }
{
    match statements {
        [] => Ok(()),
        [first, rest @ ..] => {
            add_statement(alloc, names, first)?;
            add_statements(alloc, names, rest)
        }
    }
}

/// The keys that a program puts, as far as its spelling says them, in the order in which they are written, whether a run comes to them or not. It fails
/// only when out of memory.
pub fn keys_put(alloc: Global, program: &Program) -> Result<Sequence<Name>, AllocError>
    ensures { IfOk result (λ names. names ≡ put program.now) }
{
    let mut names = Sequence::new(alloc);
    add_statements(alloc, &mut names, program.statements())?;
    Ok(names)
}
