//! What programs write.
ghost use Rattle.std.specs.Prelude.{◌≡◌, ◌++◌, ◌∷◌, [], IfOk, OnOk};
ghost use Rattle.stm_program.specs.BlockView.{block_of};
ghost use Rattle.stm_named_keys.specs.Named.{named};
ghost use Rattle.stm_named_keys.specs.Written.{written, written_in_block, written_in_statement};

use crate::names::{Name, named};
use std::alloc::{AllocError, Global};
use stm_history::Sequence;
use stm_program::{Block, Expr, Program, Stmt, StmtNode};

/// That a key is put or deleted.
#[derive(Debug, Drop)]
pub struct Written {
    /// The key, as the spelling of the program says it.
    pub key: Name,
    /// The lease on which it is put, 0 for none.
    pub lease: u64,
}

/// Adds a key that is written.
fn add_key(
    alloc: Global,
    all: &mut Sequence<Written>,
    key: &Expr,
    lease: u64,
) -> Result<(), AllocError>
    ensures { OnOk result (all.new ≡ all.old ++ (record { key = named key.now; lease = lease }) ∷ []) }
{
    let key = named(alloc, key)?;
    all.push(Written { key, lease })
}

/// Adds what a statement writes.
#[cycle(statements)]
fn add_statement(
    alloc: Global,
    all: &mut Sequence<Written>,
    statement: &Stmt,
) -> Result<(), AllocError>
    ensures { OnOk result (all.new ≡ all.old ++ written_in_statement statement.now) }
{
    match &statement.node {
        StmtNode::Put(key, _, lease) => add_key(alloc, all, key, *lease),
        StmtNode::Del(key) => add_key(alloc, all, key, 0),
        StmtNode::If(_, yes, no) => {
            add_block(alloc, all, yes)?;
            add_block(alloc, all, no)
        }
        StmtNode::For(_, _, _, body) => add_block(alloc, all, body),
        StmtNode::Set(_, _) | StmtNode::Emit(_) | StmtNode::Abort(_) => Ok(()),
    }
}

/// Adds what a block writes.
#[cycle(statements)]
fn add_block(alloc: Global, all: &mut Sequence<Written>, block: &Block) -> Result<(), AllocError>
    ensures { OnOk result (all.new ≡ all.old ++ written_in_block block.now) }
{
    let statements: &Vec<Stmt> = &block.statements;
    add_statements(alloc, all, statements.as_slice())
}

/// Adds what statements write.
#[cycle(statements)]
fn add_statements(
    alloc: Global,
    all: &mut Sequence<Written>,
    statements: &[Stmt],
) -> Result<(), AllocError>
    ensures { OnOk result (all.new ≡ all.old ++ written_in_block (block_of statements.now)) }
{
    match statements {
        [] => Ok(()),
        [first, rest @ ..] => {
            add_statement(alloc, all, first)?;
            add_statements(alloc, all, rest)
        }
    }
}

/// The keys that a program puts or deletes, as far as its spelling says them, each with its lease, in the order in which they are written, whether a run
/// comes to them or not. It fails only when out of memory.
pub fn keys_written(alloc: Global, program: &Program) -> Result<Sequence<Written>, AllocError>
    ensures { IfOk result (λ all. all ≡ written program.now) }
{
    let mut all = Sequence::new(alloc);
    add_statements(alloc, &mut all, program.statements())?;
    Ok(all)
}
