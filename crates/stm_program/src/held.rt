//! Where the statements of a program are stored.
ghost use Rattle.std.specs.Prelude.{◌≡◌, IfOk};
ghost use Rattle.stm_program.specs.BlockView.{block_of};
ghost use Rattle.stm_program.specs.Held.{statements_held};

use crate::statement::{Block, Stmt};
use std::alloc::{AllocError, Global};
use std::sync::Arc;

/// The statements of a program.
#[derive(Debug, Drop)]
pub(crate) enum Held {
    /// Its own. A copy has copies of them.
    Own(Vec<Stmt>),
    /// Shared with its copies.
    Shared(Block),
}

/// The statements of a block.
fn slice_of(block: &Block) -> &[Stmt]
    ensures { block_of result.now ≡ block.now }
{
    let statements: &Vec<Stmt> = &block.statements;
    statements.as_slice()
}

/// A block of these statements.
fn block_from(alloc: Global, statements: Vec<Stmt>) -> Result<Block, AllocError>
    ensures { IfOk result (λ block. block ≡ block_of statements.items) }
{
    let statements = Arc::new(alloc, statements)?;
    Ok(Block { statements })
}

/// A copy of these statements.
fn copy_of(statements: &Vec<Stmt>) -> Result<Vec<Stmt>, AllocError>
    ensures { IfOk result (λ copy. block_of copy.items ≡ block_of statements.now.items) }
{
    let copy = statements.clone()?;
    Ok(copy)
}

/// A block of statements: the one that is shared, or one of copies.
pub(crate) fn block_held(alloc: Global, held: &Held) -> Result<Block, AllocError>
    ensures { IfOk result (λ block. block ≡ statements_held held.now) }
{
    match held {
        Held::Own(statements) => block_from(alloc, copy_of(statements)?),
        Held::Shared(block) => {
            let block = block.clone()?;
            Ok(block)
        }
    }
}

/// The statements in order.
pub(crate) fn slice_held(held: &Held) -> &[Stmt]
    ensures { block_of result.now ≡ statements_held held.now }
{
    match held {
        Held::Own(statements) => statements.as_slice(),
        Held::Shared(block) => slice_of(block),
    }
}

/// The same statements, shared from now on.
pub(crate) fn share(alloc: Global, held: Held) -> Result<Held, AllocError>
    ensures { IfOk result (λ shared. statements_held shared ≡ statements_held held) }
{
    match held {
        Held::Own(statements) => Ok(Held::Shared(block_from(alloc, statements)?)),
        Held::Shared(block) => Ok(Held::Shared(block)),
    }
}

/// A copy of statements, which are shared with it where they are shared.
pub(crate) fn copy_held(held: &Held) -> Result<Held, AllocError>
    ensures { IfOk result (λ copy. statements_held copy ≡ statements_held held.now) }
{
    match held {
        Held::Own(statements) => Ok(Held::Own(copy_of(statements)?)),
        Held::Shared(block) => {
            let block = block.clone()?;
            Ok(Held::Shared(block))
        }
    }
}
