//! Making and reading marks.
ghost use Rattle.std.specs.Prelude.{◌≡◌, IfOk};
ghost use Rattle.stm_marks.specs.Marks as spec;

use std::alloc::{AllocError, Global};
use std::sync::Arc;
use stm_history::Text;
use stm_program::{Expr, ExprNode, MAX_LEASE, Stmt, StmtNode};

/// The lease of the mark of byte 0: one more than the highest of a program.
pub const FIRST_MARK: u64 = MAX_LEASE + 1;

/// The lease of the mark of a byte.
fn mark_lease(at: usize) -> u64
    ensures { result ≡ spec.mark_lease at }
{
    let at = at as u64;
    if at < FIRST_MARK {
        FIRST_MARK + at
    } else {
        FIRST_MARK
    }
}

/// The empty text.
fn empty_text(alloc: Global) -> Result<Expr, AllocError>
    ensures { IfOk result (λ e. e ≡ spec.empty_text) }
{
    let text = Text::copy_of(alloc, "")?;
    let node = ExprNode::Text(text);
    Ok(Expr { node })
}

/// The mark that stands before a statement that begins at a byte. It fails only when out of memory.
pub fn mark(alloc: Global, at: usize) -> Result<Stmt, AllocError>
    ensures { IfOk result (λ s. s ≡ spec.mark at) }
{
    let key = Arc::new(alloc, empty_text(alloc)?)?;
    let value = Arc::new(alloc, empty_text(alloc)?)?;
    Ok(Stmt {
        node: StmtNode::Put(key, value, mark_lease(at)),
    })
}

/// Where the statement behind a mark begins, if this is one.
pub(crate) fn marked(statement: &Stmt) -> Option<usize>
    ensures { result ≡ spec.marked statement.now }
{
    match &statement.node {
        StmtNode::Put(_, _, lease) if *lease >= FIRST_MARK => Some((*lease - FIRST_MARK) as usize),
        _ => None,
    }
}
