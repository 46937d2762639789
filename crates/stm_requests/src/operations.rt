//! Operations of a transaction. Each call fails only where an allocation failed.
ghost use Rattle.std.specs.Prelude.{◌≡◌, IfOk};
ghost use Rattle.stm_outcome.specs.declared.txn.Op.TheVariants.{Get, Put, Del};

use std::alloc::{AllocError, Global};
use stm_history::Text;
use stm_outcome::Op;

/// A read of a key as it is now.
pub fn get(alloc: Global, key: &str) -> Result<Op, AllocError>
    ensures { IfOk result (λ op. op ≡ Get key.now 0) }
{
    get_at(alloc, key, 0)
}

/// A read of a key as it was at a revision, 0 for the current one.
pub fn get_at(alloc: Global, key: &str, rev: u64) -> Result<Op, AllocError>
    ensures { IfOk result (λ op. op ≡ Get key.now rev) }
{
    let key = Text::copy_of(alloc, key)?;
    Ok(Op::Get { key, rev })
}

/// A put of a value under a key, on a lease, 0 for none.
pub fn put(alloc: Global, key: &str, value: &str, lease: u64) -> Result<Op, AllocError>
    ensures { IfOk result (λ op. op ≡ Put key.now value.now lease) }
{
    let key = Text::copy_of(alloc, key)?;
    let value = Text::copy_of(alloc, value)?;
    Ok(Op::Put { key, value, lease })
}

/// A deletion of a key.
pub fn del(alloc: Global, key: &str) -> Result<Op, AllocError>
    ensures { IfOk result (λ op. op ≡ Del key.now) }
{
    let key = Text::copy_of(alloc, key)?;
    Ok(Op::Del { key })
}
