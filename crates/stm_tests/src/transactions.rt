//! Transactions that the examples begin with.
ghost use Rattle.std.specs.Prelude.{IfOk};
ghost use Rattle.stm_journal.specs.Fetching.{OnlyReads};

use std::alloc::{AllocError, Global};
use stm_history::Text;
use stm_txn::{Op, ShortList, Txn};

/// A change of a key, in constants.
#[derive(Clone, Copy)]
pub(crate) enum Change {
    /// Puts the key as "1" on a lease.
    Put(&'static str, u64),
    Delete(&'static str),
}

fn empty_txn(alloc: Global) -> Txn {
    Txn {
        compares: ShortList::new(alloc),
        success: ShortList::new(alloc),
        failure: ShortList::new(alloc),
    }
}

fn op_of(alloc: Global, change: Change) -> Result<Op, AllocError> {
    match change {
        Change::Put(key, lease) => {
            let key = Text::copy_of(alloc, key)?;
            let value = Text::copy_of(alloc, "1")?;
            Ok(Op::Put { key, value, lease })
        }
        Change::Delete(key) => {
            let key = Text::copy_of(alloc, key)?;
            Ok(Op::Del { key })
        }
    }
}

fn add_changes(alloc: Global, txn: &mut Txn, changes: &[Change]) -> Result<(), AllocError> {
    for change in changes {
        txn.success.push(op_of(alloc, *change)?)?;
    }
    Ok(())
}

/// A transaction that makes these changes, in their order.
pub(crate) fn changes_of(alloc: Global, changes: &[Change]) -> Result<Txn, AllocError> {
    let mut txn = empty_txn(alloc);
    match add_changes(alloc, &mut txn, changes) {
        Ok(()) => Ok(txn),
        Err(error) => {
            drop(txn);
            Err(error)
        }
    }
}

/// A read of a key as it is now.
pub(crate) fn read_of(alloc: Global, key: &str) -> Result<Txn, AllocError>
    ensures { IfOk result OnlyReads }
{
    let key = Text::copy_of(alloc, key)?;
    let mut success = ShortList::new(alloc);
    success.push(Op::Get { key, rev: 0 })?;
    Ok(Txn {
        compares: ShortList::new(alloc),
        success,
        failure: ShortList::new(alloc),
    })
}
