//! A transaction that is being built.
ghost use Rattle.std.specs.Prelude.{◌≡◌, ◌++◌, ◌∷◌, [], IfOk};
ghost use Rattle.stm_requests.specs.Requests.{empty_txn};

use std::alloc::{AllocError, Global};
use stm_outcome::{Compare, Op, ShortList, Txn};

/// A transaction that is being built. Each call adds one at the end, and fails only where an allocation failed.
#[derive(Debug, Drop)]
pub struct Request {
    /// The transaction so far.
    pub txn: Txn,
}

impl Request {
    /// A transaction that compares nothing and does nothing. It takes no memory.
    pub fn new(alloc: Global) -> Request
        ensures { result.txn ≡ empty_txn }
    {
        Request {
            txn: Txn {
                compares: ShortList::new(alloc),
                success: ShortList::new(alloc),
                failure: ShortList::new(alloc),
            },
        }
    }

    /// With a compare, which has to hold for the success list to run.
    pub fn when(self, compare: Compare) -> Result<Request, AllocError>
        ensures { IfOk result (λ built. built.txn ≡ record self.txn { compares = self.txn.compares ++ compare ∷ [] }) }
    {
        let mut built = self;
        built.txn.compares.push(compare)?;
        Ok(built)
    }

    /// With an operation of the success list, which runs where all compares hold.
    pub fn then(self, op: Op) -> Result<Request, AllocError>
        ensures { IfOk result (λ built. built.txn ≡ record self.txn { success = self.txn.success ++ op ∷ [] }) }
    {
        let mut built = self;
        built.txn.success.push(op)?;
        Ok(built)
    }

    /// With an operation of the failure list, which runs where a compare fails.
    pub fn otherwise(self, op: Op) -> Result<Request, AllocError>
        ensures { IfOk result (λ built. built.txn ≡ record self.txn { failure = self.txn.failure ++ op ∷ [] }) }
    {
        let mut built = self;
        built.txn.failure.push(op)?;
        Ok(built)
    }

    /// The transaction.
    pub fn into_txn(self) -> Txn
        ensures { result ≡ self.txn }
    {
        let Request { txn } = self;
        txn
    }
}
