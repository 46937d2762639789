//! The calls that are made of the store before the jobs are run.
use stm_txn::Txn;

/// A call of the store that changes its keys, its leases or its moment. Moments and times to live are in whole seconds.
#[derive(Debug, Drop)]
pub enum StoreCall {
    /// A transaction.
    Txn { txn: Txn },
    /// A grant of a lease of this id, for `ttl` seconds from the store's moment on.
    Grant { id: u64, ttl: u64 },
    /// A renewal of a lease at the store's moment.
    Keep { id: u64 },
    /// A revocation of a lease, with its keys.
    Revoke { id: u64 },
    /// The store's moment becomes this one, and what is due then expires.
    Advance { now: u64 },
}
