//! Worked examples of transactions as closures, and of transactions of a store that are built: each prints a line. What is expected comes from the
//! documentation of the Go package `clientv3/concurrency`, "STM", and of etcd's API reference, "Transaction".

mod busy_store;
mod closures;
mod requests;
mod worlds;

use anyhow::Result;
use std::alloc::Global;

/// Prints the line of each.
pub(crate) fn run(rt: &impl Print, alloc: Global) -> Result<()> {
    closures::in_a_hall(rt, alloc)?;
    closures::among_others(rt, alloc)?;
    requests::show_compares(rt, alloc)?;
    requests::show_branches(rt, alloc)?;
    worlds::in_a_world(rt, alloc)?;
    worlds::over_a_store(rt, alloc)
}
