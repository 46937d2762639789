//! Transactions of a store, built in a line each: their compares, their operations, and the two lists.
//!
//! `Request::new(alloc).when(mod_rev(alloc, "a")?.equals(3))?.then(put(alloc, "a", "1", 0)?)?.into_txn()` puts `a` where its last put was at revision 3.
#![tactic(auto)]

mod compares;
mod operations;
mod request;

pub use compares::{
    KeyNumber, Number, absent, create_rev, lease, mod_rev, present, value_is, version,
};
pub use operations::{del, get, get_at, put};
pub use request::Request;
pub use stm_history::Text;
pub use stm_outcome::{Compare, Op, Txn};
