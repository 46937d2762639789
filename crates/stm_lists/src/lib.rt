//! Doubly linked lists by slab index.
//!
//! Every node of every list stands in one slab, with the indices of its neighbours and of its list.
//! So a node is found, moved and unlinked in constant time, and contracts see plain lists.
#![tactic(auto)]

mod clones;
mod ids;
mod linked;
mod links;

pub use ids::{ListId, NodeId};
pub use linked::Lists;
