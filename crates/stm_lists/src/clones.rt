//! Clones of the nodes and of the heads.
ghost use Rattle.std.specs.Prelude.{◌≡◌, ◌≤◌, ℕ, IfOk};
ghost use Rattle.slab.specs.Slab.{IsSlotClone, get, slab_len};
ghost use Rattle.stm_lists.specs.NodeClone.{IsNodeClone};

use crate::links::{Head, Node};
use slab::Slab;
use std::alloc::AllocError;

/// Clones of these nodes, under the same indices.
pub(crate) fn clone_nodes<T: Clone + Drop>(
    nodes: &Slab<Node<T>>,
) -> Result<Slab<Node<T>>, AllocError>
    ensures clones { IfOk result (λ copies. (node : ℕ) → IsSlotClone (IsNodeClone T.is_clone) (get nodes.now node) (get copies node)) }
    ensures room { IfOk result (λ copies. slab_len copies ≤ copies.capacity) }
{
    let copies = nodes.clone()?;
    // (a clause of this call says that there is room for what a slab has)
    let _capacity = copies.capacity();
    Ok(copies)
}

/// A copy of the heads, under the same indices.
pub(crate) fn copy_heads(heads: &Slab<Head>) -> Result<Slab<Head>, AllocError>
    ensures { IfOk result (λ copies. copies.slots ≡ heads.now.slots) }
{
    let copies = heads.clone()?;
    Ok(copies)
}
