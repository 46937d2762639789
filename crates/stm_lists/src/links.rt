//! Nodes and list heads, and the changes of one link each.
ghost use Rattle.std.specs.Prelude.{◌≡◌, ℕ, ◌+◌, ◌-◌, ◌<◌, ◌^◌, Option, Some, None, List, [], ◌∷◌, ◌++◌, option_map};
ghost use Rattle.slab.specs.Slab.{ContainsKey, HasRoomFor, Updates, get, slab_len};
ghost use Rattle.stm_lists.specs.Lists.{Place};
ghost use Rattle.stm_lists.specs.Links.{IsThere, changed, next_set, first_set, previous_set, last_set};
ghost use Rattle.stm_lists.specs.Chain.{IsSound, IsPlaceOf, Shows, shown};
ghost use Rattle.stm_lists.specs.declared.links.Head.{Head};

use crate::ids::{ListId, NodeId};
use slab::Slab;
use std::alloc::AllocError;

/// The nodes of all lists.
type Nodes<T> = Slab<Node<T>>;

/// The ends of all lists, by number.
type Heads = Slab<Head>;

/// The index of a neighbour's slot, nothing where there is none.
type Link = Option<usize>;

/// One node: the list that it stands on, its neighbours there and its value.
#[derive(Drop)]
pub(crate) struct Node<T> {
    pub list: ListId,
    pub previous: Link,
    pub next: Link,
    pub value: T,
}

impl<T: Clone> Clone for Node<T> {
    ghost use Rattle.stm_lists.specs.NodeClone.{IsNodeClone};

    ghost is_clone = { IsNodeClone T.is_clone };

    fn clone(&self) -> Result<Node<T>, AllocError> {
        let value = self.value.clone()?;
        Ok(Node {
            list: self.list,
            previous: self.previous,
            next: self.next,
            value,
        })
    }
}

/// The ends of one list, and how many nodes it has.
#[derive(Clone, Copy)]
pub(crate) struct Head {
    pub first: Link,
    pub last: Link,
    pub len: usize,
}

/// Lets the node `at`, or the list's head where there is none, be followed by `to`.
fn set_next<T>(nodes: &mut Nodes<T>, heads: &mut Heads, list: ListId, at: Link, to: Link)
    requires { IsThere nodes.old heads.old list at }
    ensures nodes { nodes.new ≡ next_set nodes.old at to }
    ensures heads { heads.new ≡ first_set heads.old list at to }
{
    match at {
        Some(node) => nodes[node].next = to,
        None => heads[list.index()].first = to,
    }
}

/// Lets the node `at`, or the list's head where there is none, be preceded by `to`.
fn set_previous<T>(nodes: &mut Nodes<T>, heads: &mut Heads, list: ListId, at: Link, to: Link)
    requires { IsThere nodes.old heads.old list at }
    ensures nodes { nodes.new ≡ previous_set nodes.old at to }
    ensures heads { heads.new ≡ last_set heads.old list at to }
{
    match at {
        Some(node) => nodes[node].previous = to,
        None => heads[list.index()].last = to,
    }
}

/// Counts one node fewer.
fn shorten(heads: &mut Heads, list: ListId)
    requires there { ContainsKey heads.old list }
    requires filled { (h : Head) → get heads.old list ≡ Some h → 0 < h.len }
    ensures { heads.new ≡ changed heads.old list (λ h. record h { len = h.len - 1 }) }
{
    heads[list.index()].len -= 1;
}

/// Counts one more node, which is the last.
fn lengthen(heads: &mut Heads, list: ListId, last: NodeId)
    requires there { ContainsKey heads.old list }
    requires fits { (h : Head) → get heads.old list ≡ Some h → h.len + 1 < 2 ^ 64 }
    ensures { heads.new ≡ changed heads.old list (λ h. record h { last = Some last; len = h.len + 1 }) }
{
    let head = &mut heads[list.index()];
    head.last = Some(last.index());
    head.len += 1;
}

/// Takes a node off its list and out of the slab, which gives its index out next.
pub(crate) fn unlink<T>(nodes: &mut Nodes<T>, heads: &mut Heads, node: NodeId) -> T
    requires sound { IsSound nodes.old heads.old }
    requires there { ContainsKey nodes.old node }

    ensures sound { IsSound nodes.new heads.new }
    ensures value { (place : Place T) → IsPlaceOf nodes.old heads.old node place → result ≡ place.value }
    ensures shows { (place : Place T) → IsPlaceOf nodes.old heads.old node place
        → Shows nodes.old heads.old nodes.new heads.new place.list (place.before ++ place.after) }
    ensures gone { get nodes.new node ≡ None }

    ensures len { slab_len nodes.new + 1 ≡ slab_len nodes.old }
    ensures room { HasRoomFor nodes.new 1 }
    ensures next_key { nodes.new.vacant_key ≡ node }
    ensures capacity { nodes.new.capacity ≡ nodes.old.capacity }
{
    let Node {
        list,
        previous,
        next,
        value,
    } = nodes.remove(node.index());
    set_next(nodes, heads, list, previous, next);
    set_previous(nodes, heads, list, next, previous);
    shorten(heads, list);
    value
}

/// Puts a value on the back of a list, where the slab has room for it.
pub(crate) fn push<T>(nodes: &mut Nodes<T>, heads: &mut Heads, list: ListId, value: T) -> NodeId
    requires sound { IsSound nodes.old heads.old }
    requires there { ContainsKey heads.old list }
    requires room { HasRoomFor nodes.old 1 }

    ensures sound { IsSound nodes.new heads.new }
    ensures node { result ≡ nodes.old.vacant_key }
    ensures vacant { get nodes.old result ≡ None }
    ensures shows { (entries : List (ℕ × T)) → shown nodes.old heads.old list ≡ Some entries
        → Shows nodes.old heads.old nodes.new heads.new list (entries ++ (result, value) ∷ []) }

    ensures len { slab_len nodes.new ≡ slab_len nodes.old + 1 }
    ensures capacity { nodes.new.capacity ≡ nodes.old.capacity }
{
    let head = heads[list.index()];
    let last = head.last;
    let node = NodeId::at(nodes.insert_reserved(Node {
        list,
        previous: last,
        next: None,
        value,
    }));
    prove!(head.len < nodes.len());
    set_next(nodes, heads, list, last, Some(node.index()));
    lengthen(heads, list, node);
    node
}
