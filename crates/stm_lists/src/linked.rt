//! The lists, and what callers do with them.
ghost use Rattle.std.specs.Prelude.{◌≡◌, ◌≢◌, ℕ, ◌+◌, ◌-◌, ◌<◌, ◌≤◌, ◌↔◌, List, [], ◌∷◌, ◌++◌, length, max, Some, None};
ghost use Rattle.std.specs.Prelude.{IsTrue, IsOk, OnOk, OnErr, IfOk, IfErr};
ghost use Rattle.stm_lists.specs.Lists.{Place, list_at, entries_at, first_node, last_node, HasList, HasNode, IsApart, StandsAt, Updates, MovesToBack};
ghost use Rattle.stm_lists.specs.Chain.{node_at};

use crate::clones::{clone_nodes, copy_heads};
use crate::ids::{ListId, NodeId};
use crate::links::{Head, Node, push, unlink};
use slab::Slab;
use std::alloc::{AllocError, Global};
use std::marker::Model;

/// Any number of doubly linked lists of values.
///
/// Contracts see each list as its nodes with their values, from front to back; no node stands
/// twice. Beside the lists they see the number `spare`: that many calls of `push_back` allocate nothing.
///
/// A list or a node is named by the id that was returned when it was made. A call that takes such an id requires
/// that the list or the node is there, which `has_list` and `has_node` test. Every call
/// takes constant time, and none but `reserve`, `new_list` and a `push_back` without room allocates.
pub struct Lists<T> {
    nodes: Slab<Node<T>>,
    heads: Slab<Head>,
    // How many pushes have their room reserved.
    spare: usize,
}

impl<T: Drop> Drop for Lists<T> {
    fn drop(self) {
        let Lists {
            nodes: _,
            heads: _,
            spare: _,
        } = self;
    }
}

impl<T> Model for Lists<T> {
    ghost use Rattle.stm_lists.specs.Lists.{Lists as View, lists_code};

    ghost Value = { View T };

    ghost coded = { lists_code T.code };

    ghost use Rattle.stm_lists.specs.Chain.{view_of, IsStored};

    ghost view = { λ s. view_of s.nodes s.heads s.spare };

    ghost invariant = { λ s. IsStored s.nodes s.heads s.spare };
}

/// The lists and their nodes keep their ids. The clone has no spare room.
impl<T: Clone + Drop> Clone for Lists<T> {
    ghost use Rattle.stm_lists.specs.Clones.{AreListClones};

    ghost is_clone = { AreListClones T.is_clone };

    fn clone(&self) -> Result<Lists<T>, AllocError> {
        let nodes = clone_nodes(&self.nodes)?;
        let heads = copy_heads(&self.heads)?;
        Ok(Lists {
            nodes,
            heads,
            spare: 0,
        })
    }
}

impl<T> Lists<T> {
    /// No lists. It allocates nothing.
    pub fn new(alloc: Global) -> Lists<T>
        ensures lists { result.lists ≡ [] }
        ensures spare { result.spare ≡ 0 }
    {
        Lists {
            nodes: Slab::new(alloc),
            heads: Slab::new(alloc),
            spare: 0,
        }
    }

    /// Makes sure of room for `additional` pushes. An allocation failure changes nothing.
    pub fn reserve(&mut self, additional: usize) -> Result<(), AllocError>
        ensures ok { OnOk result (self.new.spare ≡ max self.old.spare additional) }
        ensures lists { self.new.lists ≡ self.old.lists }
        ensures err { OnErr result (self.new ≡ self.old) }
        ensures succeeds { additional ≤ self.old.spare → IsOk result }
    {
        if additional > self.spare {
            self.nodes.reserve(additional)?;
            self.spare = additional;
        }
        Ok(())
    }

    /// Makes an empty list. An allocation failure changes nothing.
    pub fn new_list(&mut self) -> Result<ListId, AllocError>
        ensures fresh { IfOk result (λ list. list_at self.old list ≡ None) }
        ensures ok { IfOk result (λ list. Updates self.old self.new list (Some [])) }
        ensures spare { self.new.spare ≡ self.old.spare }
        ensures err { OnErr result (self.new ≡ self.old) }
    {
        let index = self.heads.insert(Head {
            first: None,
            last: None,
            len: 0,
        })?;
        Ok(ListId::at(index))
    }

    /// Adds a node with this value at the back of the list. Where there is no room and an allocation
    /// fails, it hands the value back and changes nothing, which cannot happen while `spare` is above 0.
    pub fn push_back(&mut self, list: ListId, value: T) -> Result<NodeId, T>
        requires { HasList self.old list }
        ensures ok { IfOk result (λ node. Updates self.old self.new list (Some (entries_at self.old list ++ (node, value) ∷ []))) }
        ensures fresh { IfOk result (λ node. ¬ HasNode self.old node) }
        ensures spare { OnOk result (self.new.spare ≡ self.old.spare - 1) }
        ensures succeeds { 0 < self.old.spare → IsOk result }
        ensures err { OnErr result (self.new ≡ self.old) }
        ensures handed_back { IfErr result (λ back. back ≡ value) }
    {
        if self.nodes.reserve(1).is_err() {
            return Err(value);
        }
        let node = push(&mut self.nodes, &mut self.heads, list, value);
        self.spare = self.spare.saturating_sub(1);
        Ok(node)
    }

    /// Moves a node to the back of a list, which may be its own.
    pub fn move_to(&mut self, node: NodeId, list: ListId)
        requires node { HasNode self.old node }
        requires list { HasList self.old list }
        ensures moved { (place : Place T) → StandsAt self.old node place → MovesToBack self.old self.new node place list }
        ensures spare { self.new.spare ≡ self.old.spare }
    {
        let value = unlink(&mut self.nodes, &mut self.heads, node);
        // The slab gives a freed index out next, so the node keeps its id.
        push(&mut self.nodes, &mut self.heads, list, value);
    }

    /// Takes a node off its list and returns its value. Its room is spare from then on.
    pub fn unlink(&mut self, node: NodeId) -> T
        requires { HasNode self.old node }
        ensures value { (place : Place T) → StandsAt self.old node place → result ≡ place.value }
        ensures unlinked { (place : Place T) → StandsAt self.old node place
            → Updates self.old self.new place.list (Some (place.before ++ place.after)) }
        ensures gone { ¬ HasNode self.new node }
        ensures spare { self.new.spare ≡ self.old.spare + 1 }
    {
        let value = unlink(&mut self.nodes, &mut self.heads, node);
        prove!(self.spare < self.nodes.capacity());
        self.spare += 1;
        value
    }

    /// Drops an empty list, as `len` tests.
    pub fn drop_list(&mut self, list: ListId)
        requires there { HasList self.old list }
        requires empty { length (entries_at self.old list) ≡ 0 }
        ensures dropped { Updates self.old self.new list None }
        ensures spare { self.new.spare ≡ self.old.spare }
    {
        self.heads.remove(list.index());
    }

    /// The node at the front of a list, `None` where the list is empty.
    pub fn front(&self, list: ListId) -> Option<NodeId>
        requires { HasList self.now list }
        ensures { result ≡ first_node (entries_at self.now list) }
    {
        NodeId::of_link(self.heads[list.index()].first)
    }

    // The record of a node.
    fn stored(&self, node: NodeId) -> &Node<T>
        requires { HasNode self.now node }
        ensures { (place : Place T) → StandsAt self.now node place → result.now ≡ node_at place }
    {
        &self.nodes[node.index()]
    }

    /// The node after this one on its list, `None` at the back.
    pub fn next(&self, node: NodeId) -> Option<NodeId>
        requires { HasNode self.now node }
        ensures { (place : Place T) → StandsAt self.now node place → result ≡ first_node place.after }
    {
        NodeId::of_link(self.stored(node).next)
    }

    /// The node before this one on its list, `None` at the front.
    pub fn prev(&self, node: NodeId) -> Option<NodeId>
        requires { HasNode self.now node }
        ensures { (place : Place T) → StandsAt self.now node place → result ≡ last_node place.before }
    {
        NodeId::of_link(self.stored(node).previous)
    }

    /// The list that a node stands on.
    pub fn owner(&self, node: NodeId) -> ListId
        requires { HasNode self.now node }
        ensures { (place : Place T) → StandsAt self.now node place → result ≡ place.list }
    {
        self.stored(node).list
    }

    /// The value of a node.
    pub fn get(&self, node: NodeId) -> &T
        requires { HasNode self.now node }
        ensures { (place : Place T) → StandsAt self.now node place → result.now ≡ place.value }
    {
        &self.stored(node).value
    }

    /// The number of nodes on a list.
    pub fn len(&self, list: ListId) -> usize
        requires { HasList self.now list }
        ensures { result ≡ length (entries_at self.now list) }
    {
        self.heads[list.index()].len
    }

    /// Whether there is such a list.
    pub fn has_list(&self, list: ListId) -> bool
        ensures { IsTrue result ↔ HasList self.now list }
    {
        self.heads.contains(list.index())
    }

    /// Whether there is such a node.
    pub fn has_node(&self, node: NodeId) -> bool
        ensures { IsTrue result ↔ HasNode self.now node }
    {
        self.nodes.contains(node.index())
    }

    /// The law that no node stands twice, neither on one list nor on two.
    pub fn stands_once(&self)
        ensures apart { (list : ℕ) → IsApart (entries_at self.now list) }
        ensures one_place { (node : ℕ) (one other : Place T) → StandsAt self.now node one → StandsAt self.now node other → one ≡ other }
    {
        let _nodes = &self.nodes;
    }
}
