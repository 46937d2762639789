//! The lists on which watchers stand.
ghost use Rattle.std.specs.Prelude.{◌≡◌, ◌++◌, [], ◌∷◌, List, Option, Some, None, IfOk, OnOk, IsSome, slice_set, slice_index_or};
ghost use Rattle.stm_lists.specs.Lists.{HasList};
ghost use Rattle.stm_watch.specs.Kept.{Covers, HasRoom, list_for};
ghost use Rattle.stm_watch.specs.Calls.{IsNextReady};

use crate::copies::{copy_lists, copy_nodes};
use crate::watched::Watcher;
use std::alloc::{AllocError, Global};
use stm_lists::{ListId, Lists, NodeId};

/// Finds a watcher that is ready. The watchers are named by their places, 0, 1, 2, .. Each stands on one list: that of the ready ones, or that of the idle ones, so
/// that one that becomes ready needs no room. Whom a change may make ready is found by `Groups`.
#[derive(Drop)]
pub(crate) struct Index {
    pub lists: Lists<usize>,
    /// The list of the idle watchers.
    pub idle: ListId,
    /// The list of the watchers that are ready.
    pub ready: ListId,
    /// The node of the watcher at each place.
    pub nodes: Vec<Option<NodeId>>,
}

impl Index {
    ghost use Rattle.stm_watch.specs.declared.watched.Watcher.{Watcher as Kept};

    /// No watchers.
    pub(crate) fn new(alloc: Global) -> Result<Index, AllocError>
        ensures { IfOk result (λ index. Covers index []) }
    {
        let mut lists = Lists::new(alloc);
        let idle = lists.new_list()?;
        let ready = lists.new_list()?;
        Ok(Index {
            lists,
            idle,
            ready,
            nodes: Vec::new(alloc),
        })
    }

    /// The list on which a watcher stands.
    pub(crate) fn list_for(&self, watcher: &Watcher) -> ListId
        ensures { list_for self.now watcher.now ≡ Some result }
    {
        if watcher.first.is_some() {
            self.ready
        } else {
            self.idle
        }
    }

    /// Makes room for one more watcher. A failed allocation leaves none out.
    pub(crate) fn make_room(&mut self) -> Result<(), AllocError>
        ensures kept { (ws : List (Option Kept)) → Covers self.old ws → Covers self.new ws }
        ensures room { OnOk result (HasRoom self.new) }
    {
        self.lists.reserve(1)?;
        self.nodes.reserve(1)?;
        Ok(())
    }

    /// Adds a watcher, on its list.
    pub(crate) fn push(&mut self, list: ListId)
        requires room { HasRoom self.old }
        requires list { HasList self.old.lists list }
        ensures { (ws : List (Option Kept)) (w : Kept) → Covers self.old ws → list_for self.old w ≡ Some list
            → Covers self.new (ws ++ Some w ∷ []) }
    {
        let Ok(node) = self.lists.push_back(list, self.nodes.len()) else {
            unreachable!()
        };
        self.nodes.push_reserved(Some(node));
    }

    /// Takes a watcher out.
    pub(crate) fn remove(&mut self, index: usize)
        requires { (ws : List (Option Kept)) × Covers self.old ws × IsSome (slice_index_or ws index None) }
        ensures { (ws : List (Option Kept)) → Covers self.old ws → IsSome (slice_index_or ws index None) → Covers self.new (slice_set ws index None) }
    {
        let Some(node) = self.nodes[index] else {
            unreachable!()
        };
        self.lists.unlink(node);
        self.nodes[index] = None;
    }

    /// Moves a watcher to the back of a list, on which it is to stand from now on.
    pub(crate) fn move_to(&mut self, index: usize, list: ListId)
        requires there { (ws : List (Option Kept)) × Covers self.old ws × IsSome (slice_index_or ws index None) }
        requires list { HasList self.old.lists list }
        ensures { (ws : List (Option Kept)) (w : Kept) → Covers self.old ws → IsSome (slice_index_or ws index None) → list_for self.old w ≡ Some list
            → Covers self.new (slice_set ws index (Some w)) }
    {
        let Some(node) = self.nodes[index] else {
            unreachable!()
        };
        // The room of the node that leaves is that of the new one.
        self.lists.unlink(node);
        let Ok(moved) = self.lists.push_back(list, index) else {
            unreachable!()
        };
        self.nodes[index] = Some(moved);
    }

    /// How many watchers are ready.
    pub(crate) fn ready_count(&self) -> usize
        requires { (ws : List (Option Kept)) × Covers self.now ws }
    {
        self.lists.len(self.ready)
    }

    /// The number of a watcher that is ready, if there is one.
    pub(crate) fn next_ready(&self) -> Option<u64>
        requires { (ws : List (Option Kept)) × Covers self.now ws }
        ensures { (ws : List (Option Kept)) → Covers self.now ws → IsNextReady ws result }
    {
        match self.lists.front(self.ready) {
            None => None,
            Some(node) => Some(*self.lists.get(node) as u64 + 1),
        }
    }
}

impl Index {
    ghost use Rattle.stm_watch.specs.declared.watched.Watcher.{Watcher as Kept};

    /// A copy, which finds the same watchers.
    pub(crate) fn copy(&self) -> Result<Index, AllocError>
        ensures { IfOk result (λ copy. (ws : List (Option Kept)) → Covers self.now ws → Covers copy ws) }
    {
        let lists = copy_lists(&self.lists)?;
        let nodes = copy_nodes(&self.nodes)?;
        Ok(Index {
            lists,
            idle: self.idle,
            ready: self.ready,
            nodes,
        })
    }
}
