//! Which lease falls due first, kept as a tournament.
ghost use Rattle.std.specs.Prelude.{◌≡◌, ◌≢◌, ℕ, ◌+◌, ◌*◌, ◌/◌, ◌<◌, ◌≤◌, None, IfOk, OnOk, OnErr, MatchOption, length};
ghost use Rattle.stm_leases.specs.Tournament.{IsPlayed, IsPlayedBut, Leads, first_of, slot_of, winner};

use std::alloc::{AllocError, Global};

/// When a lease falls due.
#[derive(Clone, Copy)]
pub(crate) struct DueAt {
    pub moment: u64,
    pub id: u64,
}

/// Slots, each of which is empty or holds when a lease falls due, and the first of them all.
///
/// The slots are the leaves of a binary tree, each inner node of which holds the earlier of its children: so
/// its root holds the first of all, and a slot is written by playing the path above it again.
#[derive(Drop)]
pub(crate) struct Tournament {
    // The root stands at 1, the children of `k` at `2 * k` and `2 * k + 1`, and the slots from `slots` on.
    nodes: Vec<Option<DueAt>>,
    slots: usize,
}

// The earlier of two, and of two at one moment the one with the lesser id.
fn earlier(one: DueAt, other: DueAt) -> DueAt
    ensures { result ≡ first_of one other }
{
    if other.moment < one.moment || other.moment == one.moment && other.id < one.id {
        other
    } else {
        one
    }
}

// The earlier of two children.
fn winner(one: Option<DueAt>, other: Option<DueAt>) -> Option<DueAt>
    ensures { result ≡ winner one other }
{
    match one {
        None => other,
        Some(first) => match other {
            None => one,
            Some(second) => Some(earlier(first, second)),
        },
    }
}

impl Tournament {
    /// No slots. It takes no memory.
    pub fn new(alloc: Global) -> Tournament
        ensures played { IsPlayed result }
        ensures empty { (slot : ℕ) → slot_of result slot ≡ None }
        ensures slots { result.slots ≡ 0 }
    {
        Tournament {
            nodes: Vec::new(alloc),
            slots: 0,
        }
    }

    /// So many slots, all of them empty.
    fn with_slots(alloc: Global, slots: usize) -> Result<Tournament, AllocError>
        ensures played { IfOk result IsPlayed }
        ensures empty { IfOk result (λ t. (slot : ℕ) → slot_of t slot ≡ None) }
        ensures slots { IfOk result (λ t. t.slots ≡ slots) }
    {
        let count = slots.checked_mul(2).ok_or(AllocError)?;
        let mut nodes = Vec::new(alloc);
        nodes.resize(count, None)?;
        Ok(Tournament { nodes, slots })
    }

    /// Plays one inner node again.
    fn replay(&mut self, node: usize)
        requires played { IsPlayedBut self.old node }
        requires inner { (1 ≤ node) × (node < self.old.slots) }
        ensures played { IsPlayedBut self.new (node / 2) }
        ensures slots { self.new.slots ≡ self.old.slots }
        ensures kept { (slot : ℕ) → slot_of self.new slot ≡ slot_of self.old slot }
    {
        prove!(2 * node + 1 < self.nodes.len());
        self.nodes[node] = winner(self.nodes[2 * node], self.nodes[2 * node + 1]);
    }

    /// Writes a slot. It takes no memory, and as many steps as the tree is high.
    pub fn set(&mut self, slot: usize, entry: Option<DueAt>)
        requires played { IsPlayed self.old }
        requires within { slot < self.old.slots }
        ensures played { IsPlayed self.new }
        ensures slots { self.new.slots ≡ self.old.slots }
        ensures written { slot_of self.new slot ≡ entry }
        ensures kept { (other : ℕ) → other ≢ slot → slot_of self.new other ≡ slot_of self.old other }
    {
        prove!(self.slots + slot < self.nodes.len());
        let leaf = self.slots + slot;
        self.nodes[leaf] = entry;
        let mut node = leaf / 2;
        while node > 0 {
            self.replay(node);
            node /= 2;
        }
    }

    /// Makes sure that there is this slot. A failed allocation changes nothing.
    pub fn reserve(&mut self, alloc: Global, slot: usize) -> Result<(), AllocError>
        requires { IsPlayed self.old }
        ensures played { IsPlayed self.new }
        ensures ok { OnOk result (slot < self.new.slots) }
        ensures kept { (other : ℕ) → slot_of self.new other ≡ slot_of self.old other }
        ensures more { self.old.slots ≤ self.new.slots }
    {
        if slot < self.slots {
            return Ok(());
        }
        // Twice as many at least, so that the work of growing is spread over the slots.
        let doubled = slot.checked_mul(2).ok_or(AllocError)?;
        let slots = doubled.checked_add(1).ok_or(AllocError)?;
        let grown = self.copied(alloc, slots)?;
        *self = grown;
        Ok(())
    }

    /// The same slots, and empty ones after them.
    fn copied(&self, alloc: Global, slots: usize) -> Result<Tournament, AllocError>
        requires played { IsPlayed self.now }
        requires more { self.now.slots ≤ slots }
        ensures played { IfOk result IsPlayed }
        ensures slots { IfOk result (λ t. t.slots ≡ slots) }
        ensures kept { IfOk result (λ t. (other : ℕ) → slot_of t other ≡ slot_of self.now other) }
    {
        let mut grown = Tournament::with_slots(alloc, slots)?;
        for slot in 0..self.slots {
            prove!(self.slots + slot < self.nodes.len());
            grown.set(slot, self.nodes[self.slots + slot]);
        }
        Ok(grown)
    }

    /// The same slots. It takes one growth.
    pub fn copy(&self) -> Result<Tournament, AllocError>
        ensures nodes { IfOk result (λ copy. copy.nodes.items ≡ self.now.nodes.items) }
        ensures slots { IfOk result (λ copy. copy.slots ≡ self.now.slots) }
    {
        let nodes = self.nodes.clone()?;
        Ok(Tournament {
            nodes,
            slots: self.slots,
        })
    }

    /// The first of all slots, `None` where all of them are empty. It takes one step.
    pub fn first(&self) -> Option<DueAt>
        requires { IsPlayed self.now }
        ensures { MatchOption result ((slot : ℕ) → slot_of self.now slot ≡ None) (Leads self.now) }
    {
        if self.slots == 0 {
            return None;
        }
        self.nodes[1]
    }
}
