//! A recipe with its arguments.

/// A recipe with its arguments.
#[derive(Clone, Copy, Debug, PartialEq, Eq)]
pub enum Recipe<'a> {
    /// An amount moves from one account to another.
    Transfer {
        /// The account that pays.
        from: &'a str,
        /// The account that is paid.
        to: &'a str,
        /// How much.
        amount: u32,
    },
    /// An amount is added to an account.
    Deposit {
        /// The account.
        account: &'a str,
        /// How much.
        amount: u32,
    },
    /// An item joins a queue.
    Enqueue {
        /// The queue's name.
        queue: &'a str,
        /// The item.
        item: &'a str,
    },
    /// The first item of a queue is taken.
    Dequeue {
        /// The queue's name.
        queue: &'a str,
    },
    /// A free slot is given to a holder.
    ReserveSlot {
        /// The slot's key.
        slot: &'a str,
        /// Who gets it.
        holder: &'a str,
        /// The lease that its key is attached to, 0 for none.
        lease: u64,
    },
    /// A slot is freed of its holder.
    ReleaseSlot {
        /// The slot's key.
        slot: &'a str,
        /// Who holds it.
        holder: &'a str,
    },
}
