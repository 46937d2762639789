//! The laws of queues. Each function does nothing: its contract is the law.
ghost use Rattle.stm_world_laws.specs.Queues.{QueuesKeepTheirItems};
ghost use Rattle.stm_world_laws.specs.Readers.{ItemsAreRead};
ghost use Rattle.stm_world_laws.specs.WrongEntries.{WrongDequeues};

/// Where a queue's keys are changed only by its enqueues and dequeues, at levels that compare, the items that were dequeued, in order, and then
/// those that are left are the ones that it held and then those that were enqueued, in order: none is lost, given twice, or given out of turn.
///
/// The queue's head and tail are absent or spelled in digits to begin with, and its items stand between them. Any other write of one of its
/// keys (at ReadCommitted, by another program, or another client's put or delete) can break this: the law asks that there is none.
#[tactic(auto, using(crate::proofs::QueueLemmas::queues_keep_their_items))]
pub fn queues_keep_their_items()
    ensures { QueuesKeepTheirItems }
{}

/// What `stm_recipes::queue_items` gives for a state is what the queue holds, where its head and its tail are absent or spelled in digits as
/// recipes spell them: it gives the items that the queue holds, and no others.
///
/// The reader takes other spellings of a number, too, such as `007` for a head, where a dequeue looks for the item under `007`.
#[tactic(auto, using(crate::proofs::Readers::items_are_read))]
pub fn items_are_read()
    ensures { ItemsAreRead }
{}

/// These wrong entries of queues are rejected: a dequeue of a queue that holds nothing; an item that is taken out of turn, so also one that
/// was taken before; and more items than the queue held and were added.
#[tactic(auto, using(crate::proofs::WrongEntries::wrong_dequeues))]
pub fn wrong_dequeues_are_none()
    ensures { WrongDequeues }
{}
