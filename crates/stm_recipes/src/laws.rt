//! What each recipe does alone, over any look-up that knows every key, such as a state. Each law stands on a function without a
//! body.
ghost use Rattle.stm_recipes.specs.Alone.{TransferAlone, DepositAlone, ReserveAlone, ReleaseAlone, EnqueueAlone, DequeueAlone, PaysAnother, PaysItself};

/// A transfer puts the first account's number minus the amount, and then the second one's number plus the amount. Where the first
/// has less than the amount it aborts with `insufficient`, and where an account has no number, or the second one's sum is out of
/// range, it ends with that fault.
#[tactic(auto, using(crate::proofs::AccountRuns::transfer_alone))]
pub fn transfer_alone()
    ensures { TransferAlone }
{}

/// A deposit puts the account's number plus the amount, an absent account counting as 0.
#[tactic(auto, using(crate::proofs::AccountRuns::deposit_alone))]
pub fn deposit_alone()
    ensures { DepositAlone }
{}

/// A reservation puts the holder as the slot's value where the slot's modification revision is 0, and aborts with `held` elsewhere.
#[tactic(auto, using(crate::proofs::SlotRuns::reserve_alone))]
pub fn reserve_alone()
    ensures { ReserveAlone }
{}

/// A release deletes the slot where its value is the holder, and aborts with `not held` elsewhere.
#[tactic(auto, using(crate::proofs::SlotRuns::release_alone))]
pub fn release_alone()
    ensures { ReleaseAlone }
{}

/// An enqueue puts the item under the queue's name, `/` and the tail, and then the tail plus one, an absent tail counting as 0. Where
/// the tail is no number or can't be raised by one, or the item's key would be too long, it ends with that fault.
#[tactic(auto, using(crate::proofs::QueueRuns::enqueue_alone))]
pub fn enqueue_alone()
    ensures { EnqueueAlone }
{}

/// A dequeue emits and deletes the item under the queue's name, `/` and the head, and then puts the head plus one, an absent head
/// or tail counting as 0. Where head and tail are the same text it aborts with `empty`; where the head is no number or can't be raised
/// by one, or the item's key would be too long, it ends with that fault.
#[tactic(auto, using(crate::proofs::QueueRuns::dequeue_alone))]
pub fn dequeue_alone()
    ensures { DequeueAlone }
{}

/// A transfer between two accounts that have numbers, the first at least the amount, puts the first one's number minus the amount
/// and the second one's plus the amount, where this is in range.
#[tactic(auto, using(crate::proofs::Payments::pays_another))]
pub fn pays_another()
    ensures { PaysAnother }
{}

/// A transfer of an account to itself puts its number minus the amount, and then its number again, where it has at least the amount.
#[tactic(auto, using(crate::proofs::Payments::pays_itself))]
pub fn pays_itself()
    ensures { PaysItself }
{}
