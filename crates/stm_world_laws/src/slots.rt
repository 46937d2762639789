//! The laws of slots. Each function does nothing: its contract is the law.
ghost use Rattle.stm_world_laws.specs.Slots.{ReservationsTakeFreeSlots, SlotsAreFreedBetween};
ghost use Rattle.stm_world_laws.specs.Readers.{HoldersAreRead};
ghost use Rattle.stm_world_laws.specs.WrongEntries.{WrongReservations};

/// A reservation at a level that compares commits only where the slot is free, and then the slot is its holder's, on its lease.
pub fn reservations_take_free_slots()
    ensures { ReservationsTakeFreeSlots }
{}

/// Where a slot is changed only by its recipes, at levels that compare, and by leases that end, between two reservations that committed
/// stands a release that committed, or the end of a lease with which the slot was deleted.
///
/// Any other write of the slot (at ReadCommitted, by another program, or another client's put or delete) can break this: the law asks that
/// between the two there is none.
#[tactic(auto, using(crate::proofs::SlotLemmas::slots_are_freed_between))]
pub fn slots_are_freed_between()
    ensures { SlotsAreFreedBetween }
{}

/// Who `stm_recipes::held` names for a state holds the slot, on some lease; and the slot is held exactly where it names somebody.
#[tactic(auto, using(crate::proofs::Readers::holders_are_read))]
pub fn holders_are_read()
    ensures { HoldersAreRead }
{}

/// These wrong entries of slots are rejected: a reservation of a slot that is held; a second one, where nothing has changed the slot since the
/// first; and a release by another than the one who holds it.
#[tactic(auto, using(crate::proofs::WrongEntries::wrong_reservations))]
pub fn wrong_reservations_are_none()
    ensures { WrongReservations }
{}
