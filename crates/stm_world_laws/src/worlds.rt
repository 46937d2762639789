//! The laws of recipes over whole worlds.
ghost use Rattle.stm_world_laws.specs.Worlds.{RecipesInWorlds};

/// In a world whose store opened empty, over every list of events: what accounts have in all, an absent one counting as 0, is what was
/// deposited, and from any point on where they have numbers it grows by the deposits that follow; the items that were taken from a queue,
/// and then those that it holds, are those that were added, in order; and between two reservations of a slot it is freed.
///
/// Each holds under the conditions of its own law, on the entries of that world.
#[tactic(auto, using(crate::proofs::WorldLemmas::recipes_in_worlds))]
pub fn recipes_keep_their_laws()
    ensures { RecipesInWorlds }
{}
