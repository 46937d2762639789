//! The laws. Each function does nothing: its contract is the law.
ghost use Rattle.stm_world_laws.specs.Reasons.{RepliesTellRevisions, CausesAreFirstChanges};

/// Over every list of events, from every world, the revisions that the replies tell are those of the world's store, before the first event and after
/// each. So the event that is named as having made a revision has made it: it is the one before which the store had not come to it, and after which it has.
#[tactic(auto, using(crate::proofs::Counting::replies_tell_revisions))]
pub fn replies_tell_revisions()
    ensures { RepliesTellRevisions }
{}

/// Each cause that is told of a key is the first change of it since the revision as of which it was seen, and the event that is named has made it, by the
/// store's revision before the first event and after each. Where the key has not changed since then, none is told.
pub fn causes_are_first_changes()
    ensures { CausesAreFirstChanges }
{}
