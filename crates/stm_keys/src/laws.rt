//! The law of events. The function does nothing: its contract is the law.
ghost use Rattle.stm_keys.specs.Laws.{EventsShow};

/// Each event of a revision shows its key at that revision: a put the state that the key has there, a
/// deletion that the key is absent there.
#[tactic(auto, using(crate::proofs::Showing::events_show))]
pub fn events_show()
    ensures { EventsShow }
{}
