//! Laws of worlds that nothing below needs: what a failed commit, an abort and a fault say, what watchers are notified of, which cause comes to
//! which event, and the wrong logs that the definitions reject; what makes the reasons of failed commits true (`reasons`); and what users of the
//! recipes may rely on over all that happens in a store (`accounts`, `queues`, `slots`, `worlds`), each law over entries that are legal at their
//! points, such as those that a run of a world appends. The headline is in `stm_world`.
#![tactic(auto)]

pub mod accounts;
pub mod laws;
pub mod queues;
pub mod reasons;
pub mod slots;
pub mod worlds;
