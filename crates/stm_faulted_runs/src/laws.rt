//! What sites and runs are. The functions do nothing: their contracts are the laws.
ghost use Rattle.stm_faulted_runs.specs.Laws.{RunsAreBegun};

pub use stm_sites::laws::sites_are_first;

/// In a log of right lines the run with a number, counted from 0 among those that its events begin, is that of the runner with the next number: its
/// program is the one with which that runner was begun.
#[tactic(auto, using(crate::proofs::BegunLemmas::runs_are_begun))]
pub fn runs_are_begun()
    ensures { RunsAreBegun }
{}
