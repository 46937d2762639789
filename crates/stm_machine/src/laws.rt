//! Laws of machines. Each stands on a function without a body.
ghost use Rattle.stm_machine.specs.Laws.{StartsAtTheProgram, StepsFinishAlike, NoStepStands, StandingAtAKeyWantsIt};
ghost use Rattle.stm_machine.specs.Laws.{StandingAtNoKeyHasRun, EndedMachinesHaveRun};

/// A machine at the start of a program finishes as the program's run does.
#[tactic(auto, using(crate::proofs::StepLemmas::starts))]
pub fn machines_start_at_the_program()
    ensures { StartsAtTheProgram }
{}

/// Each step keeps what finishing comes to, whatever is looked up later.
#[tactic(auto, using(crate::proofs::StepLemmas::steps_finish_alike))]
pub fn steps_finish_alike()
    ensures { StepsFinishAlike }
{}

/// A machine that makes no step stands at its run's end, or at a key that its look-up does not know.
#[tactic(auto, using(crate::proofs::StepLemmas::no_step_stands))]
pub fn no_step_stands()
    ensures { NoStepStands }
{}

/// A machine that stands at a key wants that key.
#[tactic(auto, using(crate::proofs::StepLemmas::standing_at_a_key_wants_it))]
pub fn standing_at_a_key_wants_it()
    ensures { StandingAtAKeyWantsIt }
{}

/// A machine that stands at no key has come to its run's end.
#[tactic(auto, using(crate::proofs::StepLemmas::standing_at_no_key_has_run))]
pub fn standing_at_no_key_has_run()
    ensures { StandingAtNoKeyHasRun }
{}

/// The run of a machine at its end is what finishing comes to.
#[tactic(auto, using(crate::proofs::StepLemmas::ended_machines_have_run))]
pub fn ended_machines_have_run()
    ensures { EndedMachinesHaveRun }
{}
