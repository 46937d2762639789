//! The law of the programs of runners. The function does nothing: its contract is the law.
ghost use Rattle.stm_serial_search.specs.Started.{StartedAreThose};

/// The programs that a scenario without steps starts, up to its last start, are those of its runners where its schedules begin, by their numbers.
#[tactic(auto, using(crate::proofs::Comparisons::started_are_those))]
pub fn started_are_those()
    ensures { StartedAreThose }
{}
