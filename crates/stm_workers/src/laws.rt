//! The laws of the ends of jobs. Each function does nothing: its contract is the law.
ghost use Rattle.stm_workers.specs.Ends.{CommitsAreApart};
ghost use Rattle.stm_workers.specs.Laws.{AttemptsAreCounted};
ghost use Rattle.stm_workers.specs.Stops.{StopsAreOfOneState};

/// Where all ends stand, each commit among them is an entry of its own.
pub fn commits_are_apart()
    ensures { CommitsAreApart }
{}

/// Of a job at a serializable level that aborted or came to a fault, there is a state of the hall's history since it was handed in on which its
/// program, run alone, ends so.
pub fn stops_are_of_one_state()
    ensures { StopsAreOfOneState }
{}

/// Of each job that was run at least one attempt was made, and at most as many as it may send commits; of one that gave up it was exactly that many.
pub fn attempts_are_counted()
    ensures { AttemptsAreCounted }
{}
