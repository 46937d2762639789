//! What a search came to.
use stm_history::Text;

/// What a search came to.
#[derive(Clone, Copy, Debug, PartialEq, Eq)]
pub enum SearchAnswer {
    /// The rule is kept after every schedule, or, without one, all whole schedules were gone through.
    Kept,
    /// The rule is not kept after some schedule.
    Broken,
    /// As many moves were made as may be, before that was decided.
    Open,
}

/// What a search came to, and what is printed of it.
#[derive(Debug, Drop)]
pub struct Printed {
    /// What it came to.
    pub verdict: SearchAnswer,
    /// The lines.
    pub text: Text,
}
