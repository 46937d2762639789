//! What is printed of jobs.

/// What is made of one run of jobs.
#[derive(Debug, Clone, Copy, PartialEq, Eq)]
pub(crate) enum Shown {
    /// Lines: how many jobs committed, the values of the keys, and the revision.
    Values,
    /// The same lines, with one for the end of each job.
    Ends,
    /// The front of the line of what the run came to.
    Outcome,
}

/// What is printed of jobs.
#[derive(Debug, Clone, Copy, PartialEq, Eq)]
pub enum Printing {
    /// Of one run how many jobs committed, the values of the keys, and the revision.
    Values,
    /// The same, with a line for the end of each job.
    Ends,
    /// What this many runs come to, each on a store of its own, and how often.
    Outcomes(u32),
}
