//! The moves of a schedule.

/// One move of a schedule.
///
/// Moves are ordered: the steps of runners by the runners' numbers, and then the next event of the others.
#[derive(Clone, Copy, Debug, PartialEq, Eq)]
pub enum Move {
    /// The runner makes one step.
    Step { runner: u64 },
    /// The others bring their next event.
    Other,
}
