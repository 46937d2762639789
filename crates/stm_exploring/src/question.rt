//! What is asked of a scenario without a rule.

/// What is asked of a scenario without a rule.
#[derive(Clone, Copy, Debug, PartialEq, Eq)]
pub enum Question {
    /// What whole schedules come to.
    Outcomes,
    /// The same, and of each outcome a schedule that comes to it: none that does is shorter.
    Witnesses,
    /// Whether each outcome is one that a serial order comes to.
    Serial,
    /// The same at each of the four levels.
    SerialLevels,
}
