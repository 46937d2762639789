//! The longest text that is read.

/// The most bytes that a text to be read, a scenario or a report, may have.
pub const MOST_BYTES: usize = 16777216;
