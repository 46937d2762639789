//! How high the numbers of a store may be.

/// The highest revision of a store. No change is made above it.
pub const HIGHEST_REVISION: u64 = 9223372036854775806;

/// The highest number of 64 bits with a sign. No number that a user gives or gets is above it: a
/// revision, a version, a lease's id, a moment or a runner.
pub const HIGHEST_NUMBER: u64 = 9223372036854775807;
