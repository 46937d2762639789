//! The ranges of ids and times to live.

use stm_history::HIGHEST_NUMBER;

/// The highest id of a lease. Ids begin with 1.
pub const HIGHEST_ID: u64 = HIGHEST_NUMBER;

/// The longest time to live, in seconds. The shortest is 1.
pub const HIGHEST_TTL: u64 = 9000000000;
