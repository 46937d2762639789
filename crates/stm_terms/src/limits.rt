//! Limits of sources.
use stm_program::{MAX_DEPTH, MAX_NODES, MAX_VARIABLE};

/// How many brackets may be open at once.
pub const MOST_BRACKETS: usize = 127;

/// How many operators of one chain are kept: with one more than a program may be deep, it is too deep.
pub(crate) const MOST_JOINS: usize = MAX_DEPTH + 1;

/// How many look-ups are planned to be set in front: with the last one a variable too many is wanted.
pub(crate) const MOST_PLANS: usize = MAX_VARIABLE as usize + 2;

/// How many arguments of a use are kept: a definition has fewer parameters.
pub(crate) const MOST_ARGUMENTS: usize = MAX_VARIABLE as usize + 2;

/// How many nodes of a program are kept: with the last one it has too many.
pub const MOST_KEPT: usize = MAX_NODES + 1;
