//! Marks: statements that say where in a source the statements behind them begin.
//!
//! No program has one, since the lease of a mark is higher than any that a program may have. `specs/Marks.antt` says what a mark is, and which mark
//! says where a node of a program begins.
#![tactic(auto)]

mod finding;
mod marks;

pub use finding::place_of;
pub use marks::{FIRST_MARK, mark};
pub use stm_program::{Block, Stmt};
