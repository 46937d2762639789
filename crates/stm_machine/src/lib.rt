//! A run of a program that can be suspended: a machine with a stack of its own for the parts that wait.
//!
//! Where the run wants a key that its look-up does not know, the machine stands there, and goes on from there once
//! the look-up knows the key. So a program that reads many keys, one after another, is evaluated once.
#![tactic(auto)]

mod conditions;
mod direct;
mod expressions;
mod focus;
mod frame;
mod jumps;
pub mod laws;
mod machine;
mod moves;
mod parts;
mod stack;
mod statements;
mod steps;

pub use focus::{Focus, Item};
pub use frame::{ArgumentFrame, ComparisonFrame, Frame, NextFrame, OperandFrame, TruthFrame};
pub use machine::Machine;
pub use parts::{CondPart, ExprPart, Remaining, Turns};
pub use stm_history::Text;
pub use stm_program::Program;
pub use stm_steps::{Lookup, Run};
