//! Programs of the transaction language: their syntax, their limits, and the writes of their runs.
#![tactic(auto)]

mod condition;
mod expression;
mod held;
mod latest;
pub mod laws;
mod level;
mod limits;
mod list;
mod operator;
mod program;
mod same;
mod statement;
mod variable;

pub use condition::{Cond, CondNode};
pub use expression::{Expr, ExprNode};
pub use latest::{last_write, latest_writes};
pub use level::Level;
pub use limits::{
    MAX_DEPTH, MAX_LEASE, MAX_NODES, MAX_PREFETCH, MAX_TEXT, MAX_TURNS, MAX_VARIABLE, fits,
};
pub use list::{is_listed, list_fits};
pub use operator::{OPERATORS, Operator};
pub use program::Program;
pub use statement::{Block, Stmt, StmtNode};
// A write of a program is the change that it asks for.
pub use stm_history::{Change as Write, Sequence, Text};
pub use variable::Variable;
