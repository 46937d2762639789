//! Where a machine stands.
use crate::parts::{CondPart, ExprPart};
use stm_history::Text;
use stm_steps::{End, Value};

/// What a part of a program gives.
#[derive(Drop)]
pub enum Item {
    /// An expression gives a value.
    Value(Value),
    /// A condition gives whether it holds.
    Truth(bool),
    /// A statement, a block and a loop give nothing.
    Nothing,
}

/// Where a machine stands.
#[derive(Drop)]
pub enum Focus {
    /// At the start of an expression.
    Evaluate(ExprPart),
    /// At the start of a condition.
    Test(CondPart),
    /// At a `get` of a key.
    Get(Text),
    /// At a `rev` of a key.
    Rev(Text),
    /// After a part that gave this.
    Give(Item),
    /// At the end of the run.
    Ended(End),
}
