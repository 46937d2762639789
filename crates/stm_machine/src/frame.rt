//! The parts of a program that wait.
use crate::parts::{CondPart, ExprPart, Remaining, Turns};
use stm_program::{Block, Operator, Variable};
use stm_steps::Value;

/// An expression that waits for the value of one of its parts.
#[derive(Drop)]
pub enum OperandFrame {
    /// A `get` of the value.
    Get,
    /// A `rev` of the value.
    Rev,
    /// The value is the left side; this is the right one.
    ArithmeticLeft(Operator, ExprPart),
    /// The value is the right side; this is what the left one gave.
    ArithmeticRight(Operator, Value),
    /// The value is the left text; this is the right one.
    CatLeft(ExprPart),
    /// The value is the right text; this is what the left one gave.
    CatRight(Value),
    /// The value is spelled as text.
    TextOf,
    /// The value is read as a number.
    NumOf,
}

/// A condition that waits for a value.
#[derive(Drop)]
pub enum ComparisonFrame {
    /// The value is the left side; this is the right one.
    EqualLeft(ExprPart),
    /// The value is the right side; this is what the left one gave.
    EqualRight(Value),
    /// The value is the left side; this is the right one.
    LessLeft(ExprPart),
    /// The value is the right side; this is what the left one gave.
    LessRight(Value),
}

/// A statement that waits for a value.
#[derive(Drop)]
pub enum ArgumentFrame {
    /// The variable becomes the value.
    Set(Variable),
    /// The value is the key; these are the expression of what is put, and the lease.
    PutKey(ExprPart, u64),
    /// The value is put; these are the key and the lease.
    PutValue(Value, u64),
    /// The value is the key to delete.
    Del,
    /// The value is the count of a loop; these are the loop's variable, its limit and its body.
    For(Variable, u64, Block),
    /// The value is emitted.
    Emit,
    /// The run ends with the value.
    Abort,
}

/// A condition or a statement that waits for a truth.
#[derive(Drop)]
pub enum TruthFrame {
    /// The opposite of the truth.
    Not,
    /// Where it holds, this condition decides.
    And(CondPart),
    /// Where it does not hold, this condition decides.
    Or(CondPart),
    /// The first block runs where it holds, and else the second.
    If(Block, Block),
}

/// A part that waits only for its turn.
#[derive(Drop)]
pub enum NextFrame {
    /// The statements that are left of a block.
    Rest(Remaining),
    /// The turns that are left of a loop, with its variable and its body.
    Loop(Variable, Block, Turns),
}

/// A part of a program that waits.
#[derive(Drop)]
pub enum Frame {
    /// An expression waits for a value.
    Operand(OperandFrame),
    /// A condition waits for a value.
    Comparison(ComparisonFrame),
    /// A statement waits for a value.
    Argument(ArgumentFrame),
    /// A condition or a statement waits for a truth.
    Truth(TruthFrame),
    /// A block or a loop waits for its turn.
    Next(NextFrame),
}
