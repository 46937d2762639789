//! The moves of conditions.
ghost use Rattle.std.specs.Prelude.{◌≡◌, ◌≤◌, IfOk, OnErr};
ghost use Rattle.stm_machine.specs.Moves.{nothing, waits, begin_condition, take_compared, take_truth, IsMade};

use crate::focus::{Focus, Item};
use crate::frame::{ComparisonFrame, Frame, NextFrame, TruthFrame};
use crate::moves::{at_truth, nothing};
use crate::parts::{CondPart, ExprPart, Remaining};
use crate::stack::Stack;
use std::alloc::AllocError;
use std::sync::Arc;
use stm_program::{Block, Cond, CondNode, Expr};
use stm_steps::{Value, are_equal, is_below};

/// A condition waits for a value.
fn waits_for_value(
    stack: &mut Stack,
    frame: ComparisonFrame,
    part: &Arc<Expr>,
) -> Result<Focus, AllocError>
    requires { 1 ≤ stack.old.room }
    ensures ok { IfOk result (λ focus. IsMade (waits (Frame.Comparison frame) (Focus.Evaluate part.now.value)) stack.old.frames focus stack.new.frames) }
    ensures err { OnErr result (stack.new ≡ stack.old) }
{
    let part = ExprPart::of(part)?;
    stack.push(Frame::Comparison(frame));
    Ok(Focus::Evaluate(part))
}

/// A condition waits for its other value.
fn waits_for_other(
    stack: &mut Stack,
    frame: ComparisonFrame,
    part: &ExprPart,
) -> Result<Focus, AllocError>
    requires { 1 ≤ stack.old.room }
    ensures ok { IfOk result (λ focus. IsMade (waits (Frame.Comparison frame) (Focus.Evaluate part.now)) stack.old.frames focus stack.new.frames) }
    ensures err { OnErr result (stack.new ≡ stack.old) }
{
    let part = part.again()?;
    stack.push(Frame::Comparison(frame));
    Ok(Focus::Evaluate(part))
}

/// A condition waits for a truth.
fn waits_for_truth(
    stack: &mut Stack,
    frame: TruthFrame,
    part: &Arc<Cond>,
) -> Result<Focus, AllocError>
    requires { 1 ≤ stack.old.room }
    ensures ok { IfOk result (λ focus. IsMade (waits (Frame.Truth frame) (Focus.Test part.now.value)) stack.old.frames focus stack.new.frames) }
    ensures err { OnErr result (stack.new ≡ stack.old) }
{
    let part = CondPart::of(part)?;
    stack.push(Frame::Truth(frame));
    Ok(Focus::Test(part))
}

/// Makes the move at the start of a condition. There is room for one part to wait.
#[tactic(auto, unfolding(crate::specs::Moves::begin_condition))]
pub(crate) fn begin_condition(stack: &mut Stack, condition: &Cond) -> Result<Focus, AllocError>
    requires { 1 ≤ stack.old.room }
    ensures ok { IfOk result (λ focus. IsMade (begin_condition condition.now) stack.old.frames focus stack.new.frames) }
    ensures err { OnErr result (stack.new ≡ stack.old) }
{
    match &condition.node {
        CondNode::Equal(left, right) => {
            let right = ExprPart::of(right)?;
            waits_for_value(stack, ComparisonFrame::EqualLeft(right), left)
        }
        CondNode::Less(left, right) => {
            let right = ExprPart::of(right)?;
            waits_for_value(stack, ComparisonFrame::LessLeft(right), left)
        }
        CondNode::Not(inner) => waits_for_truth(stack, TruthFrame::Not, inner),
        CondNode::And(left, right) => {
            let right = CondPart::of(right)?;
            waits_for_truth(stack, TruthFrame::And(right), left)
        }
        CondNode::Or(left, right) => {
            let right = CondPart::of(right)?;
            waits_for_truth(stack, TruthFrame::Or(right), left)
        }
    }
}

/// Makes the move of a condition that gets a value. There is room for one part to wait.
#[tactic(auto, unfolding(crate::specs::Moves::take_compared))]
pub(crate) fn take_compared(
    stack: &mut Stack,
    frame: &ComparisonFrame,
    value: &Value,
) -> Result<Focus, AllocError>
    requires { 1 ≤ stack.old.room }
    ensures ok { IfOk result (λ focus. IsMade (take_compared frame.now value.now) stack.old.frames focus stack.new.frames) }
    ensures err { OnErr result (stack.new ≡ stack.old) }
{
    match frame {
        ComparisonFrame::EqualLeft(right) => {
            let left = value.clone()?;
            waits_for_other(stack, ComparisonFrame::EqualRight(left), right)
        }
        ComparisonFrame::EqualRight(left) => Ok(at_truth(are_equal(left, value))),
        ComparisonFrame::LessLeft(right) => {
            let left = value.clone()?;
            waits_for_other(stack, ComparisonFrame::LessRight(left), right)
        }
        ComparisonFrame::LessRight(left) => Ok(at_truth(is_below(left, value))),
    }
}

/// After a condition that gave a truth.
fn gives(truth: bool) -> Focus
    ensures { result ≡ Focus.Give (Item.Truth truth) }
{
    Focus::Give(Item::Truth(truth))
}

/// A block waits for its turn, which comes at once.
fn enters(stack: &mut Stack, block: &Block) -> Result<Focus, AllocError>
    requires { 1 ≤ stack.old.room }
    ensures ok { IfOk result (λ focus. IsMade (waits (Frame.Next (NextFrame.Rest block.now)) nothing) stack.old.frames focus stack.new.frames) }
    ensures err { OnErr result (stack.new ≡ stack.old) }
{
    let block = Remaining::of(block)?;
    stack.push(Frame::Next(NextFrame::Rest(block)));
    Ok(nothing())
}

/// Makes the move of a condition or an `if` that gets a truth. There is room for one part to wait.
#[tactic(auto, unfolding(crate::specs::Moves::take_truth))]
pub(crate) fn take_truth(
    stack: &mut Stack,
    frame: &TruthFrame,
    truth: bool,
) -> Result<Focus, AllocError>
    requires { 1 ≤ stack.old.room }
    ensures ok { IfOk result (λ focus. IsMade (take_truth frame.now truth) stack.old.frames focus stack.new.frames) }
    ensures err { OnErr result (stack.new ≡ stack.old) }
{
    match frame {
        TruthFrame::Not => Ok(gives(!truth)),
        TruthFrame::And(right) => {
            if truth {
                Ok(Focus::Test(right.again()?))
            } else {
                Ok(gives(false))
            }
        }
        TruthFrame::Or(right) => {
            if truth {
                Ok(gives(true))
            } else {
                Ok(Focus::Test(right.again()?))
            }
        }
        TruthFrame::If(then_block, else_block) => {
            if truth {
                enters(stack, then_block)
            } else {
                enters(stack, else_block)
            }
        }
    }
}
