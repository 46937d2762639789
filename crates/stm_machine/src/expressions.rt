//! The moves of expressions.
ghost use Rattle.std.specs.Prelude.{◌≡◌, ◌≤◌, IfOk, OnErr};
ghost use Rattle.stm_steps.specs.Values.{key_in};
ghost use Rattle.stm_machine.specs.Moves.{waits, at_get, at_rev, begin_expression, take_operand, IsMade};

use crate::focus::{Focus, Item};
use crate::frame::{Frame, OperandFrame};
use crate::moves::{at_fault, at_value};
use crate::parts::ExprPart;
use crate::stack::Stack;
use std::alloc::{AllocError, Global};
use std::sync::Arc;
use stm_program::{Expr, ExprNode};
use stm_steps::{Session, Value, combine, join, number_of, spell, wanted_key};

/// An expression waits for the value of its part, at whose start the machine stands then. There is room for it to wait.
#[inline(always)]
fn waits_for(stack: &mut Stack, frame: OperandFrame, part: &Arc<Expr>) -> Result<Focus, AllocError>
    requires { 1 ≤ stack.old.room }
    ensures ok { IfOk result (λ focus. IsMade (waits (Frame.Operand frame) (Focus.Evaluate part.now.value)) stack.old.frames focus stack.new.frames) }
    ensures err { OnErr result (stack.new ≡ stack.old) }
{
    let part = ExprPart::of(part)?;
    stack.push(Frame::Operand(frame));
    Ok(Focus::Evaluate(part))
}

/// An expression waits for the value of its other part.
fn waits_for_other(
    stack: &mut Stack,
    frame: OperandFrame,
    part: &ExprPart,
) -> Result<Focus, AllocError>
    requires { 1 ≤ stack.old.room }
    ensures ok { IfOk result (λ focus. IsMade (waits (Frame.Operand frame) (Focus.Evaluate part.now)) stack.old.frames focus stack.new.frames) }
    ensures err { OnErr result (stack.new ≡ stack.old) }
{
    let part = part.again()?;
    stack.push(Frame::Operand(frame));
    Ok(Focus::Evaluate(part))
}

/// After an expression that gave a value.
fn gives(value: Value) -> Focus
    ensures { result ≡ Focus.Give (Item.Value value) }
{
    Focus::Give(Item::Value(value))
}

/// Makes the move at the start of an expression. There is room for one part to wait.
#[tactic(auto, unfolding(crate::specs::Moves::begin_expression))]
pub(crate) fn begin_expression(
    stack: &mut Stack,
    session: &Session,
    expression: &Expr,
) -> Result<Focus, AllocError>
    requires { 1 ≤ stack.old.room }
    ensures ok { IfOk result (λ focus. IsMade (begin_expression expression.now session.now) stack.old.frames focus stack.new.frames) }
    ensures err { OnErr result (stack.new ≡ stack.old) }
{
    match &expression.node {
        ExprNode::Text(text) => Ok(gives(Value::Text(text.clone()?))),
        ExprNode::Number(number) => Ok(gives(Value::Number(*number))),
        ExprNode::Variable(variable) => Ok(gives(session.variable(*variable).clone()?)),
        ExprNode::Get(key) => waits_for(stack, OperandFrame::Get, key),
        ExprNode::Rev(key) => waits_for(stack, OperandFrame::Rev, key),
        ExprNode::Arithmetic(operator, left, right) => {
            let right = ExprPart::of(right)?;
            waits_for(stack, OperandFrame::ArithmeticLeft(*operator, right), left)
        }
        ExprNode::Cat(front, back) => {
            let back = ExprPart::of(back)?;
            waits_for(stack, OperandFrame::CatLeft(back), front)
        }
        ExprNode::TextOf(number) => waits_for(stack, OperandFrame::TextOf, number),
        ExprNode::NumOf(text) => waits_for(stack, OperandFrame::NumOf, text),
    }
}

/// At a `get` of a key, or at the end that the key's fault makes.
fn at_get(key: &Value) -> Result<Focus, AllocError>
    ensures { IfOk result (λ focus. focus ≡ at_get (key_in key.now)) }
{
    match wanted_key(key) {
        Ok(key) => Ok(Focus::Get(key.clone()?)),
        Err(fault) => Ok(at_fault(fault)),
    }
}

/// At a `rev` of a key, or at the end that the key's fault makes.
fn at_rev(key: &Value) -> Result<Focus, AllocError>
    ensures { IfOk result (λ focus. focus ≡ at_rev (key_in key.now)) }
{
    match wanted_key(key) {
        Ok(key) => Ok(Focus::Rev(key.clone()?)),
        Err(fault) => Ok(at_fault(fault)),
    }
}

/// Makes the move of an expression that gets the value of its part. There is room for one part to wait.
#[tactic(auto, unfolding(crate::specs::Moves::take_operand))]
pub(crate) fn take_operand(
    alloc: Global,
    stack: &mut Stack,
    frame: &OperandFrame,
    value: &Value,
) -> Result<Focus, AllocError>
    requires { 1 ≤ stack.old.room }
    ensures ok { IfOk result (λ focus. IsMade (take_operand frame.now value.now) stack.old.frames focus stack.new.frames) }
    ensures err { OnErr result (stack.new ≡ stack.old) }
{
    match frame {
        OperandFrame::Get => at_get(value),
        OperandFrame::Rev => at_rev(value),
        OperandFrame::ArithmeticLeft(operator, right) => {
            let left = value.clone()?;
            waits_for_other(stack, OperandFrame::ArithmeticRight(*operator, left), right)
        }
        OperandFrame::ArithmeticRight(operator, left) => {
            Ok(at_value(combine(*operator, left, value)))
        }
        OperandFrame::CatLeft(back) => {
            let front = value.clone()?;
            waits_for_other(stack, OperandFrame::CatRight(front), back)
        }
        OperandFrame::CatRight(front) => Ok(at_value(join(alloc, front, value)?)),
        OperandFrame::TextOf => Ok(at_value(spell(alloc, value)?)),
        OperandFrame::NumOf => Ok(at_value(number_of(value))),
    }
}
