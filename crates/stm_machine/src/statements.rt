//! The moves of statements, blocks and loops.
ghost use Rattle.std.specs.Prelude.{◌≡◌, ◌≤◌, IfOk, OnOk, OnErr};
ghost use Rattle.stm_history.specs.declared.revisions.TheConstants.{HIGHEST_NUMBER};
ghost use Rattle.stm_steps.specs.Session.{with_output, with_variable};
ghost use Rattle.stm_steps.specs.Values.{text_in, turns_of};
ghost use Rattle.stm_machine.specs.Moves.{goes, nothing, waits, waits_in, at_abort, begin_statement, begin_block, moved, write_moved, begin_loop};
ghost use Rattle.stm_machine.specs.Moves.{take_argument, take_turn, take_nothing, IsMade};
ghost use Rattle.stm_machine.specs.State.{state_of};
ghost use Rattle.stm_machine.specs.Steps.{after_taking};

use crate::focus::Focus;
use crate::frame::{ArgumentFrame, Frame, NextFrame, TruthFrame};
use crate::moves::{at_fault, nothing};
use crate::parts::{CondPart, ExprPart, Remaining, Turns};
use crate::stack::Stack;
use std::alloc::AllocError;
use std::sync::Arc;
use stm_program::{Block, Expr, Stmt, StmtNode, Variable, Write};
use stm_steps::{End, Fault, Session, Value, deletion, put, turns, wanted_text};

/// A statement waits for a value, inside the statements after it. There is room for both.
#[inline(always)]
fn waits_for(
    stack: &mut Stack,
    frame: ArgumentFrame,
    part: &Arc<Expr>,
    rest: Remaining,
) -> Result<Focus, AllocError>
    requires { 2 ≤ stack.old.room }
    ensures ok { IfOk result (λ focus. IsMade (waits_in (Frame.Next (NextFrame.Rest rest)) (Frame.Argument frame) (Focus.Evaluate part.now.value))
        stack.old.frames focus stack.new.frames) }
    ensures err { OnErr result (stack.new ≡ stack.old) }
{
    let part = ExprPart::of(part)?;
    stack.push(Frame::Next(NextFrame::Rest(rest)));
    stack.push(Frame::Argument(frame));
    Ok(Focus::Evaluate(part))
}

/// Makes the move at the start of a statement, with the statements after it. There is room for two parts to wait.
#[tactic(auto, unfolding(crate::specs::Moves::begin_statement))]
fn begin_statement(
    stack: &mut Stack,
    statement: &Stmt,
    rest: Remaining,
) -> Result<Focus, AllocError>
    requires { 2 ≤ stack.old.room }
    ensures ok { IfOk result (λ focus. IsMade (begin_statement statement.now rest) stack.old.frames focus stack.new.frames) }
    ensures err { OnErr result (stack.new ≡ stack.old) }
{
    match &statement.node {
        StmtNode::Set(variable, value) => {
            waits_for(stack, ArgumentFrame::Set(*variable), value, rest)
        }
        StmtNode::Put(key, value, lease) => {
            let value = ExprPart::of(value)?;
            waits_for(stack, ArgumentFrame::PutKey(value, *lease), key, rest)
        }
        StmtNode::Del(key) => waits_for(stack, ArgumentFrame::Del, key, rest),
        StmtNode::If(condition, then_block, else_block) => {
            let condition = CondPart::of(condition)?;
            let frame = TruthFrame::If(then_block.clone()?, else_block.clone()?);
            stack.push(Frame::Next(NextFrame::Rest(rest)));
            stack.push(Frame::Truth(frame));
            Ok(Focus::Test(condition))
        }
        StmtNode::For(variable, count, limit, body) => {
            let body = body.clone()?;
            waits_for(
                stack,
                ArgumentFrame::For(*variable, *limit, body),
                count,
                rest,
            )
        }
        StmtNode::Emit(value) => waits_for(stack, ArgumentFrame::Emit, value, rest),
        StmtNode::Abort(text) => waits_for(stack, ArgumentFrame::Abort, text, rest),
    }
}

/// Makes the move of a block whose turn it is. There is room for two parts to wait.
#[tactic(auto, unfolding(crate::specs::Moves::begin_block))]
fn begin_block(stack: &mut Stack, block: &Remaining) -> Result<Focus, AllocError>
    requires { 2 ≤ stack.old.room }
    ensures ok { IfOk result (λ focus. IsMade (begin_block block.now) stack.old.frames focus stack.new.frames) }
    ensures err { OnErr result (stack.new ≡ stack.old) }
{
    let Some(first) = block.first() else {
        return Ok(nothing());
    };
    let rest = block.behind_first()?;
    begin_statement(stack, first, rest)
}

/// At the end that an `abort` makes, or that its fault makes.
fn at_abort(text: &Value) -> Result<Focus, AllocError>
    ensures { IfOk result (λ focus. focus ≡ at_abort (text_in text.now)) }
{
    match wanted_text(text) {
        Ok(text) => Ok(Focus::Ended(End::Aborted(text.clone()?))),
        Err(fault) => Ok(at_fault(fault)),
    }
}

/// Records a write, or goes to the end that its fault makes. An allocation failure leaves the session as it was.
fn keep_write(session: &mut Session, write: Result<Write, Fault>) -> Result<Focus, AllocError>
    ensures ok { IfOk result (λ focus. moved (goes focus) session.new ≡ write_moved write session.old) }
    ensures err { OnErr result (session.new ≡ session.old) }
{
    match write {
        Ok(write) => {
            session.write(write)?;
            Ok(nothing())
        }
        Err(fault) => Ok(at_fault(fault)),
    }
}

/// The turns of a loop wait, or its count's fault ends the run. There is room for one part to wait.
fn begin_loop(
    stack: &mut Stack,
    variable: Variable,
    body: &Block,
    limit: u64,
    count: &Value,
) -> Result<Focus, AllocError>
    requires { 1 ≤ stack.old.room }
    ensures ok { IfOk result (λ focus. IsMade (begin_loop variable body.now (turns_of count.now limit)) stack.old.frames focus stack.new.frames) }
    ensures err { OnErr result (stack.new ≡ stack.old) }
{
    match turns(count, limit) {
        Ok(count) => {
            let body = body.clone()?;
            let turns = Turns::of(count);
            stack.push(Frame::Next(NextFrame::Loop(variable, body, turns)));
            Ok(nothing())
        }
        Err(fault) => Ok(at_fault(fault)),
    }
}

/// A put waits for what it puts. There is room for it to wait.
fn waits_to_put(
    stack: &mut Stack,
    key: &Value,
    part: &ExprPart,
    lease: u64,
) -> Result<Focus, AllocError>
    requires { 1 ≤ stack.old.room }
    ensures ok { IfOk result (λ focus. IsMade (waits (Frame.Argument (ArgumentFrame.PutValue key.now lease)) (Focus.Evaluate part.now))
        stack.old.frames focus stack.new.frames) }
    ensures err { OnErr result (stack.new ≡ stack.old) }
{
    let key = key.clone()?;
    let part = part.again()?;
    stack.push(Frame::Argument(ArgumentFrame::PutValue(key, lease)));
    Ok(Focus::Evaluate(part))
}

/// Emits a value. An allocation failure leaves the session as it was.
fn emit_value(session: &mut Session, value: &Value) -> Result<Focus, AllocError>
    ensures focus { IfOk result (λ focus. focus ≡ nothing) }
    ensures ok { OnOk result (session.new ≡ with_output value.now session.old) }
    ensures err { OnErr result (session.new ≡ session.old) }
{
    session.emit(value.clone()?)?;
    Ok(nothing())
}

/// Gives a variable a value. An allocation failure leaves the session as it was.
fn set_variable(
    session: &mut Session,
    variable: Variable,
    value: &Value,
) -> Result<Focus, AllocError>
    ensures focus { IfOk result (λ focus. focus ≡ nothing) }
    ensures ok { OnOk result (session.new ≡ with_variable variable value.now session.old) }
    ensures err { OnErr result (session.new ≡ session.old) }
{
    session.set(variable, value.clone()?);
    Ok(nothing())
}

/// Makes the move of a statement that gets a value. There is room for one part to wait. An allocation failure leaves all as it was.
#[tactic(auto, unfolding(crate::specs::Moves::take_argument))]
pub(crate) fn take_argument(
    stack: &mut Stack,
    session: &mut Session,
    frame: &ArgumentFrame,
    value: &Value,
) -> Result<Focus, AllocError>
    requires { 1 ≤ stack.old.room }
    ensures ok { IfOk result (λ focus. state_of focus stack.new.frames session.new
        ≡ after_taking stack.old.frames (take_argument frame.now value.now session.old)) }
    ensures stack_err { OnErr result (stack.new ≡ stack.old) }
    ensures session_err { OnErr result (session.new ≡ session.old) }
{
    match frame {
        ArgumentFrame::Set(variable) => set_variable(session, *variable, value),
        ArgumentFrame::PutKey(part, lease) => waits_to_put(stack, value, part, *lease),
        ArgumentFrame::PutValue(key, lease) => keep_write(session, put(key, value, *lease)?),
        ArgumentFrame::Del => keep_write(session, deletion(value)?),
        ArgumentFrame::For(variable, limit, body) => {
            begin_loop(stack, *variable, body, *limit, value)
        }
        ArgumentFrame::Emit => emit_value(session, value),
        ArgumentFrame::Abort => at_abort(value),
    }
}

/// Makes the move of a loop whose turn it is. There is room for two parts to wait. An allocation failure leaves all as it was.
#[tactic(auto, unfolding(crate::specs::Moves::take_turn))]
fn take_turn(
    stack: &mut Stack,
    session: &mut Session,
    variable: Variable,
    body: &Block,
    turns: &Turns,
) -> Result<Focus, AllocError>
    requires { 2 ≤ stack.old.room }
    ensures ok { IfOk result (λ focus. state_of focus stack.new.frames session.new
        ≡ after_taking stack.old.frames (take_turn variable body.now turns.now.next turns.now.left session.old)) }
    ensures stack_err { OnErr result (stack.new ≡ stack.old) }
    ensures session_err { OnErr result (session.new ≡ session.old) }
{
    let Some(behind) = turns.behind_next() else {
        return Ok(nothing());
    };
    let first = Remaining::of(body)?;
    let body = body.clone()?;
    if let Err(fault) = session.begin_turn(variable, turns.next()) {
        return Ok(at_fault(fault));
    }
    stack.push(Frame::Next(NextFrame::Loop(variable, body, behind)));
    stack.push(Frame::Next(NextFrame::Rest(first)));
    Ok(nothing())
}

/// Makes the move of a block or a loop whose turn it is. There is room for two parts to wait. An allocation failure leaves all as it was.
#[tactic(auto, unfolding(crate::specs::Moves::take_nothing))]
pub(crate) fn take_nothing(
    stack: &mut Stack,
    session: &mut Session,
    frame: &NextFrame,
) -> Result<Focus, AllocError>
    requires { 2 ≤ stack.old.room }
    ensures ok { IfOk result (λ focus. state_of focus stack.new.frames session.new
        ≡ after_taking stack.old.frames (take_nothing frame.now session.old)) }
    ensures stack_err { OnErr result (stack.new ≡ stack.old) }
    ensures session_err { OnErr result (session.new ≡ session.old) }
{
    match frame {
        NextFrame::Rest(block) => begin_block(stack, block),
        NextFrame::Loop(variable, body, turns) => {
            take_turn(stack, session, *variable, body, turns)
        }
    }
}
