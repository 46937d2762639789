//! The step that a machine makes from where it stands.
ghost use Rattle.std.specs.Prelude.{◌≡◌, ◌≤◌, List, None, IfOk, OnErr, option_map};
ghost use Rattle.stm_machine.specs.Moves.{take_item};
ghost use Rattle.stm_machine.specs.State.{state_of};
ghost use Rattle.stm_machine.specs.Steps.{after_taking, give_step, read_step, step_from};
ghost use Rattle.stm_steps.specs.Steps.{get_key, rev_key};

use crate::conditions::{begin_condition, take_compared, take_truth};
use crate::expressions::{begin_expression, take_operand};
use crate::focus::{Focus, Item};
use crate::frame::Frame;
use crate::moves::nothing;
use crate::stack::Stack;
use crate::statements::{take_argument, take_nothing};
use std::alloc::{AllocError, Global};
use stm_history::Text;
use stm_steps::{End, Lookup, Session, Value};

/// Makes the move of a part that gets what it waited for. There is room for two parts to wait. An allocation failure leaves all as it was.
///
/// A part that is given something else is passed over.
fn take_item(
    alloc: Global,
    stack: &mut Stack,
    session: &mut Session,
    frame: &Frame,
    item: &Item,
) -> Result<Focus, AllocError>
    requires { 2 ≤ stack.old.room }
    ensures ok { IfOk result (λ focus. state_of focus stack.new.frames session.new
        ≡ after_taking stack.old.frames (take_item frame.now item.now session.old)) }
    ensures stack_err { OnErr result (stack.new ≡ stack.old) }
    ensures session_err { OnErr result (session.new ≡ session.old) }
{
    match (frame, item) {
        (Frame::Operand(frame), Item::Value(value)) => take_operand(alloc, stack, frame, value),
        (Frame::Comparison(frame), Item::Value(value)) => take_compared(stack, frame, value),
        (Frame::Argument(frame), Item::Value(value)) => {
            take_argument(stack, session, frame, value)
        }
        (Frame::Truth(frame), Item::Truth(truth)) => take_truth(stack, frame, *truth),
        (Frame::Next(frame), Item::Nothing) => take_nothing(stack, session, frame),
        _ => Ok(nothing()),
    }
}

/// Gives the innermost part what it waited for; where no part waits the run is done. There is room for two parts to wait.
///
/// An allocation failure leaves the parts and the session as they were.
fn give(
    alloc: Global,
    stack: &mut Stack,
    session: &mut Session,
    item: &Item,
) -> Result<Focus, AllocError>
    requires { 2 ≤ stack.old.room }
    ensures ok { IfOk result (λ focus. state_of focus stack.new.frames session.new ≡ give_step stack.old.frames item.now session.old) }
    ensures stack_err { OnErr result (stack.new.frames ≡ stack.old.frames) }
    ensures session_err { OnErr result (session.new ≡ session.old) }
{
    let Some(frame) = stack.take() else {
        return Ok(Focus::Ended(End::Done));
    };
    match take_item(alloc, stack, session, &frame, item) {
        Ok(focus) => {
            drop(frame);
            Ok(focus)
        }
        Err(error) => {
            stack.push(frame);
            Err(error)
        }
    }
}

/// Where a machine stands after a read, if that found something.
fn behind_read(found: Option<Value>) -> Option<Focus>
    ensures { result ≡ option_map (λ x. Focus.Give (Item.Value x)) found }
{
    match found {
        Some(value) => Some(Focus::Give(Item::Value(value))),
        None => None,
    }
}

/// Reads a key at a `get`. `None` where the look-up does not know the key: nothing has changed then. An allocation failure leaves the
/// session as it was.
fn get<L: Lookup>(
    alloc: Global,
    lookup: &L,
    session: &mut Session,
    key: &Text,
) -> Result<Option<Focus>, AllocError>
    ensures step { IfOk result (λ made. (frames : List Frame) →
        read_step frames (get_key (L.answers lookup.now) key.now session.old) ≡ option_map (λ focus. state_of focus frames session.new) made) }
    ensures none { IfOk result (λ made. made ≡ None → session.new ≡ session.old) }
    ensures err { OnErr result (session.new ≡ session.old) }
{
    let found = session.get(alloc, lookup, key)?;
    Ok(behind_read(found))
}

/// Reads the revision of a key at a `rev`, as `get` reads its value.
fn rev<L: Lookup>(
    lookup: &L,
    session: &mut Session,
    key: &Text,
) -> Result<Option<Focus>, AllocError>
    ensures step { IfOk result (λ made. (frames : List Frame) →
        read_step frames (rev_key (L.answers lookup.now) key.now session.old) ≡ option_map (λ focus. state_of focus frames session.new) made) }
    ensures none { IfOk result (λ made. made ≡ None → session.new ≡ session.old) }
    ensures err { OnErr result (session.new ≡ session.old) }
{
    let found = session.rev(lookup, key)?;
    Ok(behind_read(found))
}

/// Goes on from where a machine stands, and answers where it stands then. There is room for two parts to wait.
///
/// `None` where its run has ended, and at a key that the look-up does not know: nothing has changed then. An allocation failure leaves
/// the parts and the session as they were.
#[inline(always)]
pub(crate) fn go_on<L: Lookup>(
    alloc: Global,
    lookup: &L,
    focus: &Focus,
    stack: &mut Stack,
    session: &mut Session,
) -> Result<Option<Focus>, AllocError>
    requires { 2 ≤ stack.old.room }
    ensures step { IfOk result (λ made. step_from (L.answers lookup.now) focus.now stack.old.frames session.old
        ≡ option_map (λ next. state_of next stack.new.frames session.new) made) }
    ensures stack_none { IfOk result (λ made. made ≡ None → stack.new.frames ≡ stack.old.frames) }
    ensures session_none { IfOk result (λ made. made ≡ None → session.new ≡ session.old) }
    ensures stack_err { OnErr result (stack.new.frames ≡ stack.old.frames) }
    ensures session_err { OnErr result (session.new ≡ session.old) }
{
    match focus {
        Focus::Evaluate(expression) => {
            Ok(Some(begin_expression(stack, session, expression.get())?))
        }
        Focus::Test(condition) => Ok(Some(begin_condition(stack, condition.get())?)),
        Focus::Get(key) => get(alloc, lookup, session, key),
        Focus::Rev(key) => rev(lookup, session, key),
        Focus::Give(item) => Ok(Some(give(alloc, stack, session, item)?)),
        Focus::Ended(_) => Ok(None),
    }
}
