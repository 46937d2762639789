//! Several steps of a machine at once: over an expression, or over the first statement of a block, that reads no key.
ghost use Rattle.std.specs.Prelude.{◌≡◌, ◌≤◌, List, IfOk, OnErr};
ghost use Rattle.stm_machine.specs.declared.frame.Frame.{Frame as Part};
ghost use Rattle.stm_machine.specs.Moves.{nothing};
ghost use Rattle.stm_machine.specs.State.{state_of};
ghost use Rattle.stm_machine.specs.Direct.{JumpsOrStays};

use crate::direct::{begins_directly, lead_on, run_first};
use crate::focus::{Focus, Item};
use crate::stack::Stack;
use std::alloc::{AllocError, Global};
use std::mem;
use stm_steps::Session;

/// Jumps over the expression at which a machine stands. It returns whether it did; if not, or if an allocation fails, the machine stays
/// where it was.
fn jump_expression(alloc: Global, focus: &mut Focus, session: &Session) -> Result<bool, AllocError>
    ensures jump { IfOk result (λ made. (frames : List Part) → JumpsOrStays made (state_of focus.old frames session.now) (state_of focus.new frames session.now)) }
    ensures err { OnErr result (focus.new ≡ focus.old) }
{
    let Focus::Evaluate(expression) = &*focus else {
        return Ok(false);
    };
    let Some(next) = lead_on(alloc, session, expression.get())? else {
        return Ok(false);
    };
    drop(mem::replace(focus, next));
    Ok(true)
}

/// Whether the first statement of the innermost part is run at once, by its shape.
fn is_worth_taking(stack: &Stack) -> bool {
    match stack.top() {
        None => false,
        Some(frame) => begins_directly(frame),
    }
}

/// Jumps over the first statement of the innermost part, where that is a block. There is room for the part, which is taken out and put back.
fn jump_statement(
    alloc: Global,
    stack: &mut Stack,
    session: &mut Session,
) -> Result<bool, AllocError>
    requires { 1 ≤ stack.old.room }
    ensures jump { IfOk result (λ made. JumpsOrStays made (state_of nothing stack.old.frames session.old) (state_of nothing stack.new.frames session.new)) }
    ensures stack_err { OnErr result (stack.new.frames ≡ stack.old.frames) }
    ensures err { OnErr result (session.new ≡ session.old) }
{
    if !is_worth_taking(stack) {
        return Ok(false);
    }
    let Some(frame) = stack.take() else {
        return Ok(false);
    };
    let mut frame = frame;
    let ran = run_first(alloc, session, &mut frame);
    stack.push(frame);
    ran
}

/// Jumps over what is run at once where a machine stands. It returns whether it did; if not, or if an allocation fails, the machine is as it was.
/// There is room for one part.
pub(crate) fn jump(
    alloc: Global,
    focus: &mut Focus,
    stack: &mut Stack,
    session: &mut Session,
) -> Result<bool, AllocError>
    requires { 1 ≤ stack.old.room }
    ensures jump { IfOk result (λ made. JumpsOrStays made (state_of focus.old stack.old.frames session.old) (state_of focus.new stack.new.frames session.new)) }
    ensures focus_err { OnErr result (focus.new ≡ focus.old) }
    ensures stack_err { OnErr result (stack.new.frames ≡ stack.old.frames) }
    ensures err { OnErr result (session.new ≡ session.old) }
{
    match &*focus {
        Focus::Evaluate(_) => jump_expression(alloc, focus, session),
        Focus::Give(Item::Nothing) => jump_statement(alloc, stack, session),
        _ => Ok(false),
    }
}
