//! Expressions and statements that are run at once: they read no key, and are not deep.
//!
//! The moves of a machine keep what waits on a stack, so that the machine can stand still at a key. What reads no key needs none of that.
ghost use Rattle.std.specs.Prelude.{◌≡◌, Ok, IfOk, IfSome, OnErr};
ghost use Rattle.stm_program.specs.Syntax.{Get, Arithmetic, Cat, TextOf, NumOf, Set, Put, Del, Emit};
ghost use Rattle.stm_machine.specs.Direct.{GivesAtOnce, RunsOrStays, PassesOrStays, RunsFirst, LeadsOn};
ghost use Rattle.stm_machine.specs.Moves.{at_get};
ghost use Rattle.stm_steps.specs.Values.{key_in, put_of, del_of};

use crate::focus::{Focus, Item};
use crate::frame::{Frame, NextFrame};
use crate::parts::Remaining;
use std::alloc::{AllocError, Global};
use stm_program::{Expr, ExprNode, Operator, Stmt, StmtNode, Variable, Write};
use stm_steps::{Fault, Session, Value, combine, join, number_of, spell};

/// How deep the operators of an expression that is evaluated at once may be nested, so that little work is wasted on one that is not.
const MAX_DIRECT_DEPTH: u8 = 4;

/// Whether an expression reads no key, and its operators are nested no deeper. It is only looked at, and no contract speaks of it: what it lets
/// through is evaluated at once, and left to the moves where that comes to a fault.
fn is_direct(expression: &Expr, depth: u8) -> bool {
    match &expression.node {
        ExprNode::Text(_) => true,
        ExprNode::Number(_) => true,
        ExprNode::Variable(_) => true,
        ExprNode::Get(_) => false,
        ExprNode::Rev(_) => false,
        ExprNode::Arithmetic(_, left, right) => {
            depth > 0 && is_direct(left, depth - 1) && is_direct(right, depth - 1)
        }
        ExprNode::Cat(front, back) => {
            depth > 0 && is_direct(front, depth - 1) && is_direct(back, depth - 1)
        }
        ExprNode::TextOf(number) => depth > 0 && is_direct(number, depth - 1),
        ExprNode::NumOf(text) => depth > 0 && is_direct(text, depth - 1),
    }
}

/// Whether a statement is run at once, by its shape.
fn is_direct_statement(statement: &Stmt) -> bool {
    match &statement.node {
        StmtNode::Set(_, value) => is_direct(value, MAX_DIRECT_DEPTH),
        StmtNode::Put(key, value, _) => {
            is_direct(key, MAX_DIRECT_DEPTH) && is_direct(value, MAX_DIRECT_DEPTH)
        }
        StmtNode::Del(key) => is_direct(key, MAX_DIRECT_DEPTH),
        StmtNode::Emit(value) => is_direct(value, MAX_DIRECT_DEPTH),
        _ => false,
    }
}

/// Whether the first statement that waits in a part is run at once, by its shape.
pub(crate) fn begins_directly(frame: &Frame) -> bool {
    let Frame::Next(NextFrame::Rest(block)) = frame else {
        return false;
    };
    match block.first() {
        None => false,
        Some(statement) => is_direct_statement(statement),
    }
}

/// What was computed, where it is no fault. A fault is left to the moves.
fn unless_fault(computed: Result<Value, Fault>) -> Option<Value>
    ensures { IfSome result (λ x. computed ≡ Ok x) }
{
    match computed {
        Ok(value) => Some(value),
        Err(_) => None,
    }
}

/// What an operator gives for two expressions.
#[cycle(direct)]
fn combined(
    alloc: Global,
    session: &Session,
    operator: Operator,
    left: &Expr,
    right: &Expr,
) -> Result<Option<Value>, AllocError>
    ensures { IfOk result (λ found. IfSome found (GivesAtOnce (Arithmetic operator left.now right.now) session.now)) }
{
    let Some(left) = value_of(alloc, session, left)? else {
        return Ok(None);
    };
    let Some(right) = value_of(alloc, session, right)? else {
        return Ok(None);
    };
    Ok(unless_fault(combine(operator, &left, &right)))
}

/// What two expressions give, one text after the other.
#[cycle(direct)]
fn joined(
    alloc: Global,
    session: &Session,
    left: &Expr,
    right: &Expr,
) -> Result<Option<Value>, AllocError>
    ensures { IfOk result (λ found. IfSome found (GivesAtOnce (Cat left.now right.now) session.now)) }
{
    let Some(left) = value_of(alloc, session, left)? else {
        return Ok(None);
    };
    let Some(right) = value_of(alloc, session, right)? else {
        return Ok(None);
    };
    Ok(unless_fault(join(alloc, &left, &right)?))
}

/// The text of a number that an expression gives.
#[cycle(direct)]
fn spelled(alloc: Global, session: &Session, number: &Expr) -> Result<Option<Value>, AllocError>
    ensures { IfOk result (λ found. IfSome found (GivesAtOnce (TextOf number.now) session.now)) }
{
    let Some(number) = value_of(alloc, session, number)? else {
        return Ok(None);
    };
    Ok(unless_fault(spell(alloc, &number)?))
}

/// The number of a text that an expression gives.
#[cycle(direct)]
fn number_in(alloc: Global, session: &Session, text: &Expr) -> Result<Option<Value>, AllocError>
    ensures { IfOk result (λ found. IfSome found (GivesAtOnce (NumOf text.now) session.now)) }
{
    let Some(text) = value_of(alloc, session, text)? else {
        return Ok(None);
    };
    Ok(unless_fault(number_of(&text)))
}

/// The value of an expression. `None` where it reads a key or comes to a fault.
#[cycle(direct)]
#[tactic(auto, unfolding(stm_steps::specs::Meaning::evaluate))]
fn value_of(
    alloc: Global,
    session: &Session,
    expression: &Expr,
) -> Result<Option<Value>, AllocError>
    ensures { IfOk result (λ found. IfSome found (GivesAtOnce expression.now session.now)) }
{
    match &expression.node {
        ExprNode::Text(text) => Ok(Some(Value::Text(text.clone()?))),
        ExprNode::Number(number) => Ok(Some(Value::Number(*number))),
        ExprNode::Variable(variable) => Ok(Some(session.variable(*variable).clone()?)),
        ExprNode::Get(_) => Ok(None),
        ExprNode::Rev(_) => Ok(None),
        ExprNode::Arithmetic(operator, left, right) => {
            combined(alloc, session, *operator, left, right)
        }
        ExprNode::Cat(left, right) => joined(alloc, session, left, right),
        ExprNode::TextOf(number) => spelled(alloc, session, number),
        ExprNode::NumOf(text) => number_in(alloc, session, text),
    }
}

/// The value of an expression that is evaluated at once, `None` of one that is not.
fn direct_value(
    alloc: Global,
    session: &Session,
    expression: &Expr,
) -> Result<Option<Value>, AllocError>
    ensures { IfOk result (λ found. IfSome found (GivesAtOnce expression.now session.now)) }
{
    if !is_direct(expression, MAX_DIRECT_DEPTH) {
        return Ok(None);
    }
    value_of(alloc, session, expression)
}

/// At a `get` of a key. A fault is left to the moves.
#[tactic(auto, unfolding(stm_steps::specs::Values::key_in))]
fn at_key(key: Value) -> Option<Focus>
    ensures { IfSome result (λ focus. focus ≡ at_get (key_in key)) }
{
    let Value::Text(key) = key else {
        return None;
    };
    if key.as_str().is_empty() {
        return None;
    }
    Some(Focus::Get(key))
}

/// Where a machine at a `get` stands after its key, where the key is evaluated at once.
fn lead_to_key(alloc: Global, session: &Session, key: &Expr) -> Result<Option<Focus>, AllocError>
    ensures { IfOk result (λ found. IfSome found (LeadsOn (Get key.now) session.now)) }
{
    let Some(key) = direct_value(alloc, session, key)? else {
        return Ok(None);
    };
    Ok(at_key(key))
}

/// Where a machine at an expression stands after what is evaluated at once of it: after its value, or, at a `get`, after its key. `None` where
/// nothing is evaluated at once.
#[tactic(auto, using(crate::proofs::DirectLemmas::leads_behind))]
pub(crate) fn lead_on(
    alloc: Global,
    session: &Session,
    expression: &Expr,
) -> Result<Option<Focus>, AllocError>
    ensures { IfOk result (λ found. IfSome found (LeadsOn expression.now session.now)) }
{
    if let ExprNode::Get(key) = &expression.node {
        return lead_to_key(alloc, session, key);
    }
    let Some(value) = direct_value(alloc, session, expression)? else {
        return Ok(None);
    };
    Ok(Some(Focus::Give(Item::Value(value))))
}

/// Gives a variable the value of an expression.
fn set_at_once(
    alloc: Global,
    session: &mut Session,
    variable: Variable,
    value: &Expr,
) -> Result<bool, AllocError>
    ensures ran { IfOk result (λ ran. RunsOrStays ran (Set variable value.now) session.old session.new) }
    ensures err { OnErr result (session.new ≡ session.old) }
{
    let Some(value) = value_of(alloc, session, value)? else {
        return Ok(false);
    };
    session.set(variable, value);
    Ok(true)
}

/// The put of a key. A fault is left to the moves.
#[tactic(auto, unfolding(stm_steps::specs::Values::put_of))]
fn put_of(key: Value, value: Value, lease: u64) -> Option<Write>
    ensures { IfSome result (λ w. put_of key value lease ≡ Ok w) }
{
    let Value::Text(key) = key else {
        return None;
    };
    let Value::Text(value) = value else {
        return None;
    };
    if key.as_str().is_empty() {
        return None;
    }
    Some(Write::Put { key, value, lease })
}

/// The deletion of a key. A fault is left to the moves.
#[tactic(auto, unfolding(stm_steps::specs::Values::del_of))]
fn del_of(key: Value) -> Option<Write>
    ensures { IfSome result (λ w. del_of key ≡ Ok w) }
{
    let Value::Text(key) = key else {
        return None;
    };
    if key.as_str().is_empty() {
        return None;
    }
    Some(Write::Del { key })
}

/// Puts the value of an expression under the key that another one gives.
fn put_at_once(
    alloc: Global,
    session: &mut Session,
    key: &Expr,
    value: &Expr,
    lease: u64,
) -> Result<bool, AllocError>
    ensures ran { IfOk result (λ ran. RunsOrStays ran (Put key.now value.now lease) session.old session.new) }
    ensures err { OnErr result (session.new ≡ session.old) }
{
    let Some(key) = value_of(alloc, session, key)? else {
        return Ok(false);
    };
    let Some(value) = value_of(alloc, session, value)? else {
        return Ok(false);
    };
    let Some(write) = put_of(key, value, lease) else {
        return Ok(false);
    };
    session.write(write)?;
    Ok(true)
}

/// Deletes the key that an expression gives.
fn delete_at_once(alloc: Global, session: &mut Session, key: &Expr) -> Result<bool, AllocError>
    ensures ran { IfOk result (λ ran. RunsOrStays ran (Del key.now) session.old session.new) }
    ensures err { OnErr result (session.new ≡ session.old) }
{
    let Some(key) = value_of(alloc, session, key)? else {
        return Ok(false);
    };
    let Some(write) = del_of(key) else {
        return Ok(false);
    };
    session.write(write)?;
    Ok(true)
}

/// Emits the value of an expression.
fn emit_at_once(alloc: Global, session: &mut Session, value: &Expr) -> Result<bool, AllocError>
    ensures ran { IfOk result (λ ran. RunsOrStays ran (Emit value.now) session.old session.new) }
    ensures err { OnErr result (session.new ≡ session.old) }
{
    let Some(value) = value_of(alloc, session, value)? else {
        return Ok(false);
    };
    session.emit(value)?;
    Ok(true)
}

/// Runs a statement whose expressions are evaluated at once. It returns whether it did; if not, or if an allocation fails, the session
/// stays as it was.
fn run_at_once(alloc: Global, session: &mut Session, statement: &Stmt) -> Result<bool, AllocError>
    ensures ran { IfOk result (λ ran. RunsOrStays ran statement.now session.old session.new) }
    ensures err { OnErr result (session.new ≡ session.old) }
{
    match &statement.node {
        StmtNode::Set(variable, value) => set_at_once(alloc, session, *variable, value),
        StmtNode::Put(key, value, lease) => put_at_once(alloc, session, key, value, *lease),
        StmtNode::Del(key) => delete_at_once(alloc, session, key),
        StmtNode::Emit(value) => emit_at_once(alloc, session, value),
        _ => Ok(false),
    }
}

/// Runs the first statement of a block at once, and passes it. It returns whether it did; if not, or if an allocation fails, block and
/// session stay as they were.
fn pass_at_once(
    alloc: Global,
    session: &mut Session,
    block: &mut Remaining,
) -> Result<bool, AllocError>
    ensures passed { IfOk result (λ passed. PassesOrStays passed block.old session.old block.new session.new) }
    ensures block_err { OnErr result (block.new ≡ block.old) }
    ensures err { OnErr result (session.new ≡ session.old) }
{
    let Some(first) = block.first() else {
        return Ok(false);
    };
    let ran = run_at_once(alloc, session, first)?;
    if !ran {
        return Ok(false);
    }
    block.pass_first();
    Ok(true)
}

/// Runs the first statement that waits in a part at once. It returns whether it did; if not, or if an allocation fails, part and session
/// stay as they were.
pub(crate) fn run_first(
    alloc: Global,
    session: &mut Session,
    frame: &mut Frame,
) -> Result<bool, AllocError>
    ensures ran { IfOk result (λ ran. RunsFirst ran frame.old session.old frame.new session.new) }
    ensures frame_err { OnErr result (frame.new ≡ frame.old) }
    ensures err { OnErr result (session.new ≡ session.old) }
{
    match frame {
        Frame::Next(NextFrame::Rest(block)) => pass_at_once(alloc, session, block),
        _ => Ok(false),
    }
}
