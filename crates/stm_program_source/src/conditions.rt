//! Conditions.
ghost use Rattle.std.specs.Prelude.{◌≡◌, ◌++◌, OnOk, string_bytes};
ghost use Rattle.stm_program_source.specs.Texts.{bracketed};
ghost use Rattle.stm_program_source.specs.Conditions.{condition_rank, comparison, negated, connected, shown_condition};

use crate::expressions::push_expression;
use std::alloc::{AllocError, Global};
use stm_program::{Cond, CondNode, Expr};

/// How tightly `||` binds.
const OR: u8 = 1;

/// How tightly `&&` binds.
const AND: u8 = 2;

/// How tightly what is neither binds.
const ALONE: u8 = 3;

/// How tightly a condition binds.
fn rank_of(condition: &Cond) -> u8
    ensures { result ≡ condition_rank condition.now }
{
    match &condition.node {
        CondNode::Or(_, _) => OR,
        CondNode::And(_, _) => AND,
        CondNode::Equal(_, _) | CondNode::Less(_, _) | CondNode::Not(_) => ALONE,
    }
}

/// Adds two values and the sign between them.
fn push_comparison(
    alloc: Global,
    out: &mut String,
    left: &Expr,
    between: &str,
    right: &Expr,
) -> Result<(), AllocError>
    ensures { OnOk result (string_bytes out.new ≡ string_bytes out.old ++ comparison left.now between.now right.now) }
{
    push_expression(alloc, out, left)?;
    out.push_str(between)?;
    push_expression(alloc, out, right)
}

/// Adds that a condition does not hold.
#[cycle(push_conditions)]
fn push_negated(alloc: Global, out: &mut String, condition: &Cond) -> Result<(), AllocError>
    ensures { OnOk result (string_bytes out.new ≡ string_bytes out.old ++ negated condition.now (shown_condition condition.now)) }
{
    match &condition.node {
        CondNode::Equal(left, right) => push_comparison(alloc, out, left, " != ", right),
        CondNode::Less(left, right) => push_comparison(alloc, out, left, " >= ", right),
        CondNode::Not(_) | CondNode::And(_, _) | CondNode::Or(_, _) => {
            out.push_str("!(")?;
            push_condition(alloc, out, condition)?;
            out.push(')')
        }
    }
}

/// Adds an operand, in brackets where it needs them.
#[cycle(push_conditions)]
fn push_operand(
    alloc: Global,
    out: &mut String,
    operand: &Cond,
    needs_brackets: bool,
) -> Result<(), AllocError>
    ensures { OnOk result (string_bytes out.new ≡ string_bytes out.old ++ bracketed needs_brackets (shown_condition operand.now)) }
{
    if !needs_brackets {
        return push_condition(alloc, out, operand);
    }
    out.push('(')?;
    push_condition(alloc, out, operand)?;
    out.push(')')
}

/// Adds two conditions and the sign between them.
#[cycle(push_conditions)]
fn push_connected(
    alloc: Global,
    out: &mut String,
    own: u8,
    between: &str,
    left: &Cond,
    right: &Cond,
) -> Result<(), AllocError>
    ensures { OnOk result (string_bytes out.new ≡ string_bytes out.old
        ++ connected own between.now left.now (shown_condition left.now) right.now (shown_condition right.now)) }
{
    push_operand(alloc, out, left, rank_of(left) < own)?;
    out.push_str(between)?;
    push_operand(alloc, out, right, rank_of(right) <= own)
}

/// Adds a condition.
#[cycle(push_conditions)]
pub(crate) fn push_condition(
    alloc: Global,
    out: &mut String,
    condition: &Cond,
) -> Result<(), AllocError>
    ensures { OnOk result (string_bytes out.new ≡ string_bytes out.old ++ shown_condition condition.now) }
{
    match &condition.node {
        CondNode::Equal(left, right) => push_comparison(alloc, out, left, " == ", right),
        CondNode::Less(left, right) => push_comparison(alloc, out, left, " < ", right),
        CondNode::Not(inner) => push_negated(alloc, out, inner),
        CondNode::And(left, right) => push_connected(alloc, out, AND, " && ", left, right),
        CondNode::Or(left, right) => push_connected(alloc, out, OR, " || ", left, right),
    }
}
