//! Expressions.
ghost use Rattle.std.specs.Prelude.{◌≡◌, ◌++◌, OnOk, string_bytes};
ghost use Rattle.stm_program_source.specs.Texts.{call, bracketed};
ghost use Rattle.stm_program_source.specs.Expressions.{rank_of, operation, variable_name, shown_expression};

use crate::text::{push_number, push_quoted, push_signed};
use std::alloc::{AllocError, Global};
use stm_program::{Expr, ExprNode, Variable};

/// How tightly `++` binds: less than any other operator.
const CAT: u8 = 1;

/// How tightly what is no operator binds.
const OPERAND: u8 = 4;

/// How tightly an expression binds.
fn rank_of(expression: &Expr) -> u8
    ensures { result ≡ rank_of expression.now }
{
    match &expression.node {
        ExprNode::Cat(_, _) => CAT,
        ExprNode::Arithmetic(operator, _, _) => operator.rank(),
        ExprNode::Text(_)
        | ExprNode::Number(_)
        | ExprNode::Variable(_)
        | ExprNode::Get(_)
        | ExprNode::Rev(_)
        | ExprNode::TextOf(_)
        | ExprNode::NumOf(_) => OPERAND,
    }
}

/// Adds a variable.
pub(crate) fn push_variable(out: &mut String, variable: Variable) -> Result<(), AllocError>
    ensures { OnOk result (string_bytes out.new ≡ string_bytes out.old ++ variable_name variable) }
{
    out.push('v')?;
    push_number(out, u64::from(variable.number()))
}

/// Adds a word, and the expression that it is of.
#[cycle(push_expressions)]
pub(crate) fn push_call(
    alloc: Global,
    out: &mut String,
    word: &str,
    argument: &Expr,
) -> Result<(), AllocError>
    ensures { OnOk result (string_bytes out.new ≡ string_bytes out.old ++ call word.now (shown_expression argument.now)) }
{
    out.push_str(word)?;
    out.push('(')?;
    push_expression(alloc, out, argument)?;
    out.push(')')
}

/// Adds an operand, in brackets where it needs them.
#[cycle(push_expressions)]
fn push_operand(
    alloc: Global,
    out: &mut String,
    operand: &Expr,
    needs_brackets: bool,
) -> Result<(), AllocError>
    ensures { OnOk result (string_bytes out.new ≡ string_bytes out.old ++ bracketed needs_brackets (shown_expression operand.now)) }
{
    if !needs_brackets {
        return push_expression(alloc, out, operand);
    }
    out.push('(')?;
    push_expression(alloc, out, operand)?;
    out.push(')')
}

/// Adds an operation.
#[cycle(push_expressions)]
fn push_operation(
    alloc: Global,
    out: &mut String,
    own: u8,
    sign: &str,
    left: &Expr,
    right: &Expr,
) -> Result<(), AllocError>
    ensures { OnOk result (string_bytes out.new ≡ string_bytes out.old
        ++ operation own sign.now left.now (shown_expression left.now) right.now (shown_expression right.now)) }
{
    push_operand(alloc, out, left, rank_of(left) < own)?;
    out.push(' ')?;
    out.push_str(sign)?;
    out.push(' ')?;
    push_operand(alloc, out, right, rank_of(right) <= own)
}

/// Adds an expression.
#[cycle(push_expressions)]
pub(crate) fn push_expression(
    alloc: Global,
    out: &mut String,
    expression: &Expr,
) -> Result<(), AllocError>
    ensures { OnOk result (string_bytes out.new ≡ string_bytes out.old ++ shown_expression expression.now) }
{
    match &expression.node {
        ExprNode::Text(text) => push_quoted(alloc, out, text.as_str()),
        ExprNode::Number(number) => push_signed(out, *number),
        ExprNode::Variable(variable) => push_variable(out, *variable),
        ExprNode::Get(key) => push_call(alloc, out, "get", key),
        ExprNode::Rev(key) => push_call(alloc, out, "rev", key),
        ExprNode::TextOf(number) => push_call(alloc, out, "text_of", number),
        ExprNode::NumOf(text) => push_call(alloc, out, "num_of", text),
        ExprNode::Cat(left, right) => push_operation(alloc, out, CAT, "++", left, right),
        ExprNode::Arithmetic(operator, left, right) => {
            push_operation(alloc, out, operator.rank(), operator.sign(), left, right)
        }
    }
}
