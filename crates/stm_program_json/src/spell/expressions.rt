//! Writing expressions and conditions.
ghost use Rattle.std.specs.Prelude.{◌≡◌, [], ◌∷◌, codes, IfOk};
ghost use Rattle.serde_json.specs.View.{view};
ghost use Rattle.stm_json.specs.Parts.{spelled};
ghost use Rattle.stm_program_json.specs.Writing.{written_expression, written_condition};

use crate::spell::arrays::{one_part, two_parts};
use serde_json::Value;
use std::alloc::{AllocError, Global};
use stm_program::{Cond, CondNode, Expr, ExprNode};

/// The array of a word and two expressions.
#[cycle(write_expressions)]
fn expressions_value(
    alloc: Global,
    word: &str,
    left: &Expr,
    right: &Expr,
) -> Result<Value, AllocError>
    ensures { IfOk result (λ v. view v ≡ spelled word.now (written_expression left.now ∷ written_expression right.now ∷ [])) }
{
    let left = expression_value(alloc, left)?;
    let right = expression_value(alloc, right)?;
    two_parts(alloc, word, left, right)
}

/// The value that an expression is written as.
#[cycle(write_expressions)]
pub(crate) fn expression_value(alloc: Global, expression: &Expr) -> Result<Value, AllocError>
    ensures { IfOk result (λ v. view v ≡ written_expression expression.now) }
{
    match &expression.node {
        ExprNode::Text(text) => Value::try_from_str(alloc, text.as_str()),
        ExprNode::Number(number) => Ok(Value::from(*number)),
        ExprNode::Variable(variable) => { one_part(alloc, "var", Value::from(variable.number())) }
        ExprNode::Get(part) => one_part(alloc, "get", expression_value(alloc, part)?),
        ExprNode::Rev(part) => one_part(alloc, "rev", expression_value(alloc, part)?),
        ExprNode::TextOf(part) => one_part(alloc, "text_of", expression_value(alloc, part)?),
        ExprNode::NumOf(part) => one_part(alloc, "num_of", expression_value(alloc, part)?),
        ExprNode::Cat(left, right) => expressions_value(alloc, "cat", left, right),
        ExprNode::Arithmetic(operator, left, right) => {
            expressions_value(alloc, operator.word(), left, right)
        }
    }
}

/// The array of a word and two conditions.
#[cycle(write_conditions)]
fn conditions_value(
    alloc: Global,
    word: &str,
    left: &Cond,
    right: &Cond,
) -> Result<Value, AllocError>
    ensures { IfOk result (λ v. view v ≡ spelled word.now (written_condition left.now ∷ written_condition right.now ∷ [])) }
{
    let left = condition_value(alloc, left)?;
    let right = condition_value(alloc, right)?;
    two_parts(alloc, word, left, right)
}

/// The value that a condition is written as.
#[cycle(write_conditions)]
pub(crate) fn condition_value(alloc: Global, condition: &Cond) -> Result<Value, AllocError>
    ensures { IfOk result (λ v. view v ≡ written_condition condition.now) }
{
    match &condition.node {
        CondNode::Equal(left, right) => expressions_value(alloc, "eq", left, right),
        CondNode::Less(left, right) => expressions_value(alloc, "less", left, right),
        CondNode::Not(part) => one_part(alloc, "not", condition_value(alloc, part)?),
        CondNode::And(left, right) => conditions_value(alloc, "and", left, right),
        CondNode::Or(left, right) => conditions_value(alloc, "or", left, right),
    }
}
