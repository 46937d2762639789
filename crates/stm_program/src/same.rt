//! Whether two programs are the same.
//!
//! Parts are shared, and a walk looks at a shared part as often as it occurs in the program. So its work is at
//! most the nodes of the smaller program, of which there are at most `MAX_NODES`.
ghost use Rattle.std.specs.Prelude.{◌≡◌, ◌↔◌, IsTrue};
ghost use Rattle.stm_program.specs.BlockView.{block_of};
ghost use Rattle.stm_program.specs.Syntax.{Text as TextTree, Number as NumberTree, Variable as VariableTree, Set, Put, Del, Emit, Abort};

use crate::condition::{Cond, CondNode};
use crate::expression::{Expr, ExprNode};
use crate::statement::{Block, Stmt, StmtNode};
use crate::variable::Variable;
use stm_history::Text;

/// Whether an expression is a text.
fn is_text(expression: &Expr, text: &Text) -> bool
    ensures { IsTrue result ↔ TextTree text.now ≡ expression.now }
{
    match &expression.node {
        ExprNode::Text(other) => text == other,
        _ => false,
    }
}

/// Whether an expression is a number.
fn is_number(expression: &Expr, number: i64) -> bool
    ensures { IsTrue result ↔ NumberTree number ≡ expression.now }
{
    match &expression.node {
        ExprNode::Number(other) => number == *other,
        _ => false,
    }
}

/// Whether an expression is the value of a variable.
fn is_variable(expression: &Expr, variable: Variable) -> bool
    ensures { IsTrue result ↔ VariableTree variable ≡ expression.now }
{
    match &expression.node {
        ExprNode::Variable(other) => variable == *other,
        _ => false,
    }
}

fn are_same_expressions(left: &Expr, right: &Expr) -> bool
    ensures { IsTrue result ↔ left.now ≡ right.now }
{
    match &left.node {
        ExprNode::Text(text) => is_text(right, text),
        ExprNode::Number(number) => is_number(right, *number),
        ExprNode::Variable(variable) => is_variable(right, *variable),
        ExprNode::Get(key) => match &right.node {
            ExprNode::Get(other) => are_same_expressions(key, other),
            _ => false,
        },
        ExprNode::Rev(key) => match &right.node {
            ExprNode::Rev(other) => are_same_expressions(key, other),
            _ => false,
        },
        ExprNode::Arithmetic(operator, first, second) => match &right.node {
            ExprNode::Arithmetic(other, third, fourth) => {
                operator == other
                    && are_same_expressions(first, third)
                    && are_same_expressions(second, fourth)
            }
            _ => false,
        },
        ExprNode::Cat(first, second) => match &right.node {
            ExprNode::Cat(third, fourth) => {
                are_same_expressions(first, third) && are_same_expressions(second, fourth)
            }
            _ => false,
        },
        ExprNode::TextOf(number) => match &right.node {
            ExprNode::TextOf(other) => are_same_expressions(number, other),
            _ => false,
        },
        ExprNode::NumOf(text) => match &right.node {
            ExprNode::NumOf(other) => are_same_expressions(text, other),
            _ => false,
        },
    }
}

fn are_same_conditions(left: &Cond, right: &Cond) -> bool
    ensures { IsTrue result ↔ left.now ≡ right.now }
{
    match &left.node {
        CondNode::Equal(first, second) => match &right.node {
            CondNode::Equal(third, fourth) => {
                are_same_expressions(first, third) && are_same_expressions(second, fourth)
            }
            _ => false,
        },
        CondNode::Less(first, second) => match &right.node {
            CondNode::Less(third, fourth) => {
                are_same_expressions(first, third) && are_same_expressions(second, fourth)
            }
            _ => false,
        },
        CondNode::Not(part) => match &right.node {
            CondNode::Not(other) => are_same_conditions(part, other),
            _ => false,
        },
        CondNode::And(first, second) => match &right.node {
            CondNode::And(third, fourth) => {
                are_same_conditions(first, third) && are_same_conditions(second, fourth)
            }
            _ => false,
        },
        CondNode::Or(first, second) => match &right.node {
            CondNode::Or(third, fourth) => {
                are_same_conditions(first, third) && are_same_conditions(second, fourth)
            }
            _ => false,
        },
    }
}

/// Whether a statement sets a variable to a value.
fn is_set(statement: &Stmt, variable: Variable, value: &Expr) -> bool
    ensures { IsTrue result ↔ Set variable value.now ≡ statement.now }
{
    match &statement.node {
        StmtNode::Set(other, written) => {
            variable == *other && are_same_expressions(value, written)
        }
        _ => false,
    }
}

/// Whether a statement puts a key with a value on a lease.
fn is_put(statement: &Stmt, key: &Expr, value: &Expr, lease: u64) -> bool
    ensures { IsTrue result ↔ Put key.now value.now lease ≡ statement.now }
{
    match &statement.node {
        StmtNode::Put(other, written, id) => {
            lease == *id && are_same_expressions(key, other) && are_same_expressions(value, written)
        }
        _ => false,
    }
}

/// Whether a statement deletes a key.
fn is_deletion(statement: &Stmt, key: &Expr) -> bool
    ensures { IsTrue result ↔ Del key.now ≡ statement.now }
{
    match &statement.node {
        StmtNode::Del(other) => are_same_expressions(key, other),
        _ => false,
    }
}

/// Whether a statement emits a value.
fn is_emission(statement: &Stmt, value: &Expr) -> bool
    ensures { IsTrue result ↔ Emit value.now ≡ statement.now }
{
    match &statement.node {
        StmtNode::Emit(other) => are_same_expressions(value, other),
        _ => false,
    }
}

/// Whether a statement ends the run with a text.
fn is_abort(statement: &Stmt, text: &Expr) -> bool
    ensures { IsTrue result ↔ Abort text.now ≡ statement.now }
{
    match &statement.node {
        StmtNode::Abort(other) => are_same_expressions(text, other),
        _ => false,
    }
}

#[cycle(same)]
fn are_same_steps(left: &Stmt, right: &Stmt) -> bool
    ensures { IsTrue result ↔ left.now ≡ right.now }
{
    match &left.node {
        StmtNode::Set(variable, value) => is_set(right, *variable, value),
        StmtNode::Put(key, value, lease) => is_put(right, key, value, *lease),
        StmtNode::Del(key) => is_deletion(right, key),
        StmtNode::If(condition, yes, no) => match &right.node {
            StmtNode::If(other, then, otherwise) => {
                are_same_conditions(condition, other)
                    && are_same_blocks(yes, then)
                    && are_same_blocks(no, otherwise)
            }
            _ => false,
        },
        StmtNode::For(variable, count, limit, body) => match &right.node {
            StmtNode::For(other, times, most, inner) => {
                variable == other
                    && limit == most
                    && are_same_expressions(count, times)
                    && are_same_blocks(body, inner)
            }
            _ => false,
        },
        StmtNode::Emit(value) => is_emission(right, value),
        StmtNode::Abort(text) => is_abort(right, text),
    }
}

#[cycle(same)]
fn are_same_blocks(left: &Block, right: &Block) -> bool
    ensures { IsTrue result ↔ left.now ≡ right.now }
{
    let statements: &Vec<Stmt> = &left.statements;
    let others: &Vec<Stmt> = &right.statements;
    are_same_statements(statements, others)
}

/// Whether two lists of statements are the same.
#[cycle(same)]
pub(crate) fn are_same_statements(left: &[Stmt], right: &[Stmt]) -> bool
    ensures { IsTrue result ↔ block_of left.now ≡ block_of right.now }
{
    match left {
        [] => right.is_empty(),
        [first, rest @ ..] => match right {
            [] => false,
            [other, others @ ..] => {
                are_same_steps(first, other) && are_same_statements(rest, others)
            }
        },
    }
}
