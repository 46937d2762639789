//! Keys for which a program says what stands in their place where they are absent: `get(KEY) else VALUE`.

use stm_program::{Block, Cond, CondNode, Expr, ExprNode, Stmt, StmtNode, Variable};

/// Whether a key may begin with the text of an expression, by its spelling.
#[cycle(expressions)]
fn may_begin(text: &Expr, key: &str) -> bool {
    match &text.node {
        ExprNode::Text(known) => key.starts_with(known.as_str()),
        ExprNode::Cat(left, _) => may_begin(left, key),
        _ => false,
    }
}

/// Whether an expression may look up a key, by its spelling.
fn may_get(value: &Expr, key: &str) -> bool {
    match &value.node {
        ExprNode::Get(text) => match &text.node {
            ExprNode::Text(known) => known.as_str() == key,
            _ => may_begin(text, key),
        },
        _ => false,
    }
}

/// Whether an expression is this variable.
fn is_variable(expression: &Expr, variable: Variable) -> bool {
    match &expression.node {
        ExprNode::Variable(other) => other.number() == variable.number(),
        _ => false,
    }
}

/// Whether an expression is the empty text.
fn is_no_text(expression: &Expr) -> bool {
    match &expression.node {
        ExprNode::Text(text) => text.as_str().is_empty(),
        _ => false,
    }
}

/// Whether a condition is that a variable is empty.
fn is_unset(condition: &Cond, variable: Variable) -> bool {
    match &condition.node {
        CondNode::Equal(left, right) => is_variable(left, variable) && is_no_text(right),
        _ => false,
    }
}

/// Whether the last statement of a block sets a variable: what it is set to may be looked up before.
fn sets(block: &Block, variable: Variable) -> bool {
    let statements: &Vec<Stmt> = &block.statements;
    match statements.last() {
        Some(last) => match &last.node {
            StmtNode::Set(other, _) => other.number() == variable.number(),
            _ => false,
        },
        None => false,
    }
}

/// Whether a statement sets a variable that is empty.
fn fills(statement: &Stmt, variable: Variable) -> bool {
    match &statement.node {
        StmtNode::If(condition, yes, _) => is_unset(condition, variable) && sets(yes, variable),
        _ => false,
    }
}

/// Whether the first of these statements may look up a key, and the next one sets what it found, where that is empty.
fn is_filled(statements: &[Stmt], key: &str) -> bool {
    match statements {
        [first, next, ..] => match &first.node {
            StmtNode::Set(variable, value) => may_get(value, key) && fills(next, *variable),
            _ => false,
        },
        _ => false,
    }
}

/// Whether a statement has within it an `else` for a key.
#[cycle(statements)]
fn has_else(statement: &Stmt, key: &str) -> bool {
    match &statement.node {
        StmtNode::If(_, yes, no) => {
            if has_else_within(yes, key) {
                return true;
            }
            has_else_within(no, key)
        }
        StmtNode::For(_, _, _, body) => has_else_within(body, key),
        StmtNode::Put(_, _, _)
        | StmtNode::Del(_)
        | StmtNode::Set(_, _)
        | StmtNode::Emit(_)
        | StmtNode::Abort(_) => false,
    }
}

/// Whether a block has one.
#[cycle(statements)]
fn has_else_within(block: &Block, key: &str) -> bool {
    let statements: &Vec<Stmt> = &block.statements;
    have_else(statements.as_slice(), key)
}

/// Whether statements have an `else` for a key, by their spelling.
#[cycle(statements)]
pub(crate) fn have_else(statements: &[Stmt], key: &str) -> bool {
    if is_filled(statements, key) {
        return true;
    }
    match statements {
        [] => false,
        [first, rest @ ..] => {
            if has_else(first, key) {
                return true;
            }
            have_else(rest, key)
        }
    }
}
