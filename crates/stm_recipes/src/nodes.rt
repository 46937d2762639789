//! The nodes of programs, one function for each that a recipe has. Each fails only when out of memory.
ghost use Rattle.std.specs.Prelude.{◌≡◌, ◌≤◌, IfOk, pos};
ghost use Rattle.stm_program.specs.BlockView.{block_of};
ghost use Rattle.stm_program.specs.ExpressionView.{expression_of};
ghost use Rattle.stm_program.specs.Syntax as tree;
ghost use Rattle.stm_program.specs.declared.limits.TheConstants.{MAX_VARIABLE};

use std::alloc::{AllocError, Global};
use std::sync::Arc;
use stm_history::Text;
use stm_program::{Block, Cond, CondNode, Expr, ExprNode, Operator, Stmt, StmtNode, Variable};

fn expression(alloc: Global, node: ExprNode) -> Result<Arc<Expr>, AllocError>
    ensures { IfOk result (λ e. e.value ≡ expression_of node) }
{
    let expression = Arc::new(alloc, Expr { node })?;
    Ok(expression)
}

/// A text literal.
pub(crate) fn text(alloc: Global, text: &str) -> Result<Arc<Expr>, AllocError>
    ensures { IfOk result (λ e. e.value ≡ tree.Text text.now) }
{
    let text = Text::copy_of(alloc, text)?;
    expression(alloc, ExprNode::Text(text))
}

/// An amount, as a number.
pub(crate) fn number(alloc: Global, amount: u32) -> Result<Arc<Expr>, AllocError>
    ensures { IfOk result (λ e. e.value ≡ tree.Number (pos amount)) }
{
    expression(alloc, ExprNode::Number(i64::from(amount)))
}

/// The value of a variable.
pub(crate) fn variable(alloc: Global, variable: u8) -> Result<Arc<Expr>, AllocError>
    requires { variable ≤ MAX_VARIABLE }
    ensures { IfOk result (λ e. e.value ≡ tree.Variable variable) }
{
    let variable = Variable::new(variable);
    expression(alloc, ExprNode::Variable(variable))
}

/// The value of a key.
pub(crate) fn get(alloc: Global, key: Arc<Expr>) -> Result<Arc<Expr>, AllocError>
    ensures { IfOk result (λ e. e.value ≡ tree.Get key.value) }
{
    expression(alloc, ExprNode::Get(key))
}

/// The modification revision of a key.
pub(crate) fn rev(alloc: Global, key: Arc<Expr>) -> Result<Arc<Expr>, AllocError>
    ensures { IfOk result (λ e. e.value ≡ tree.Rev key.value) }
{
    expression(alloc, ExprNode::Rev(key))
}

/// An operator on two numbers.
pub(crate) fn arithmetic(
    alloc: Global,
    operator: Operator,
    left: Arc<Expr>,
    right: Arc<Expr>,
) -> Result<Arc<Expr>, AllocError>
    ensures { IfOk result (λ e. e.value ≡ tree.Arithmetic operator left.value right.value) }
{
    expression(alloc, ExprNode::Arithmetic(operator, left, right))
}

/// Two texts, concatenated.
pub(crate) fn cat(alloc: Global, left: Arc<Expr>, right: Arc<Expr>) -> Result<Arc<Expr>, AllocError>
    ensures { IfOk result (λ e. e.value ≡ tree.Cat left.value right.value) }
{
    expression(alloc, ExprNode::Cat(left, right))
}

/// A number as decimal text.
pub(crate) fn text_of(alloc: Global, number: Arc<Expr>) -> Result<Arc<Expr>, AllocError>
    ensures { IfOk result (λ e. e.value ≡ tree.TextOf number.value) }
{
    expression(alloc, ExprNode::TextOf(number))
}

/// A decimal text as a number.
pub(crate) fn num_of(alloc: Global, text: Arc<Expr>) -> Result<Arc<Expr>, AllocError>
    ensures { IfOk result (λ e. e.value ≡ tree.NumOf text.value) }
{
    expression(alloc, ExprNode::NumOf(text))
}

/// Whether two values are equal.
pub(crate) fn equal(
    alloc: Global,
    left: Arc<Expr>,
    right: Arc<Expr>,
) -> Result<Arc<Cond>, AllocError>
    ensures { IfOk result (λ c. c.value ≡ tree.Equal left.value right.value) }
{
    let condition = Arc::new(
        alloc,
        Cond {
            node: CondNode::Equal(left, right),
        },
    )?;
    Ok(condition)
}

/// Whether the left value is below the right one.
pub(crate) fn less(
    alloc: Global,
    left: Arc<Expr>,
    right: Arc<Expr>,
) -> Result<Arc<Cond>, AllocError>
    ensures { IfOk result (λ c. c.value ≡ tree.Less left.value right.value) }
{
    let condition = Arc::new(
        alloc,
        Cond {
            node: CondNode::Less(left, right),
        },
    )?;
    Ok(condition)
}

/// A variable becomes a value.
pub(crate) fn set(variable: u8, value: Arc<Expr>) -> Stmt
    requires { variable ≤ MAX_VARIABLE }
    ensures { result ≡ tree.Set variable value.value }
{
    let variable = Variable::new(variable);
    Stmt {
        node: StmtNode::Set(variable, value),
    }
}

/// A key is put with a value, on a lease (0 for none).
pub(crate) fn put(key: Arc<Expr>, value: Arc<Expr>, lease: u64) -> Stmt
    ensures { result ≡ tree.Put key.value value.value lease }
{
    Stmt {
        node: StmtNode::Put(key, value, lease),
    }
}

/// A key is deleted.
pub(crate) fn del(key: Arc<Expr>) -> Stmt
    ensures { result ≡ tree.Del key.value }
{
    Stmt {
        node: StmtNode::Del(key),
    }
}

/// A value is emitted.
pub(crate) fn emit(value: Arc<Expr>) -> Stmt
    ensures { result ≡ tree.Emit value.value }
{
    Stmt {
        node: StmtNode::Emit(value),
    }
}

/// The run ends with a text.
pub(crate) fn abort(alloc: Global, cause: &str) -> Result<Stmt, AllocError>
    ensures { IfOk result (λ s. s ≡ tree.Abort (tree.Text cause.now)) }
{
    let cause = text(alloc, cause)?;
    Ok(Stmt {
        node: StmtNode::Abort(cause),
    })
}

/// The first block runs where the condition holds, and else the second.
pub(crate) fn when(condition: Arc<Cond>, yes: Block, no: Block) -> Stmt
    ensures { result ≡ tree.If condition.value yes no }
{
    Stmt {
        node: StmtNode::If(condition, yes, no),
    }
}

/// The block of one statement.
pub(crate) fn block(alloc: Global, statement: Stmt) -> Result<Block, AllocError>
    ensures { IfOk result (λ b. b ≡ tree.Then statement tree.End) }
{
    let statements = vec![in alloc; statement]?;
    let statements = Arc::new(alloc, statements)?;
    Ok(Block { statements })
}

/// The block without a statement.
pub(crate) fn no_block(alloc: Global) -> Result<Block, AllocError>
    ensures { IfOk result (λ b. b ≡ tree.End) }
{
    let statements = Arc::new(alloc, Vec::new(alloc))?;
    Ok(Block { statements })
}
