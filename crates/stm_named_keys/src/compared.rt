//! The values that programs compare with texts.
ghost use Rattle.std.specs.Prelude.{◌≡◌, ◌++◌, ◌∷◌, [], IfOk, OnOk};
ghost use Rattle.stm_program.specs.BlockView.{block_of};
ghost use Rattle.stm_named_keys.specs.Named.{named};
ghost use Rattle.stm_named_keys.specs.Compared.{compared, compared_in_block, compared_in_condition, compared_in_statement, sided};

use crate::names::{Name, named};
use std::alloc::{AllocError, Global};
use stm_history::{Sequence, Text};
use stm_program::{Block, Cond, CondNode, Expr, ExprNode, Program, Stmt, StmtNode};

/// That the value of a key is compared with a text.
#[derive(Debug, Drop)]
pub struct Compared {
    /// The key, as the spelling of the program says it.
    pub key: Name,
    /// The text.
    pub text: Text,
}

/// Adds a comparison of the value of a key with a text.
fn add_pair(
    alloc: Global,
    all: &mut Sequence<Compared>,
    key: &Expr,
    text: &Text,
) -> Result<(), AllocError>
    ensures { OnOk result (all.new ≡ all.old ++ (record { key = named key.now; text = text.now }) ∷ []) }
{
    let key = named(alloc, key)?;
    let text = match text.clone() {
        Ok(text) => text,
        Err(error) => {
            drop(key);
            return Err(error);
        }
    };
    all.push(Compared { key, text })
}

/// Adds a comparison of two values, where the first one is that of a key, and the second one a text.
fn add_sided(
    alloc: Global,
    all: &mut Sequence<Compared>,
    left: &Expr,
    right: &Expr,
) -> Result<(), AllocError>
    ensures { OnOk result (all.new ≡ all.old ++ sided left.now right.now) }
{
    match (&left.node, &right.node) {
        (ExprNode::Get(key), ExprNode::Text(text)) => add_pair(alloc, all, key, text),
        _ => Ok(()),
    }
}

/// Adds what a condition compares.
#[cycle(conditions)]
fn add_condition(
    alloc: Global,
    all: &mut Sequence<Compared>,
    condition: &Cond,
) -> Result<(), AllocError>
    ensures { OnOk result (all.new ≡ all.old ++ compared_in_condition condition.now) }
{
    match &condition.node {
        CondNode::Equal(left, right) => {
            add_sided(alloc, all, left, right)?;
            add_sided(alloc, all, right, left)
        }
        CondNode::Less(_, _) => Ok(()),
        CondNode::Not(part) => add_condition(alloc, all, part),
        CondNode::And(left, right) | CondNode::Or(left, right) => {
            add_condition(alloc, all, left)?;
            add_condition(alloc, all, right)
        }
    }
}

/// Adds what a statement compares.
#[cycle(statements)]
fn add_statement(
    alloc: Global,
    all: &mut Sequence<Compared>,
    statement: &Stmt,
) -> Result<(), AllocError>
    ensures { OnOk result (all.new ≡ all.old ++ compared_in_statement statement.now) }
{
    match &statement.node {
        StmtNode::If(condition, yes, no) => {
            add_condition(alloc, all, condition)?;
            add_block(alloc, all, yes)?;
            add_block(alloc, all, no)
        }
        StmtNode::For(_, _, _, body) => add_block(alloc, all, body),
        StmtNode::Set(_, _)
        | StmtNode::Put(_, _, _)
        | StmtNode::Del(_)
        | StmtNode::Emit(_)
        | StmtNode::Abort(_) => Ok(()),
    }
}

/// Adds what a block compares.
#[cycle(statements)]
fn add_block(alloc: Global, all: &mut Sequence<Compared>, block: &Block) -> Result<(), AllocError>
    ensures { OnOk result (all.new ≡ all.old ++ compared_in_block block.now) }
{
    let statements: &Vec<Stmt> = &block.statements;
    add_statements(alloc, all, statements.as_slice())
}

/// Adds what statements compare.
#[cycle(statements)]
fn add_statements(
    alloc: Global,
    all: &mut Sequence<Compared>,
    statements: &[Stmt],
) -> Result<(), AllocError>
    ensures { OnOk result (all.new ≡ all.old ++ compared_in_block (block_of statements.now)) }
{
    match statements {
        [] => Ok(()),
        [first, rest @ ..] => {
            add_statement(alloc, all, first)?;
            add_statements(alloc, all, rest)
        }
    }
}

/// The comparisons of a key's value with a text for whether they are equal, on either side, in the order in which they are written, whether a run comes to
/// them or not. It fails only when out of memory.
pub fn values_compared(alloc: Global, program: &Program) -> Result<Sequence<Compared>, AllocError>
    ensures { IfOk result (λ all. all ≡ compared program.now) }
{
    let mut all = Sequence::new(alloc);
    add_statements(alloc, &mut all, program.statements())?;
    Ok(all)
}
