//! Finding the mark of a node.
ghost use Rattle.std.specs.Prelude.{◌≡◌, None};
ghost use Rattle.stm_program.specs.BlockView.{block_of};
ghost use Rattle.stm_marks.specs.Marks as spec;

use crate::marks::marked;
use stm_program::{Block, Stmt, StmtNode};

/// The same in a part of a statement, by the index of the part and the indices within it.
#[cycle(finding)]
fn place_in_statement(statement: &Stmt, known: Option<usize>, path: &[usize]) -> Option<usize>
    ensures { result ≡ spec.place_in_statement known path.now statement.now }
{
    let [part, inner @ ..] = path else {
        return known;
    };
    match &statement.node {
        StmtNode::If(_, yes, no) => {
            if *part == 2 {
                place_in_block(yes, known, inner)
            } else if *part == 3 {
                place_in_block(no, known, inner)
            } else {
                known
            }
        }
        StmtNode::For(_, _, _, body) => {
            if *part == 4 {
                place_in_block(body, known, inner)
            } else {
                known
            }
        }
        _ => known,
    }
}

/// The same in a block.
#[cycle(finding)]
fn place_in_block(block: &Block, known: Option<usize>, path: &[usize]) -> Option<usize>
    ensures { result ≡ spec.place_at block.now known path.now }
{
    let [index, inner @ ..] = path else {
        return known;
    };
    let statements: &Vec<Stmt> = &block.statements;
    place_in(statements, known, *index, inner)
}

/// The same in the statement with an index among these, which are not counted with their marks.
#[cycle(finding)]
fn place_in(
    statements: &[Stmt],
    known: Option<usize>,
    index: usize,
    inner: &[usize],
) -> Option<usize>
    ensures { result ≡ spec.place_in known index inner.now (block_of statements.now) }
{
    let [first, rest @ ..] = statements else {
        return known;
    };
    if let Some(at) = marked(first) {
        return place_in(rest, Some(at), index, inner);
    }
    if index == 0 {
        return place_in_statement(first, known, inner);
    }
    place_in(rest, known, index - 1, inner)
}

/// Where in a source the node of a program begins to which these indices lead in its JSON, each in the array that the ones before it lead to: at the
/// byte that the last mark before it says, or, where none stands before it in its block, the last before the statement of that block.
///
/// The block is that of the program, with marks. None is answered where no mark stands before the node.
pub fn place_of(block: &Block, path: &[usize]) -> Option<usize>
    ensures { result ≡ spec.place_at block.now None path.now }
{
    place_in_block(block, None, path)
}
