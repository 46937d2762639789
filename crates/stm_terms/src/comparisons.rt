//! Comparisons of two values.
ghost use Rattle.std.specs.Prelude.{◌≡◌, option_map, IfOk};
ghost use Rattle.stm_program.specs.Syntax as tree;
ghost use Rattle.stm_terms.specs.Comparisons as spec;

use std::alloc::{AllocError, Global};
use std::sync::Arc;
use stm_program::{Cond, CondNode, Expr, ExprNode};
use stm_tokens::{Symbol, Token, TokenKind};

/// A comparison of two values.
#[derive(Clone, Copy, PartialEq, Eq)]
pub enum Comparison {
    /// `==`
    Equal,
    /// `!=`
    NotEqual,
    /// `<`
    Less,
    /// `<=`
    LessOrEqual,
    /// `>`
    Greater,
    /// `>=`
    GreaterOrEqual,
}

/// Whether a value looks a key up.
fn looks_up(expression: &Expr) -> bool
    ensures { result ≡ spec.looks_up expression.now }
{
    match &expression.node {
        ExprNode::Text(_) | ExprNode::Number(_) | ExprNode::Variable(_) => false,
        ExprNode::Get(_) | ExprNode::Rev(_) => true,
        ExprNode::Arithmetic(_, left, right) | ExprNode::Cat(left, right) => {
            looks_up(left) || looks_up(right)
        }
        ExprNode::TextOf(part) | ExprNode::NumOf(part) => looks_up(part),
    }
}

/// The condition that another one does not hold.
pub(crate) fn not(alloc: Global, condition: Cond) -> Result<Cond, AllocError>
    ensures { IfOk result (λ c. c ≡ tree.Not condition) }
{
    let part = Arc::new(alloc, condition)?;
    Ok(Cond {
        node: CondNode::Not(part),
    })
}

fn equal(left: Arc<Expr>, right: Arc<Expr>) -> Cond
    ensures { result ≡ tree.Equal left.value right.value }
{
    Cond {
        node: CondNode::Equal(left, right),
    }
}

fn less(left: Arc<Expr>, right: Arc<Expr>) -> Cond
    ensures { result ≡ tree.Less left.value right.value }
{
    Cond {
        node: CondNode::Less(left, right),
    }
}

/// That the left value is below the right one or equal to it, looking at the left one first.
fn less_or_equal(alloc: Global, left: Arc<Expr>, right: Arc<Expr>) -> Result<Cond, AllocError>
    ensures { IfOk result (λ c. c ≡ tree.Or (tree.Less left.value right.value) (tree.Equal left.value right.value)) }
{
    let below = less(left.clone()?, right.clone()?);
    let below = Arc::new(alloc, below)?;
    let same = Arc::new(alloc, equal(left, right))?;
    Ok(Cond {
        node: CondNode::Or(below, same),
    })
}

fn above(alloc: Global, left: Arc<Expr>, right: Arc<Expr>) -> Result<Cond, AllocError>
    ensures { IfOk result (λ c. c ≡ spec.above left.value right.value) }
{
    if looks_up(&left) && looks_up(&right) {
        let condition = less_or_equal(alloc, left, right)?;
        return not(alloc, condition);
    }
    Ok(less(right, left))
}

fn not_above(alloc: Global, left: Arc<Expr>, right: Arc<Expr>) -> Result<Cond, AllocError>
    ensures { IfOk result (λ c. c ≡ spec.not_above left.value right.value) }
{
    if looks_up(&left) && looks_up(&right) {
        return less_or_equal(alloc, left, right);
    }
    not(alloc, less(right, left))
}

/// The comparison of two values.
pub(crate) fn compared(
    alloc: Global,
    comparison: Comparison,
    left: Expr,
    right: Expr,
) -> Result<Cond, AllocError>
    ensures { IfOk result (λ c. c ≡ spec.compared comparison left right) }
{
    let left = Arc::new(alloc, left)?;
    let right = Arc::new(alloc, right)?;
    match comparison {
        Comparison::Equal => Ok(equal(left, right)),
        Comparison::NotEqual => not(alloc, equal(left, right)),
        Comparison::Less => Ok(less(left, right)),
        Comparison::GreaterOrEqual => not(alloc, less(left, right)),
        Comparison::Greater => above(alloc, left, right),
        Comparison::LessOrEqual => not_above(alloc, left, right),
    }
}

fn comparison_of(symbol: Symbol) -> Option<Comparison>
    ensures { result ≡ spec.comparison_of symbol }
{
    if symbol.is(Symbol::Equal) {
        Some(Comparison::Equal)
    } else if symbol.is(Symbol::NotEqual) {
        Some(Comparison::NotEqual)
    } else if symbol.is(Symbol::Less) {
        Some(Comparison::Less)
    } else if symbol.is(Symbol::LessOrEqual) {
        Some(Comparison::LessOrEqual)
    } else if symbol.is(Symbol::Greater) {
        Some(Comparison::Greater)
    } else if symbol.is(Symbol::GreaterOrEqual) {
        Some(Comparison::GreaterOrEqual)
    } else {
        None
    }
}

/// The comparison that is the next token.
#[tactic(auto, unfolding(crate::specs::Comparisons::next_comparison))]
pub(crate) fn next_comparison(tokens: &[Token]) -> Option<(Comparison, &[Token])>
    ensures { option_map (λ p. (p.0, p.1.now)) result ≡ spec.next_comparison tokens.now }
{
    let (first, rest) = tokens.split_first()?;
    match &first.kind {
        TokenKind::Symbol(symbol) => {
            let comparison = comparison_of(*symbol)?;
            Some((comparison, rest))
        }
        _ => None,
    }
}
