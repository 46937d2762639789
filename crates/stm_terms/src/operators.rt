//! What is computed of one value, and of two: calls and operators.
ghost use Rattle.std.specs.Prelude.{◌≡◌, option_map, IfOk};
ghost use Rattle.stm_terms.specs.Values as spec;

use crate::kinds::{Kind, Valued};
use crate::limits::MOST_JOINS;
use crate::look_ups::both;
use crate::scope::Scope;
use std::alloc::{AllocError, Global};
use std::sync::Arc;
use stm_program::{Expr, ExprNode, Operator};
use stm_tokens::{Symbol, Token, TokenKind, Word};

/// What is computed of one value.
#[derive(Clone, Copy, PartialEq, Eq)]
pub enum Call {
    /// `get`
    Get,
    /// `rev`
    Rev,
    /// `num_of`
    NumOf,
    /// `text_of`
    TextOf,
}

/// What is computed of two values.
#[derive(Clone, Copy, Debug, PartialEq, Eq)]
pub enum Join {
    /// An operator on two numbers.
    Arithmetic(Operator),
    /// `++`
    Concatenate,
}

/// What a word computes of one value.
pub(crate) fn call_of(word: Word) -> Option<Call>
    ensures { result ≡ spec.call_of word }
{
    if word.is(Word::Get) {
        Some(Call::Get)
    } else if word.is(Word::Rev) {
        Some(Call::Rev)
    } else if word.is(Word::NumOf) {
        Some(Call::NumOf)
    } else if word.is(Word::TextOf) {
        Some(Call::TextOf)
    } else {
        None
    }
}

/// What something is computed of.
pub(crate) fn argument_kind(call: Call) -> Kind
    ensures { result ≡ spec.argument_kind call }
{
    match call {
        Call::Get | Call::Rev | Call::NumOf => Kind::Text,
        Call::TextOf => Kind::Number,
    }
}

/// What comes of it.
pub(crate) fn call_kind(call: Call) -> Kind
    ensures { result ≡ spec.call_kind call }
{
    match call {
        Call::Get | Call::TextOf => Kind::Text,
        Call::Rev | Call::NumOf => Kind::Number,
    }
}

pub(crate) fn call_node(call: Call, part: Arc<Expr>) -> Expr
    ensures { result ≡ spec.called call part.value }
{
    let node = match call {
        Call::Get => ExprNode::Get(part),
        Call::Rev => ExprNode::Rev(part),
        Call::NumOf => ExprNode::NumOf(part),
        Call::TextOf => ExprNode::TextOf(part),
    };
    Expr { node }
}

/// Two values with an operator between them.
pub fn join_node(join: Join, left: Arc<Expr>, right: Arc<Expr>) -> Expr
    ensures { result ≡ spec.joined join left.value right.value }
{
    let node = match join {
        Join::Arithmetic(operator) => ExprNode::Arithmetic(operator, left, right),
        Join::Concatenate => ExprNode::Cat(left, right),
    };
    Expr { node }
}

/// What an operator joins, and what comes of that.
pub fn join_kind(join: Join) -> Kind
    ensures { result ≡ spec.join_kind join }
{
    match join {
        Join::Arithmetic(_) => Kind::Number,
        Join::Concatenate => Kind::Text,
    }
}

/// Two values with an operator between them, which is the last one of a chain with so many before it.
pub(crate) fn joined_up(
    alloc: Global,
    scope: &Scope,
    done: usize,
    join: Join,
    left: Valued,
    right: Valued,
) -> Result<Valued, AllocError>
    ensures { IfOk result (λ e. e ≡ spec.joined_up scope.now done join left right) }
{
    if done < MOST_JOINS {
        let Valued {
            expression: left,
            look_ups,
            ..
        } = left;
        let Valued {
            expression: right,
            look_ups: more,
            ..
        } = right;
        let left = Arc::new(alloc, left)?;
        let right = Arc::new(alloc, right)?;
        let look_ups = both(look_ups, more)?;
        Ok(scope.valued_with(join_node(join, left, right), join_kind(join), look_ups))
    } else {
        Ok(left)
    }
}

/// The operator that a symbol is, where it is of a tier: those that bind most are of tier 1.
fn join_of(tier: usize, symbol: Symbol) -> Option<Join>
    ensures { result ≡ spec.join_of tier symbol }
{
    match symbol {
        Symbol::Arithmetic(operator) if tier == usize::from(4 - operator.rank()) => {
            Some(Join::Arithmetic(operator))
        }
        Symbol::Concatenate if tier == 3 => Some(Join::Concatenate),
        _ => None,
    }
}

/// The operator of a tier that is the next token.
#[tactic(auto, unfolding(crate::specs::Values::next_join))]
pub(crate) fn next_join(tier: usize, tokens: &[Token]) -> Option<(Join, &[Token])>
    ensures { option_map (λ p. (p.0, p.1.now)) result ≡ spec.next_join tier tokens.now }
{
    let (first, rest) = tokens.split_first()?;
    match &first.kind {
        TokenKind::Symbol(symbol) => {
            let join = join_of(tier, *symbol)?;
            Some((join, rest))
        }
        _ => None,
    }
}
