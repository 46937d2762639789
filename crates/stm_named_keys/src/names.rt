//! What the spelling of an expression says of its text.
ghost use Rattle.std.specs.Prelude.{◌≡◌, ◌++◌, IfOk, string_bytes};
ghost use Rattle.std.specs.Fmt.{signed_decimal};
ghost use Rattle.stm_named_keys.specs.Named.{any_text, followed, named, number_named, whole};

use itoa::Buffer;
use std::alloc::{AllocError, Global};
use stm_history::Text;
use stm_program::{Expr, ExprNode};

/// A key, as the spelling of a program says it.
#[derive(Debug, Drop)]
pub struct Name {
    /// The key, or the text with which it begins.
    pub text: Text,
    /// Whether it is that key and no other.
    pub is_whole: bool,
}

/// This text and no other.
pub(crate) fn whole(alloc: Global, text: &str) -> Result<Name, AllocError>
    ensures { IfOk result (λ name. name ≡ whole text.now) }
{
    let text = Text::copy_of(alloc, text)?;
    let is_whole = true;
    Ok(Name { text, is_whole })
}

/// Any text.
fn any_text(alloc: Global) -> Name
    ensures { result ≡ any_text }
{
    let text = Text::new(String::new(alloc));
    let is_whole = false;
    Name { text, is_whole }
}

/// Two texts in a row.
fn joined(alloc: Global, left: &str, right: &str) -> Result<Text, AllocError>
    ensures { IfOk result (λ text. text ≡ left.now ++ right.now) }
{
    let mut text = String::from_str(alloc, left)?;
    text.push_str(right)?;
    Ok(Text::new(text))
}

/// What one name and then another say of two texts in a row.
fn followed(alloc: Global, left: Name, right: &Name) -> Result<Name, AllocError>
    ensures { IfOk result (λ name. name ≡ followed left right.now) }
{
    if !left.is_whole {
        return Ok(left);
    }
    let text = joined(alloc, left.text.as_str(), right.text.as_str())?;
    let is_whole = right.is_whole;
    Ok(Name { text, is_whole })
}

/// A number in decimal, and no other text.
fn decimal(alloc: Global, number: i64) -> Result<Name, AllocError>
    ensures { IfOk result (λ name. name ≡ whole (signed_decimal number)) }
{
    let mut buffer = Buffer::new();
    whole(alloc, buffer.format(number))
}

/// What is said of the text of a number.
fn number_named(alloc: Global, number: &Expr) -> Result<Name, AllocError>
    ensures { IfOk result (λ name. name ≡ number_named number.now) }
{
    match &number.node {
        ExprNode::Number(number) => decimal(alloc, *number),
        ExprNode::Text(_)
        | ExprNode::Variable(_)
        | ExprNode::Get(_)
        | ExprNode::Rev(_)
        | ExprNode::Arithmetic(_, _, _)
        | ExprNode::Cat(_, _)
        | ExprNode::TextOf(_)
        | ExprNode::NumOf(_) => Ok(any_text(alloc)),
    }
}

/// What two expressions say of their texts in a row.
#[cycle(named)]
fn both_named(alloc: Global, left: &Expr, right: &Expr) -> Result<Name, AllocError>
    ensures { IfOk result (λ name. name ≡ followed (named left.now) (named right.now)) }
{
    let left = named(alloc, left)?;
    let right = match named(alloc, right) {
        Ok(right) => right,
        Err(error) => {
            drop(left);
            return Err(error);
        }
    };
    followed(alloc, left, &right)
}

/// What the spelling of an expression says of the text that it gives.
#[cycle(named)]
pub(crate) fn named(alloc: Global, expression: &Expr) -> Result<Name, AllocError>
    ensures { IfOk result (λ name. name ≡ named expression.now) }
{
    match &expression.node {
        ExprNode::Text(text) => whole(alloc, text.as_str()),
        ExprNode::Cat(left, right) => both_named(alloc, left, right),
        ExprNode::TextOf(number) => number_named(alloc, number),
        ExprNode::Number(_)
        | ExprNode::Variable(_)
        | ExprNode::Get(_)
        | ExprNode::Rev(_)
        | ExprNode::Arithmetic(_, _, _)
        | ExprNode::NumOf(_) => Ok(any_text(alloc)),
    }
}
