//! The whole numbers of programs: their arithmetic, their spelling and their order.
ghost use Rattle.std.specs.Prelude.{◌≡◌, ◌↔◌, IfOk, IsTrue, slice_index};
ghost use Rattle.stm_steps.specs.Values.{arithmetic, computed, text_of, written_number, num_of};

use crate::fault::Fault;
use crate::value::Value;
use itoa::Buffer;
use std::alloc::{AllocError, Global};
use stm_history::Text;
use stm_program::Operator;

/// A quotient, truncated towards zero. A zero divisor is checked before the range.
#[tactic(auto, unfolding(crate::specs::Values::computed), using(crate::proofs::IntegerRange::in_range))]
fn quotient(left: i64, right: i64) -> Result<i64, Fault>
    ensures { result ≡ computed Operator.Div left right }
{
    if right == 0 {
        return Err(Fault::ZeroDivisor);
    }
    left.checked_div(right).ok_or(Fault::Overflow)
}

/// The remainder of a division, with the sign of the left number. It is refused where the quotient is.
#[tactic(auto, unfolding(crate::specs::Values::computed), using(crate::proofs::IntegerRange::in_range))]
fn rest(left: i64, right: i64) -> Result<i64, Fault>
    ensures { result ≡ computed Operator.Rem left right }
{
    if right == 0 {
        return Err(Fault::ZeroDivisor);
    }
    left.checked_rem(right).ok_or(Fault::Overflow)
}

/// What an operator computes of two numbers.
#[tactic(auto, unfolding(crate::specs::Values::computed), using(crate::proofs::IntegerRange::in_range))]
fn compute(operator: Operator, left: i64, right: i64) -> Result<i64, Fault>
    ensures { result ≡ computed operator left right }
{
    match operator {
        Operator::Add => left.checked_add(right).ok_or(Fault::Overflow),
        Operator::Sub => left.checked_sub(right).ok_or(Fault::Overflow),
        Operator::Mul => left.checked_mul(right).ok_or(Fault::Overflow),
        Operator::Div => quotient(left, right),
        Operator::Rem => rest(left, right),
    }
}

/// What an operator computes of two values. `Kind` is answered where one of them is a text, `ZeroDivisor` for a
/// division or a remainder by 0, and then `Overflow` for a result out of range.
#[tactic(auto, unfolding(crate::specs::Values::arithmetic))]
#[inline(always)]
pub fn combine(operator: Operator, left: &Value, right: &Value) -> Result<Value, Fault>
    ensures { result ≡ arithmetic operator left.now right.now }
{
    match (left, right) {
        (Value::Number(a), Value::Number(b)) => Ok(Value::Number(compute(operator, *a, *b)?)),
        _ => Err(Fault::Kind),
    }
}

/// A number as decimal text. `Kind` is answered for a text.
#[tactic(auto, unfolding(crate::specs::Values::text_of))]
#[inline(always)]
pub fn spell(alloc: Global, value: &Value) -> Result<Result<Value, Fault>, AllocError>
    ensures { IfOk result (λ r. r ≡ text_of value.now) }
{
    match value {
        Value::Number(number) => {
            let mut digits = Buffer::new();
            let text = Text::copy_of(alloc, digits.format(*number))?;
            Ok(Ok(Value::Text(text)))
        }
        Value::Text(_) => Ok(Err(Fault::Kind)),
    }
}

/// Whether a text begins with a `+`, which `parse` takes and programs do not.
fn starts_with_plus(text: &str) -> bool
    ensures { IsTrue result ↔ (slice_index text.now 0 ≡ 43) }
{
    let bytes = text.as_bytes();
    !bytes.is_empty() && bytes[0] == b'+'
}

/// The number that a text spells: an optional `-`, then digits. A leading `+` is refused.
fn read_number(text: &str) -> Result<i64, Fault>
    ensures { result ≡ written_number text.now }
{
    if starts_with_plus(text) {
        return Err(Fault::NotANumber);
    }
    match text.parse::<i64>() {
        Ok(number) => Ok(number),
        Err(_) => Err(Fault::NotANumber),
    }
}

/// The number that a text value spells. `Kind` is answered for a number, `NotANumber` where the text spells none.
#[tactic(auto, unfolding(crate::specs::Values::num_of))]
pub fn number_of(value: &Value) -> Result<Value, Fault>
    ensures { result ≡ num_of value.now }
{
    match value {
        Value::Text(text) => Ok(Value::Number(read_number(text.as_str())?)),
        Value::Number(_) => Err(Fault::Kind),
    }
}
