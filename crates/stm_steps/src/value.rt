//! The values that expressions have.
ghost use Rattle.std.specs.Prelude.{◌≡◌, ◌↔◌, IsTrue};

use std::alloc::AllocError;
use stm_history::Text;

/// A value of a program: a text or a whole number.
#[derive(Debug, PartialEq, Eq, Drop)]
pub enum Value {
    /// A text, of any length where it was read from a key.
    Text(Text),
    /// A whole number.
    Number(i64),
}

impl Clone for Value {
    ghost is_clone = { λ value copy. copy ≡ value };

    fn clone(&self) -> Result<Value, AllocError> {
        match self {
            Value::Text(text) => Ok(Value::Text(text.clone()?)),
            Value::Number(number) => Ok(Value::Number(*number)),
        }
    }
}

/// Whether two lists of values are the same.
pub fn are_same_values(left: &[Value], right: &[Value]) -> bool
    ensures { IsTrue result ↔ left.now ≡ right.now }
{
    left == right
}
