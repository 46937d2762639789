//! The names that recipes take, and the keys that are made of them.
ghost use Rattle.std.specs.Prelude.{◌≡◌, ◌++◌, IfOk};

use std::alloc::{AllocError, Global};
use stm_history::Text;

/// How many bytes the name of an account, a queue or a slot, an item and a holder may have. The least is 1.
pub const MAX_NAME: usize = 1024;

/// The name and what follows it, as one key.
pub(crate) fn joined(alloc: Global, name: &str, rest: &str) -> Result<Text, AllocError>
    ensures { IfOk result (λ key. key ≡ name.now ++ rest.now) }
{
    let mut key = String::from_str(alloc, name)?;
    key.push_str(rest)?;
    Ok(Text::new(key))
}
