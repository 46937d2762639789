//! Statements of keys that count, in which an absent key counts as 0.
ghost use Rattle.std.specs.Prelude.{◌≡◌, ◌≤◌, IfOk};
ghost use Rattle.stm_program.specs.declared.limits.TheConstants.{MAX_VARIABLE};
ghost use Rattle.stm_recipes.specs.Accounts as recipe;

use crate::nodes::{
    arithmetic, block, equal, get, no_block, num_of, number, put, set, text, text_of, variable,
    when,
};
use std::alloc::{AllocError, Global};
use stm_program::{Operator, Stmt};

/// Reads the value of a key into a variable.
pub(crate) fn read_text(alloc: Global, place: u8, key: &str) -> Result<Stmt, AllocError>
    requires { place ≤ MAX_VARIABLE }
    ensures { IfOk result (λ s. s ≡ recipe.read_text place key.now) }
{
    let key = text(alloc, key)?;
    let held = get(alloc, key)?;
    Ok(set(place, held))
}

/// Replaces an empty text by "0".
pub(crate) fn zero_if_empty(alloc: Global, place: u8) -> Result<Stmt, AllocError>
    requires { place ≤ MAX_VARIABLE }
    ensures { IfOk result (λ s. s ≡ recipe.zero_if_empty place) }
{
    let held = variable(alloc, place)?;
    let empty = text(alloc, "")?;
    let condition = equal(alloc, held, empty)?;
    let zero = text(alloc, "0")?;
    let yes = block(alloc, set(place, zero))?;
    let no = no_block(alloc)?;
    Ok(when(condition, yes, no))
}

/// Puts the number of the first variable plus an amount as a key's value.
pub(crate) fn put_sum(alloc: Global, key: &str, amount: u32) -> Result<Stmt, AllocError>
    ensures { IfOk result (λ s. s ≡ recipe.put_sum key.now amount) }
{
    let held = variable(alloc, 0)?;
    let held = num_of(alloc, held)?;
    let amount = number(alloc, amount)?;
    let sum = arithmetic(alloc, Operator::Add, held, amount)?;
    let sum = text_of(alloc, sum)?;
    let key = text(alloc, key)?;
    Ok(put(key, sum, 0))
}
