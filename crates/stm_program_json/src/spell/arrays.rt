//! Arrays of a word and its parts.
ghost use Rattle.std.specs.Prelude.{◌≡◌, [], ◌∷◌, IfOk};
ghost use Rattle.serde_json.specs.View.{view};
ghost use Rattle.stm_json.specs.Parts.{spelled};

use serde_json::Value;
use std::alloc::{AllocError, Global};

pub(crate) fn one_part(alloc: Global, word: &str, part: Value) -> Result<Value, AllocError>
    ensures { IfOk result (λ v. view v ≡ spelled word.now (view part ∷ [])) }
{
    let word = Value::try_from_str(alloc, word)?;
    let parts = vec![in alloc; word, part]?;
    Ok(Value::from(parts))
}

pub(crate) fn two_parts(
    alloc: Global,
    word: &str,
    first: Value,
    second: Value,
) -> Result<Value, AllocError>
    ensures { IfOk result (λ v. view v ≡ spelled word.now (view first ∷ view second ∷ [])) }
{
    let word = Value::try_from_str(alloc, word)?;
    let parts = vec![in alloc; word, first, second]?;
    Ok(Value::from(parts))
}

pub(crate) fn three_parts(
    alloc: Global,
    word: &str,
    first: Value,
    second: Value,
    third: Value,
) -> Result<Value, AllocError>
    ensures { IfOk result (λ v. view v ≡ spelled word.now (view first ∷ view second ∷ view third ∷ [])) }
{
    let word = Value::try_from_str(alloc, word)?;
    let parts = vec![in alloc; word, first, second, third]?;
    Ok(Value::from(parts))
}

pub(crate) fn four_parts(
    alloc: Global,
    word: &str,
    first: Value,
    second: Value,
    third: Value,
    fourth: Value,
) -> Result<Value, AllocError>
    ensures { IfOk result (λ v. view v ≡ spelled word.now (view first ∷ view second ∷ view third ∷ view fourth ∷ [])) }
{
    let word = Value::try_from_str(alloc, word)?;
    let parts = vec![in alloc; word, first, second, third, fourth]?;
    Ok(Value::from(parts))
}
