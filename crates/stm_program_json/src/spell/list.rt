//! Writing the list of a program, and the statements after it.
ghost use Rattle.std.specs.Prelude.{◌≡◌, [], ◌∷◌, IfOk, codes, map, string_bytes};
ghost use Rattle.serde_json.specs.Data.{array};
ghost use Rattle.serde_json.specs.View.{view, items_view};
ghost use Rattle.stm_json.specs.Parts.{spelled};
ghost use Rattle.stm_program.specs.BlockView.{block_of};
ghost use Rattle.stm_program_json.specs.Writing.{items_after, written_keys, written_statements, after_list};

use crate::spell::arrays::one_part;
use crate::spell::statements::{statements_after, statements_value};
use serde_json::Value;
use std::alloc::{AllocError, Global};
use stm_program::Stmt;

/// These values, and keys after them.
fn with_keys(alloc: Global, values: Vec<Value>, keys: &[String]) -> Result<Vec<Value>, AllocError>
    ensures { IfOk result (λ vs. items_view vs.items ≡ items_after (map view values.items) (written_keys (map string_bytes keys.now))) }
{
    let mut values = values;
    match keys {
        [] => Ok(values),
        [first, rest @ ..] => {
            let key = Value::try_from_str(alloc, first.as_str())?;
            values.push(key)?;
            with_keys(alloc, values, rest)
        }
    }
}

/// What a list is written as: the array of its keys after its word.
fn list_value(alloc: Global, keys: &[String]) -> Result<Value, AllocError>
    ensures { IfOk result (λ v. view v ≡ spelled (codes "prefetch") (array (written_keys (map string_bytes keys.now)) ∷ [])) }
{
    let keys = with_keys(alloc, Vec::new(alloc), keys)?;
    one_part(alloc, "prefetch", Value::Array(keys))
}

/// The array of statements after a list of these keys, or alone, where there are none.
pub(crate) fn program_value(
    alloc: Global,
    keys: &[String],
    statements: &[Stmt],
) -> Result<Value, AllocError>
    ensures { IfOk result (λ v. view v ≡ array (after_list (map string_bytes keys.now) (written_statements (block_of statements.now)))) }
{
    if keys.is_empty() {
        return statements_value(alloc, statements);
    }
    let list = list_value(alloc, keys)?;
    let mut before = Vec::new(alloc);
    before.push(list)?;
    statements_after(alloc, before, statements)
}
