//! Lists of values that are written alike, and arrays of a word and parts.
ghost use Rattle.std.specs.Prelude.{◌≡◌, ◌++◌, [], ◌∷◌, map, IfOk, OnOk};
ghost use Rattle.serde_json.specs.Data.{Data, string};
ghost use Rattle.serde_json.specs.View.{view};
ghost use Rattle.stm_json.specs.Parts.{spelled};
ghost use Rattle.stm_program_json.specs.Writing.{written_number};
ghost use Rattle.stm_texts.specs.Writing.{written_list};

use serde_json::Value as Json;
use std::alloc::{AllocError, Global};
use stm_history::Text;
use stm_outcome::ShortList;

/// A value with one spelling as JSON.
pub(crate) trait Written {
    /// The data that it is written as.
    ghost written: { Self → Data };

    /// The value as JSON.
    fn to_json(&self, alloc: Global) -> Result<Json, AllocError>
        ensures { IfOk result (λ v. view v ≡ written self.now) };
}

/// Appends the JSON of one more item.
fn push_item<T: Written>(alloc: Global, values: &mut Vec<Json>, item: &T) -> Result<(), AllocError>
    ensures { OnOk result (map view values.new.items ≡ map view values.old.items ++ T.written item.now ∷ []) }
{
    let value = item.to_json(alloc)?;
    values.push(value)?;
    Ok(())
}

/// The array of these items.
pub(crate) fn list_json<T: Written>(alloc: Global, items: &[T]) -> Result<Json, AllocError>
    ensures { IfOk result (λ v. view v ≡ written_list T.written items.now) }
{
    let mut values = Vec::new(alloc);
    for item in items {
        push_item(alloc, &mut values, item)?;
    }
    Ok(Json::Array(values))
}

impl<T: Written> Written for ShortList<T> {
    ghost written = { written_list T.written };

    fn to_json(&self, alloc: Global) -> Result<Json, AllocError> {
        list_json(alloc, self.as_slice())
    }
}

impl Written for Text {
    ghost written = { string };

    fn to_json(&self, alloc: Global) -> Result<Json, AllocError> {
        Json::try_from_str(alloc, self.as_str())
    }
}

impl Written for u64 {
    ghost written = { written_number };

    fn to_json(&self, _alloc: Global) -> Result<Json, AllocError> {
        Ok(Json::from(*self))
    }
}

/// The array of a word and these parts.
pub(crate) fn worded_json(
    alloc: Global,
    word: &str,
    parts: &[&dyn Written],
) -> Result<Json, AllocError>
    ensures { IfOk result (λ v. view v ≡ spelled word.now (map (λ part. written part.now) parts.now)) }
{
    let mut values = Vec::new(alloc);
    values.push(Json::try_from_str(alloc, word)?)?;
    for part in parts {
        values.push(part.to_json(alloc)?)?;
    }
    Ok(Json::Array(values))
}
