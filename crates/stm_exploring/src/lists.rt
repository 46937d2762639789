//! Lists of values that are written alike.
ghost use Rattle.std.specs.Prelude.{◌≡◌, ◌++◌, [], ◌∷◌, map, IfOk, OnOk};
ghost use Rattle.serde_json.specs.Data.{Data};
ghost use Rattle.serde_json.specs.View.{view};
ghost use Rattle.stm_texts.specs.Writing.{written_list};

use serde_json::Value as Json;
use std::alloc::{AllocError, Global};

/// A value with one spelling as JSON.
pub(crate) trait Written {
    /// The data that it is written as.
    ghost written: { Self → Data };

    /// It as JSON.
    fn to_json(&self, alloc: Global) -> Result<Json, AllocError>
        ensures { IfOk result (λ v. view v ≡ written self.now) };
}

/// Writes one item more after others.
fn push_item<T: Written>(alloc: Global, values: &mut Vec<Json>, item: &T) -> Result<(), AllocError>
    ensures { OnOk result (map view values.new.items ≡ map view values.old.items ++ T.written item.now ∷ []) }
{
    let value = item.to_json(alloc)?;
    values.push(value)?;
    Ok(())
}

/// The array of these items.
pub(crate) fn list_json<T: Written>(alloc: Global, items: &[T]) -> Result<Json, AllocError>
    ensures { IfOk result (λ v. view v ≡ written_list T.written items.now) }
{
    let mut values = Vec::new(alloc);
    for item in items {
        push_item(alloc, &mut values, item)?;
    }
    Ok(Json::Array(values))
}
