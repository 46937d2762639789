//! Arrays of parts, as JSON.
ghost use Rattle.std.specs.Prelude.{◌≡◌, ◌∷◌, map, IfOk};
ghost use Rattle.serde_json.specs.Data.{string};
ghost use Rattle.serde_json.specs.View.{view};
ghost use Rattle.stm_report_lines.specs.LineData.{list};

use crate::written_items::Spelled;
use serde_json::Value as Json;
use std::alloc::{AllocError, Global};

/// The array of these parts. It fails where an allocation failed.
pub fn parts_json(alloc: Global, parts: &[&dyn Spelled]) -> Result<Json, AllocError>
    ensures { IfOk result (λ v. view v ≡ list (map (λ part. spelled part.now) parts.now)) }
{
    let mut values = Vec::new(alloc);
    for part in parts {
        values.push(part.to_json(alloc)?)?;
    }
    Ok(Json::Array(values))
}

/// The array of a word and these parts. It fails where an allocation failed.
pub fn worded_json(alloc: Global, word: &str, parts: &[&dyn Spelled]) -> Result<Json, AllocError>
    ensures { IfOk result (λ v. view v ≡ list (string word.now ∷ map (λ part. spelled part.now) parts.now)) }
{
    let mut values = Vec::new(alloc);
    values.push(Json::try_from_str(alloc, word)?)?;
    for part in parts {
        values.push(part.to_json(alloc)?)?;
    }
    Ok(Json::Array(values))
}
