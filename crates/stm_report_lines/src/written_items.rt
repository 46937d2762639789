//! What stands in a report's lines, as JSON.
ghost use Rattle.std.specs.Prelude.{◌≡◌, map, IfOk};
ghost use Rattle.serde_json.specs.Data.{Data, boolean, string};
ghost use Rattle.serde_json.specs.View.{view};
ghost use Rattle.stm_events.specs.Names.{refusal_name};
ghost use Rattle.stm_meaning.specs.Faults.{fault_name};
ghost use Rattle.stm_report_lines.specs.LineData.{list, whole, null_or, value_data, trace_data, answer_data, state_data};
ghost use Rattle.stm_report_lines.specs.LineData.{op_data, read_data, expired_data, keyed_data, event_data};

use crate::arrays::{parts_json, worded_json};
use serde_json::{Value as Json, json};
use std::alloc::{AllocError, Global};
use stm_events::{
    CommittedRead, Event, EventRefusal, Expired, Fault, KeyRead, OpReply, TraceItem, Value,
};
use stm_history::{KeyState, Sequence, Text};

/// A value that a line spells.
pub trait Spelled {
    /// The data that spell it.
    ghost spelled: { Self → Data };

    /// It as JSON. It fails where an allocation failed.
    fn to_json(&self, alloc: Global) -> Result<Json, AllocError>
        ensures { IfOk result (λ v. view v ≡ spelled self.now) };
}

/// A list as a JSON array. It fails where an allocation failed.
pub fn array_json<T: Spelled>(alloc: Global, items: &[T]) -> Result<Json, AllocError>
    ensures { IfOk result (λ v. view v ≡ list (map T.spelled items.now)) }
{
    let mut values = Vec::new(alloc);
    for item in items {
        values.push(item.to_json(alloc)?)?;
    }
    Ok(Json::Array(values))
}

impl Spelled for u64 {
    ghost spelled = { whole };

    fn to_json(&self, _alloc: Global) -> Result<Json, AllocError> {
        Ok(Json::from(*self))
    }
}

impl Spelled for bool {
    ghost spelled = { boolean };

    fn to_json(&self, _alloc: Global) -> Result<Json, AllocError> {
        Ok(Json::from(*self))
    }
}

impl Spelled for &str {
    ghost spelled = { λ text. string text.now };

    fn to_json(&self, alloc: Global) -> Result<Json, AllocError> {
        Json::try_from_str(alloc, *self)
    }
}

impl Spelled for Text {
    ghost spelled = { string };

    fn to_json(&self, alloc: Global) -> Result<Json, AllocError> {
        Json::try_from_str(alloc, self.as_str())
    }
}

impl Spelled for Fault {
    ghost spelled = { λ fault. string (fault_name fault) };

    fn to_json(&self, alloc: Global) -> Result<Json, AllocError> {
        Json::try_from_str(alloc, self.name())
    }
}

impl Spelled for EventRefusal {
    ghost spelled = { λ cause. string (refusal_name cause) };

    fn to_json(&self, alloc: Global) -> Result<Json, AllocError> {
        Json::try_from_str(alloc, self.name())
    }
}

impl Spelled for KeyState {
    ghost spelled = { state_data };

    fn to_json(&self, alloc: Global) -> Result<Json, AllocError> {
        parts_json(
            alloc,
            &[
                &self.value,
                &self.create_rev,
                &self.mod_rev,
                &self.version,
                &self.lease,
            ],
        )
    }
}

/// Null stands for what is absent.
impl<T: Spelled> Spelled for Option<T> {
    ghost spelled = { null_or T.spelled };

    fn to_json(&self, alloc: Global) -> Result<Json, AllocError> {
        match self {
            None => Ok(Json::Null),
            Some(it) => it.to_json(alloc),
        }
    }
}

impl<T: Spelled> Spelled for &[T] {
    ghost spelled = { λ items. list (map T.spelled items.now) };

    fn to_json(&self, alloc: Global) -> Result<Json, AllocError> {
        array_json(alloc, *self)
    }
}

impl<T: Spelled> Spelled for Sequence<T> {
    ghost spelled = { λ items. list (map T.spelled items) };

    fn to_json(&self, alloc: Global) -> Result<Json, AllocError> {
        array_json(alloc, self.as_slice())
    }
}

impl Spelled for Value {
    ghost spelled = { value_data };

    fn to_json(&self, alloc: Global) -> Result<Json, AllocError> {
        match self {
            Value::Text(text) => Json::try_from_str(alloc, text.as_str()),
            Value::Number(number) => Ok(Json::from(*number)),
        }
    }
}

impl Spelled for TraceItem {
    ghost spelled = { trace_data };

    fn to_json(&self, alloc: Global) -> Result<Json, AllocError> {
        match self {
            TraceItem::Get { key, value } => worded_json(alloc, "get", &[key, value]),
            TraceItem::Rev { key, mod_rev } => worded_json(alloc, "rev", &[key, mod_rev]),
        }
    }
}

impl Spelled for CommittedRead {
    ghost spelled = { answer_data };

    fn to_json(&self, alloc: Global) -> Result<Json, AllocError> {
        parts_json(
            alloc,
            &[&self.key, &self.value, &self.mod_rev, &self.of_rev],
        )
    }
}

impl Spelled for KeyRead {
    ghost spelled = { read_data };

    fn to_json(&self, alloc: Global) -> Result<Json, AllocError> {
        parts_json(alloc, &[&self.key, &self.mod_rev])
    }
}

impl Spelled for Expired {
    ghost spelled = { expired_data };

    fn to_json(&self, alloc: Global) -> Result<Json, AllocError> {
        parts_json(alloc, &[&self.id, &self.revision])
    }
}

impl Spelled for OpReply {
    ghost spelled = { op_data };

    fn to_json(&self, alloc: Global) -> Result<Json, AllocError> {
        match self {
            OpReply::Get { revision, kv } => worded_json(alloc, "get", &[revision, kv]),
            OpReply::Put => worded_json(alloc, "put", &[]),
            OpReply::Del { count } => worded_json(alloc, "del", &[count]),
        }
    }
}

/// A word, a key, and what it has.
pub(crate) fn keyed_json(
    alloc: Global,
    word: &str,
    key: &str,
    state: &KeyState,
) -> Result<Json, AllocError>
    ensures { IfOk result (λ v. view v ≡ keyed_data word.now key.now state.now) }
{
    json!(in alloc; [word, key, state.value.as_str(), state.create_rev, state.mod_rev, state.version, state.lease])
}

impl Spelled for Event {
    ghost spelled = { event_data };

    fn to_json(&self, alloc: Global) -> Result<Json, AllocError> {
        match self {
            Event::Put { key, state } => keyed_json(alloc, "PUT", key.as_str(), state),
            Event::Delete { key, revision } => json!(in alloc; ["DELETE", key.as_str(), *revision]),
        }
    }
}
