//! The parts of lines: what is read of each, and of the elements of lists.
ghost use Rattle.serde_json.specs.View.{view, items_view};
ghost use Rattle.stm_json.specs.Elements.{number_up_to};
ghost use Rattle.stm_json.specs.Returns.{Returns};
ghost use Rattle.stm_json.specs.Parts.{text_of, each_from};
ghost use Rattle.stm_report_lines.specs.Parts.{part_at, listed, number_of, flag_of, fault_of, cause_of, value_of, or_null_of, state_of, keyed_of};
ghost use Rattle.stm_report_lines.specs.Parts.{trace_of, answer_of, op_of, key_read_of, expired_of, watched_of};

use crate::readable::{Readable, exactly, part, read_within, word_at};
use crate::words::{fault_named, refusal_named};
use serde_json::Value as Json;
use std::alloc::Global;
use stm_events::{
    CommittedRead, Event, EventRefusal, Expired, Fault, KeyRead, KeyState, OpReply, Sequence, Text,
    TraceItem, Value,
};
use stm_history::HIGHEST_NUMBER;
use stm_json::{Cause, ReadError, fault, number_within, text, whole, within};
use stm_keys::SharedText;

/// A whole number from 0 to 9223372036854775807.
impl Readable for u64 {
    ghost reading = { number_of };

    fn read(alloc: Global, value: &Json) -> Result<u64, ReadError> {
        number_within(alloc, HIGHEST_NUMBER, value)
    }
}

impl Readable for Text {
    ghost reading = { text_of };

    fn read(alloc: Global, value: &Json) -> Result<Text, ReadError> {
        text(alloc, value)
    }
}

impl Readable for SharedText {
    ghost reading = { text_of };

    fn read(alloc: Global, value: &Json) -> Result<SharedText, ReadError> {
        let text = text(alloc, value)?;
        let shared = SharedText::new(alloc, text)?;
        Ok(shared)
    }
}

impl Readable for bool {
    ghost reading = { flag_of };

    #[tactic(auto, unfolding(crate::specs::Parts::flag_of))]
    fn read(alloc: Global, value: &Json) -> Result<bool, ReadError> {
        match value.as_bool() {
            Some(flag) => Ok(flag),
            None => Err(fault(alloc, Cause::Shape)),
        }
    }
}

impl Readable for Fault {
    ghost reading = { fault_of };

    #[tactic(auto, unfolding(crate::specs::Parts::fault_of))]
    fn read(alloc: Global, value: &Json) -> Result<Fault, ReadError> {
        match value.as_str().and_then(fault_named) {
            Some(named) => Ok(named),
            None => Err(fault(alloc, Cause::Shape)),
        }
    }
}

impl Readable for EventRefusal {
    ghost reading = { cause_of };

    #[tactic(auto, unfolding(crate::specs::Parts::cause_of))]
    fn read(alloc: Global, value: &Json) -> Result<EventRefusal, ReadError> {
        match value.as_str().and_then(refusal_named) {
            Some(named) => Ok(named),
            None => Err(fault(alloc, Cause::Shape)),
        }
    }
}

/// Null stands for what is absent.
impl<T: Readable> Readable for Option<T> {
    ghost reading = { or_null_of T.reading };

    fn read(alloc: Global, value: &Json) -> Result<Option<T>, ReadError> {
        if value.is_null() {
            Ok(None)
        } else {
            let present = T::read(alloc, value)?;
            Ok(Some(present))
        }
    }
}

fn each_element<T: Readable + Drop>(alloc: Global, values: &[Json]) -> Result<Vec<T>, ReadError>
    ensures { Returns (λ v. v.items) result (each_from T.reading 0 (items_view values.now)) }
{
    let mut elements = Vec::new(alloc);
    for (index, value) in values.iter().enumerate() {
        let element = read_within(alloc, index, value)?;
        elements.push(element)?;
    }
    Ok(elements)
}

impl<T: Readable + Drop> Readable for Sequence<T> {
    ghost reading = { listed T.reading };

    fn read(alloc: Global, value: &Json) -> Result<Sequence<T>, ReadError> {
        match value.as_array() {
            Some(values) => {
                let elements = each_element(alloc, values.as_slice())?;
                Ok(Sequence::of(elements))
            }
            None => Err(fault(alloc, Cause::Shape)),
        }
    }
}

impl Readable for Value {
    ghost reading = { value_of };

    #[tactic(auto, unfolding(crate::specs::Parts::value_of))]
    fn read(alloc: Global, value: &Json) -> Result<Value, ReadError> {
        match value.as_str() {
            Some(text) => {
                let text = Text::copy_of(alloc, text)?;
                Ok(Value::Text(text))
            }
            None => {
                let number = whole(alloc, value)?;
                Ok(Value::Number(number))
            }
        }
    }
}

impl Readable for KeyState {
    ghost reading = { state_of };

    #[tactic(auto, unfolding(crate::specs::Parts::state_of))]
    fn read(alloc: Global, value: &Json) -> Result<KeyState, ReadError> {
        exactly(alloc, value, 5)?;
        Ok(KeyState {
            value: part(alloc, value, 0)?,
            create_rev: part(alloc, value, 1)?,
            mod_rev: part(alloc, value, 2)?,
            version: part(alloc, value, 3)?,
            lease: part(alloc, value, 4)?,
        })
    }
}

/// A key and what it had, after a word.
pub(crate) fn keyed(alloc: Global, value: &Json) -> Result<(Text, KeyState), ReadError>
    ensures { Returns (λ p. p) result (keyed_of (view value.now)) }
{
    exactly(alloc, value, 7)?;
    let key = part(alloc, value, 1)?;
    let state = KeyState {
        value: part(alloc, value, 2)?,
        create_rev: part(alloc, value, 3)?,
        mod_rev: part(alloc, value, 4)?,
        version: part(alloc, value, 5)?,
        lease: part(alloc, value, 6)?,
    };
    Ok((key, state))
}

impl Readable for TraceItem {
    ghost reading = { trace_of };

    #[tactic(auto, unfolding(crate::specs::Parts::trace_of))]
    fn read(alloc: Global, value: &Json) -> Result<TraceItem, ReadError> {
        match word_at(value, 0) {
            Some("get") => {
                exactly(alloc, value, 3)?;
                let key = part(alloc, value, 1)?;
                let value = part(alloc, value, 2)?;
                Ok(TraceItem::Get { key, value })
            }
            Some("rev") => {
                exactly(alloc, value, 3)?;
                let key = part(alloc, value, 1)?;
                let mod_rev = part(alloc, value, 2)?;
                Ok(TraceItem::Rev { key, mod_rev })
            }
            _ => Err(fault(alloc, Cause::Shape)),
        }
    }
}

impl Readable for CommittedRead {
    ghost reading = { answer_of };

    #[tactic(auto, unfolding(crate::specs::Parts::answer_of))]
    fn read(alloc: Global, value: &Json) -> Result<CommittedRead, ReadError> {
        exactly(alloc, value, 4)?;
        Ok(CommittedRead {
            key: part(alloc, value, 0)?,
            value: part(alloc, value, 1)?,
            mod_rev: part(alloc, value, 2)?,
            of_rev: part(alloc, value, 3)?,
        })
    }
}

/// How many keys a delete deleted: one at most.
#[tactic(auto, unfolding(crate::specs::Parts::part_at))]
fn deleted(alloc: Global, value: &Json) -> Result<u64, ReadError>
    ensures { Returns (λ n. n) result (part_at 1 (number_up_to 1) (view value.now)) }
{
    match value.get(1) {
        Some(count) => within(alloc, 1, number_within(alloc, 1, count)),
        None => Err(fault(alloc, Cause::Shape)),
    }
}

impl Readable for OpReply {
    ghost reading = { op_of };

    #[tactic(auto, unfolding(crate::specs::Parts::op_of))]
    fn read(alloc: Global, value: &Json) -> Result<OpReply, ReadError> {
        match word_at(value, 0) {
            Some("get") => {
                exactly(alloc, value, 3)?;
                let revision = part(alloc, value, 1)?;
                let kv = part(alloc, value, 2)?;
                Ok(OpReply::Get { revision, kv })
            }
            Some("put") => {
                exactly(alloc, value, 1)?;
                Ok(OpReply::Put)
            }
            Some("del") => {
                exactly(alloc, value, 2)?;
                let count = deleted(alloc, value)?;
                Ok(OpReply::Del { count })
            }
            _ => Err(fault(alloc, Cause::Shape)),
        }
    }
}

impl Readable for KeyRead {
    ghost reading = { key_read_of };

    #[tactic(auto, unfolding(crate::specs::Parts::key_read_of))]
    fn read(alloc: Global, value: &Json) -> Result<KeyRead, ReadError> {
        exactly(alloc, value, 2)?;
        let key = part(alloc, value, 0)?;
        let mod_rev = part(alloc, value, 1)?;
        Ok(KeyRead { key, mod_rev })
    }
}

impl Readable for Expired {
    ghost reading = { expired_of };

    #[tactic(auto, unfolding(crate::specs::Parts::expired_of))]
    fn read(alloc: Global, value: &Json) -> Result<Expired, ReadError> {
        exactly(alloc, value, 2)?;
        let id = part(alloc, value, 0)?;
        let revision = part(alloc, value, 1)?;
        Ok(Expired { id, revision })
    }
}

impl Readable for Event {
    ghost reading = { watched_of };

    #[tactic(auto, unfolding(crate::specs::Parts::watched_of))]
    fn read(alloc: Global, value: &Json) -> Result<Event, ReadError> {
        match word_at(value, 0) {
            Some("PUT") => {
                let (key, state) = keyed(alloc, value)?;
                let key = SharedText::new(alloc, key)?;
                Ok(Event::Put { key, state })
            }
            Some("DELETE") => {
                exactly(alloc, value, 3)?;
                let key = part(alloc, value, 1)?;
                let revision = part(alloc, value, 2)?;
                Ok(Event::Delete { key, revision })
            }
            _ => Err(fault(alloc, Cause::Shape)),
        }
    }
}
