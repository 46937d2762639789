//! Reading a line from its JSON.
ghost use Rattle.serde_json.specs.View.{view};
ghost use Rattle.stm_json.specs.Returns.{Returns};
ghost use Rattle.stm_report_lines.specs.Reading.{standing_worded, event_named, line_of};
ghost use Rattle.stm_report_lines.specs.Words.{named, event_words};

use crate::event_lines::event_line;
use crate::parts::keyed;
use crate::readable::{exactly, part, word_at};
use crate::words::event_word;
use serde_json::Value as Json;
use std::alloc::Global;
use stm_events::ReportLine;
use stm_json::{Cause, ReadError, fault};

/// A line of what is left at the end, by its first word.
fn standing_line(alloc: Global, word: &str, value: &Json) -> Result<ReportLine, ReadError>
    ensures { Returns (λ l. l) result (standing_worded word.now (view value.now)) }
{
    match word {
        "key" => {
            let (key, state) = keyed(alloc, value)?;
            Ok(ReportLine::Key { key, state })
        }
        "lease" => {
            exactly(alloc, value, 4)?;
            let id = part(alloc, value, 1)?;
            let ttl = part(alloc, value, 2)?;
            let renewed = part(alloc, value, 3)?;
            Ok(ReportLine::Lease { id, ttl, renewed })
        }
        "end" => {
            exactly(alloc, value, 3)?;
            let revision = part(alloc, value, 1)?;
            let entries = part(alloc, value, 2)?;
            Ok(ReportLine::End { revision, entries })
        }
        _ => Err(fault(alloc, Cause::Shape)),
    }
}

/// The line of an event, by the word after its number. How many elements there are is looked at before any of them.
fn numbered_line(alloc: Global, word: &str, value: &Json) -> Result<ReportLine, ReadError>
    ensures { Returns (λ l. l) result (event_named (named event_words word.now) (view value.now)) }
{
    let Some((kind, length)) = event_word(word) else {
        return Err(fault(alloc, Cause::Shape));
    };
    exactly(alloc, value, length)?;
    event_line(alloc, kind, value)
}

/// A line. Its word, which is its first element where that is a text, and else the second, says what kind it is.
#[tactic(auto, unfolding(crate::specs::Reading::line_of))]
pub(crate) fn line(alloc: Global, value: &Json) -> Result<ReportLine, ReadError>
    ensures { Returns (λ l. l) result (line_of (view value.now)) }
{
    match (word_at(value, 0), word_at(value, 1)) {
        (Some(word), _) => standing_line(alloc, word, value),
        (None, Some(word)) => numbered_line(alloc, word, value),
        (None, None) => Err(fault(alloc, Cause::Shape)),
    }
}
