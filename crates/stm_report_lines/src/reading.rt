//! Reading reports.
ghost use Rattle.std.specs.Prelude.{◌≡◌, List, [], Ok as OkOf, None, option_map, IfOk, MatchResult};
ghost use Rattle.stm_json.specs.Outcome.{within as within_list};
ghost use Rattle.stm_json.specs.Returns.{Returns};
ghost use Rattle.stm_report_lines.specs.Bytes.{parts_of, IsCut};
ghost use Rattle.stm_report_lines.specs.FirstFault.{first_fault};
ghost use Rattle.stm_json.specs.Faults.{IsFirstFault};
ghost use Rattle.stm_report_lines.specs.Grammar.{SpellsReport};
ghost use Rattle.stm_report_lines.specs.Reading.{line_in, rest_of, lines_from, report_in};

use crate::lines::line;
use memchr::memchr;
use serde_json::Value as Json;
use std::alloc::Global;
use stm_events::{Report, ReportLine, Sequence};
use stm_json::{Cause, MOST_BYTES, ReadError, fault, within};

/// The line that bytes spell, or their first fault.
#[tactic(auto, unfolding(crate::specs::Reading::line_in))]
fn line_of_bytes(alloc: Global, bytes: &[u8]) -> Result<ReportLine, ReadError>
    ensures { Returns (λ l. l) result (line_in bytes.now) }
{
    match Json::from_slice(alloc, bytes) {
        Ok(value) => line(alloc, &value),
        Err(error) => {
            if error.is_memory() {
                Err(ReadError::OutOfMemory)
            } else {
                Err(fault(alloc, Cause::NotJson))
            }
        }
    }
}

/// The same of a line at an index. A fault's place is that in the report.
fn line_at(alloc: Global, index: usize, bytes: &[u8]) -> Result<ReportLine, ReadError>
    ensures { Returns (λ l. l) result (within_list index (line_in bytes.now)) }
{
    within(alloc, index, line_of_bytes(alloc, bytes))
}

/// What comes before the first line feed, and what comes after it; `None` where there is none.
fn first_part(bytes: &[u8]) -> Option<(&[u8], &[u8])>
    ensures { IsCut bytes.now (option_map (λ p. (p.0.now, p.1.now)) result) }
{
    let end = memchr(b'\n', bytes)?;
    Some((&bytes[..end], &bytes[end + 1..]))
}

/// Nothing may come after the last line feed. A fault's place is that of a line there.
fn rest_at(alloc: Global, index: usize, rest: &[u8]) -> Result<(), ReadError>
    ensures { Returns (λ _. []) result (within_list index (rest_of rest.now)) }
{
    if rest.is_empty() {
        Ok(())
    } else {
        within(alloc, index, Err(fault(alloc, Cause::Shape)))
    }
}

/// The lines of bytes, and nothing after the last line feed.
fn each_line(alloc: Global, bytes: &[u8]) -> Result<Vec<ReportLine>, ReadError>
    ensures { Returns (λ v. v.items) result (lines_from 0 (parts_of bytes.now)) }
{
    let mut lines = Vec::new(alloc);
    let mut rest = bytes;
    while let Some((part, after)) = first_part(rest) {
        let line = line_at(alloc, lines.len(), part)?;
        lines.push(line)?;
        rest = after;
    }
    rest_at(alloc, lines.len(), rest)?;
    Ok(lines)
}

/// The report that bytes spell, or their first fault.
#[tactic(auto, unfolding(crate::specs::Reading::report_in))]
fn report_of_bytes(alloc: Global, bytes: &[u8]) -> Result<Report, ReadError>
    ensures { Returns (λ r. r) result (report_in bytes.now) }
{
    if bytes.len() > MOST_BYTES {
        return Err(fault(alloc, Cause::TooLong));
    }
    let lines = each_line(alloc, bytes)?;
    Ok(Report {
        lines: Sequence::of(lines),
    })
}

/// The report that bytes spell: lines of JSON in UTF-8, each ended by a line feed.
///
/// It fails by the first fault of the text, with its place and cause: more than 16777216 bytes are too long,
/// whatever they are, and the place is then empty. Then the lines are looked at in order, and what comes after
/// the last line feed is a `Shape`; such places begin with the number of the line, from 0. A line is looked at as
/// JSON first, then its word and its length, and then its elements in order. Or it fails as `OutOfMemory`, where an
/// allocation failed.
pub fn read_report(alloc: Global, bytes: &[u8]) -> Result<Report, ReadError>
    ensures exact { Returns (λ r. r) result (report_in bytes.now) }
    // What is read is spelled so.
    ensures spelled { IfOk result (SpellsReport bytes.now) }
    // A report that is spelled so is read.
    ensures accepts { (r : _) → SpellsReport bytes.now r → Returns (λ x. x) result (OkOf r) }
    // Which fault it is.
    ensures faults { MatchResult result (λ r. first_fault bytes.now ≡ None) (IsFirstFault (first_fault bytes.now)) }
{
    report_of_bytes(alloc, bytes)
}
