//! What an input is, by its lines: a source, JSON, a report in some form, or what explore answers.

use crate::naming::digits_of;
use stm_compiling::EVENTS as BEGINNINGS;

/// With this begins a comment.
const COMMENT: &str = "//";

/// With this begins a line that explore answers of an outcome; one with a schedule stands behind it.
const OUTCOME: &str = "[\"outcome\",";

/// With these begin the lines that explore answers, and nothing that a scenario has.
const ANSWERS: &[&str] = &[
    OUTCOME,
    "[\"outcomes\",",
    "[\"always\",",
    "[\"broken\",",
    "[\"open\",",
    "[\"serial\",",
    "[\"anomaly\",",
    "[\"enough\",",
];

/// One of these stands in a line that explore answers in words.
const WORDS: &[&str] = &[
    ": always kept (",
    ": broken after ",
    ": not decided (",
    "outcome: ",
    "no anomaly: ",
    "anomaly after ",
];

/// With this begins the element of a scenario, and no commit of a trace.
const EVENTS: &[&str] = &[
    "[\"start\"",
    "[\"step\"",
    "[\"txn\"",
    "[\"grant\"",
    "[\"keep\"",
    "[\"revoke\"",
    "[\"advance\"",
    "[\"watch_",
    "[\"poll\"",
    "[\"cancel\"",
    "[\"compact\"",
];

/// With one of these begins a report in objects.
const OBJECTS: &[&str] = &["{\"event\":", "{\"kind\":"];

/// With these begin the lines of a report that have no number.
const LAST_LINES: &[&str] = &["[\"key\",", "[\"lease\",", "[\"end\","];

/// What an input is.
#[derive(Clone, Copy)]
pub(crate) enum Kind {
    /// A source.
    Source,
    /// JSON.
    Json,
    /// What explore answers without a schedule.
    Answer,
    /// What explore prints with several schedules, of which the second begins in this line.
    Schedules(usize),
    /// A report in another form than lines, which is this.
    Formatted(&'static str),
    /// None of these.
    Unknown,
}

/// Whether a text begins with one of these.
fn begins_with(text: &str, words: &[&str]) -> bool {
    for word in words {
        if text.starts_with(*word) {
            return true;
        }
    }
    false
}

/// Whether one of these stands in a text.
fn has_one(text: &str, words: &[&str]) -> bool {
    for word in words {
        if text.contains(*word) {
            return true;
        }
    }
    false
}

/// Whether a line begins as JSON does that is a list or an object.
fn is_json(line: &str) -> bool {
    line.starts_with('[') || line.starts_with('{')
}

/// Whether a text begins as a source does: with a word of one, or a comment that no JSON follows.
pub(crate) fn begins_source(text: &str) -> bool {
    let mut has_comment = false;
    for line in text.lines() {
        let line = line.trim();
        if line.starts_with(COMMENT) {
            has_comment = true;
        } else if !line.is_empty() {
            return begins_with(line, &BEGINNINGS) || (has_comment && !is_json(line));
        }
    }
    has_comment
}

/// Whether a text begins as JSON does.
pub(crate) fn begins_json(text: &str) -> bool {
    is_json(text.trim_start())
}

/// Whether a line is one that explore answers.
fn is_answer(line: &str) -> bool {
    begins_with(line, ANSWERS)
}

/// Whether a text has answers of explore alone, or begins with one in words.
fn has_no_schedule(text: &str) -> bool {
    let first = text.lines().next().unwrap_or("");
    if !is_answer(first) {
        return !begins_json(text) && !begins_source(text) && has_one(first, WORDS);
    }
    for line in text.lines() {
        if !is_answer(line) && !line.trim().is_empty() {
            return false;
        }
    }
    true
}

/// The line in which a second schedule begins behind the first, before which answers were passed over.
fn second_schedule(text: &str) -> Option<usize> {
    if !text.starts_with(' ') {
        return None;
    }
    let mut is_next = false;
    for (index, line) in text.lines().enumerate() {
        if is_next && !is_answer(line) {
            return Some(index.saturating_add(1));
        }
        is_next = line.starts_with(OUTCOME);
    }
    None
}

/// In which form other than lines a text is a report, if it begins as one.
fn form_of(text: &str) -> Option<&'static str> {
    let text = text.trim_start();
    if text.starts_with("event  store") {
        Some("a table, as --format text prints it")
    } else if begins_with(text, OBJECTS) {
        Some("a report in objects, as --format json prints it")
    } else if text.starts_with("<svg ") {
        Some("a picture, as --format svg prints it")
    } else if text.starts_with("<!DOCTYPE html>") {
        Some("a page, as --format html prints it")
    } else {
        None
    }
}

/// Whether a text begins as a report does, in lines.
pub(crate) fn begins_report(text: &str) -> bool {
    let text = text.trim_start();
    let Some(rest) = text.strip_prefix('[') else {
        return false;
    };
    let (digits, behind) = digits_of(rest);
    begins_with(text, LAST_LINES) || (!digits.is_empty() && behind.starts_with(",\""))
}

/// Whether a text begins as a scenario does.
pub(crate) fn begins_scenario(text: &str) -> bool {
    match text.trim_start().strip_prefix('[') {
        Some(rest) => begins_with(rest.trim_start(), EVENTS),
        None => false,
    }
}

/// What a text seems to be that is no report in lines, and no trace; nothing, where that is not known.
pub(crate) fn seeming(text: &str) -> Option<&'static str> {
    if let Some(form) = form_of(text) {
        Some(form)
    } else if has_no_schedule(text) {
        Some("explore's answer")
    } else if begins_source(text) {
        Some("a source")
    } else if begins_scenario(text) {
        Some("a scenario")
    } else {
        None
    }
}

/// What a text is, in whose front answers of explore were passed over.
pub(crate) fn kind_of(text: &str) -> Kind {
    if let Some(form) = form_of(text) {
        Kind::Formatted(form)
    } else if let Some(line) = second_schedule(text) {
        Kind::Schedules(line)
    } else if has_no_schedule(text) {
        Kind::Answer
    } else if begins_source(text) {
        Kind::Source
    } else if begins_json(text) {
        Kind::Json
    } else {
        Kind::Unknown
    }
}

/// Says what an input of this name is.
pub(crate) fn say_kind(rt: &HostRuntime, name: &str, kind: Kind) {
    let _ = match kind {
        Kind::Source => eprintln!(rt;
            "{name}: this is a source, and the name of a source ends in .stm"
        ),
        Kind::Json => eprintln!(rt; "{name}: this is JSON: name it .json"),
        Kind::Answer => eprintln!(rt;
            "{name}: this is explore's answer and has no schedule: ask at one level, without --format text"
        ),
        Kind::Schedules(line) => eprintln!(rt;
            "{name}: several schedules stand here; the second begins in line {line}"
        ),
        Kind::Formatted(form) => eprintln!(rt;
            "{name}: this is {form}, where a scenario or a program is wanted"
        ),
        Kind::Unknown => Ok(()),
    };
}

/// The text with which bytes begin.
pub(crate) fn front_of(bytes: &[u8]) -> &str {
    match str::from_utf8(bytes) {
        Ok(text) => text,
        Err(error) => match bytes.get(..error.valid_up_to()) {
            Some(front) => str::from_utf8(front).unwrap_or(""),
            None => "",
        },
    }
}

/// How many bytes the answers of explore have in front of what it prints behind them: none, where nothing stands there.
fn answers_before(text: &str) -> usize {
    let mut count = 0usize;
    for line in text.split('\n') {
        if !is_answer(line) {
            break;
        }
        count = count.saturating_add(line.len()).saturating_add(1);
    }
    match text.get(count..) {
        Some(behind) if !behind.trim().is_empty() => count,
        _ => 0,
    }
}

/// How many bytes stand before the last line of a text, if explore answers that.
fn before_answer(text: &str) -> Option<usize> {
    match text.trim_end().rsplit_once('\n') {
        Some((front, last)) if is_answer(last) => Some(front.len()),
        _ => None,
    }
}

/// Makes spaces of all but line feeds.
fn blank(bytes: &mut [u8]) {
    for byte in bytes.iter_mut() {
        if *byte != b'\n' {
            *byte = b' ';
        }
    }
}

/// Makes spaces of the answers of explore in front of what it prints, and of the one at its end, so that the schedule between them is read, with the lines as
/// they are. Answers whether some stood in front.
pub(crate) fn without_answers(bytes: &mut [u8]) -> bool {
    let before = answers_before(front_of(bytes));
    if before == 0 {
        return false;
    }
    let end = before_answer(str::from_utf8(bytes).unwrap_or(""));
    if let Some(front) = bytes.get_mut(..before) {
        blank(front);
    }
    if let Some(end) = end {
        if let Some(last) = bytes.get_mut(end..) {
            blank(last);
        }
    }
    true
}
