//! The faults of a source behind its first one: those of what is left where the line of each fault is left out, if it has whole statements, and else the part.
//!
//! A part begins in the first column, with a word that begins an event, a program, a rule or a definition. Of one whose fault stands in braces the head stays,
//! so that it can be named. What may be wrong only since something was left out is not said.

use crate::explaining::words_at;
use crate::fault::position_in;
use crate::items::between;
use crate::spots::{Place, Spot, spot_at};
use crate::wanted::{EVENTS, begins_anew_at};
use std::alloc::{AllocError, Global};
use stm_explain::Said;
use stm_source::{BadSource, SourceCause, SourceError, read_source};
use stm_tokens::{Position, tokens_of};

/// How many faults behind the first one are looked for.
const MOST_MORE: usize = 9;

/// At most so often a source is read again for them.
const MOST_READS: usize = 18;

/// Of a longer source no more faults are looked for.
const LONGEST: usize = 1048576;

/// The word of a start, and one that does nothing in its place: the others keep their numbers.
const START: &str = "start";

const EMPTY_START: &str = "start{}";

/// What is left out of a text: what stands from one byte to another, and the sign that comes in its place.
#[derive(Clone, Copy)]
struct Cut {
    from: usize,
    to: usize,
    sign: &'static str,
}

const NO_CUT: Cut = Cut {
    from: 0,
    to: 0,
    sign: "",
};

/// A source of which parts are left out.
#[derive(Drop)]
struct Rest {
    /// The text, in which spaces stand for what is left out.
    text: String,
    /// What was left out and may have been named elsewhere.
    gone: String,
    /// What was left out last.
    last: Cut,
}

/// Whether a part begins with a line.
fn begins_part(line: &str) -> bool {
    for word in EVENTS {
        if let Some(behind) = line.strip_prefix(word) {
            return behind.starts_with(' ') || behind.starts_with('{');
        }
    }
    false
}

/// The part of a text in which a byte stands: from one byte to another.
fn part_at(text: &str, at: usize) -> (usize, usize) {
    let mut from = 0usize;
    let mut begin = 0usize;
    for line in text.split('\n') {
        if begins_part(line) && begin > at {
            return (from, begin);
        }
        if begins_part(line) {
            from = begin;
        }
        begin = begin.saturating_add(line.len()).saturating_add(1);
    }
    (from, text.len())
}

/// The line in which a byte stands: from one byte to another.
fn line_at(text: &str, at: usize) -> (usize, usize) {
    let from = match between(text, 0, at).rsplit_once('\n') {
        Some((front, _)) => front.len().saturating_add(1),
        None => 0,
    };
    let to = match between(text, at, text.len()).split_once('\n') {
        Some((rest, _)) => at.saturating_add(rest.len()),
        None => text.len(),
    };
    (from, to)
}

/// How many brackets a text leaves open; none, where it closes one that it has not opened.
fn left_open(text: &str) -> Option<usize> {
    let mut open = 0usize;
    for byte in text.as_bytes() {
        open = match *byte {
            b'{' | b'(' => open.saturating_add(1),
            b'}' | b')' => open.checked_sub(1)?,
            _ => open,
        };
    }
    Some(open)
}

/// Whether a byte can be the last one of a statement.
fn can_end(byte: u8) -> bool {
    byte.is_ascii_alphanumeric() || matches!(byte, b')' | b'}' | b'"' | b';')
}

/// Whether a line without a comment begins with a word, as a statement does, and ends as one can.
fn is_between_words(line: &str) -> bool {
    let (Some(first), Some(last)) = (line.as_bytes().first(), line.as_bytes().last()) else {
        return false;
    };
    first.is_ascii_alphabetic() && can_end(*last) && !line.contains("//")
}

/// Whether what stands behind a line begins with a word, a comment or the end of a block.
fn begins_anew(text: &str) -> bool {
    match text.trim_start().as_bytes().first() {
        Some(byte) => byte.is_ascii_alphabetic() || matches!(*byte, b'}' | b'/'),
        None => false,
    }
}

/// Whether a text closes all parentheses that it opens.
fn closes_all(text: &str) -> bool {
    let mut open = 0usize;
    for byte in text.as_bytes() {
        if *byte == b'(' {
            open = open.saturating_add(1);
        }
        if *byte == b')' {
            open = open.saturating_sub(1);
        }
    }
    open == 0
}

/// Whether a line has whole statements, by what of its part stands before it, and what stands behind it: none goes on into it, and none behind it.
fn is_whole(before: &str, line: &str, behind: &str) -> bool {
    left_open(line) == Some(0)
        && is_between_words(line)
        && closes_all(before)
        && begins_anew(behind)
}

/// What is left out for a fault: its line, where that has whole statements, does not begin a part, and has not one thing too many, else the part in which it
/// stands, of which the head stays before braces with the fault.
fn cut_at(text: &str, bad: BadSource) -> Cut {
    let at = bad.at;
    let (part, to) = part_at(text, at);
    let (line, end) = line_at(text, at);
    let words = between(text, line, end).trim();
    let is_whole = is_whole(
        between(text, part, line),
        words,
        between(text, end, text.len()),
    );
    if part < line && is_whole && bad.cause != SourceCause::TooMany {
        return Cut {
            from: line,
            to: end,
            sign: "",
        };
    }
    let whole = between(text, part, to);
    let head = match whole.split_once('{') {
        Some((head, _)) => part.saturating_add(head.len()),
        None => to,
    };
    let (from, sign) = if whole.starts_with(START) && whole.len() > EMPTY_START.len() {
        (part, EMPTY_START)
    } else if head < at {
        (head, "{}")
    } else {
        (part, "")
    };
    Cut { from, to, sign }
}

/// Adds to a text what is left out and may have been named elsewhere: what stands before its braces and behind them in their last line, of a start all.
fn push_gone(gone: &mut String, left_out: &str) -> Result<(), AllocError> {
    let head = match left_out.split_once('{') {
        Some((head, _)) if !left_out.starts_with(START) => head,
        _ => left_out,
    };
    let behind = match left_out.rsplit_once('}') {
        Some((_, behind)) => behind.lines().next().unwrap_or(""),
        None => "",
    };
    for text in [" ", head, " ", behind] {
        gone.push_str(text)?;
    }
    Ok(())
}

/// Adds spaces in the place of bytes, and their line feeds.
fn push_blank(out: &mut String, bytes: &[u8]) -> Result<(), AllocError> {
    for byte in bytes {
        if *byte == b'\n' {
            out.push_str("\n")?;
        } else {
            out.push_str(" ")?;
        }
    }
    Ok(())
}

/// A text without what is left out, in whose place stands its sign, which is not longer.
fn without(alloc: Global, text: &str, cut: Cut) -> Said {
    let mut out = String::new(alloc);
    out.push_str(between(text, 0, cut.from))?;
    out.push_str(cut.sign)?;
    let blank = text.as_bytes().get(out.len()..cut.to).unwrap_or(&[]);
    push_blank(&mut out, blank)?;
    out.push_str(between(text, cut.to, text.len()))?;
    Ok(out)
}

/// Whether a character cannot stand in a name.
fn is_sign(character: char) -> bool {
    !character.is_ascii_alphanumeric() && character != '_'
}

/// Whether a token stands directly behind what was left out, and is not wanted there since something before that goes on.
fn is_behind_cut(spot: Spot<'_>, cut: Cut) -> bool {
    match spot.before.last() {
        Some(token) => token.at < cut.from && cut.to <= spot.at && !begins_anew_at(spot),
        None => false,
    }
}

impl Rest {
    /// Whether a fault may be there only since something was left out: it names that, stands directly behind it, or is of one more of what there was too many.
    fn has_made(&self, spot: Spot<'_>, cause: SourceCause) -> bool {
        let name = spot.name();
        match cause {
            _ if self.gone.is_empty() => false,
            SourceCause::Name if name.is_empty() => true,
            SourceCause::Name if self.gone.as_str().split(is_sign).any(|word| word == name) => true,
            SourceCause::Name | SourceCause::Syntax => is_behind_cut(spot, self.last),
            SourceCause::TooMany => spot.place == Place::Events,
            _ => false,
        }
    }

    /// What is said of a fault of what is left; nothing where it may be there only since something was left out.
    fn words(&self, alloc: Global, bad: BadSource) -> Result<Option<String>, AllocError> {
        let text = self.text.as_str();
        let tokens = tokens_of(alloc, text.as_bytes())?;
        let spot = spot_at(text, tokens.as_slice(), bad.at);
        if self.has_made(spot, bad.cause) {
            return Ok(None);
        }
        let words = words_at(alloc, spot, bad.cause)?;
        Ok(Some(words))
    }

    /// Leaves out that in which a fault stands.
    fn leave_out(&mut self, alloc: Global, bad: BadSource) -> Result<(), AllocError> {
        let text = self.text.as_str();
        let cut = cut_at(text, bad);
        push_gone(&mut self.gone, between(text, cut.from, cut.to))?;
        self.text = without(alloc, text, cut)?;
        self.last = cut;
        Ok(())
    }

    /// The first fault of what is left, where it stands behind a byte.
    fn fault_behind(&self, alloc: Global, at: usize) -> Result<Option<BadSource>, AllocError> {
        match read_source(alloc, self.text.as_bytes()) {
            Err(SourceError::Bad(bad)) if bad.at > at => Ok(Some(bad)),
            Err(SourceError::OutOfMemory) => Err(AllocError),
            Ok(_) | Err(SourceError::Bad(_)) => Ok(None),
        }
    }
}

/// Adds a line for each fault behind this one in what is left of a source of a name.
fn push_more(
    alloc: Global,
    name: &str,
    source: &str,
    rest: &mut Rest,
    bad: BadSource,
    words: &mut String,
) -> Result<(), AllocError> {
    let mut last = bad;
    let mut left = MOST_MORE;
    for _turn in 0..MOST_READS {
        rest.leave_out(alloc, last)?;
        let Some(next) = rest.fault_behind(alloc, last.at)? else {
            return Ok(());
        };
        if let Some(said) = rest.words(alloc, next)? {
            let Position { line, column } = position_in(source.as_bytes(), next.at);
            let more = format!(in alloc; "\n{name}:{line}:{column}: {said}")?;
            words.push_str(more.as_str())?;
            left = left.saturating_sub(1);
        }
        if left == 0 {
            return Ok(());
        }
        last = next;
    }
    Ok(())
}

/// What is said of the first fault of a source of a name, and behind it lines for others.
pub(crate) fn words_with_more(alloc: Global, name: &str, source: &[u8], bad: BadSource) -> Said {
    let source = str::from_utf8(source).unwrap_or("");
    let mut rest = Rest {
        text: String::from_str(alloc, source)?,
        gone: String::new(alloc),
        last: NO_CUT,
    };
    let mut words = match rest.words(alloc, bad)? {
        Some(words) => words,
        None => String::new(alloc),
    };
    if source.len() <= LONGEST {
        push_more(alloc, name, source, &mut rest, bad, &mut words)?;
    }
    drop(rest);
    Ok(words)
}
