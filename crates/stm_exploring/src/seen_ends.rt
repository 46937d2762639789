//! How the runs of runners ended, at the places that a search came to.
ghost use Rattle.std.specs.Prelude.{◌≡◌};
ghost use Rattle.stm_exploring.specs.Telling.{never_words};

use crate::accounts::{Told, shown_text};
use crate::audience::Audience;
use std::alloc::{AllocError, Global};
use std::cell::RefCell;
use stm_explain::Said;
use stm_explore::{Onlooker, RunnerEnd};

/// The ends of a line, where the search has come to all schedules.
const OF_ALL: &str = "at the ends of all schedules";

/// The same, where it has not.
const OF_SOME: &str = "in the schedules looked at, up to where the search stopped";

/// The ends of a runner, each once, as they are said.
#[derive(Drop)]
struct Ends {
    has_committed: bool,
    words: Vec<String>,
}

/// The ends of runners, by their numbers.
#[derive(Drop)]
struct Seen {
    runners: Vec<Ends>,
    /// Whether an allocation failed.
    is_cut: bool,
}

/// The ends of runners at the places that a search comes to, also at the last one of a schedule that breaks a rule; and that a runner still waits, at those
/// from where no schedule goes on.
#[derive(Drop)]
pub(crate) struct SeenEnds {
    alloc: Global,
    seen: RefCell<Seen>,
}

impl Onlooker for SeenEnds {
    fn see(&self, ends: &[Option<RunnerEnd>], is_last: bool) {
        if let Ok(mut seen) = self.seen.try_borrow_mut() {
            if note_each(self.alloc, &mut seen.runners, ends, is_last).is_err() {
                seen.is_cut = true;
            }
        }
    }
}

/// An end that was known of a runner, as it is said.
fn end_words(alloc: Global, end: Option<&RunnerEnd>) -> Said {
    match end {
        None => String::from_str(alloc, "still waiting"),
        Some(RunnerEnd::Committed { .. }) => String::from_str(alloc, "committed"),
        Some(RunnerEnd::GaveUp { key }) => {
            let key = shown_text(alloc, key.as_str())?;
            format!(in alloc; "gave up over {key}")
        }
        Some(RunnerEnd::Aborted { text }) => {
            let text = shown_text(alloc, text.as_str())?;
            format!(in alloc; "aborted {text}")
        }
        Some(RunnerEnd::Faulted { fault }) => {
            let fault = fault.name();
            format!(in alloc; "faulted {fault}")
        }
        Some(RunnerEnd::Ended { cause }) => {
            let cause = cause.name();
            format!(in alloc; "ended {cause}")
        }
    }
}

/// Whether these words are among those.
fn has_words(among: &[String], words: &str) -> bool {
    among.iter().any(|it| it.as_str() == words)
}

/// Whether there is nothing to note of a runner at a place: it still goes on there, or that it committed is known.
fn is_known(ends: &Ends, end: Option<&RunnerEnd>, is_last: bool) -> bool {
    match end {
        None => !is_last,
        Some(RunnerEnd::Committed { .. }) => ends.has_committed,
        Some(_) => false,
    }
}

/// Notes what is known of the end of a runner at a place.
fn note(
    alloc: Global,
    ends: &mut Ends,
    end: Option<&RunnerEnd>,
    is_last: bool,
) -> Result<(), AllocError> {
    if is_known(ends, end, is_last) {
        return Ok(());
    }
    let words = end_words(alloc, end)?;
    if matches!(end, Some(RunnerEnd::Committed { .. })) {
        ends.has_committed = true;
    }
    if !has_words(ends.words.as_slice(), words.as_str()) {
        ends.words.push(words)?;
    }
    Ok(())
}

/// What is known of the end of a runner.
fn end_at(ends: &[Option<RunnerEnd>], index: usize) -> Option<&RunnerEnd> {
    if index < ends.len() {
        return ends[index].as_ref();
    }
    None
}

/// Notes what is known of the end of each runner at a place.
fn note_each(
    alloc: Global,
    runners: &mut Vec<Ends>,
    ends: &[Option<RunnerEnd>],
    is_last: bool,
) -> Result<(), AllocError> {
    for index in 0..runners.len() {
        note(alloc, &mut runners[index], end_at(ends, index), is_last)?;
    }
    Ok(())
}

/// So many runners, no end of which was seen.
fn none_seen(alloc: Global, count: usize) -> Result<Vec<Ends>, AllocError> {
    let mut runners = Vec::new(alloc);
    for _ in 0..count {
        runners.push(Ends {
            has_committed: false,
            words: Vec::new(alloc),
        })?;
    }
    Ok(runners)
}

/// What is said behind a runner of which nothing that was looked at has committed: that it never did, where all was looked at. Of a search that stopped at a
/// schedule that breaks a rule, or had no more moves, that would be too much.
pub(crate) fn never_words(has_committed: bool, is_all: bool) -> &'static str
    ensures { result.now ≡ never_words has_committed is_all }
{
    if !has_committed && is_all {
        " never committed"
    } else {
        ""
    }
}

/// The line of a runner with these ends, of all schedules, or of what was looked at.
fn line_of(alloc: Global, runner: usize, ends: &Ends, is_all: bool) -> Said {
    let never = never_words(ends.has_committed, is_all);
    let of = if is_all { OF_ALL } else { OF_SOME };
    let mut line = format!(in alloc; "runner {runner}{never}; {of}")?;
    let mut between = ": ";
    for words in ends.words.as_slice() {
        line.push_str(between)?;
        line.push_str(words.as_str())?;
        between = ", ";
    }
    Ok(line)
}

/// Says how the runs of each runner ended of which it is to be said.
fn tell_each<O: Audience>(
    alloc: Global,
    runners: &[Ends],
    told: Told,
    is_all: bool,
    audience: &mut O,
) -> Result<(), AllocError> {
    for index in 0..runners.len() {
        let ends = &runners[index];
        if !ends.words.is_empty() && told.is_of(ends.has_committed) {
            let line = line_of(alloc, index + 1, ends, is_all)?;
            if is_all && !ends.has_committed {
                audience.doubt(line.as_str());
            } else {
                audience.hear(line.as_str());
            }
        }
    }
    Ok(())
}

impl SeenEnds {
    /// No end was seen of so many runners.
    pub(crate) fn new(alloc: Global, count: usize) -> Result<SeenEnds, AllocError> {
        let runners = none_seen(alloc, count)?;
        let seen = RefCell::new(Seen {
            runners,
            is_cut: false,
        });
        Ok(SeenEnds { alloc, seen })
    }

    /// Says how the runs of each runner ended of which it is to be said: in all schedules, where `is_all` says that the search has come to all, and else at
    /// the places that it has come to. It fails where an allocation failed for that or for an end.
    pub(crate) fn tell<O: Audience>(
        &self,
        told: Told,
        is_all: bool,
        audience: &mut O,
    ) -> Result<(), AllocError> {
        match self.seen.try_borrow() {
            Ok(seen) => {
                if seen.is_cut {
                    return Err(AllocError);
                }
                tell_each(self.alloc, seen.runners.as_slice(), told, is_all, audience)
            }
            Err(_) => Ok(()),
        }
    }
}
