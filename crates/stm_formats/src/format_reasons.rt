//! Why commits failed, and on what commits went through that no longer was so, as notes.
ghost use Rattle.std.specs.Prelude.{◌≡◌, ◌++◌, IfOk, OnOk};
ghost use Rattle.stm_formats.specs.FormatReasons.{ending_words, was_words, read_words, deed_words, cause_words, moral, reason_note, reason_notes};

use crate::format_label::{RunnerLabel, runner_words};
use crate::format_pieces::{Piece, said};
use std::alloc::{AllocError, Global};
use stm_history::Sequence;
use stm_reasons::{Cause, Deed, Ending, Reason};

/// What the runner did.
fn ending_words(ending: Ending) -> &'static str
    ensures { result.now ≡ ending_words ending }
{
    match ending {
        Ending::Conflict => " conflicts at event ",
        Ending::GaveUp => " gives up at event ",
        Ending::Stale => " commits at event ",
    }
}

/// What it had seen of the key.
fn was_words(alloc: Global, seen: u64) -> Result<Sequence<u8>, AllocError>
    ensures { IfOk result (λ words. words ≡ was_words seen) }
{
    if seen == 0 {
        return said(alloc, &[Piece::Say(" was absent")]);
    }
    said(alloc, &[Piece::Say(" was @"), Piece::Number(seen)])
}

/// When it had seen it.
fn read_words(alloc: Global, read: Option<u64>) -> Result<Sequence<u8>, AllocError>
    ensures { IfOk result (λ words. words ≡ read_words read) }
{
    match read {
        None => said(alloc, &[Piece::Say(" when it last saw it")]),
        Some(event) => {
            let pieces = [
                Piece::Say(" when it read it at event "),
                Piece::Number(event),
            ];
            said(alloc, &pieces)
        }
    }
}

/// What an event did to the key.
fn deed_words(alloc: Global, deed: Deed) -> Result<Sequence<u8>, AllocError>
    ensures { IfOk result (λ words. words ≡ deed_words deed) }
{
    match deed {
        Deed::Put => said(alloc, &[Piece::Say(" put it")]),
        Deed::Deleted => said(alloc, &[Piece::Say(" deleted it")]),
        Deed::Ended { lease } => {
            let pieces = [
                Piece::Say(" deleted it, as lease "),
                Piece::Number(lease),
                Piece::Say(" ended"),
            ];
            said(alloc, &pieces)
        }
    }
}

/// What has changed the key since it was seen.
fn cause_words(alloc: Global, cause: Option<Cause>) -> Result<Sequence<u8>, AllocError>
    ensures { IfOk result (λ words. words ≡ cause_words cause) }
{
    match cause {
        None => Ok(Sequence::new(alloc)),
        Some(cause) => {
            let deed = deed_words(alloc, cause.deed)?;
            let pieces = [
                Piece::Say(", and event "),
                Piece::Number(cause.event),
                Piece::Raw(deed.as_slice()),
            ];
            said(alloc, &pieces)
        }
    }
}

/// What follows.
fn moral(ending: Ending) -> &'static str
    ensures { result.now ≡ moral ending }
{
    match ending {
        Ending::Stale => ": a comparing level would have refused it",
        _ => "",
    }
}

/// The note of a reason.
pub(crate) fn reason_note(
    alloc: Global,
    labels: &[RunnerLabel],
    reason: &Reason,
) -> Result<Sequence<u8>, AllocError>
    ensures { IfOk result (λ note. note ≡ reason_note labels.now reason.now) }
{
    let runner = runner_words(alloc, labels, reason.runner)?;
    let was = was_words(alloc, reason.seen)?;
    let read = read_words(alloc, reason.read)?;
    let cause = cause_words(alloc, reason.cause)?;
    let pieces = [
        Piece::Raw(runner.as_slice()),
        Piece::Say(ending_words(reason.ending)),
        Piece::Number(reason.event),
        Piece::Say(": "),
        Piece::Key(reason.key.as_str()),
        Piece::Raw(was.as_slice()),
        Piece::Raw(read.as_slice()),
        Piece::Raw(cause.as_slice()),
        Piece::Say(moral(reason.ending)),
    ];
    said(alloc, &pieces)
}

/// Adds a note for each of these reasons. It fails where a growth was refused.
pub(crate) fn push_reasons(
    alloc: Global,
    labels: &[RunnerLabel],
    notes: &mut Vec<Sequence<u8>>,
    reasons: &[Reason],
) -> Result<(), AllocError>
    ensures { OnOk result (notes.new.items ≡ notes.old.items ++ reason_notes labels.now reasons.now) }
{
    for reason in reasons {
        notes.push(reason_note(alloc, labels, reason)?)?;
    }
    Ok(())
}
