//! On what values a run aborted or came to a fault, as notes.
ghost use Rattle.std.specs.Prelude.{◌≡◌, ◌++◌, ◌+◌, ◌<◌, ◌≤◌, length, option_map, IfOk, OnOk};
ghost use Rattle.stm_formats.specs.FormatEnds.{begins, read_at, fetched_at, listed_at, own_read, attempt_reads, noted, end_words, ended, end_note, end_notes};

use crate::format_keys::Cuts;
use crate::format_label::{RunnerLabel, runner_words};
use crate::format_pieces::{Piece, push_pieces, said};
use crate::format_words::{reads_words, seen_words};
use std::alloc::{AllocError, Global};
use stm_events::KeyRead;
use stm_history::Sequence;
use stm_keys::Keys;
use stm_retry::{Denied, Reply};

/// Whether an attempt of the runner begins with a reply.
fn begins(runner: u64, reply: &Result<Reply, Denied>) -> bool
    ensures { result ≡ begins runner reply.now }
{
    match reply {
        Ok(Reply::Started { runner: begun }) => *begun == runner,
        Ok(Reply::Conflict { runner: loser, .. }) => *loser == runner,
        _ => false,
    }
}

/// The words of what was read at an event.
fn read_at(alloc: Global, number: u64, words: &[u8]) -> Result<Sequence<u8>, AllocError>
    ensures { IfOk result (λ read. read ≡ read_at number words.now) }
{
    let pieces = [
        Piece::Say(", "),
        Piece::Raw(words),
        Piece::Say(" (event "),
        Piece::Number(number),
        Piece::Say(")"),
    ];
    said(alloc, &pieces)
}

/// The words of a key that was read at an event.
fn fetched_at(
    alloc: Global,
    cuts: &Cuts,
    keys: &Keys,
    number: u64,
    key: &str,
    mod_rev: u64,
    of_rev: u64,
) -> Result<Sequence<u8>, AllocError>
    ensures { IfOk result (λ read. read ≡ fetched_at cuts.now keys.now.history number key.now mod_rev of_rev) }
{
    let words = seen_words(alloc, cuts, keys, key, mod_rev, of_rev)?;
    read_at(alloc, number, words.as_slice())
}

/// The words of a list that was read at an event.
fn listed_at(
    alloc: Global,
    cuts: &Cuts,
    keys: &Keys,
    number: u64,
    revision: u64,
    reads: &[KeyRead],
) -> Result<Sequence<u8>, AllocError>
    ensures { IfOk result (λ read. read ≡ listed_at cuts.now keys.now.history number revision reads.now) }
{
    let read = reads_words(alloc, cuts, keys, revision, reads)?;
    let words = said(
        alloc,
        &[Piece::Say("the list"), Piece::Raw(read.as_slice())],
    )?;
    read_at(alloc, number, words.as_slice())
}

/// What the runner read by the reply to an event.
fn own_read(
    alloc: Global,
    cuts: &Cuts,
    keys: &Keys,
    runner: u64,
    number: u64,
    reply: &Result<Reply, Denied>,
) -> Result<Sequence<u8>, AllocError>
    ensures { IfOk result (λ read. read ≡ own_read cuts.now keys.now.history runner number reply.now) }
{
    match reply {
        Ok(
            Reply::Fetched {
                runner: reader,
                key,
                mod_rev,
                of_rev,
                ..
            },
        ) => {
            if *reader != runner {
                return Ok(Sequence::new(alloc));
            }
            fetched_at(alloc, cuts, keys, number, key.as_str(), *mod_rev, *of_rev)
        }
        Ok(
            Reply::Prefetched {
                runner: reader,
                revision,
                reads,
            },
        ) => {
            if *reader != runner {
                return Ok(Sequence::new(alloc));
            }
            listed_at(alloc, cuts, keys, number, *revision, reads.as_slice())
        }
        _ => Ok(Sequence::new(alloc)),
    }
}

/// What the runner read by the reply to an event, before these words.
fn with_read(
    alloc: Global,
    cuts: &Cuts,
    keys: &Keys,
    runner: u64,
    number: u64,
    reply: &Result<Reply, Denied>,
    words: &[u8],
) -> Result<Sequence<u8>, AllocError>
    ensures { IfOk result (λ read. read ≡ own_read cuts.now keys.now.history runner number reply.now ++ words.now) }
{
    let mut read = own_read(alloc, cuts, keys, runner, number, reply)?.into_vec();
    read.extend_from_slice(words)?;
    Ok(Sequence::of(read))
}

/// What the runner's attempt had read after so many of these events. It goes back from the last of them to where the attempt began.
fn attempt_reads(
    alloc: Global,
    cuts: &Cuts,
    keys: &Keys,
    runner: u64,
    replies: &[Result<Reply, Denied>],
    events: usize,
) -> Result<Sequence<u8>, AllocError>
    requires { events ≤ length replies.now }
    ensures { IfOk result (λ words. words ≡ attempt_reads cuts.now keys.now.history runner replies.now events) }
{
    let mut words = Sequence::new(alloc);
    let mut left = events;
    while left > 0 {
        let before = left - 1;
        let reply = &replies[before];
        if begins(runner, reply) {
            return Ok(words);
        }
        words = with_read(
            alloc,
            cuts,
            keys,
            runner,
            left as u64,
            reply,
            words.as_slice(),
        )?;
        left = before;
    }
    Ok(words)
}

/// How a run ended, and at which event.
fn end_words(
    alloc: Global,
    labels: &[RunnerLabel],
    word: &str,
    runner: u64,
    number: u64,
) -> Result<Sequence<u8>, AllocError>
    ensures { IfOk result (λ words. words ≡ end_words labels.now word.now runner number) }
{
    let mut words = runner_words(alloc, labels, runner)?.into_vec();
    push_pieces(&mut words, &[Piece::Say(word), Piece::Number(number)])?;
    Ok(Sequence::of(words))
}

/// Adds a note of these words and of what was read, where something was.
fn push_noted<'a>(
    alloc: Global,
    notes: &mut Vec<Sequence<u8>>,
    words: &'a [u8],
    reads: &'a [u8],
) -> Result<(), AllocError>
    ensures { OnOk result (notes.new.items ≡ notes.old.items ++ noted words.now reads.now) }
{
    if reads.len() < 2 {
        return Ok(());
    }
    let (_, read) = reads.split_at(2);
    let pieces = [
        Piece::Raw(words),
        Piece::Say(": it had read "),
        Piece::Raw(read),
    ];
    notes.push(said(alloc, &pieces)?)?;
    Ok(())
}

/// The run that a reply ends by an abort or a fault, and the words for that.
fn ended(reply: &Result<Reply, Denied>) -> Option<(u64, &'static str)>
    ensures { option_map (λ end. (end.0, end.1.now)) result ≡ ended reply.now }
{
    match reply {
        Ok(Reply::Aborted { runner, .. }) => Some((*runner, " aborts at event ")),
        Ok(Reply::Faulted { runner, .. }) => Some((*runner, " faults at event ")),
        _ => None,
    }
}

/// Adds the note of the event after so many, if a run aborted or came to a fault there and its attempt had read something.
fn push_end(
    alloc: Global,
    cuts: &Cuts,
    labels: &[RunnerLabel],
    notes: &mut Vec<Sequence<u8>>,
    keys: &Keys,
    replies: &[Result<Reply, Denied>],
    before: usize,
    reply: &Result<Reply, Denied>,
) -> Result<(), AllocError>
    requires { before < length replies.now }
    ensures { OnOk result (notes.new.items ≡ notes.old.items ++ end_note cuts.now labels.now keys.now.history replies.now before reply.now) }
{
    let Some((runner, word)) = ended(reply) else {
        return Ok(());
    };
    let words = end_words(alloc, labels, word, runner, before as u64 + 1)?;
    let reads = attempt_reads(alloc, cuts, keys, runner, replies, before)?;
    push_noted(alloc, notes, words.as_slice(), reads.as_slice())
}

/// Adds a note for each run that aborted or came to a fault after it had read something. It fails where a growth was refused.
pub(crate) fn push_ends(
    alloc: Global,
    cuts: &Cuts,
    labels: &[RunnerLabel],
    notes: &mut Vec<Sequence<u8>>,
    keys: &Keys,
    replies: &[Result<Reply, Denied>],
) -> Result<(), AllocError>
    ensures { OnOk result (notes.new.items ≡ notes.old.items ++ end_notes cuts.now labels.now keys.now.history replies.now 0 replies.now) }
{
    for (before, reply) in replies.iter().enumerate() {
        push_end(alloc, cuts, labels, notes, keys, replies, before, reply)?;
    }
    Ok(())
}
