//! What a row says of an event and its reply.
ghost use Rattle.std.specs.Prelude.{◌≡◌, ◌++◌, [], ◌∷◌, codes, option_map, IfOk, OnOk};
ghost use Rattle.stm_texts.specs.Grammar.{level_text};
ghost use Rattle.stm_formats.specs.FormatWords.{named_words, reported_words, changed_words, called_words, start_words, link, seen_words, as_of, fetched_words, counted_read};
ghost use Rattle.stm_formats.specs.FormatWords.{reads_after, listed_words, attempt_words, commit_word, commit_words, compared_words, compared_by, failed_word, at_words, txn_words, revoked_words};
ghost use Rattle.stm_formats.specs.FormatKeys.{key_words};
ghost use Rattle.stm_formats.specs.FormatPieces.{joined};
ghost use Rattle.stm_formats.specs.FormatWords.{lease_after, counted_end, ends_after, advanced_words, from_words, watched_words, watch_words, events_word, batch_words, lost_words, reply_words, grant_words, asked_words, refusal_words, refused_words, told_words, words_of};

use crate::format_changes::{MOST_CHANGES, between, changed_since, changes_words, known_words};
use crate::format_keys::{Cuts, key_words};
use crate::format_label::{RunnerLabel, program_of};
use crate::format_output::emitted_words;
use crate::format_pieces::{Piece, push_pieces, said};
use crate::format_source::{compare_words, program_words, source_words};
use std::alloc::{AllocError, Global};
use stm_events::{Event, EventRefusal, Expired, KeyRead};
use stm_history::Sequence;
use stm_keys::Keys;
use stm_program::{Level, Program};
use stm_reasons::counter_after;
use stm_retry::{Denied, Reply, WorldEvent};

/// The name of a level.
fn level_name(level: Level) -> &'static str
    ensures { result.now ≡ level_text level }
{
    match level {
        Level::SerializableSnapshot => "SerializableSnapshot",
        Level::Serializable => "Serializable",
        Level::RepeatableReads => "RepeatableReads",
        Level::ReadCommitted => "ReadCommitted",
    }
}

/// A word and the number that it is about.
fn named(alloc: Global, word: &str, number: u64) -> Result<Sequence<u8>, AllocError>
    ensures { IfOk result (λ words. words ≡ named_words word.now number) }
{
    let pieces = [Piece::Say(word), Piece::Say(" "), Piece::Number(number)];
    said(alloc, &pieces)
}

/// A word and the text that it is about.
fn reported<'a>(
    alloc: Global,
    most: u32,
    word: &'a str,
    text: &'a str,
) -> Result<Sequence<u8>, AllocError>
    ensures { IfOk result (λ words. words ≡ reported_words most word.now text.now) }
{
    let pieces = [Piece::Say(word), Piece::Say(" "), Piece::Shown(most, text)];
    said(alloc, &pieces)
}

/// What a change did, and the revision after it.
fn changed(alloc: Global, word: &str, revision: u64) -> Result<Sequence<u8>, AllocError>
    ensures { IfOk result (λ words. words ≡ changed_words word.now revision) }
{
    let pieces = [Piece::Say(word), Piece::Say(" @"), Piece::Number(revision)];
    said(alloc, &pieces)
}

/// What a runner was started with: its program with the arguments, as the source has them, or the first line of its program.
fn called_words(
    alloc: Global,
    most: u32,
    call: Option<&str>,
    program: &Program,
) -> Result<Sequence<u8>, AllocError>
    ensures { IfOk result (λ words. words ≡ called_words most (option_map (λ c. c.now) call.entry) program.now) }
{
    match call {
        None => program_words(alloc, most, program),
        Some(call) => source_words(alloc, most, call.as_bytes()),
    }
}

/// The words of a start of a program at a level, with what it is called.
fn begun(
    alloc: Global,
    most: u32,
    call: Option<&str>,
    program: &Program,
    level: Level,
) -> Result<Sequence<u8>, AllocError>
    ensures { IfOk result (λ words. words
        ≡ joined (codes "start " ∷ level_text level ∷ called_words most (option_map (λ c. c.now) call.entry) program.now ∷ [])) }
{
    let source = called_words(alloc, most, call, program)?;
    let pieces = [
        Piece::Say("start "),
        Piece::Say(level_name(level)),
        Piece::Raw(source.as_slice()),
    ];
    said(alloc, &pieces)
}

/// The words of the start of a runner.
fn started(
    alloc: Global,
    most: u32,
    labels: &[RunnerLabel],
    runner: u64,
    event: &WorldEvent,
) -> Result<Sequence<u8>, AllocError>
    ensures { IfOk result (λ words. words ≡ start_words most labels.now runner event.now) }
{
    match event {
        WorldEvent::Start { program, level, .. } => {
            begun(alloc, most, program_of(labels, runner), program, *level)
        }
        _ => said(alloc, &[Piece::Say("start")]),
    }
}

/// What stands between a key that was seen at a modification revision and its value.
fn link(mod_rev: u64) -> &'static str
    ensures { result.now ≡ link mod_rev }
{
    if mod_rev == 0 { ": " } else { " = " }
}

/// The words of a key that was seen as of a revision, at a modification revision.
pub(crate) fn seen_words(
    alloc: Global,
    cuts: &Cuts,
    keys: &Keys,
    key: &str,
    mod_rev: u64,
    revision: u64,
) -> Result<Sequence<u8>, AllocError>
    ensures { IfOk result (λ words. words ≡ seen_words cuts.now keys.now.history key.now mod_rev revision) }
{
    let name = key_words(alloc, cuts, key)?;
    let known = known_words(alloc, cuts.value, keys, key, mod_rev, revision)?;
    let pieces = [
        Piece::Raw(name.as_slice()),
        Piece::Say(link(mod_rev)),
        Piece::Raw(known.as_slice()),
    ];
    said(alloc, &pieces)
}

/// The words for the revision that a read shows, where the store was at another one.
fn as_of(alloc: Global, of_rev: u64, revision: u64) -> Result<Sequence<u8>, AllocError>
    ensures { IfOk result (λ words. words ≡ as_of of_rev revision) }
{
    if of_rev == revision {
        return Ok(Sequence::new(alloc));
    }
    said(alloc, &[Piece::Say(", as of "), Piece::Number(of_rev)])
}

/// The words of a fetch.
fn fetched(
    alloc: Global,
    cuts: &Cuts,
    keys: &Keys,
    key: &str,
    mod_rev: u64,
    of_rev: u64,
    revision: u64,
) -> Result<Sequence<u8>, AllocError>
    ensures { IfOk result (λ words. words ≡ fetched_words cuts.now keys.now.history key.now mod_rev of_rev revision) }
{
    let seen = seen_words(alloc, cuts, keys, key, mod_rev, of_rev)?;
    let shows = as_of(alloc, of_rev, revision)?;
    let pieces = [
        Piece::Say("read "),
        Piece::Raw(seen.as_slice()),
        Piece::Raw(shows.as_slice()),
    ];
    said(alloc, &pieces)
}

/// Adds a key of a list that was read after so many others.
fn push_read(
    alloc: Global,
    cuts: &Cuts,
    out: &mut Vec<u8>,
    keys: &Keys,
    revision: u64,
    count: u64,
    read: &KeyRead,
) -> Result<(), AllocError>
    ensures { OnOk result (out.new.items ≡ out.old.items ++ counted_read cuts.now keys.now.history revision count read.now) }
{
    if count < MOST_CHANGES {
        let seen = seen_words(alloc, cuts, keys, read.key.as_str(), read.mod_rev, revision)?;
        return push_pieces(
            out,
            &[Piece::Say(between(count)), Piece::Raw(seen.as_slice())],
        );
    }
    if count == MOST_CHANGES {
        return out.extend_from_slice(b", ..");
    }
    Ok(())
}

/// The words of the keys of a list that were read as of a revision.
pub(crate) fn reads_words(
    alloc: Global,
    cuts: &Cuts,
    keys: &Keys,
    revision: u64,
    reads: &[KeyRead],
) -> Result<Vec<u8>, AllocError>
    ensures { IfOk result (λ words. words.items ≡ reads_after cuts.now keys.now.history revision 0 reads.now) }
{
    let mut out = Vec::new(alloc);
    for (count, read) in reads.iter().enumerate() {
        push_read(alloc, cuts, &mut out, keys, revision, count as u64, read)?;
    }
    Ok(out)
}

/// The words of a list that was fetched.
fn listed(
    alloc: Global,
    cuts: &Cuts,
    keys: &Keys,
    revision: u64,
    reads: &[KeyRead],
) -> Result<Sequence<u8>, AllocError>
    ensures { IfOk result (λ words. words ≡ listed_words cuts.now keys.now.history revision reads.now) }
{
    let read = reads_words(alloc, cuts, keys, revision, reads)?;
    said(
        alloc,
        &[Piece::Say("read the list"), Piece::Raw(read.as_slice())],
    )
}

/// The words for which attempt a commit was of, from the second on.
fn attempt_words(alloc: Global, attempts: u64) -> Result<Sequence<u8>, AllocError>
    ensures { IfOk result (λ words. words ≡ attempt_words attempts) }
{
    if attempts == 1 {
        return Ok(Sequence::new(alloc));
    }
    said(alloc, &[Piece::Say(", attempt "), Piece::Number(attempts)])
}

/// What stands before the revision after a commit: that it changed nothing, where the store was at that revision before it.
fn commit_word(before: u64, revision: u64) -> &'static str
    ensures { result.now ≡ commit_word before revision }
{
    if revision <= before {
        "COMMIT, no change, at @"
    } else {
        "COMMIT @"
    }
}

/// The words of a commit, before which the store was at a revision.
fn committed(
    alloc: Global,
    before: u64,
    revision: u64,
    attempts: u64,
) -> Result<Sequence<u8>, AllocError>
    ensures { IfOk result (λ words. words ≡ commit_words before revision attempts) }
{
    let attempt = attempt_words(alloc, attempts)?;
    let pieces = [
        Piece::Say(commit_word(before, revision)),
        Piece::Number(revision),
        Piece::Raw(attempt.as_slice()),
    ];
    said(alloc, &pieces)
}

/// The words of a commit of which a compare failed.
fn compared<'a>(
    alloc: Global,
    cuts: &Cuts,
    keys: &Keys,
    word: &'a str,
    key: &'a str,
    seen: u64,
    now: u64,
) -> Result<Sequence<u8>, AllocError>
    ensures { IfOk result (λ words. words ≡ compared_words cuts.now keys.now.history word.now key.now seen now) }
{
    let name = key_words(alloc, cuts, key)?;
    let before = known_words(alloc, cuts.value, keys, key, seen, seen)?;
    let after = known_words(alloc, cuts.value, keys, key, now, now)?;
    let pieces = [
        Piece::Say(word),
        Piece::Say(" "),
        Piece::Raw(name.as_slice()),
        Piece::Say(": was "),
        Piece::Raw(before.as_slice()),
        Piece::Say(", is "),
        Piece::Raw(after.as_slice()),
    ];
    said(alloc, &pieces)
}

/// What a transaction compared.
fn compared_by(alloc: Global, most: u32, event: &WorldEvent) -> Result<Sequence<u8>, AllocError>
    ensures { IfOk result (λ words. words ≡ compared_by most event.now) }
{
    match event {
        WorldEvent::Txn { txn } => compare_words(alloc, most, txn.compares.as_slice()),
        _ => Ok(Sequence::new(alloc)),
    }
}

/// Whether a compare of a transaction failed.
fn failed_word(succeeded: bool) -> &'static str
    ensures { result.now ≡ failed_word succeeded }
{
    if succeeded { "" } else { "failed " }
}

/// A revision.
fn at_words(alloc: Global, revision: u64) -> Result<Sequence<u8>, AllocError>
    ensures { IfOk result (λ words. words ≡ at_words revision) }
{
    said(alloc, &[Piece::Say("@"), Piece::Number(revision)])
}

/// The words of another client's transaction.
fn transacted(
    alloc: Global,
    most: u32,
    event: &WorldEvent,
    succeeded: bool,
    revision: u64,
) -> Result<Sequence<u8>, AllocError>
    ensures { IfOk result (λ words. words ≡ txn_words most event.now succeeded revision) }
{
    let compared = compared_by(alloc, most, event)?;
    let at = at_words(alloc, revision)?;
    let pieces = [
        Piece::Say("txn "),
        Piece::Say(failed_word(succeeded)),
        Piece::Raw(compared.as_slice()),
        Piece::Raw(at.as_slice()),
    ];
    said(alloc, &pieces)
}

/// The words of a revocation.
fn revoked(alloc: Global, id: u64, revision: u64) -> Result<Sequence<u8>, AllocError>
    ensures { IfOk result (λ words. words ≡ revoked_words id revision) }
{
    let pieces = [
        Piece::Say("revoke "),
        Piece::Number(id),
        Piece::Say(" @"),
        Piece::Number(revision),
    ];
    said(alloc, &pieces)
}

/// The words of a grant of a lease, as a source has it.
fn grant_words(alloc: Global, id: u64, ttl: u64) -> Result<Sequence<u8>, AllocError>
    ensures { IfOk result (λ words. words ≡ grant_words id ttl) }
{
    let pieces = [
        Piece::Say("grant "),
        Piece::Number(id),
        Piece::Say(" ttl "),
        Piece::Number(ttl),
    ];
    said(alloc, &pieces)
}

/// What an event asked for.
fn asked_words(alloc: Global, event: &WorldEvent) -> Result<Sequence<u8>, AllocError>
    ensures { IfOk result (λ words. words ≡ asked_words event.now) }
{
    match event {
        WorldEvent::Start { .. } => said(alloc, &[Piece::Say("start")]),
        WorldEvent::Step { .. } => said(alloc, &[Piece::Say("step")]),
        WorldEvent::Txn { .. } => said(alloc, &[Piece::Say("txn")]),
        WorldEvent::Grant { id, ttl } => grant_words(alloc, *id, *ttl),
        WorldEvent::Keep { id } => named(alloc, "keep", *id),
        WorldEvent::Revoke { id } => named(alloc, "revoke", *id),
        WorldEvent::Advance { now } => named(alloc, "advance to", *now),
        WorldEvent::Compact { revision } => changed(alloc, "compact", *revision),
        WorldEvent::WatchKey { .. } => said(alloc, &[Piece::Say("watch")]),
        WorldEvent::WatchRange { .. } => said(alloc, &[Piece::Say("watch")]),
        WorldEvent::Poll { watcher, .. } => named(alloc, "poll", *watcher),
        WorldEvent::Cancel { watcher } => named(alloc, "cancel", *watcher),
    }
}

/// What stands before a lease that ended after so many.
fn lease_after(count: u64) -> &'static str
    ensures { result.now ≡ lease_after count }
{
    if count == 0 { ": lease " } else { ", lease " }
}

/// Adds a lease that ended after so many.
fn push_end(out: &mut Vec<u8>, count: u64, lease: Expired) -> Result<(), AllocError>
    ensures { OnOk result (out.new.items ≡ out.old.items ++ counted_end count lease) }
{
    if count < MOST_CHANGES {
        let pieces = [
            Piece::Say(lease_after(count)),
            Piece::Number(lease.id),
            Piece::Say(" ended @"),
            Piece::Number(lease.revision),
        ];
        return push_pieces(out, &pieces);
    }
    if count == MOST_CHANGES {
        return out.extend_from_slice(b", ..");
    }
    Ok(())
}

/// The words of leases that ended.
fn ends_words(alloc: Global, expired: &[Expired]) -> Result<Vec<u8>, AllocError>
    ensures { IfOk result (λ words. words.items ≡ ends_after 0 expired.now) }
{
    let mut out = Vec::new(alloc);
    for (count, lease) in expired.iter().enumerate() {
        push_end(&mut out, count as u64, *lease)?;
    }
    Ok(out)
}

/// The words of an advance.
fn advanced(alloc: Global, now: u64, expired: &[Expired]) -> Result<Sequence<u8>, AllocError>
    ensures { IfOk result (λ words. words ≡ advanced_words now expired.now) }
{
    let ended = ends_words(alloc, expired)?;
    let pieces = [
        Piece::Say("advance to "),
        Piece::Number(now),
        Piece::Raw(ended.as_slice()),
    ];
    said(alloc, &pieces)
}

/// The words for the revision from which on is watched, where that is said.
fn from_words(alloc: Global, from: u64) -> Result<Sequence<u8>, AllocError>
    ensures { IfOk result (λ words. words ≡ from_words from) }
{
    if from == 0 {
        return Ok(Sequence::new(alloc));
    }
    said(alloc, &[Piece::Say(" from @"), Piece::Number(from)])
}

/// The words for a key that is watched.
fn watched_key(alloc: Global, cuts: &Cuts, key: &str, from: u64) -> Result<Sequence<u8>, AllocError>
    ensures { IfOk result (λ words. words ≡ joined (codes ": \"" ∷ key_words cuts.now key.now ∷ codes "\"" ∷ from_words from ∷ [])) }
{
    let key = key_words(alloc, cuts, key)?;
    let from = from_words(alloc, from)?;
    let pieces = [
        Piece::Say(": \""),
        Piece::Raw(key.as_slice()),
        Piece::Say("\""),
        Piece::Raw(from.as_slice()),
    ];
    said(alloc, &pieces)
}

/// The words for a range that is watched.
fn watched_range(
    alloc: Global,
    cuts: &Cuts,
    first: &str,
    end: &str,
    from: u64,
) -> Result<Sequence<u8>, AllocError>
    ensures { IfOk result (λ words. words
        ≡ joined (codes ": \"" ∷ key_words cuts.now first.now ∷ codes "\"..\"" ∷ key_words cuts.now end.now ∷ codes "\"" ∷ from_words from ∷ [])) }
{
    let first = key_words(alloc, cuts, first)?;
    let end = key_words(alloc, cuts, end)?;
    let from = from_words(alloc, from)?;
    let pieces = [
        Piece::Say(": \""),
        Piece::Raw(first.as_slice()),
        Piece::Say("\"..\""),
        Piece::Raw(end.as_slice()),
        Piece::Say("\""),
        Piece::Raw(from.as_slice()),
    ];
    said(alloc, &pieces)
}

/// The words for what is watched.
fn watched(alloc: Global, cuts: &Cuts, event: &WorldEvent) -> Result<Sequence<u8>, AllocError>
    ensures { IfOk result (λ words. words ≡ watched_words cuts.now event.now) }
{
    match event {
        WorldEvent::WatchKey { key, from } => watched_key(alloc, cuts, key.as_str(), *from),
        WorldEvent::WatchRange { first, end, from } => {
            watched_range(alloc, cuts, first.as_str(), end.as_str(), *from)
        }
        _ => Ok(Sequence::new(alloc)),
    }
}

/// The words of a watcher.
fn watching(
    alloc: Global,
    cuts: &Cuts,
    watcher: u64,
    event: &WorldEvent,
) -> Result<Sequence<u8>, AllocError>
    ensures { IfOk result (λ words. words ≡ watch_words cuts.now watcher event.now) }
{
    let watched = watched(alloc, cuts, event)?;
    let pieces = [
        Piece::Say("watch "),
        Piece::Number(watcher),
        Piece::Raw(watched.as_slice()),
    ];
    said(alloc, &pieces)
}

/// What stands between a number of events and the revision up to which a poll gave them.
fn events_word(count: u64) -> &'static str
    ensures { result.now ≡ events_word count }
{
    if count == 1 {
        " event to @"
    } else {
        " events to @"
    }
}

/// The words of a poll.
fn batch(
    alloc: Global,
    cuts: &Cuts,
    watcher: u64,
    upto: u64,
    events: &[Event],
) -> Result<Sequence<u8>, AllocError>
    ensures { IfOk result (λ words. words ≡ batch_words cuts.now watcher upto events.now) }
{
    let count = events.len() as u64;
    let changes = changes_words(alloc, cuts, events)?;
    let pieces = [
        Piece::Say("poll "),
        Piece::Number(watcher),
        Piece::Say(": "),
        Piece::Number(count),
        Piece::Say(events_word(count)),
        Piece::Number(upto),
        Piece::Raw(changes.as_slice()),
    ];
    said(alloc, &pieces)
}

/// The words of a watcher that was lost.
fn lost(alloc: Global, watcher: u64, floor: u64) -> Result<Sequence<u8>, AllocError>
    ensures { IfOk result (λ words. words ≡ lost_words watcher floor) }
{
    let pieces = [
        Piece::Say("LOST watcher "),
        Piece::Number(watcher),
        Piece::Say(": kept from @"),
        Piece::Number(floor),
    ];
    said(alloc, &pieces)
}

/// The words of an event that was taken, before which the store was at a revision.
fn taken_words(
    alloc: Global,
    cuts: &Cuts,
    labels: &[RunnerLabel],
    keys: &Keys,
    before: u64,
    event: &WorldEvent,
    reply: &Reply,
) -> Result<Sequence<u8>, AllocError>
    ensures { IfOk result (λ words. words ≡ reply_words cuts.now labels.now keys.now.history before event.now reply.now) }
{
    match reply {
        Reply::Started { runner } => started(alloc, cuts.value, labels, *runner, event),
        Reply::Prefetched {
            revision,
            reads,
            ..
        } => listed(alloc, cuts, keys, *revision, reads.as_slice()),
        Reply::Fetched {
            key,
            mod_rev,
            of_rev,
            revision,
            ..
        } => fetched(
            alloc,
            cuts,
            keys,
            key.as_str(),
            *mod_rev,
            *of_rev,
            *revision,
        ),
        Reply::Committed {
            revision,
            attempts,
            ..
        } => committed(alloc, before, *revision, *attempts),
        Reply::Conflict { key, seen, now, .. } => {
            compared(alloc, cuts, keys, "CONFLICT", key.as_str(), *seen, *now)
        }
        Reply::GaveUp { key, seen, now, .. } => {
            compared(alloc, cuts, keys, "GAVE UP", key.as_str(), *seen, *now)
        }
        Reply::Aborted { text, .. } => reported(alloc, cuts.value, "ABORT", text.as_str()),
        Reply::Faulted { fault, .. } => reported(alloc, cuts.value, "FAULT", fault.name()),
        Reply::Ended { cause, .. } => reported(alloc, cuts.value, "ENDED", cause.name()),
        Reply::Txn {
            succeeded,
            revision,
            ..
        } => transacted(alloc, cuts.value, event, *succeeded, *revision),
        Reply::Revoked { id, revision } => revoked(alloc, *id, *revision),
        Reply::Advanced { now, expired } => advanced(alloc, *now, expired.as_slice()),
        Reply::Watching { watcher } => watching(alloc, cuts, *watcher, event),
        Reply::Batch {
            watcher,
            upto,
            events,
        } => batch(alloc, cuts, *watcher, *upto, events.as_slice()),
        Reply::Lost { watcher, floor } => lost(alloc, *watcher, *floor),
        // The others say no more than what was asked for.
        _ => asked_words(alloc, event),
    }
}

/// What stands behind an event that was refused: its cause.
fn refusal_words(alloc: Global, cause: EventRefusal) -> Result<Sequence<u8>, AllocError>
    ensures { IfOk result (λ words. words ≡ refusal_words cause) }
{
    said(alloc, &[Piece::Say(": "), Piece::Say(cause.name())])
}

/// The words of an event that was refused.
fn refused(
    alloc: Global,
    event: &WorldEvent,
    cause: EventRefusal,
) -> Result<Sequence<u8>, AllocError>
    ensures { IfOk result (λ words. words ≡ refused_words event.now cause) }
{
    let asked = asked_words(alloc, event)?;
    let cause = refusal_words(alloc, cause)?;
    let pieces = [
        Piece::Say("REFUSED "),
        Piece::Raw(asked.as_slice()),
        Piece::Raw(cause.as_slice()),
    ];
    said(alloc, &pieces)
}

/// The words of an event by its reply.
fn told_words(
    alloc: Global,
    cuts: &Cuts,
    labels: &[RunnerLabel],
    keys: &Keys,
    before: u64,
    event: &WorldEvent,
    reply: &Result<Reply, Denied>,
) -> Result<Sequence<u8>, AllocError>
    ensures { IfOk result (λ words. words ≡ told_words cuts.now labels.now keys.now.history before event.now reply.now) }
{
    match reply {
        Ok(reply) => taken_words(alloc, cuts, labels, keys, before, event, reply),
        Err(denied) => refused(alloc, event, denied.cause),
    }
}

/// What a row says of an event before which the store was at a revision: of its reply, what it changed, and what was emitted. The keys are those of the
/// store since. It fails where a growth was refused.
pub(crate) fn words_of(
    alloc: Global,
    cuts: &Cuts,
    labels: &[RunnerLabel],
    keys: &Keys,
    before: u64,
    event: &WorldEvent,
    reply: &Result<Reply, Denied>,
) -> Result<Sequence<u8>, AllocError>
    ensures { IfOk result (λ words. words ≡ words_of cuts.now labels.now keys.now.history before event.now reply.now) }
{
    let told = told_words(alloc, cuts, labels, keys, before, event, reply)?;
    let changed = changed_since(alloc, cuts, keys, before, counter_after(before, reply))?;
    let emitted = emitted_words(alloc, cuts.value, reply)?;
    let pieces = [
        Piece::Raw(told.as_slice()),
        Piece::Raw(changed.as_slice()),
        Piece::Raw(emitted.as_slice()),
    ];
    said(alloc, &pieces)
}
