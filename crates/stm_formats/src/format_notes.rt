//! What comes after the rows of a report.
ghost use Rattle.std.specs.Prelude.{◌≡◌, ◌++◌, ◌-◌, [], ◌∷◌, true, map, length, slice_set, string_bytes, IfOk, OnOk};
ghost use Rattle.stm_history.specs.History.{key_now};
ghost use Rattle.stm_formats.specs.FormatNotes.{key_note, notes_of_key, key_notes, is_start, set_up, noted_above, left_out_note, left_out_notes, noted_keys_above, noted_keys, ended_by, ended_after, unfinished_notes};
ghost use Rattle.stm_formats.specs.FormatNotes.{end_note, notes_of};

use crate::format_changes::lease_words;
use crate::format_label::{RunnerLabel, runner_words};
use crate::format_pieces::{Piece, said};
use std::alloc::{AllocError, Global};
use stm_history::{KeyState, Sequence};
use stm_journal::present_keys;
use stm_reasons::counter_after;
use stm_retry::{Denied, Reply, Store, World};

/// So many keys that are present are all noted.
const MOST_KEY_NOTES: usize = 50;

/// The note of a key that is present.
fn key_note<'a>(
    alloc: Global,
    most: u32,
    key: &'a str,
    state: &'a KeyState,
) -> Result<Sequence<u8>, AllocError>
    ensures { IfOk result (λ note. note ≡ key_note most key.now state.now) }
{
    let lease = lease_words(alloc, state.lease)?;
    let pieces = [
        Piece::Say("key "),
        Piece::Key(key),
        Piece::Say(" = \""),
        Piece::Shown(most, state.value.as_str()),
        Piece::Say("\" @"),
        Piece::Number(state.mod_rev),
        Piece::Raw(lease.as_slice()),
    ];
    said(alloc, &pieces)
}

/// Adds the note of a key, if it is present and changed above a revision.
fn push_key(
    alloc: Global,
    most: u32,
    above: u64,
    notes: &mut Vec<Sequence<u8>>,
    store: &Store,
    key: &str,
) -> Result<(), AllocError>
    ensures { OnOk result (notes.new.items
        ≡ notes.old.items ++ notes_of_key most above key.now (key_now store.now.standing.history key.now)) }
{
    match store.keys().get(key) {
        None => Ok(()),
        Some(state) => {
            if state.mod_rev <= above {
                return Ok(());
            }
            notes.push(key_note(alloc, most, key, state)?)?;
            Ok(())
        }
    }
}

/// Adds a note for each of these keys that is present and changed above a revision.
fn push_keys(
    alloc: Global,
    most: u32,
    above: u64,
    notes: &mut Vec<Sequence<u8>>,
    store: &Store,
    keys: &[String],
) -> Result<(), AllocError>
    ensures { OnOk result (notes.new.items
        ≡ notes.old.items ++ key_notes most above store.now.standing.history (map string_bytes keys.now)) }
{
    for key in keys {
        push_key(alloc, most, above, notes, store, key.as_str())?;
    }
    Ok(())
}

/// Whether a reply says that a runner was started.
fn is_start(reply: &Result<Reply, Denied>) -> bool
    ensures { result ≡ is_start reply.now }
{
    matches!(reply, Ok(Reply::Started { .. }))
}

/// The store's revision at which the first runner was started, where it was at this one before the events; that one, where none was.
fn set_up(since: u64, replies: &[Result<Reply, Denied>]) -> u64
    ensures { result ≡ set_up since since replies.now }
{
    let mut counter = since;
    for reply in replies {
        if is_start(reply) {
            return counter;
        }
        counter = counter_after(counter, reply);
    }
    since
}

/// Above which revision keys have to have changed, to be noted where so many are present.
fn noted_above(count: usize, since: u64, replies: &[Result<Reply, Denied>]) -> u64
    ensures { result ≡ noted_above count since replies.now }
{
    if count <= MOST_KEY_NOTES {
        0
    } else {
        set_up(since, replies)
    }
}

/// The note of so many keys that are left out.
fn left_out_note(alloc: Global, above: u64, count: u64) -> Result<Sequence<u8>, AllocError>
    ensures { IfOk result (λ note. note ≡ left_out_note above count) }
{
    let pieces = [
        Piece::Say("keys left out, unchanged since @"),
        Piece::Number(above),
        Piece::Say(": "),
        Piece::Number(count),
        Piece::Say(" (script --format lines has all)"),
    ];
    said(alloc, &pieces)
}

/// Adds the note of keys that are left out, if there are any.
fn push_left_out(
    alloc: Global,
    notes: &mut Vec<Sequence<u8>>,
    above: u64,
    count: u64,
) -> Result<(), AllocError>
    ensures { OnOk result (notes.new.items ≡ notes.old.items ++ left_out_notes above count) }
{
    if count == 0 {
        return Ok(());
    }
    notes.push(left_out_note(alloc, above, count)?)?;
    Ok(())
}

/// A note for each of these keys that is present and changed above a revision, and how many others there are.
fn noted_keys_above(
    alloc: Global,
    most: u32,
    above: u64,
    store: &Store,
    keys: &[String],
) -> Result<Vec<Sequence<u8>>, AllocError>
    ensures { IfOk result (λ notes. notes.items ≡ noted_keys_above most above store.now.standing.history (map string_bytes keys.now)) }
{
    let mut notes = Vec::new(alloc);
    push_keys(alloc, most, above, &mut notes, store, keys)?;
    let left = keys.len().saturating_sub(notes.len());
    push_left_out(alloc, &mut notes, above, left as u64)?;
    Ok(notes)
}

/// The notes of keys that are present after these replies, before which the store was at a revision.
#[tactic(auto, unfolding(crate::specs::FormatNotes::noted_keys))]
fn noted_keys(
    alloc: Global,
    most: u32,
    since: u64,
    replies: &[Result<Reply, Denied>],
    store: &Store,
    keys: &[String],
) -> Result<Vec<Sequence<u8>>, AllocError>
    ensures { IfOk result (λ notes. notes.items
        ≡ noted_keys most since replies.now store.now.standing.history (map string_bytes keys.now)) }
{
    let above = noted_above(keys.len(), since, replies);
    noted_keys_above(alloc, most, above, store, keys)
}

/// Notes that a runner's run has ended.
fn end_run(ended: &mut Vec<bool>, runner: u64)
    ensures { ended.new.items ≡ slice_set ended.old.items (runner - 1) true }
{
    let place = runner.saturating_sub(1) as usize;
    if place < ended.len() {
        ended[place] = true;
    }
}

/// Takes a reply in: a runner more, or one whose run has ended.
fn take_reply(ended: &mut Vec<bool>, reply: &Reply) -> Result<(), AllocError>
    ensures { OnOk result (ended.new.items ≡ ended_by ended.old.items reply.now) }
{
    match reply {
        Reply::Started { .. } => ended.push(false)?,
        Reply::Committed { runner, .. } => end_run(ended, *runner),
        Reply::GaveUp { runner, .. } => end_run(ended, *runner),
        Reply::Aborted { runner, .. } => end_run(ended, *runner),
        Reply::Faulted { runner, .. } => end_run(ended, *runner),
        Reply::Ended { runner, .. } => end_run(ended, *runner),
        _ => {}
    }
    Ok(())
}

/// For each runner whether its run has ended, runner 1 first.
fn ended_after(alloc: Global, replies: &[Result<Reply, Denied>]) -> Result<Vec<bool>, AllocError>
    ensures { IfOk result (λ ended. ended.items ≡ ended_after [] replies.now) }
{
    let mut ended = Vec::new(alloc);
    for reply in replies {
        if let Ok(reply) = reply {
            take_reply(&mut ended, reply)?;
        }
    }
    Ok(ended)
}

/// Adds the note of a runner, if its run has not ended.
fn push_runner(
    alloc: Global,
    labels: &[RunnerLabel],
    notes: &mut Vec<Sequence<u8>>,
    runner: u64,
    ended: bool,
) -> Result<(), AllocError>
    ensures { OnOk result (notes.new.items ≡ notes.old.items ++ unfinished_notes labels.now runner (ended ∷ [])) }
{
    if ended {
        return Ok(());
    }
    let words = runner_words(alloc, labels, runner)?;
    let pieces = [Piece::Say("unfinished: "), Piece::Raw(words.as_slice())];
    notes.push(said(alloc, &pieces)?)?;
    Ok(())
}

/// Adds a note for each runner whose run has not ended.
fn push_unfinished(
    alloc: Global,
    labels: &[RunnerLabel],
    notes: &mut Vec<Sequence<u8>>,
    ended: &[bool],
) -> Result<(), AllocError>
    ensures { OnOk result (notes.new.items ≡ notes.old.items ++ unfinished_notes labels.now 1 ended.now) }
{
    for (before, ended) in ended.iter().enumerate() {
        push_runner(alloc, labels, notes, before as u64 + 1, *ended)?;
    }
    Ok(())
}

/// The note of the end: the store's revision, and the number of entries.
fn end_note(alloc: Global, revision: u64, entries: u64) -> Result<Sequence<u8>, AllocError>
    ensures { IfOk result (λ note. note ≡ end_note revision entries) }
{
    let pieces = [
        Piece::Say("revision "),
        Piece::Number(revision),
        Piece::Say(", entries "),
        Piece::Number(entries),
    ];
    said(alloc, &pieces)
}

/// What comes after the rows of a world's replies, before which its store was at a revision: a note for each key that is present, ascending by bytes (of many,
/// for those that changed since a runner was started), the store's revision and the number of entries, and a note for each runner whose run has not ended. It
/// fails where a growth was refused.
pub(crate) fn notes_of(
    alloc: Global,
    most: u32,
    labels: &[RunnerLabel],
    world: &World,
    since: u64,
    replies: &[Result<Reply, Denied>],
) -> Result<Vec<Sequence<u8>>, AllocError>
    ensures { IfOk result (λ notes. notes.items ≡ notes_of most labels.now world.now since replies.now) }
{
    let present = present_keys(alloc, world.store().keys())?;
    let ended = ended_after(alloc, replies)?;
    let mut notes = noted_keys(
        alloc,
        most,
        since,
        replies,
        world.store(),
        present.as_slice(),
    )?;
    let revision = world.store().keys().revision();
    notes.push(end_note(alloc, revision, world.history().len() as u64)?)?;
    push_unfinished(alloc, labels, &mut notes, ended.as_slice())?;
    Ok(notes)
}
