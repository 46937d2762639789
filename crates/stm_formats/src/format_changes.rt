//! What a key is, and what a revision changed, as words.
ghost use Rattle.std.specs.Prelude.{◌≡◌, ◌++◌, [], nat_eq, codes, if◌then◌else◌, option_copied, IfOk, OnOk};
ghost use Rattle.stm_formats.specs.FormatChanges.{state_words, known_words, lease_words, change_words, between, counted_change, changes_after, revision_words, changed_since};

use crate::format_keys::{Cuts, key_words};
use crate::format_pieces::{Piece, push_pieces, said};
use std::alloc::{AllocError, Global};
use stm_events::Event;
use stm_history::{KeyState, Sequence};
use stm_keys::Keys;
use stm_reasons::state_by;

/// So many changes of a revision, keys of a list, or leases that ended are shown.
pub(crate) const MOST_CHANGES: u64 = 3;

/// The words of a key that was looked up.
fn state_words(
    alloc: Global,
    most: u32,
    found: Option<&KeyState>,
) -> Result<Sequence<u8>, AllocError>
    ensures { IfOk result (λ words. words ≡ state_words most (option_copied found.entry)) }
{
    match found {
        None => said(alloc, &[Piece::Say("absent")]),
        Some(state) => {
            let pieces = [
                Piece::Say("\""),
                Piece::Shown(most, state.value.as_str()),
                Piece::Say("\" @"),
                Piece::Number(state.mod_rev),
            ];
            said(alloc, &pieces)
        }
    }
}

/// The words of a key that was seen as of a revision, at a modification revision: 0 where it was absent.
pub(crate) fn known_words(
    alloc: Global,
    most: u32,
    keys: &Keys,
    key: &str,
    mod_rev: u64,
    revision: u64,
) -> Result<Sequence<u8>, AllocError>
    ensures { IfOk result (λ words. words ≡ known_words most keys.now.history key.now mod_rev revision) }
{
    if mod_rev == 0 {
        return said(alloc, &[Piece::Say("absent")]);
    }
    if revision < keys.below() {
        return said(alloc, &[Piece::Say("@"), Piece::Number(mod_rev)]);
    }
    state_words(alloc, most, state_by(keys, key, revision))
}

/// The words for the lease that a key is on, where it is on one.
pub(crate) fn lease_words(alloc: Global, lease: u64) -> Result<Sequence<u8>, AllocError>
    ensures { IfOk result (λ words. words ≡ lease_words lease) }
{
    if lease == 0 {
        return Ok(Sequence::new(alloc));
    }
    said(alloc, &[Piece::Say(" on lease "), Piece::Number(lease)])
}

/// The words of a change.
fn change_words(alloc: Global, cuts: &Cuts, event: &Event) -> Result<Sequence<u8>, AllocError>
    ensures { IfOk result (λ words. words ≡ change_words cuts.now event.now) }
{
    match event {
        Event::Put { key, state } => {
            let mut words = key_words(alloc, cuts, key.as_str())?.into_vec();
            let lease = lease_words(alloc, state.lease)?;
            let pieces = [
                Piece::Say(" = \""),
                Piece::Shown(cuts.value, state.value.as_str()),
                Piece::Say("\""),
                Piece::Raw(lease.as_slice()),
            ];
            push_pieces(&mut words, &pieces)?;
            Ok(Sequence::of(words))
        }
        Event::Delete { key, .. } => {
            let key = key_words(alloc, cuts, key.as_str())?;
            said(alloc, &[Piece::Raw(key.as_slice()), Piece::Say(" deleted")])
        }
    }
}

/// What stands before a change after so many.
pub(crate) fn between(count: u64) -> &'static str
    ensures { result.now ≡ between count }
{
    if count == 0 { "  " } else { ", " }
}

/// Adds a change after so many.
fn push_change(
    alloc: Global,
    cuts: &Cuts,
    out: &mut Vec<u8>,
    count: u64,
    event: &Event,
) -> Result<(), AllocError>
    ensures { OnOk result (out.new.items ≡ out.old.items ++ counted_change cuts.now count event.now) }
{
    if count < MOST_CHANGES {
        let words = change_words(alloc, cuts, event)?;
        return push_pieces(
            out,
            &[Piece::Say(between(count)), Piece::Raw(words.as_slice())],
        );
    }
    if count == MOST_CHANGES {
        return out.extend_from_slice(b", ..");
    }
    Ok(())
}

/// The words of the changes that these events show.
pub(crate) fn changes_words(
    alloc: Global,
    cuts: &Cuts,
    events: &[Event],
) -> Result<Vec<u8>, AllocError>
    ensures { IfOk result (λ words. words.items ≡ changes_after cuts.now 0 events.now) }
{
    let mut out = Vec::new(alloc);
    for (count, event) in events.iter().enumerate() {
        push_change(alloc, cuts, &mut out, count as u64, event)?;
    }
    Ok(out)
}

/// The words of what a revision changed.
fn revision_words(
    alloc: Global,
    cuts: &Cuts,
    keys: &Keys,
    revision: u64,
) -> Result<Vec<u8>, AllocError>
    ensures { IfOk result (λ words. words.items ≡ revision_words cuts.now keys.now.history revision) }
{
    if revision > keys.revision() {
        return Ok(Vec::new(alloc));
    }
    if revision <= keys.below() {
        return Ok(said(alloc, &[Piece::Say("  (compacted)")])?.into_vec());
    }
    changes_words(alloc, cuts, keys.events_at(revision))
}

/// That there are more revisions after one, up to another.
fn more_after(shown: u64, after: u64) -> &'static str
    ensures { result.now ≡ (if nat_eq after shown then [] else codes "  ..") }
{
    if after == shown { "" } else { "  .." }
}

/// The words of what the revisions above one and up to another changed.
pub(crate) fn changed_since(
    alloc: Global,
    cuts: &Cuts,
    keys: &Keys,
    before: u64,
    after: u64,
) -> Result<Vec<u8>, AllocError>
    ensures { IfOk result (λ words. words.items ≡ changed_since cuts.now keys.now.history before after) }
{
    if after <= before {
        return Ok(Vec::new(alloc));
    }
    let first = revision_words(alloc, cuts, keys, before + 1)?;
    if after == before + 1 {
        return Ok(first);
    }
    let second = revision_words(alloc, cuts, keys, before + 2)?;
    let pieces = [
        Piece::Raw(first.as_slice()),
        Piece::Raw(second.as_slice()),
        Piece::Say(more_after(before + 2, after)),
    ];
    Ok(said(alloc, &pieces)?.into_vec())
}
