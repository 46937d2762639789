//! The text, the picture and the page of a run.
ghost use Rattle.std.specs.Prelude.{◌≡◌, length, IfOk};
ghost use Rattle.stm_formats.specs.FormatRuns.{rows_from, left_from, notes_from, most_shown, most_of_key, text_from, svg_from, html_from};

use crate::format_ends::push_ends;
use crate::format_html::html_of;
use crate::format_keys::{cuts_of, whole_keys};
use crate::format_label::RunnerLabel;
use crate::format_notes::notes_of;
use crate::format_pieces::MOST_SHOWN;
use crate::format_reasons::push_reasons;
use crate::format_row::Row;
use crate::format_rows::rows_of;
use crate::format_svg::svg_of;
use crate::format_text::text_of;
use std::alloc::{AllocError, Global};
use stm_history::Sequence;
use stm_keys::Keys;
use stm_reasons::{counters, reasons_of};
use stm_retry::{Denied, Reply, World, WorldEvent};

/// So many bytes of a key are shown in a row, where no width says otherwise.
const MOST_OF_KEY: u32 = 64;

/// So many bytes of a value are shown at least, however narrow a text is.
const LEAST_SHOWN: u32 = 16;

/// How many bytes of a value a text of this width shows at most.
fn most_shown(width: Option<u32>) -> u32
    ensures { result ≡ most_shown width }
{
    match width {
        None => MOST_SHOWN,
        Some(width) => (width / 3).max(LEAST_SHOWN),
    }
}

/// How many bytes of a key the rows show for a width.
fn most_of_key(width: Option<u32>) -> u32
    ensures { result ≡ most_of_key width }
{
    match width {
        None => MOST_OF_KEY,
        Some(_) => most_shown(width),
    }
}

/// The rows for a width of events that led to these keys from a revision.
fn rows_from(
    alloc: Global,
    width: Option<u32>,
    labels: &[RunnerLabel],
    keys: &Keys,
    since: u64,
    events: &[WorldEvent],
    replies: &[Result<Reply, Denied>],
) -> Result<Vec<Row>, AllocError>
    requires { length events.now ≡ length replies.now }
    ensures { IfOk result (λ rows. rows.items ≡ rows_from width labels.now keys.now.history since events.now replies.now) }
{
    let cuts = cuts_of(
        alloc,
        most_shown(width),
        most_of_key(width),
        keys,
        since,
        replies,
    )?;
    rows_of(alloc, &cuts, labels, keys, since, events, replies)
}

/// What is left after events that led to a world, and on what values, as keys show them, runs aborted or came to faults.
fn left_from(
    alloc: Global,
    most: u32,
    labels: &[RunnerLabel],
    keys: &Keys,
    world: &World,
    since: u64,
    replies: &[Result<Reply, Denied>],
) -> Result<Vec<Sequence<u8>>, AllocError>
    ensures { IfOk result (λ notes. notes.items ≡ left_from most labels.now keys.now.history world.now since replies.now) }
{
    let mut notes = notes_of(alloc, most, labels, world, since, replies)?;
    let cuts = whole_keys(alloc, most);
    push_ends(alloc, &cuts, labels, &mut notes, keys, replies)?;
    Ok(notes)
}

/// The same after events that led to a world from a revision of its store, and why commits failed.
fn notes_from(
    alloc: Global,
    most: u32,
    labels: &[RunnerLabel],
    keys: &Keys,
    world: &World,
    since: u64,
    replies: &[Result<Reply, Denied>],
) -> Result<Vec<Sequence<u8>>, AllocError>
    ensures { IfOk result (λ notes. notes.items ≡ notes_from most labels.now keys.now.history world.now since replies.now) }
{
    let mut notes = left_from(alloc, most, labels, keys, world, since, replies)?;
    let reasons = reasons_of(alloc, keys, since, replies)?;
    push_reasons(alloc, labels, &mut notes, reasons.as_slice())?;
    Ok(notes)
}

/// The text of the events that led to a world from one whose store was at this revision, and of their replies, with runners of these labels; for a
/// terminal of this width, if one is given. What revisions changed is what these keys show, which may have some that the world's store has dropped.
///
/// There is a reply to each event. It fails where a growth was refused.
pub fn text_from(
    alloc: Global,
    width: Option<u32>,
    labels: &[RunnerLabel],
    keys: &Keys,
    world: &World,
    since: u64,
    events: &[WorldEvent],
    replies: &[Result<Reply, Denied>],
) -> Result<Vec<u8>, AllocError>
    requires { length events.now ≡ length replies.now }
    ensures { IfOk result (λ text. text.items ≡ text_from width labels.now keys.now.history world.now since events.now replies.now) }
{
    let rows = rows_from(alloc, width, labels, keys, since, events, replies)?;
    let notes = notes_from(
        alloc,
        most_shown(width),
        labels,
        keys,
        world,
        since,
        replies,
    )?;
    text_of(alloc, width, labels, rows.as_slice(), notes.as_slice())
}

/// The picture of the events that led to a world from one whose store was at this revision, and of their replies, with runners of these labels. What
/// revisions changed is what these keys show, as for `text_from`.
///
/// There is a reply to each event. It fails where a growth was refused.
pub fn svg_from(
    alloc: Global,
    labels: &[RunnerLabel],
    keys: &Keys,
    world: &World,
    since: u64,
    events: &[WorldEvent],
    replies: &[Result<Reply, Denied>],
) -> Result<Vec<u8>, AllocError>
    requires { length events.now ≡ length replies.now }
    ensures { IfOk result (λ svg. svg.items ≡ svg_from labels.now keys.now.history world.now since events.now replies.now) }
{
    let rows = rows_from(alloc, None, labels, keys, since, events, replies)?;
    let notes = notes_from(alloc, MOST_SHOWN, labels, keys, world, since, replies)?;
    svg_of(alloc, labels, rows.as_slice(), notes.as_slice())
}

/// The page of the events that led to a world from one whose store was at this revision, and of their replies, with runners of these labels. What
/// revisions changed is what these keys show, as for `text_from`.
///
/// There is a reply to each event. It fails where a growth was refused.
pub fn html_from(
    alloc: Global,
    labels: &[RunnerLabel],
    keys: &Keys,
    world: &World,
    since: u64,
    events: &[WorldEvent],
    replies: &[Result<Reply, Denied>],
) -> Result<Vec<u8>, AllocError>
    requires { length events.now ≡ length replies.now }
    ensures { IfOk result (λ html. html.items ≡ html_from labels.now keys.now.history world.now since events.now replies.now) }
{
    let rows = rows_from(alloc, None, labels, keys, since, events, replies)?;
    let notes = left_from(alloc, MOST_SHOWN, labels, keys, world, since, replies)?;
    let counters = counters(alloc, since, replies)?;
    let reasons = reasons_of(alloc, keys, since, replies)?;
    html_of(
        alloc,
        labels,
        keys,
        counters.as_slice(),
        rows.as_slice(),
        notes.as_slice(),
        reasons.as_slice(),
    )
}
