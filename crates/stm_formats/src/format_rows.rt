//! The rows of a report.
ghost use Rattle.std.specs.Prelude.{◌≡◌, length, IfOk};
ghost use Rattle.stm_formats.specs.FormatRows.{reply_lane, refused_lane, lane_of, mark_of, row_of, rows_of};

use crate::format_keys::Cuts;
use crate::format_label::RunnerLabel;
use crate::format_row::{Lane, Mark, Row};
use crate::format_words::words_of;
use std::alloc::{AllocError, Global};
use stm_keys::Keys;
use stm_reasons::counter_after;
use stm_retry::{Denied, Reply, WorldEvent};

/// The column of an event that was taken.
fn reply_lane(reply: &Reply) -> Lane
    ensures { result ≡ reply_lane reply.now }
{
    match reply {
        Reply::Started { runner } => Lane::Runner(*runner),
        Reply::Prefetched { runner, .. } => Lane::Runner(*runner),
        Reply::Fetched { runner, .. } => Lane::Runner(*runner),
        Reply::Committed { runner, .. } => Lane::Runner(*runner),
        Reply::Conflict { runner, .. } => Lane::Runner(*runner),
        Reply::GaveUp { runner, .. } => Lane::Runner(*runner),
        Reply::Aborted { runner, .. } => Lane::Runner(*runner),
        Reply::Faulted { runner, .. } => Lane::Runner(*runner),
        Reply::Ended { runner, .. } => Lane::Runner(*runner),
        _ => Lane::Store,
    }
}

/// The column of an event that was refused.
fn refused_lane(event: &WorldEvent) -> Lane
    ensures { result ≡ refused_lane event.now }
{
    match event {
        WorldEvent::Step { runner } => Lane::Runner(*runner),
        _ => Lane::Store,
    }
}

/// The column of an event with its reply.
fn lane_of(event: &WorldEvent, reply: &Result<Reply, Denied>) -> Lane
    ensures { result ≡ lane_of event.now reply.now }
{
    match reply {
        Ok(reply) => reply_lane(reply),
        Err(_) => refused_lane(event),
    }
}

/// What came of an event.
fn mark_of(reply: &Result<Reply, Denied>) -> Mark
    ensures { result ≡ mark_of reply.now }
{
    match reply {
        Ok(Reply::Committed { .. }) => Mark::Committed,
        Ok(Reply::Conflict { .. }) => Mark::Failed,
        Ok(Reply::GaveUp { .. }) => Mark::Failed,
        Ok(Reply::Aborted { .. }) => Mark::Failed,
        Ok(Reply::Faulted { .. }) => Mark::Failed,
        Ok(Reply::Ended { .. }) => Mark::Failed,
        Ok(Reply::Lost { .. }) => Mark::Failed,
        Ok(_) => Mark::Plain,
        Err(_) => Mark::Failed,
    }
}

/// The row of an event before which the store was at a revision, with its reply.
fn row_of(
    alloc: Global,
    cuts: &Cuts,
    labels: &[RunnerLabel],
    keys: &Keys,
    before: u64,
    number: u64,
    event: &WorldEvent,
    reply: &Result<Reply, Denied>,
) -> Result<Row, AllocError>
    ensures { IfOk result (λ row. row ≡ row_of cuts.now labels.now keys.now.history before number event.now reply.now) }
{
    let words = words_of(alloc, cuts, labels, keys, before, event, reply)?;
    Ok(Row {
        number,
        lane: lane_of(event, reply),
        mark: mark_of(reply),
        words,
    })
}

/// The rows of events with their replies, one for each, numbered from 1, where the store was at this revision before them and has these keys since. It fails
/// where a growth was refused.
pub fn rows_of(
    alloc: Global,
    cuts: &Cuts,
    labels: &[RunnerLabel],
    keys: &Keys,
    opened: u64,
    events: &[WorldEvent],
    replies: &[Result<Reply, Denied>],
) -> Result<Vec<Row>, AllocError>
    requires { length events.now ≡ length replies.now }
    ensures { IfOk result (λ rows. rows.items ≡ rows_of cuts.now labels.now keys.now.history opened 1 events.now replies.now) }
{
    let mut rows = Vec::new(alloc);
    let mut counter = opened;
    for (before, reply) in replies.iter().enumerate() {
        let row = row_of(
            alloc,
            cuts,
            labels,
            keys,
            counter,
            before as u64 + 1,
            &events[before],
            reply,
        )?;
        rows.push(row)?;
        counter = counter_after(counter, reply);
    }
    Ok(rows)
}
