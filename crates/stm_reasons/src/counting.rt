//! The store's revision before and after each event, as the replies tell it.
ghost use Rattle.std.specs.Prelude.{◌≡◌, get_or, IfOk};
ghost use Rattle.stm_reasons.specs.Counters.{last_expired, counter_after, counters};

use std::alloc::{AllocError, Global};
use stm_events::{Denied, Expired, Reply};

/// The revision after the last of these expiries, where it was this one before them.
fn last_expired(before: u64, expired: &[Expired]) -> u64
    ensures { result ≡ last_expired before expired.now }
{
    let mut last = before;
    for lease in expired {
        last = lease.revision;
    }
    last
}

/// The store's revision after an event, by its reply and the revision before it.
pub fn counter_after(before: u64, reply: &Result<Reply, Denied>) -> u64
    ensures { result ≡ counter_after before reply.now }
{
    match reply {
        Ok(Reply::Committed { revision, .. }) => *revision,
        Ok(Reply::Txn { revision, .. }) => *revision,
        Ok(Reply::Revoked { revision, .. }) => *revision,
        Ok(Reply::Advanced { expired, .. }) => last_expired(before, expired.as_slice()),
        Ok(_) => before,
        Err(denied) => last_expired(before, denied.expired.as_slice()),
    }
}

/// The store's revision before the first event, where it is this one, and after each event, by their replies. It fails where a growth was refused.
pub fn counters(
    alloc: Global,
    before: u64,
    replies: &[Result<Reply, Denied>],
) -> Result<Vec<u64>, AllocError>
    ensures { IfOk result (λ told. told.items ≡ counters before replies.now) }
{
    let mut counters = Vec::new(alloc);
    let mut counter = before;
    for reply in replies {
        counters.push(counter)?;
        counter = counter_after(counter, reply);
    }
    counters.push(counter)?;
    Ok(counters)
}

/// The revision after so many events, 0 where there are fewer.
pub fn counter_at(counters: &[u64], events: usize) -> u64
    ensures { result ≡ get_or counters.now events 0 }
{
    if events < counters.len() {
        counters[events]
    } else {
        0
    }
}
