//! When a runner saw a key last.
ghost use Rattle.std.specs.Prelude.{◌≡◌, ◌≤◌, ◌&&◌, length, nat_eq, if◌then◌else◌};
ghost use Rattle.stm_reasons.specs.declared.looks.Glance.TheVariants.{Read, Begun, Other};
ghost use Rattle.stm_reasons.specs.Looks.{is_listed, glanced, last_look};

use crate::counting::counter_at;
use stm_events::{Denied, KeyRead, Reply};
use stm_history::Sequence;

/// What a reply is to a runner that reads a key.
#[derive(Clone, Copy, Debug, PartialEq, Eq)]
pub enum Glance {
    /// It read the key, as of this revision.
    Read(u64),
    /// An attempt of it begins.
    Begun,
    /// Neither.
    Other,
}

/// When a runner saw a key.
#[derive(Clone, Copy, Debug, PartialEq, Eq)]
pub struct Look {
    /// The number of the event at which its attempt read the key, where it did.
    pub event: Option<u64>,
    /// The revision as of which it saw the store then.
    pub revision: u64,
}

/// Whether a key is among these.
#[tactic(auto, unfolding(crate::specs::Looks::is_listed))]
fn is_among(key: &str, reads: &[KeyRead]) -> bool
    ensures { result ≡ is_listed key.now reads.now }
{
    reads.iter().any(|read| read.key.as_str() == key)
}

/// Whether a list with a key was read for a runner.
fn is_listed_read(runner: u64, key: &str, reader: u64, reads: &[KeyRead]) -> bool
    ensures { result ≡ (nat_eq reader runner && is_listed key.now reads.now) }
{
    reader == runner && is_among(key, reads)
}

/// A read as of a revision, or none.
fn read_if(is_read: bool, revision: u64) -> Glance
    ensures { result ≡ (if is_read then Read revision else Other) }
{
    if is_read {
        Glance::Read(revision)
    } else {
        Glance::Other
    }
}

/// What the read of a list is to a runner that reads a key.
fn glanced_list(
    runner: u64,
    key: &str,
    reader: u64,
    revision: u64,
    reads: &Sequence<KeyRead>,
) -> Glance
    ensures { result ≡ (if nat_eq reader runner && is_listed key.now reads.now then Read revision else Other) }
{
    read_if(
        is_listed_read(runner, key, reader, reads.as_slice()),
        revision,
    )
}

/// An attempt begins, or does not.
fn begun_if(is_begun: bool) -> Glance
    ensures { result ≡ (if is_begun then Begun else Other) }
{
    if is_begun {
        Glance::Begun
    } else {
        Glance::Other
    }
}

/// What a reply is to a runner that reads a key.
fn glanced(runner: u64, key: &str, reply: &Result<Reply, Denied>) -> Glance
    ensures { result ≡ glanced runner key.now reply.now }
{
    match reply {
        Ok(
            Reply::Fetched {
                runner: reader,
                key: name,
                of_rev,
                ..
            },
        ) => read_if(*reader == runner && name.as_str() == key, *of_rev),
        Ok(
            Reply::Prefetched {
                runner: reader,
                revision,
                reads,
            },
        ) => glanced_list(runner, key, *reader, *revision, reads),
        Ok(Reply::Conflict { runner: loser, .. }) => begun_if(*loser == runner),
        Ok(Reply::Started { runner: begun }) => begun_if(*begun == runner),
        _ => Glance::Other,
    }
}

/// The last look of a runner at a key among so many of these events, with the store's revision after each. It goes back from the last of them to where
/// the attempt began, and takes no memory.
pub(crate) fn last_look(
    runner: u64,
    key: &str,
    counters: &[u64],
    replies: &[Result<Reply, Denied>],
    events: usize,
) -> Look
    requires { events ≤ length replies.now }
    ensures { result ≡ last_look runner key.now counters.now replies.now events }
{
    let mut left = events;
    while left > 0 {
        let before = left - 1;
        let counter = counter_at(counters, left);
        match glanced(runner, key, &replies[before]) {
            Glance::Read(revision) => {
                return Look {
                    event: Some(left as u64),
                    revision,
                };
            }
            Glance::Begun => {
                return Look {
                    event: None,
                    revision: counter,
                };
            }
            Glance::Other => left = before,
        }
    }
    Look {
        event: None,
        revision: 0,
    }
}
